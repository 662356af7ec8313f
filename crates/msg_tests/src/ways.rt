//! Lists of changes and their ways back, drawn at random.

ghost use Rattle.std.specs.Prelude.{◌<◌};

use crate::same::same;
use msg_names::{ClassRef, ImpRef, Selector};
use msg_tables::{Change, ChangeFault, Limits, MethodList, Origin, Tables, Written};
use std::alloc::Global;
use std::marker::Model;
use std::process::Abort;

const CLASSES: u32 = 7;

// Tables of this number of class numbers.
#[derive(Drop)]
struct Seven {
    tables: Tables,
}

impl Model for Seven {
    ghost use Rattle.std.specs.Prelude.{◌≡◌, length};
    ghost use Rattle.msg_tables.specs.View.{TablesView};

    ghost Value = { TablesView };

    ghost view = { λ seven. seven.tables };

    ghost invariant = { λ seven. length seven.tables.supers ≡ 7 };
}

fn sel(rt: &impl Abort, number: u32) -> Selector {
    Selector::of(number).expect(rt, "a number above 0")
}

// A number below another, or 0 if that is 0.
fn draw(state: &mut u64, below: u32) -> u32
    ensures { 0 < below → result < below }
{
    let next = state.wrapping_mul(6_364_136_223_846_793_005);
    *state = next.wrapping_add(1_442_695_040_888_963_407);
    if below == 0 {
        return 0;
    }
    u32::try_from(*state >> 33).unwrap_or(0) % below
}

fn methods(rt: &impl Abort, alloc: Global, state: &mut u64, below: u32) -> MethodList {
    let mut pairs = Vec::new(alloc);
    for _ in 0..draw(state, below) {
        let pair = (sel(rt, 1 + draw(state, 4)), ImpRef::of(1 + draw(state, 9)));
        pairs.push(pair).expect(rt, "memory");
    }
    MethodList::new(pairs)
}

fn class_ref(state: &mut u64) -> ClassRef {
    ClassRef {
        class: draw(state, CLASSES),
        meta: draw(state, 3) == 0,
    }
}

fn drawn(rt: &impl Abort, alloc: Global, state: &mut u64) -> Change {
    let class = class_ref(state);
    let named = sel(rt, 1 + draw(state, 4));
    let imp = ImpRef::of(1 + draw(state, 9));
    match draw(state, 10) {
        0 => Change::Add {
            class,
            sel: named,
            imp,
        },
        1 => Change::Replace {
            class,
            sel: named,
            imp,
        },
        2 => Change::SetImp {
            class,
            sel: named,
            imp,
        },
        3 => Change::Exchange {
            class,
            sel: named,
            other: class_ref(state),
            other_sel: sel(rt, 1 + draw(state, 4)),
        },
        4 => Change::Attach {
            class: class.class,
            methods: methods(rt, alloc, state, 5),
            class_methods: methods(rt, alloc, state, 4),
        },
        5 | 6 => Change::AddClass {
            class: class.class,
            superclass: if draw(state, 4) == 0 {
                None
            } else {
                Some(draw(state, CLASSES))
            },
        },
        7 | 8 => Change::Remove { class, sel: named },
        _ => Change::DisposeClass { class: class.class },
    }
}

// What a class reference finds for each selector, and its superclass.
fn found_at(rt: &impl Abort, seven: &Seven, class: ClassRef, found: &mut Vec<u32>)
    requires { class.class < 7 }
{
    for named in 1..5_u32 {
        let imp = seven.tables.lookup(class, sel(rt, named));
        found.push(imp.number()).expect(rt, "memory");
    }
    let above = seven.tables.superclass(class);
    let above_class = above.map(|above| above.class).unwrap_or(CLASSES);
    found.push(above_class).expect(rt, "memory");
    let above_meta = above.map(|above| above.meta).unwrap_or(false);
    found.push(u32::from(above_meta)).expect(rt, "memory");
}

// Each lookup, and each superclass.
fn found(rt: &impl Abort, alloc: Global, seven: &Seven) -> Vec<u32> {
    let mut found = Vec::new(alloc);
    for class in 0..CLASSES {
        found_at(rt, seven, ClassRef { class, meta: false }, &mut found);
        found_at(rt, seven, ClassRef { class, meta: true }, &mut found);
    }
    found
}

// Tables without classes.
fn opened(rt: &impl Abort, alloc: Global) -> Box<Seven> {
    let limits = Limits {
        rows: 60,
        changes: 1_000_000,
        senders: 1,
        words: 100,
    };
    let origin = Origin::new(Vec::new(alloc), CLASSES, Vec::new(alloc), None, limits);
    let tables = Tables::open(alloc, &origin).expect(rt, "memory");
    Box::new(alloc, Seven { tables }).expect(rt, "memory")
}

// A list is drawn and made, its way back, and the way back of that; or it is refused. Says whether
// it was made.
fn goes_both_ways(rt: &impl Abort, alloc: Global, state: &mut u64, seven: &mut Seven) -> bool {
    let mut list = Vec::new(alloc);
    for _ in 0..1 + draw(state, 3) {
        list.push(drawn(rt, alloc, state)).expect(rt, "memory");
    }
    let before = found(rt, alloc, seven);
    let mut written = Written::none(alloc);
    if let Err(refused) = seven.tables.apply_all(&list.as_slice(), &mut written) {
        assert!(rt; refused.fault != ChangeFault::Memory);
        assert!(rt; found(rt, alloc, seven) == before);
        return false;
    }
    if draw(state, 3) == 0 {
        return true;
    }
    let after = found(rt, alloc, seven);
    let mut back = Written::none(alloc);
    let outcome = seven.tables.apply_all(&written.way_back(), &mut back);
    same(rt, outcome, Ok(()));
    same(rt, back.as_slice().len(), written.as_slice().len());
    assert!(rt; found(rt, alloc, seven) == before);
    let outcome = seven.tables.apply_all(&back.way_back(), &mut written);
    same(rt, outcome, Ok(()));
    assert!(rt; found(rt, alloc, seven) == after);
    true
}

#[test]
fn each_list_has_a_way_back(rt: HostRuntime) {
    let mut state = 7_u64;
    let mut made = 0_u32;
    let mut refused = 0_u32;
    for _ in 0..60 {
        let mut seven = opened(&rt, rt.alloc());
        for _ in 0..60 {
            if goes_both_ways(&rt, rt.alloc(), &mut state, &mut seven) {
                made = made.wrapping_add(1);
            } else {
                refused = refused.wrapping_add(1);
            }
        }
    }
    assert!(&rt; made > 100);
    assert!(&rt; refused > 300);
}
