//! What changes would affect, found without making them.

ghost use Rattle.std.specs.Prelude.{◌≡◌, length};
ghost use Rattle.msg_image.specs.Opened.{origin_of};
ghost use Rattle.msg_tables.specs.Log.{empty};
ghost use Rattle.msg_tables.specs.Origin.{class_total};
ghost use Rattle.msg_tables.specs.Stands.{StandsAt};

use crate::same::same;
use msg_image::{Change, Image, MethodList, read_document};
use msg_names::{ClassRef, ImpRef, Selector};
use msg_samples::IMAGE;
use msg_tables::{ChangeFault, Refused, Tables, Written};
use std::alloc::Global;
use std::process::Abort;

// `Child` and `Side` are below `Root`, `Grand` below `Child`, and `Proxy` by itself.
const ROOT: ClassRef = ClassRef {
    class: 0,
    meta: false,
};

const CHILD: ClassRef = ClassRef {
    class: 1,
    meta: false,
};

const GRAND: ClassRef = ClassRef {
    class: 2,
    meta: false,
};

const SIDE: u32 = 3;

fn image(rt: &impl Abort, alloc: Global) -> Box<Image> {
    let document = read_document(alloc, IMAGE.as_bytes()).expect(rt, "a document");
    Box::new(alloc, document.image).expect(rt, "memory")
}

fn opened(rt: &impl Abort, alloc: Global, image: &Image) -> Box<Tables>
    ensures stands { StandsAt result.value (empty (origin_of image.now)) }
    ensures classes { length result.value.supers ≡ class_total (origin_of image.now) }
{
    let tables = Tables::open(alloc, image).expect(rt, "memory");
    Box::new(alloc, tables).expect(rt, "memory")
}

fn selector(rt: &impl Abort, number: u32) -> Selector {
    Selector::of(number).expect(rt, "a number above 0")
}

// What a list of changes would reach in the tables of an image: the answer, and how many class
// references are marked.
fn asked(
    rt: &impl Abort,
    alloc: Global,
    image: &Image,
    changes: &[Change],
) -> (Result<(), Refused>, usize) {
    let mut tables = opened(rt, alloc, image);
    let places = 2 * image.class_count() as usize;
    let mut marked = vec![in alloc; false; places].expect(rt, "memory");
    let mut written = Written::none(alloc);
    let answer = tables.reach_all(&changes, &mut written, &mut marked);
    (answer, marked.iter().filter(|mark| **mark).count())
}

// The changes would be made, and alter lookups of this number of class references at most.
fn reaches(rt: &impl Abort, alloc: Global, image: &Image, changes: &[Change], count: usize) {
    same(rt, asked(rt, alloc, image, changes), (Ok(()), count));
}

fn added(class: ClassRef, sel: Selector) -> Change {
    Change::Add {
        class,
        sel,
        imp: ImpRef::of(1),
    }
}

fn set(class: ClassRef, sel: Selector) -> Change {
    Change::SetImp {
        class,
        sel,
        imp: ImpRef::of(2),
    }
}

// A method reaches its class and what is below; a root class's also the metaclasses, which are
// below it. `Root` has `value` and `name`, and `Child` the second.
fn methods_reach_what_is_below(rt: &impl Abort, alloc: Global, image: &Image) {
    let (value, name) = (selector(rt, 2), selector(rt, 3));
    reaches(rt, alloc, image, &[added(CHILD, value)], 2);
    let replaced = Change::Replace {
        class: ROOT,
        sel: value,
        imp: ImpRef::of(2),
    };
    reaches(rt, alloc, image, &[replaced], 8);
    // it is at `Child`
    reaches(rt, alloc, image, &[set(GRAND, name)], 2);
    // one is at `Root`, the other at `Child`
    let exchange = Change::Exchange {
        class: GRAND,
        sel: value,
        other: GRAND,
        other_sel: name,
    };
    reaches(rt, alloc, image, &[exchange], 8);
}

// A category reaches the class and the metaclass for which it has methods.
fn categories_reach_where_they_have_methods(rt: &impl Abort, alloc: Global, image: &Image) {
    let mut pairs = Vec::new(alloc);
    pairs
        .push((selector(rt, 2), ImpRef::of(1)))
        .expect(rt, "memory");
    let attached = Change::Attach {
        class: SIDE,
        methods: MethodList::new(Vec::new(alloc)),
        class_methods: MethodList::new(pairs),
    };
    reaches(rt, alloc, image, &[attached], 1);
}

#[test]
fn a_change_reaches_what_it_may_alter(rt: HostRuntime) {
    let image = image(&rt, rt.alloc());
    methods_reach_what_is_below(&rt, rt.alloc(), &image);
    categories_reach_where_they_have_methods(&rt, rt.alloc(), &image);
}

// Each change of a list reaches what it would where those before it were made: `value` is then
// found at `Child`. Before one that would be refused, what those before it reach is marked.
#[test]
fn a_list_reaches_what_its_changes_may_alter(rt: HostRuntime) {
    let image = image(&rt, rt.alloc());
    let value = selector(&rt, 2);
    let list = [added(CHILD, value), set(GRAND, value)];
    reaches(&rt, rt.alloc(), &image, &list, 2);
    let refused = Refused {
        place: 1,
        fault: ChangeFault::MethodPresent,
    };
    let again = [added(CHILD, value), added(CHILD, value), added(ROOT, value)];
    same(
        &rt,
        asked(&rt, rt.alloc(), &image, &again),
        (Err(refused), 2),
    );
}
