//! Lists of changes, each made as one.

ghost use Rattle.std.specs.Prelude.{◌≡◌, length};
ghost use Rattle.msg_image.specs.Opened.{origin_of};
ghost use Rattle.msg_tables.specs.Origin.{class_total};

use crate::same::{same, same_at};
use crate::tables::{CHILD, GRAND, ROOT, SIDE, category, image, metaclass, opened, selector};
use msg_image::{Change, Image};
use msg_names::{ClassRef, ImpRef, Selector};
use msg_tables::{ChangeFault, Entry, Refused, Tables, Written};
use std::alloc::Global;
use std::process::Abort;

// A method is added below, one is set where it is, and a category is attached.
fn three(rt: &impl Abort, alloc: Global, value: Selector, tag: Selector) -> Vec<Change> {
    let add = Change::Add {
        class: GRAND,
        sel: value,
        imp: ImpRef::of(2),
    };
    let set = Change::SetImp {
        class: SIDE,
        sel: value,
        imp: ImpRef::of(12),
    };
    let mut changes = Vec::with_capacity(alloc, 3).expect(rt, "memory");
    changes.push(add).ok().expect(rt, "room");
    changes.push(set).ok().expect(rt, "room");
    let attach = category(rt, alloc, tag, value);
    changes.push(attach).ok().expect(rt, "room");
    changes
}

// These classes find these implementations.
fn are_found(rt: &impl Abort, image: &Image, tables: &Tables, wanted: &[(ClassRef, Selector, u32)])
    requires { length tables.now.supers ≡ class_total (origin_of image.now) }
{
    for (class, sel, want) in wanted {
        assert!(rt; class.class < image.class_count());
        same_at(
            rt,
            &(*class, *sel),
            tables.lookup(*class, *sel).number(),
            *want,
        );
    }
}

#[test]
fn a_list_is_made_and_told(rt: HostRuntime) {
    let image = image(&rt, rt.alloc());
    let mut tables = opened(&rt, rt.alloc(), &image);
    let value = selector(&rt, &image, "value");
    let tag = selector(&rt, &image, "tag");
    let changes = three(&rt, rt.alloc(), value, tag);
    let mut written = Written::none(rt.alloc());
    tables
        .apply_all(&changes.as_slice(), &mut written)
        .expect(&rt, "no fault");
    let after = [(GRAND, value, 2), (CHILD, value, 12), (SIDE, tag, 1)];
    are_found(&rt, &image, &tables, &after);
    let told = [
        Entry::Added {
            class: GRAND,
            sel: value,
        },
        Entry::Rewrote {
            class: ROOT,
            sel: value,
            imp: ImpRef::of(1),
        },
        Entry::Added {
            class: SIDE,
            sel: tag,
        },
        Entry::Added {
            class: SIDE,
            sel: tag,
        },
        Entry::Added {
            class: metaclass(SIDE),
            sel: value,
        },
    ];
    same(&rt, written.as_slice() == told.as_slice(), true);
    same(&rt, told[1].place(), Some(ROOT));
    let mut other = Written::none(rt.alloc());
    let back = tables.apply_all(&written.way_back(), &mut other);
    same(&rt, back, Ok(()));
    let before = [(GRAND, value, 1), (CHILD, value, 1), (SIDE, tag, 13)];
    are_found(&rt, &image, &tables, &before);
}

#[test]
fn a_refused_list_leaves_all_as_it_was(rt: HostRuntime) {
    let image = image(&rt, rt.alloc());
    let mut tables = opened(&rt, rt.alloc(), &image);
    let value = selector(&rt, &image, "value");
    let tag = selector(&rt, &image, "tag");
    let mut changes = three(&rt, rt.alloc(), value, tag);
    let again = Change::Add {
        class: GRAND,
        sel: value,
        imp: ImpRef::of(1),
    };
    changes.push(again).ok().expect(&rt, "memory");
    let refused = Refused {
        place: 3,
        fault: ChangeFault::MethodPresent,
    };
    let mut written = Written::none(rt.alloc());
    let outcome = tables.apply_all(&changes.as_slice(), &mut written);
    same(&rt, outcome, Err(refused));
    let before = [(GRAND, value, 1), (CHILD, value, 1), (SIDE, tag, 13)];
    are_found(&rt, &image, &tables, &before);
    let _last = changes.pop();
    let outcome = tables.apply_all(&changes.as_slice(), &mut written);
    same(&rt, outcome, Ok(()));
}

// A method that is set where it is, and one that is exchanged with it.
fn two(rt: &impl Abort, alloc: Global, value: Selector, name: Selector) -> Vec<Change> {
    let set = Change::SetImp {
        class: SIDE,
        sel: value,
        imp: ImpRef::of(12),
    };
    let exchange = Change::Exchange {
        class: CHILD,
        sel: value,
        other: CHILD,
        other_sel: name,
    };
    let mut changes = Vec::with_capacity(alloc, 2).expect(rt, "memory");
    changes.push(set).ok().expect(rt, "room");
    changes.push(exchange).ok().expect(rt, "room");
    changes
}

#[test]
fn a_list_is_undone(rt: HostRuntime) {
    let image = image(&rt, rt.alloc());
    let mut tables = opened(&rt, rt.alloc(), &image);
    let value = selector(&rt, &image, "value");
    let name = selector(&rt, &image, "name");
    let changes = two(&rt, rt.alloc(), value, name);
    let mut written = Written::none(rt.alloc());
    tables
        .apply_all(&changes.as_slice(), &mut written)
        .expect(&rt, "no fault");
    let after = [(ROOT, value, 11), (GRAND, name, 12), (SIDE, name, 2)];
    are_found(&rt, &image, &tables, &after);
    let mut other = Written::none(rt.alloc());
    let back = tables.apply_all(&written.way_back(), &mut other);
    same(&rt, back, Ok(()));
    let before = [(ROOT, value, 1), (GRAND, name, 11), (SIDE, name, 2)];
    are_found(&rt, &image, &tables, &before);
}
