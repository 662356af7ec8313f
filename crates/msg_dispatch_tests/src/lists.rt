//! Lists of changes, each made as one.

use crate::asker::Asker;
use crate::images::{CHILD, GRAND, ROOT};
use crate::one_thread::Row;
use crate::opening::{Steps, open};
use crate::same::same;
use msg_dispatch::{ArenaName, Changer};
use msg_image::Change;
use msg_names::{ImpRef, Selector};
use msg_samples::IMAGE;
use msg_tables::{ChangeFault, Refused, Written};
use std::alloc::Global;
use std::process::Abort;
use std::sync::Wait;

// Child gets a method of its own, and then the root's is set.
fn two(sel: Selector) -> [Change; 2] {
    let add = Change::Add {
        class: CHILD,
        sel,
        imp: ImpRef::of(2),
    };
    let set = Change::SetImp {
        class: ROOT,
        sel,
        imp: ImpRef::of(2),
    };
    [add, set]
}

// A list counts as one change, a refused one and one without changes as none. Its way back takes it
// back.
pub(crate) fn makes_lists<N: ArenaName, R: Wait + Abort>(
    rt: &R,
    alloc: Global,
    sender: &mut Asker<'_, N>,
    changer: &mut Changer<'_, N>,
    value: Selector,
) {
    same(rt, sender.find(rt, GRAND, value), ImpRef::of(1));
    same(rt, sender.find(rt, ROOT, value), ImpRef::of(1));
    let list = two(value);
    let mut written = Written::none(alloc);
    let made = changer.change_all(rt, &list.as_slice(), &mut written);
    same(rt, made.map(|made| made.count), Ok(1));
    let mut other = Written::none(alloc);
    let again = changer.change_all(rt, &list.as_slice(), &mut other);
    let again = again.map(|made| made.count);
    let refused = Refused {
        place: 0,
        fault: ChangeFault::MethodPresent,
    };
    same(rt, again, Err(refused));
    let empty: &[Change] = &[];
    let none = changer.change_all(rt, &empty, &mut other);
    same(rt, none.map(|made| made.count), Ok(1));
    same(rt, sender.find_cached(rt, GRAND, value), None);
    same(rt, sender.find_cached(rt, ROOT, value), None);
    same(rt, sender.find(rt, GRAND, value), ImpRef::of(2));
    same(rt, sender.find(rt, ROOT, value), ImpRef::of(2));
    same(rt, sender.published(), 1);
    let back = changer.change_all(rt, &written.way_back(), &mut other);
    same(rt, back.map(|made| made.count), Ok(2));
    same(rt, sender.find(rt, GRAND, value), ImpRef::of(1));
    same(rt, sender.find(rt, ROOT, value), ImpRef::of(1));
}

#[test]
fn a_list_is_one_change(rt: HostRuntime) {
    let arrays = [8, 0, 0, 0, 0, 0, 0, 0, 0];
    let row = Row::MakeLists(rt.alloc());
    open(&rt, rt.alloc(), IMAGE, 1, arrays, Steps::InOneThread(row));
}
