//! Worked rows of caches.

use crate::counts::five;
use crate::desk::{Desk, Reader, open};
use crate::images::{CHILD, ROOT, image, selector};
use crate::same::{same, same_at};
use crate::stops::{ONE, stop_once};
use msg_cache::{Arena, ArenaFault, Config, Filled};
use msg_image::{Change, Image};
use msg_names::ImpRef;
use msg_samples::{Hog, SMALL};
use std::alloc::Global;
use std::process::Abort;

// Why an arena is refused, if it is.
fn refusal(alloc: Global, image: &Image, senders: u32, arrays: [u16; 9]) -> Option<ArenaFault> {
    Arena::open(alloc, image, Config { senders, arrays }).err()
}

#[test]
fn an_arena_is_refused(rt: HostRuntime) {
    let image = image(&rt, rt.alloc(), SMALL);
    let many = [0, 0, 0, 0, 0, 0, 0, 0, 65_535];
    // 2 classes, 1 sender and the count of changes leave room for 1,048,570 bucket words.
    for (senders, arrays, fault) in [
        (0, many, Some(ArenaFault::NoSenders)),
        (65, many, Some(ArenaFault::TooManySenders)),
        (1, many, Some(ArenaFault::TooLarge)),
        (
            1,
            [255, 0, 0, 0, 0, 0, 0, 0, 1023],
            Some(ArenaFault::TooLarge),
        ),
        (1, [254, 0, 0, 0, 0, 0, 0, 0, 1023], None),
        (64, [0; 9], None),
    ] {
        same_at(
            &rt,
            &senders,
            refusal(rt.alloc(), &image, senders, arrays),
            fault,
        );
    }
}

// Neither a second sender nor a second turn is there.
fn has_no_more(rt: &impl Abort, desk: &mut Desk) {
    assert!(rt; !desk.gives_out(0));
    assert!(rt; !desk.gives_out(1));
    assert!(rt; !desk.has_turn());
}

#[test]
fn a_number_is_given_once(rt: HostRuntime) {
    let mut desk = open(&rt, rt.alloc(), 1, [0; 9]);
    let reader = desk.give_out(&rt, 0);
    same(&rt, reader.number(), 0);
    same(&rt, reader.loads(), 0);
    has_no_more(&rt, &mut desk);
}

// Caches a selector in Child, where it is then found with this implementation after this number of
// loads.
fn caches(rt: &impl Abort, desk: &mut Desk, reader: &mut Reader, entry: (u32, Filled, u32, u32)) {
    let (number, filled, found, loads) = entry;
    let sel = selector(rt, number);
    same_at(rt, &number, desk.fill(CHILD, sel), filled);
    same_at(
        rt,
        &number,
        reader.find(CHILD, sel),
        Some(ImpRef::of(found)),
    );
    same_at(rt, &number, reader.loads(), loads);
}

// Makes the first change, which the sender then sees.
fn changes(rt: &impl Abort, desk: &mut Desk, reader: &mut Reader) {
    let change = Change::Add {
        class: CHILD,
        sel: selector(rt, 2),
        imp: ImpRef::of(1),
    };
    same(rt, reader.published(), 0);
    same(rt, desk.change(rt, &change), 1);
    same(rt, reader.published(), 1);
}

// Caches Child's selectors: the larger array has the last entry alone.
fn fills(rt: &impl Abort, desk: &mut Desk, reader: &mut Reader) {
    for entry in [
        (2, Filled::Grown, 1, 1),
        (2, Filled::Present, 1, 1),
        (6, Filled::Used, 0, 2),
        (3, Filled::Used, 0, 2),
        (4, Filled::Grown, 0, 1),
    ] {
        caches(rt, desk, reader, entry);
    }
    same(rt, reader.find(CHILD, selector(rt, 2)), None);
    same(rt, reader.loads(), 1);
}

// Takes Child's cache away, makes a change, and fills it again.
fn flushes(rt: &impl Abort, desk: &mut Desk, reader: &mut Reader) {
    assert!(rt; desk.flush(CHILD));
    assert!(rt; !desk.flush(CHILD));
    changes(rt, desk, reader);
    caches(rt, desk, reader, (2, Filled::Grown, 1, 1));
}

fn fills_and_flushes(rt: &impl Abort, desk: &mut Desk, reader: &mut Reader) {
    fills(rt, desk, reader);
    flushes(rt, desk, reader);
    same(rt, five(desk.report()), [5, 3, 1, 2, 1]);
}

#[test]
fn a_cache_is_filled_flushed_and_filled(rt: HostRuntime) {
    let mut desk = open(&rt, rt.alloc(), 1, [2, 1, 0, 0, 0, 0, 0, 0, 0]);
    let mut reader = desk.give_out(&rt, 0);
    fills_and_flushes(&rt, &mut desk, &mut reader);
}

#[test]
fn a_number_comes_back(rt: HostRuntime) {
    let mut desk = open(&rt, rt.alloc(), 2, [0; 9]);
    let found = desk.find_once(&rt, 1, CHILD, selector(&rt, 2));
    same(&rt, found, None);
    assert!(rt; desk.gives_out(1));
    assert!(rt; !desk.gives_out(1));
}

// How often no array is free for one of 1,534 selectors.
fn refusals(rt: &impl Abort, desk: &mut Desk) -> u32 {
    let mut refused = 0u32;
    for number in 1..1535 {
        if desk.fill(CHILD, selector(rt, number)) == Filled::NoArray {
            refused = refused.saturating_add(1);
        }
    }
    refused
}

// Fills Child's cache, where this number of entries find no array, and the last one is cached if
// there is none of these.
fn grows(rt: &impl Abort, desk: &mut Desk, reader: &mut Reader, none: u32, report: [u64; 5]) {
    same(rt, refusals(rt, desk), none);
    same(rt, five(desk.report()), report);
    let none = u64::from(none);
    same(rt, desk.report().no_array, [0, 0, 0, 0, 0, 0, 0, 0, none]);
    same(rt, desk.report().collections, none);
    same(rt, desk.report().freed, 8 * none);
    let last = reader.find(CHILD, selector(rt, 1534));
    same(rt, last.is_some(), none == 0);
}

// The same where so many of the largest arrays are there. An array is cleared only when it is free,
// so nothing that was retired is given again.
fn grows_to(rt: &impl Abort, alloc: Global, largest: u16, none: u32, report: [u64; 5]) {
    let mut desk = open(rt, alloc, 64, [1, 1, 1, 1, 1, 1, 1, 1, largest]);
    let mut reader = desk.give_out(rt, 63);
    grows(rt, &mut desk, &mut reader, none, report);
}

#[test]
fn a_cache_grows_to_the_largest(rt: HostRuntime) {
    for (largest, none, fills, growths, retired) in [(1, 1, 1533, 9, 8), (2, 0, 1534, 10, 9)] {
        let report = [fills, growths, 0, retired, 0];
        grows_to(&rt, rt.alloc(), largest, none, report);
    }
}

// All calls of a keeper, its turn and its senders: the one sender stops, the other finds what was
// cached, and a change that takes no memory is made.
fn keeps(rt: &impl Abort, desk: &mut Desk, reader: &mut Reader) {
    assert!(rt; !desk.gives_out(0));
    assert!(rt; !desk.has_turn());
    stop_once(rt, desk, reader, &(0, ONE));
    let sel = selector(rt, 2);
    let imp = ImpRef::of(1);
    same(rt, desk.find_once(rt, 1, ROOT, sel), Some(imp));
    let set = Change::SetImp {
        class: ROOT,
        sel,
        imp,
    };
    same(rt, reader.published(), 0);
    same(rt, desk.change(rt, &set), 1);
    same(rt, reader.published(), 1);
    same(rt, desk.fill(ROOT, sel), Filled::Grown);
}

#[test]
fn caches_are_kept_without_memory(rt: HostRuntime) {
    let mut desk = open(&rt, rt.alloc(), 2, [1, 0, 0, 0, 0, 0, 0, 0, 0]);
    let mut reader = desk.give_out(&rt, 0);
    let _hog = Hog::new(&rt).expect(&rt, "memory");
    keeps(&rt, &mut desk, &mut reader);
    same(&rt, five(desk.report()), [3, 3, 2, 2, 2]);
}
