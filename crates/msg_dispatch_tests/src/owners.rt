//! An arena that threads share by an `Arc`, while the keeper works.

use crate::desk::{Desk, Reader, open};
use crate::images::{CHILD, selector};
use crate::same::same;
use msg_cache::Filled;
use msg_names::{ImpRef, Selector};
use std::process::Abort;
use std::sync::Wait;
use std::thread::{self, Threads};

// Asks ten thousand times, and returns whether each result was implementation 1 or none.
fn ask(mut reader: Reader, sel: Selector) -> (Reader, bool) {
    let mut is_right = true;
    for _time in 0..10_000 {
        let found = reader.find(CHILD, sel);
        is_right &= found.is_none() || found == Some(ImpRef::of(1));
    }
    (reader, is_right)
}

// Flushes Child's cache and fills it again, a hundred times. Returns how often no array was free.
fn flush_and_fill(desk: &mut Desk, sel: Selector) -> u32 {
    let mut refused = 0u32;
    for _time in 0..100 {
        desk.flush(CHILD);
        if desk.fill(CHILD, sel) == Filled::NoArray {
            refused = refused.saturating_add(1);
        }
    }
    refused
}

// Child's cache was filled once before, and each time that an array was free.
fn works(rt: &impl Abort, desk: &mut Desk, sel: Selector) {
    let refused = flush_and_fill(desk, sel);
    same(
        rt,
        desk.report().fills.saturating_add(u64::from(refused)),
        101,
    );
}

// Both senders ask in threads of their own, and are given back.
fn ask_beside_work<R: Threads + Wait + Abort>(
    rt: &R,
    desk: &mut Desk,
    one: Reader,
    other: Reader,
    sel: Selector,
) -> (Reader, Reader) {
    let one = thread::spawn(rt, move || ask(one, sel)).expect(rt, "a thread");
    let other = thread::spawn(rt, move || ask(other, sel)).expect(rt, "a thread");
    works(rt, desk, sel);
    let (one, is_right) = one.join(rt);
    assert!(rt; is_right);
    let (other, is_right) = other.join(rt);
    assert!(rt; is_right);
    (one, other)
}

// Both are out, so one more collection frees every array.
fn find_again(
    rt: &impl Abort,
    desk: &mut Desk,
    one: &mut Reader,
    other: &mut Reader,
    sel: Selector,
) {
    desk.flush(CHILD);
    desk.collect();
    same(rt, desk.fill(CHILD, sel), Filled::Grown);
    same(rt, one.find(CHILD, sel), Some(ImpRef::of(1)));
    same(rt, other.find(CHILD, sel), Some(ImpRef::of(1)));
}

#[test]
fn threads_own_an_arena(rt: HostRuntime) {
    let value = selector(&rt, 2);
    let mut desk = open(&rt, rt.alloc(), 2, [2, 0, 0, 0, 0, 0, 0, 0, 0]);
    same(&rt, desk.fill(CHILD, value), Filled::Grown);
    let one = desk.give_out(&rt, 0);
    let other = desk.give_out(&rt, 1);
    let (mut one, mut other) = ask_beside_work(&rt, &mut desk, one, other, value);
    find_again(&rt, &mut desk, &mut one, &mut other, value);
}
