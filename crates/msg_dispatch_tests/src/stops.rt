//! A sender that stops between two loads, while the array that it may hold is taken away.

use crate::desk::{Desk, Reader, open};
use crate::images::{CHILD, ROOT, selector};
use crate::same::same_at;
use msg_cache::{Filled, Pause};
use msg_names::{ImpRef, Selector};
use std::alloc::Global;
use std::process::Abort;

// Before one load Child's cache is flushed, and a cache for Root is asked for.
#[derive(Drop)]
struct Stop<'d> {
    desk: &'d mut Desk,
    before: u32,
    sel: Selector,
    calls: u32,
    answers: Option<(bool, u32, Filled)>,
}

impl Pause for Stop<'_> {
    fn at(&mut self, loads: u32) {
        if loads == self.calls {
            self.calls = self.calls.saturating_add(1);
        }
        if loads == self.before {
            let flushed = self.desk.flush(CHILD);
            let freed = self.desk.collect();
            self.answers = Some((flushed, freed, self.desk.fill(ROOT, self.sel)));
        }
    }
}

// The load before which a sender stops that seeks a selector, the implementation that it finds, and
// how many bucket words it loads. Child's cache has these entries.
#[derive(Clone, Copy, Debug)]
pub(crate) struct Case {
    entries: &'static [u32],
    sought: u32,
    before: u32,
    found: Option<u32>,
    loads: u32,
}

// Child has selectors 2, 6 and 10, at places 2, 3 and 0 of the one array of 4. A sender that stops
// before the header load finds no array.
const STOPS: [(u32, u32, Option<u32>, u32); 14] = [
    (2, 0, None, 0),
    (2, 1, Some(1), 1),
    (6, 0, None, 0),
    (6, 1, Some(0), 2),
    (6, 2, Some(0), 2),
    (10, 0, None, 0),
    (10, 1, Some(0), 3),
    (10, 2, Some(0), 3),
    (10, 3, Some(0), 3),
    (14, 0, None, 0),
    (14, 1, None, 4),
    (14, 2, None, 4),
    (14, 3, None, 4),
    (14, 4, None, 4),
];

/// Child's cache has one entry, of a method that is found.
pub(crate) const ONE: Case = Case {
    entries: &[2],
    sought: 2,
    before: 1,
    found: Some(1),
    loads: 1,
};

// The same, and the sender stops before the header load.
const ONE_BEFORE: Case = Case {
    entries: &[2],
    sought: 2,
    before: 0,
    found: None,
    loads: 0,
};

// Child's entries. The first takes an array.
fn fill_all(rt: &impl Abort, desk: &mut Desk, entries: &[u32]) {
    let mut wanted = Filled::Grown;
    for entry in entries {
        same_at(rt, entry, desk.fill(CHILD, selector(rt, *entry)), wanted);
        wanted = Filled::Used;
    }
}

// The sender stops once. It is in then, so the array isn't free.
fn stops(rt: &impl Abort, desk: &mut Desk, reader: &mut Reader, row: &(u32, Case), sel: Selector) {
    let case = row.1;
    let mut stop = Stop {
        desk,
        before: case.before,
        sel,
        calls: 0,
        answers: None,
    };
    let found = reader.find_paused(CHILD, selector(rt, case.sought), &mut stop);
    same_at(rt, row, found.map(ImpRef::number), case.found);
    same_at(rt, row, reader.loads(), case.loads);
    same_at(rt, row, stop.calls, case.loads.saturating_add(1));
    same_at(rt, row, stop.answers, Some((true, 0, Filled::NoArray)));
}

// The array is free when the sender is out, and is then Root's.
fn is_given_again(
    rt: &impl Abort,
    desk: &mut Desk,
    reader: &mut Reader,
    row: &(u32, Case),
    sel: Selector,
) {
    same_at(rt, row, desk.collect(), 1);
    same_at(rt, row, desk.fill(ROOT, sel), Filled::Grown);
    let sought = selector(rt, row.1.sought);
    same_at(rt, row, reader.find(CHILD, sought), None);
    same_at(rt, row, reader.loads(), 0);
    same_at(rt, row, reader.find(ROOT, sel), Some(ImpRef::of(1)));
}

/// The sender of the row's number stops once.
pub(crate) fn stop_once(rt: &impl Abort, desk: &mut Desk, reader: &mut Reader, row: &(u32, Case)) {
    let value = selector(rt, 2);
    fill_all(rt, desk, row.1.entries);
    stops(rt, desk, reader, row, value);
    is_given_again(rt, desk, reader, row, value);
}

// Among this number of senders the one with the row's number stops.
fn one_stops(rt: &impl Abort, alloc: Global, senders: u32, row: &(u32, Case)) {
    let mut desk = open(rt, alloc, senders, [1, 0, 0, 0, 0, 0, 0, 0, 0]);
    let mut reader = desk.give_out(rt, row.0);
    stop_once(rt, &mut desk, &mut reader, row);
}

fn each_sender_stops(rt: &impl Abort, alloc: Global, case: Case) {
    for number in 0..64 {
        one_stops(rt, alloc, 64, &(number, case));
    }
}

#[test]
fn each_sender_stops_before_each_load(rt: HostRuntime) {
    for (sought, before, found, loads) in STOPS {
        let case = Case {
            entries: &[2, 6, 10],
            sought,
            before,
            found,
            loads,
        };
        each_sender_stops(&rt, rt.alloc(), case);
    }
    one_stops(&rt, rt.alloc(), 2, &(0, ONE));
    one_stops(&rt, rt.alloc(), 64, &(63, ONE_BEFORE));
}
