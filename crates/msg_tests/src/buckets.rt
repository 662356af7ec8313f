//! Bucket words and plain arrays.

use crate::same::{same, same_at};
use msg_buckets::{
    Look, Placed, Plan, Probe, fill_plan, find, first_place, is_capacity, look_at, next_place,
    pack, put, unpack,
};
use msg_names::{ImpRef, Selector};
use std::process::Abort;

fn selector(rt: &impl Abort, number: u32) -> Selector {
    Selector::of(number).expect(rt, "a number above 0")
}

// What is done to an array of 4, or what it then has. Selectors and implementations are named by
// their numbers.
#[derive(Clone, Copy, Debug)]
enum Row {
    Put(u32, u32, Placed),
    Hits(u32, u32),
    Misses(u32, Probe),
    Has([u64; 4]),
}

// A probe goes on to the next place.
const NEXT: [Row; 6] = [
    Row::Put(1, 2, Placed::At(1)),
    Row::Put(5, 6, Placed::At(2)),
    Row::Put(9, 10, Placed::At(3)),
    Row::Hits(1, 2),
    Row::Hits(5, 6),
    Row::Hits(9, 10),
];

// It goes round.
const ROUND: [Row; 3] = [
    Row::Put(3, 1, Placed::At(3)),
    Row::Put(7, 2, Placed::At(0)),
    Row::Hits(7, 2),
];

// Selectors 4, 1, 2 and 3 with ten times as much.
const FOUR: [u64; 4] = [
    0x0000_0004_0000_0028,
    0x0000_0001_0000_000a,
    0x0000_0002_0000_0014,
    0x0000_0003_0000_001e,
];

// The probe ends where it began.
const FULL: [Row; 10] = [
    Row::Put(1, 10, Placed::At(1)),
    Row::Put(2, 20, Placed::At(2)),
    Row::Put(3, 30, Placed::At(3)),
    Row::Put(4, 40, Placed::At(0)),
    Row::Has(FOUR),
    Row::Put(5, 50, Placed::Full),
    Row::Misses(5, Probe::Wrapped),
    Row::Put(2, 50, Placed::Present),
    Row::Hits(2, 20),
    Row::Has(FOUR),
];

// A selector is compared whole.
const WHOLE: [Row; 4] = [
    Row::Put(1, 1, Placed::At(1)),
    Row::Misses(65_537, Probe::Empty(2)),
    Row::Put(65_537, 2, Placed::At(2)),
    Row::Hits(65_537, 2),
];

fn probe_is(rt: &impl Abort, words: &mut [u64; 4], row: Row) {
    match row {
        Row::Put(number, imp, placed) => {
            let put = put(words, selector(rt, number), ImpRef::of(imp));
            same_at(rt, &row, put, placed);
        }
        Row::Hits(number, imp) => {
            let found = find(words, selector(rt, number));
            same_at(rt, &row, found, Probe::Hit(ImpRef::of(imp)));
        }
        Row::Misses(number, probe) => {
            same_at(rt, &row, find(words, selector(rt, number)), probe);
        }
        Row::Has(wanted) => same_at(rt, &row, words.as_slice(), wanted.as_slice()),
    }
}

fn probes_are(rt: &impl Abort, rows: &[Row]) {
    let mut words = [0; 4];
    for row in rows {
        probe_is(rt, &mut words, *row);
    }
}

fn a_larger_array_is_probed(rt: &impl Abort) {
    let mut words = [0; 8];
    let placed = put(&mut words, selector(rt, 13), ImpRef::FORWARD);
    same(rt, placed, Placed::At(5));
    same(rt, find(&words, selector(rt, 1)), Probe::Empty(1));
    let found = find(&words, selector(rt, 13));
    same(rt, found, Probe::Hit(ImpRef::FORWARD));
}

#[test]
fn probes_go_on_and_round(rt: HostRuntime) {
    for rows in [
        NEXT.as_slice(),
        ROUND.as_slice(),
        FULL.as_slice(),
        WHOLE.as_slice(),
    ] {
        probes_are(&rt, rows);
    }
    a_larger_array_is_probed(&rt);
}

#[test]
fn an_array_is_filled_to_three_quarters(rt: HostRuntime) {
    same(&rt, fill_plan(0, 0), Plan::Take(4));
    same(&rt, fill_plan(4, 0), Plan::Use);
    same(&rt, fill_plan(4, 2), Plan::Use);
    same(&rt, fill_plan(4, 3), Plan::Take(8));
    same(&rt, fill_plan(512, 383), Plan::Use);
    same(&rt, fill_plan(512, 384), Plan::Take(1024));
    same(&rt, fill_plan(1024, 767), Plan::Use);
    same(&rt, fill_plan(1024, 768), Plan::Take(1024));
}

#[test]
fn capacities_are_powers_of_two(rt: HostRuntime) {
    for (buckets, want) in [
        (0, false),
        (2, false),
        (4, true),
        (6, false),
        (8, true),
        (512, true),
        (1024, true),
        (2048, false),
    ] {
        same_at(&rt, &buckets, is_capacity(buckets), want);
    }
}

#[test]
fn places_and_words(rt: HostRuntime) {
    same(&rt, first_place(selector(&rt, 13), 8), 5);
    same(&rt, first_place(selector(&rt, 1024), 1024), 0);
    same(&rt, next_place(3, 4), 0);
    same(&rt, next_place(3, 8), 4);
    let word = pack(selector(&rt, 2), ImpRef::of(1));
    same(&rt, word, 0x0000_0002_0000_0001);
    same(&rt, unpack(word), Some((selector(&rt, 2), ImpRef::of(1))));
    same(
        &rt,
        unpack(0x0000_0001_0000_0000),
        Some((selector(&rt, 1), ImpRef::FORWARD)),
    );
    same(
        &rt,
        unpack(0xffff_ffff_ffff_ffff),
        Some((selector(&rt, 4294967295), ImpRef::of(4294967295))),
    );
    same(&rt, unpack(0xffff_ffff), None);
    same(&rt, unpack(0), None);
    same(
        &rt,
        look_at(word, selector(&rt, 2)),
        Look::Hit(ImpRef::of(1)),
    );
    same(&rt, look_at(word, selector(&rt, 1)), Look::Other);
    same(&rt, look_at(0, selector(&rt, 1)), Look::Empty);
}
