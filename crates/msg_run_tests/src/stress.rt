//! Hundreds of thousands of sends beside thousands of changes. Each line is checked against what
//! the method lists answer, and each worker's points against those before.

use crate::edits::{CLASSES, Edit, SELECTORS, item};
use crate::points::{FACTOR, Points, Sent, send_of};
use crate::runs::{Way, ran};
use crate::same::{same, same_at};
use msg_runner::Gate;
use std::alloc::Global;
use std::process::Abort;
use std::sync::Wait;
use std::sync::atomic::{AtomicBool, AtomicU32, Ordering};
use std::thread::{self, Threads};

const ROUNDS: u32 = 4;

const CHANGES: u32 = 2_000;
// A change comes after this number of sends.
const SENDS_EACH: usize = 30;

const WORKERS: u32 = 4;

const CUT: u32 = 32;

// The change with this number, from 1. The value that it makes a method return is new.
fn edit(number: u32) -> Edit {
    match number % 16 {
        1 | 9 => Edit::Set(0, 0, number),
        2 | 10 => Edit::Replace(1, 0, number),
        3 | 11 => Edit::Exchange(0),
        4 | 12 => Edit::Set(2, 1, number),
        5 => Edit::Attach(1, 1, number),
        6 => Edit::Add(0, 0, number),
        7 => Edit::Exchange(2),
        8 => Edit::Replace(2, 0, number),
        13 => Edit::Add(2, 1, number),
        14 => Edit::Attach(2, 1, number),
        15 => Edit::Replace(0, 1, number),
        _ => Edit::Set(1, 0, number),
    }
}

fn edits(rt: &impl Abort, alloc: Global) -> Vec<Edit> {
    let mut edits = Vec::new(alloc);
    for number in 0..CHANGES {
        edits.push(edit(number + 1)).expect(rt, "memory");
    }
    edits
}

// The implementations that answer the numbers of the changes, and 0.
fn imps(rt: &impl Abort, alloc: Global) -> String {
    let mut imps = String::new(alloc);
    for number in 0..=CHANGES {
        let imp = format!(in alloc;
            "{{\"name\":\"i{number}\",\"class\":\"Root\",\"meta\":false,\"args\":0,\"body\":{number}}},"
        ).expect(rt, "memory");
        imps.push_str(&imp).expect(rt, "memory");
    }
    imps
}

fn send_item(rt: &impl Abort, alloc: Global, number: usize) -> String {
    let (class, sent) = send_of(number);
    let object = CLASSES.get(class).copied().unwrap_or("");
    let sel = match sent {
        Sent::One(sel) => SELECTORS.get(sel).copied().unwrap_or(""),
        Sent::Both => "both",
    };
    format!(in alloc; "{{\"send\":[[\"obj\",\"{object}\"],\"{sel}\"]}}").expect(rt, "memory")
}

// Writes down the sends that come before a change, from one number on.
fn push_sends(rt: &impl Abort, alloc: Global, items: &mut String, first: usize) {
    for each in 0..SENDS_EACH {
        let send = send_item(rt, alloc, first.saturating_add(each));
        items.push_str(&send).expect(rt, "memory");
        items.push(',').expect(rt, "memory");
    }
}

// The sends, with a change after every so many of them.
fn items(rt: &impl Abort, alloc: Global, edits: &[Edit]) -> String {
    let mut items = String::new(alloc);
    let mut number = 0usize;
    for edit in edits {
        push_sends(rt, alloc, &mut items, number);
        number = number.saturating_add(SENDS_EACH);
        let change = item(rt, alloc, *edit);
        items.push_str(&change).expect(rt, "memory");
        items.push(',').expect(rt, "memory");
    }
    let last = send_item(rt, alloc, number);
    items.push_str(&last).expect(rt, "memory");
    items
}

fn document(rt: &impl Abort, alloc: Global, edits: &[Edit]) -> String {
    let imps = imps(rt, alloc);
    let items = items(rt, alloc, edits);
    format!(in alloc;
        "{{\"version\":1,\"classes\":[{{\"name\":\"Root\",\"super\":null,\"methods\":[[\"value\",\"i0\"],[\"name\",\"i0\"],[\"both\",\"r_both\"]],\"class_methods\":[]}},{{\"name\":\"Child\",\"super\":\"Root\",\"methods\":[],\"class_methods\":[]}},{{\"name\":\"Grand\",\"super\":\"Child\",\"methods\":[],\"class_methods\":[]}}],\"categories\":[],\"objects\":[{{\"name\":\"Root\",\"class\":\"Root\"}},{{\"name\":\"Child\",\"class\":\"Child\"}},{{\"name\":\"Grand\",\"class\":\"Grand\"}}],\"imps\":[{imps}{{\"name\":\"r_both\",\"class\":\"Root\",\"meta\":false,\"args\":0,\"body\":[\"add\",[\"mul\",[\"send\",[\"self\"],\"value\"],{FACTOR}],[\"send\",[\"self\"],\"name\"]]}}],\"items\":[{items}]}}"
    ).expect(rt, "memory")
}

// A gate by which neither the sends nor the changes get far ahead of the others: there is about one
// change for each piece.
#[derive(Drop)]
struct Paced {
    pieces: AtomicU32,
    changes: AtomicU32,
    gave_up: AtomicBool,
}

const TURNS: u32 = 100_000_000;

impl Paced {
    fn new() -> Paced {
        Paced {
            pieces: AtomicU32::new(0),
            changes: AtomicU32::new(0),
            gave_up: AtomicBool::new(false),
        }
    }

    fn wait(&self, count: &AtomicU32, wanted: u32) {
        for _turn in 0..TURNS {
            if count.load(Ordering::SeqCst) >= wanted {
                return;
            }
            thread::yield_now();
        }
        self.gave_up.store(true, Ordering::SeqCst);
    }
}

impl Gate for Paced {
    // Some piece that isn't done is at most as many pieces behind as there are workers, so one of
    // the two goes on.
    fn piece_starts(&self, _worker: u32, piece: u32) {
        self.wait(&self.changes, piece.saturating_sub(16));
    }

    fn piece_done(&self, _worker: u32, _piece: u32) {
        self.pieces.fetch_add(1, Ordering::SeqCst);
    }

    fn change_starts(&self, change: u32) {
        self.wait(&self.pieces, change - change / 8);
    }

    fn change_done(&self, _change: u32) {
        self.changes.fetch_add(1, Ordering::SeqCst);
    }
}

// What was seen of the workers' points while the lines are read.
#[derive(Drop)]
struct Seen {
    fronts: [usize; WORKERS as usize],
    sends: usize,
    changes: usize,
    // how often a worker was seen to go on to a later point
    rises: usize,
}

impl Seen {
    fn new() -> Seen {
        Seen {
            fronts: [0; WORKERS as usize],
            sends: 0,
            changes: 0,
            rises: 0,
        }
    }

    // A send's line: the result at some point, which isn't before the worker's last one.
    fn take_send(&mut self, points: &Points, line: &str) -> Option<()> {
        let (class, sent) = send_of(self.sends);
        let worker = (self.sends / CUT as usize) % WORKERS as usize;
        let front = self.fronts[worker];
        let point = points.last_of(front, class, sent, line.parse().ok()?)?;
        if point > front {
            self.rises = self.rises.saturating_add(1);
        }
        self.fronts[worker] = point;
        self.sends = self.sends.saturating_add(1);
        Some(())
    }

    fn take_change(&mut self, points: &Points, line: &str) -> Option<()> {
        let is_accepted = *points.accepted.get(self.changes)?;
        self.changes = self.changes.saturating_add(1);
        let told = if is_accepted {
            "ok"
        } else {
            "refused: method present"
        };
        if line == told { Some(()) } else { None }
    }

    // The next line, which is a change's after each group of that many sends.
    fn take(&mut self, points: &Points, line: &str) -> Option<()> {
        let each = SENDS_EACH + 1;
        let item = self.sends.saturating_add(self.changes);
        if item % each == SENDS_EACH {
            self.take_change(points, line)
        } else {
            self.take_send(points, line)
        }
    }
}

// Each line is that of some point. Returns how often a worker's points rose.
fn rises(rt: &impl Abort, points: &Points, text: &[u8]) -> usize {
    let text = str::from_utf8(text).ok().expect(rt, "a text");
    let mut seen = Seen::new();
    for line in text.lines() {
        let taken = seen.take(points, line);
        same_at(rt, &(line, seen.sends, seen.changes), taken, Some(()));
    }
    same(rt, (seen.sends, seen.changes), (60_001, 2_000));
    seen.rises
}

// The changes really are made among the sends: by the gate a worker's points rise at least once in
// sixteen of its pieces.
fn round<T: Threads + Wait + Abort + Sync>(rt: &T, alloc: Global, points: &Points, document: &str) {
    let gate = Paced::new();
    let outcome = ran(rt, alloc, Way::Beside, document, WORKERS, CUT, &gate);
    same(rt, outcome.fault, None);
    let rises = rises(rt, points, &outcome.text);
    assert!(rt; rises > 100, "{rises}");
    same(rt, gate.gave_up.load(Ordering::SeqCst), false);
}

#[test]
fn each_line_is_that_of_some_point(rt: HostRuntime) {
    let alloc = rt.alloc();
    let edits = edits(&rt, alloc);
    let points = Points::of(&rt, alloc, &edits);
    let document = document(&rt, alloc, &edits);
    for _round in 0..ROUNDS {
        round(&rt, alloc, &points, document.as_str());
    }
}
