//! Threads that wait for one another: a run whose work were done one after another would meet the
//! limit of its gate.

use crate::holding::Moment::{ChangeDone, ChangeStarts, PieceDone, PieceStarts};
use crate::holding::{Hold, Holding, Moment, TURNS};
use crate::images::with_items;
use crate::runs::{Way, ran};
use crate::same::same_at;
use msg_samples::IMAGE;
use std::alloc::Global;
use std::process::Abort;
use std::sync::Wait;
use std::thread::Threads;

// Texts, each this number of times.
type Texts = &'static [(&'static str, usize)];

// Sends of each kind, to a class that forwards and to others.
const SEVEN: Texts = &[(
    r#"{"send":[["obj","p"],"value"]},{"send":[["obj","p"],"name"]},{"send":[["obj","p"],"go"]},{"send":[["obj","p"],"make"]},{"send":[["obj","p"],"small"]},{"send":[["obj","g"],"go"]},{"send":[["obj","s"],"tag"]}"#,
    1,
)];

const SEVEN_LINES: Texts = &[(
    "7\nfault: unrecognized -[Proxy name]\nfault: unrecognized -[Proxy go]\nfault: target not an object\nfault: budget\nfault: unrecognized -[Grand go]\n3\n",
    1,
)];

const G: &str = r#"{"send":[["obj","g"],"value"]}"#;

const S: &str = r#"{"send":[["obj","s"],"value"]}"#;

const CHANGE: &str = r#"{"change":["add","Child",false,"value","r_name"]}"#;

const TWO: Texts = &[(G, 1), (S, 1)];

const TWO_AND_A_CHANGE: Texts = &[(G, 1), (S, 1), (CHANGE, 1)];

// A run of this number of workers, with this number of sends a piece, in which two moments are
// held, each until another.
#[derive(Clone, Copy)]
struct Row {
    name: &'static str,
    way: Way,
    workers: u32,
    cut: u32,
    items: Texts,
    holds: [(Moment, Moment); 2],
    // what may be written: in two rows the first send may be answered before the change or after it
    lines: [Texts; 2],
    gave_up: bool,
}

// Nothing is held.
const OPEN: [(Moment, Moment); 2] = [(PieceDone(0), PieceDone(0)), (PieceDone(0), PieceDone(0))];

// The starts of the first two pieces, each held until the other.
const BOTH_PIECES: [(Moment, Moment); 2] = [
    (PieceStarts(0), PieceStarts(1)),
    (PieceStarts(1), PieceStarts(0)),
];

const SEVENS: Texts = &[("7\n", 2)];

const BEFORE: Texts = &[("7\n", 2), ("ok\n", 1)];

const AFTER: Texts = &[("1\n", 1), ("7\n", 1), ("ok\n", 1)];

const ROWS: [Row; 11] = [
    Row {
        name: "pieces of several sends",
        way: Way::Between,
        workers: 3,
        cut: 2,
        items: SEVEN,
        holds: OPEN,
        lines: [SEVEN_LINES; 2],
        gave_up: false,
    },
    Row {
        name: "two pieces of a batch wait for one another",
        way: Way::Between,
        workers: 2,
        cut: 1,
        items: SEVEN,
        holds: BOTH_PIECES,
        lines: [SEVEN_LINES; 2],
        gave_up: false,
    },
    Row {
        name: "two pieces wait for one another beside changes",
        way: Way::Beside,
        workers: 2,
        cut: 1,
        items: SEVEN,
        holds: BOTH_PIECES,
        lines: [SEVEN_LINES; 2],
        gave_up: false,
    },
    Row {
        name: "one worker meets the limit",
        way: Way::Between,
        workers: 1,
        cut: 1,
        items: SEVEN,
        holds: BOTH_PIECES,
        lines: [SEVEN_LINES; 2],
        gave_up: true,
    },
    Row {
        name: "sends without a change",
        way: Way::Between,
        workers: 2,
        cut: 1,
        items: TWO,
        holds: OPEN,
        lines: [SEVENS; 2],
        gave_up: false,
    },
    Row {
        name: "the same beside changes",
        way: Way::Beside,
        workers: 2,
        cut: 1,
        items: TWO,
        holds: OPEN,
        lines: [SEVENS; 2],
        gave_up: false,
    },
    Row {
        name: "a change at any time",
        way: Way::Beside,
        workers: 2,
        cut: 1,
        items: TWO_AND_A_CHANGE,
        holds: OPEN,
        lines: [BEFORE, AFTER],
        gave_up: false,
    },
    Row {
        name: "a change waits for a piece",
        way: Way::Beside,
        workers: 2,
        cut: 1,
        items: TWO_AND_A_CHANGE,
        holds: [(ChangeStarts(0), PieceDone(0)); 2],
        lines: [BEFORE; 2],
        gave_up: false,
    },
    Row {
        name: "a piece waits for a change",
        way: Way::Beside,
        workers: 2,
        cut: 1,
        items: TWO_AND_A_CHANGE,
        holds: [(PieceStarts(0), ChangeDone(0)); 2],
        lines: [AFTER; 2],
        gave_up: false,
    },
    Row {
        name: "a change and a piece wait for one another",
        way: Way::Beside,
        workers: 2,
        cut: 1,
        items: TWO_AND_A_CHANGE,
        holds: [
            (ChangeStarts(0), PieceStarts(0)),
            (PieceStarts(0), ChangeStarts(0)),
        ],
        lines: [BEFORE, AFTER],
        gave_up: false,
    },
    // what a worker remembers of the first piece isn't taken in the second
    Row {
        name: "a piece that starts after a change sees it",
        way: Way::Beside,
        workers: 1,
        cut: 16,
        items: &[(G, 32), (CHANGE, 1)],
        holds: [
            (ChangeStarts(0), PieceDone(0)),
            (PieceStarts(1), ChangeDone(0)),
        ],
        lines: [&[("7\n", 16), ("1\n", 16), ("ok\n", 1)]; 2],
        gave_up: false,
    },
];

// The texts one after another, with this between two of them.
fn joined(rt: &impl Abort, alloc: Global, texts: Texts, between: &str) -> String {
    let mut all = String::new(alloc);
    for (text, times) in texts {
        for _time in 0..*times {
            if !all.is_empty() {
                all.push_str(between).expect(rt, "memory");
            }
            all.push_str(text).expect(rt, "memory");
        }
    }
    all
}

fn is_either(rt: &impl Abort, alloc: Global, text: &[u8], [one, other]: [Texts; 2]) -> bool {
    let one = joined(rt, alloc, one, "");
    let other = joined(rt, alloc, other, "");
    text == one.as_bytes() || text == other.as_bytes()
}

fn run_is<T: Threads + Wait + Abort + Sync>(rt: &T, alloc: Global, row: &Row) {
    let [(held, until), (other_held, other_until)] = row.holds;
    let holds = [Hold::new(held, until), Hold::new(other_held, other_until)];
    // if the limit is reached, it is a small one
    let turns = if row.gave_up { 100_000 } else { TURNS };
    let gate = Holding::new(&holds, turns);
    let items = joined(rt, alloc, row.items, ",");
    let document = with_items(rt, alloc, IMAGE, &items);
    let outcome = ran(rt, alloc, row.way, &document, row.workers, row.cut, &gate);
    same_at(rt, &row.name, outcome.fault, None);
    let text = outcome.text.as_slice();
    same_at(
        rt,
        &(row.name, text),
        is_either(rt, alloc, text, row.lines),
        true,
    );
    same_at(rt, &row.name, gate.gave_up(), row.gave_up);
}

#[test]
fn threads_wait_for_one_another(rt: HostRuntime) {
    for row in ROWS {
        run_is(&rt, rt.alloc(), &row);
    }
}
