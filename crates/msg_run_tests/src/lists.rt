//! Changes that are made as one, between sends and while they are answered.

use crate::holding::Moment::{ChangeDone, ChangeStarts, PieceDone, PieceStarts};
use crate::holding::{Hold, Holding, Moment, TURNS};
use crate::runs::{Way, document, ran};
use crate::same::same_at;
use std::alloc::Global;
use std::process::Abort;
use std::sync::Wait;
use std::thread::Threads;

// Two selectors, before a list that swaps their methods, after it, and after a list of which the
// first part alone would have swapped one back.
const ITEMS: &str = r#"{"send":[["obj","c"],"value"]},{"send":[["obj","s"],"name"]},
{"change":["all",["set","Root",false,"value","r_name"],["set","Root",false,"name","r_value"]]},
{"send":[["obj","c"],"value"]},{"send":[["obj","s"],"name"]},
{"change":["all",["set","Root",false,"value","r_value"],["add","Root",false,"name","r_name"]]},
{"send":[["obj","c"],"value"]},{"send":[["obj","s"],"name"]}"#;

// Each send is answered at the history of the lists before it, at the first, or at the last.
const IN_TURN: &str = "7\n1\nok\n1\n7\nrefused at 1: method present\n1\n7\n";

const AT_FIRST: &str = "7\n1\nok\n7\n1\nrefused at 1: method present\n7\n1\n";

const AT_LAST: &str = "1\n7\nok\n1\n7\nrefused at 1: method present\n1\n7\n";

// A run, with three sends a piece, in which two moments are held, each until another.
#[derive(Clone, Copy)]
struct Row {
    way: Way,
    holds: [(Moment, Moment); 2],
    lines: &'static str,
}

const ROWS: [Row; 3] = [
    Row {
        way: Way::Between,
        holds: [(PieceDone(0), PieceDone(0)); 2],
        lines: IN_TURN,
    },
    // the lists wait for both pieces
    Row {
        way: Way::Beside,
        holds: [
            (ChangeStarts(0), PieceDone(0)),
            (ChangeStarts(0), PieceDone(1)),
        ],
        lines: AT_FIRST,
    },
    // both pieces wait for the lists
    Row {
        way: Way::Beside,
        holds: [
            (PieceStarts(0), ChangeDone(1)),
            (PieceStarts(1), ChangeDone(1)),
        ],
        lines: AT_LAST,
    },
];

// The document of these items, in the version that has lists.
fn third(rt: &impl Abort, alloc: Global) -> String {
    let first = document(rt, alloc, ITEMS);
    let (_version, parts) = first.split_once(r#"{"version":1,"#).expect(rt, "version 1");
    format!(in alloc; r#"{{"version":3,"made":[],{parts}"#).expect(rt, "memory")
}

fn run_is<T: Threads + Wait + Abort + Sync>(rt: &T, alloc: Global, row: &Row, workers: u32) {
    let [(held, until), (other_held, other_until)] = row.holds;
    let holds = [Hold::new(held, until), Hold::new(other_held, other_until)];
    let gate = Holding::new(&holds, TURNS);
    let document = third(rt, alloc);
    let outcome = ran(rt, alloc, row.way, &document, workers, 3, &gate);
    let at = (row.way, row.holds, workers);
    same_at(rt, &at, outcome.fault, None);
    same_at(rt, &at, outcome.text.as_slice(), row.lines.as_bytes());
    same_at(rt, &at, gate.gave_up(), false);
}

#[test]
fn a_list_is_made_or_refused_as_one(rt: HostRuntime) {
    for row in ROWS {
        for workers in [1, 4] {
            run_is(&rt, rt.alloc(), &row, workers);
        }
    }
}
