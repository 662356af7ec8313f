//! The calls of a gate, and their order.

use crate::holding::Moment;
use crate::runs::{Way, document, ran, wrote};
use crate::same::{same, same_at};
use msg_runner::Gate;
use std::alloc::Global;
use std::process::Abort;
use std::sync::{Mutex, Wait};
use std::thread::Threads;

/// One call of a gate: the worker that made it, if it is about a piece.
#[derive(Clone, Copy, Debug)]
struct Told {
    moment: Moment,
    worker: Option<u32>,
}

/// A gate that records its calls.
#[derive(Drop)]
struct Log<'r, R: Wait> {
    rt: &'r R,
    told: Mutex<Vec<Told>>,
}

impl<'r, R: Wait> Log<'r, R> {
    fn new(rt: &'r R, alloc: Global) -> Log<'r, R> {
        Log {
            rt,
            told: Mutex::new(Vec::new(alloc)),
        }
    }

    // A call that can't be recorded is missed when the log is read.
    fn write(&self, moment: Moment, worker: Option<u32>) {
        let _written = self.told.lock(self.rt).push(Told { moment, worker });
    }
}

impl<R: Wait + Sync> Gate for Log<'_, R> {
    fn piece_starts(&self, worker: u32, piece: u32) {
        self.write(Moment::PieceStarts(piece), Some(worker));
    }

    fn piece_done(&self, worker: u32, piece: u32) {
        self.write(Moment::PieceDone(piece), Some(worker));
    }

    fn change_starts(&self, change: u32) {
        self.write(Moment::ChangeStarts(change), None);
    }

    fn change_done(&self, change: u32) {
        self.write(Moment::ChangeDone(change), None);
    }
}

// Six sends, with changes after the third and two after the fourth.
const ITEMS: &str =
    r#"{"send":[["obj","g"],"value"]},{"send":[["obj","s"],"value"]},{"send":[["obj","c"],"name"]},
{"change":["replace","Root",false,"value","r_value"]},
{"send":[["obj","g"],"value"]},
{"change":["replace","Root",false,"value","r_value"]},{"change":["add","Root",false,"value","r_value"]},
{"send":[["obj","c"],"name"]},{"send":[["obj","c"],"value"]}"#;

const LINES: &str = "7\n7\n11\nok\n7\nok\nrefused: method present\n11\n7\n";

// The calls of a run with this number of workers and this number of sends in a piece.
fn logged<R: Threads + Wait + Abort + Sync>(
    rt: &R,
    alloc: Global,
    way: Way,
    workers: u32,
    cut: u32,
) -> Vec<Told> {
    let log = Log::new(rt, alloc);
    let document = document(rt, alloc, ITEMS);
    let outcome = ran(rt, alloc, way, document.as_str(), workers, cut, &log);
    wrote(rt, &outcome, LINES);
    let Log { told, .. } = log;
    told.into_inner()
}

// When a gate was called for a moment, which it was once.
fn when<R: Abort>(rt: &R, told: &[Told], moment: Moment) -> usize {
    let times = told.iter().filter(|t| t.moment == moment).count();
    same_at(rt, &moment, times, 1);
    told.iter()
        .position(|t| t.moment == moment)
        .expect(rt, "it was told")
}

// Whether the gate was called for each moment of a row after the one before.
fn are_in_order<R: Abort>(rt: &R, told: &[Told], moments: &[Moment]) {
    let mut before = None;
    for moment in moments {
        let at = when(rt, told, *moment);
        if let Some(before) = before {
            assert!(rt; before < at, "{moment:?}");
        }
        before = Some(at);
    }
}

// The workers of the pieces, in the order of the pieces' numbers. Nothing but these and the three
// changes is told.
fn are_by<R: Abort>(rt: &R, told: &[Told], workers: &[u32]) {
    same(rt, told.len() / 2, workers.len().saturating_add(3));
    let mut piece = 0u32;
    for worker in workers {
        for moment in [Moment::PieceStarts(piece), Moment::PieceDone(piece)] {
            let by = told.iter().find(|t| t.moment == moment);
            let worker_told = by.and_then(|t| t.worker);
            same_at(rt, &moment, worker_told, Some(*worker));
        }
        piece = piece.saturating_add(1);
    }
}

// A run of this number of workers, with this number of sends a piece, and the worker of each of its
// pieces.
const SHARED: [(Way, u32, u32, &[u32]); 11] = [
    (Way::Between, 1, 1, &[0, 0, 0, 0, 0, 0]),
    (Way::Between, 1, 2, &[0, 0, 0, 0]),
    (Way::Between, 1, 64, &[0, 0, 0]),
    (Way::Between, 2, 2, &[0, 1, 0, 0]),
    (Way::Between, 3, 1, &[0, 1, 2, 0, 0, 1]),
    (Way::Between, 64, 1, &[0, 1, 2, 0, 0, 1]),
    (Way::Beside, 1, 2, &[0, 0, 0]),
    (Way::Beside, 2, 2, &[0, 1, 0]),
    (Way::Beside, 3, 1, &[0, 1, 2, 0, 1, 2]),
    (Way::Beside, 4, 1, &[0, 1, 2, 3, 0, 1]),
    (Way::Beside, 64, 1, &[0, 1, 2, 3, 4, 5]),
];

#[test]
fn pieces_are_shared_out_in_turn(rt: HostRuntime) {
    for (way, workers, cut, by) in SHARED {
        let told = logged(&rt, rt.alloc(), way, workers, cut);
        are_by(&rt, &told, by);
    }
}

fn is_told_between_pieces(rt: &impl Abort, told: &[Told]) {
    use Moment::{ChangeDone, ChangeStarts, PieceDone, PieceStarts};
    for piece in [0, 1] {
        let moments = [
            PieceStarts(piece),
            PieceDone(piece),
            ChangeStarts(0),
            ChangeDone(0),
            PieceStarts(2),
            PieceDone(2),
            ChangeStarts(1),
            ChangeDone(1),
            ChangeStarts(2),
            ChangeDone(2),
            PieceStarts(3),
            PieceDone(3),
        ];
        are_in_order(rt, told, &moments);
    }
}

#[test]
fn a_change_between_sends_is_told_between_their_pieces(rt: HostRuntime) {
    for workers in [1, 2] {
        let told = logged(&rt, rt.alloc(), Way::Between, workers, 2);
        is_told_between_pieces(&rt, &told);
    }
}

fn are_told_in_their_order(rt: &impl Abort, told: &[Told]) {
    use Moment::{ChangeDone, ChangeStarts, PieceDone, PieceStarts};
    let changes = [
        ChangeStarts(0),
        ChangeDone(0),
        ChangeStarts(1),
        ChangeDone(1),
        ChangeStarts(2),
        ChangeDone(2),
    ];
    are_in_order(rt, told, &changes);
    let pieces = [PieceStarts(0), PieceDone(0), PieceStarts(2), PieceDone(2)];
    are_in_order(rt, told, &pieces);
    are_in_order(rt, told, &[PieceStarts(1), PieceDone(1)]);
}

#[test]
fn changes_beside_sends_are_told_in_their_order(rt: HostRuntime) {
    let told = logged(&rt, rt.alloc(), Way::Beside, 2, 2);
    are_told_in_their_order(&rt, &told);
}
