//! A gate that holds the thread that comes to a moment until another thread came to another.

use msg_runner::Gate;
use std::sync::atomic::{AtomicBool, Ordering};

/// A moment of a run.
#[derive(Clone, Copy, Debug, PartialEq, Eq)]
pub(crate) enum Moment {
    PieceStarts(u32),
    PieceDone(u32),
    ChangeStarts(u32),
    ChangeDone(u32),
}

/// One moment is held until the other.
#[derive(Drop)]
pub(crate) struct Hold {
    held: Moment,
    until: Moment,
    came: AtomicBool,
}

impl Hold {
    pub(crate) fn new(held: Moment, until: Moment) -> Hold {
        Hold {
            held,
            until,
            came: AtomicBool::new(false),
        }
    }
}

/// How often a thread that is held looks before it gives up.
pub(crate) const TURNS: u32 = 1_000_000_000;

/// The gate of some holds.
#[derive(Drop)]
pub(crate) struct Holding<'a> {
    holds: &'a [Hold],
    turns: u32,
    gave_up: AtomicBool,
}

fn waits_for(came: &AtomicBool, turns: u32) -> bool {
    for _turn in 0..turns {
        if came.load(Ordering::SeqCst) {
            return true;
        }
    }
    false
}

impl<'a> Holding<'a> {
    pub(crate) fn new(holds: &'a [Hold], turns: u32) -> Holding<'a> {
        Holding {
            holds,
            turns,
            gave_up: AtomicBool::new(false),
        }
    }

    /// Whether a thread was held for longer than it waits.
    pub(crate) fn gave_up(&self) -> bool {
        self.gave_up.load(Ordering::SeqCst)
    }

    fn tell(&self, moment: Moment) {
        for hold in self.holds {
            if hold.until == moment {
                hold.came.store(true, Ordering::SeqCst);
            }
        }
    }

    fn comes(&self, moment: Moment) {
        self.tell(moment);
        for hold in self.holds {
            if hold.held == moment && !waits_for(&hold.came, self.turns) {
                self.gave_up.store(true, Ordering::SeqCst);
            }
        }
    }
}

impl Gate for Holding<'_> {
    fn piece_starts(&self, _worker: u32, piece: u32) {
        self.comes(Moment::PieceStarts(piece));
    }

    fn piece_done(&self, _worker: u32, piece: u32) {
        self.comes(Moment::PieceDone(piece));
    }

    fn change_starts(&self, change: u32) {
        self.comes(Moment::ChangeStarts(change));
    }

    fn change_done(&self, change: u32) {
        self.comes(Moment::ChangeDone(change));
    }
}
