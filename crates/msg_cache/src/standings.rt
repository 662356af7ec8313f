//! The keeper's copy of what arrays are for.

ghost use Rattle.std.specs.Prelude.{◌≡◌, ◌^◌, ◌<◌, ◌≤◌, [], ◌∷◌, length, slice_set, IfOk, IfSome, IfNone};
ghost use Rattle.std.specs.List.{list_any};
ghost use Rattle.std.specs.List.Sorted.{IsPermutation};
ghost use Rattle.msg_cache.specs.Cursors.{AreSeenOut};
ghost use Rattle.msg_cache.specs.Uses.{AreLookedAt, EachAwaitsSome, HasNoFree, IsFirstFree, all_free, array_retired, free, is_waiting, live, use_at, newly_freed};

use crate::cursors::Cursors;
use crate::layered_set::LayeredSet;
use msg_tables::MOST_SENDERS;
use std::alloc::{AllocError, Global};
use std::collections::VecDeque;
use std::marker::Model;

/// Which arrays are free, and which senders each retired one awaits.
///
/// Retired arrays wait in a queue, in which each sender has a cursor. A sender that is seen out
/// passes the whole queue: nothing that was retired before awaits it any more. An array that all
/// senders have passed is free.
#[derive(Drop)]
pub(crate) struct Standings {
    // which arrays are free
    free: LayeredSet,
    // the retired arrays, oldest first
    queue: VecDeque<usize>,
    // the number of arrays, from the oldest on, that are free and are to be taken out
    ready: usize,
    // the number of the others, from the oldest on, that each sender has passed
    cursors: Cursors,
    senders: usize,
}

impl Model for Standings {
    ghost use Rattle.msg_cache.specs.Uses.{StandingsView};

    ghost Value = { StandingsView };

    ghost use Rattle.msg_cache.specs.Standings.{standings_view, IsStandings};

    ghost view = { standings_view };

    ghost invariant = { IsStandings };
}

impl Standings {
    // Makes the standings of free arrays, for a number of senders.
    pub(crate) fn all_free(
        alloc: Global,
        arrays: usize,
        senders: usize,
    ) -> Result<Standings, AllocError>
        requires arrays { arrays < 2 ^ 32 }
        requires senders { senders ≤ MOST_SENDERS }
        ensures { IfOk result (λ s. s ≡ all_free arrays senders) }
    {
        Ok(Standings {
            free: LayeredSet::all(alloc, arrays)?,
            queue: VecDeque::with_capacity(alloc, arrays)?,
            ready: 0,
            cursors: Cursors::all_first(alloc, senders)?,
            senders,
        })
    }

    // Makes a free array the live one of a class reference.
    pub(crate) fn install(&mut self, array: usize)
        requires array { array < length self.old.uses }
        requires free { use_at self.old.uses array ≡ free }
        requires ready { self.old.ready ≡ [] }
        ensures { self.new ≡ record self.old { uses = slice_set self.old.uses array live } }
    {
        self.free.remove(array);
    }

    // Takes a live array from its class reference. It then awaits all senders.
    pub(crate) fn retire(&mut self, array: usize)
        requires array { array < length self.old.uses }
        requires live { use_at self.old.uses array ≡ live }
        requires ready { self.old.ready ≡ [] }
        ensures { self.new ≡ array_retired array self.old }
    {
        self.queue.push_back_reserved(array);
    }

    // Notes that these senders were seen out, among them all those from the number `known` on.
    // Arrays that then await nobody are free, and ready to be taken out. Returns their number.
    pub(crate) fn see_out(&mut self, outs: &Vec<bool>, known: usize) -> u32
        requires senders { 0 < self.old.senders }
        requires outs { length outs.now.items ≡ self.old.senders }
        requires known { known ≤ self.old.senders }
        requires others { AreSeenOut known self.old.senders outs.now.items }
        requires awaits_some { EachAwaitsSome self.old.uses }
        requires ready { self.old.ready ≡ [] }
        ensures senders { self.new.senders ≡ self.old.senders }
        ensures uses { AreLookedAt self.old.senders outs.now.items self.old.uses self.new.uses }
        ensures ready { IsPermutation self.new.ready (newly_freed self.old.uses self.new.uses) }
        ensures count { result ≡ length self.new.ready }
    {
        let end = self.queue.len();
        let passed = self.cursors.pass(outs, known, end);
        self.cursors.cut(passed);
        self.ready = passed;
        passed as u32
    }

    // Takes the oldest array that is ready out of the queue.
    pub(crate) fn take_ready(&mut self) -> usize
        requires { 0 < length self.old.ready }
        ensures taken { self.old.ready ≡ result ∷ self.new.ready }
        ensures same { (self.new.senders ≡ self.old.senders) × (self.new.uses ≡ self.old.uses) }
        ensures free { (result < length self.old.uses) × (use_at self.old.uses result ≡ free) }
    {
        let array = self.queue.pop_front().unwrap();
        self.ready -= 1;
        self.free.insert(array);
        array
    }

    // Whether an array is retired.
    pub(crate) fn has_retired(&self) -> bool
        requires ready { self.now.ready ≡ [] }
        ensures { result ≡ list_any is_waiting self.now.uses }
    {
        !self.queue.is_empty()
    }

    // The lowest free array from one number up to another.
    pub(crate) fn first_free(&self, from: usize, until: usize) -> Option<usize>
        requires until { until ≤ length self.now.uses }
        requires ready { self.now.ready ≡ [] }
        ensures none { IfNone result (HasNoFree self.now.uses from until) }
        ensures some { IfSome result (IsFirstFree self.now.uses from until) }
    {
        self.free.first(from, until)
    }
}
