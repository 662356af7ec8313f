//! The positions of senders in a queue.

ghost use Rattle.std.specs.Prelude.{◌≡◌, ℕ, ◌<◌, ◌≤◌, length, replicate, slice_index, IfOk, if◌then◌else◌};
ghost use Rattle.msg_cache.specs.Cursors.{AreCut, AreSeenOut, HavePassed, SameBelow, SomeStandsAt};

use std::alloc::{AllocError, Global};
use std::marker::Model;

/// The number of places of a queue that each sender has passed.
///
/// Senders whose numbers were never given out pass together, so the cost of a pass doesn't depend
/// on their number.
#[derive(Drop)]
pub(crate) struct Cursors {
    // a cursor for each sender, used for those below the number `known`
    own: Vec<usize>,
    known: usize,
    // the cursor of all others
    rest: usize,
}

impl Model for Cursors {
    ghost use Rattle.std.specs.Prelude.{ℕ, List};

    ghost Value = { List ℕ };

    ghost use Rattle.msg_cache.specs.Cursors.{cursors_view, IsCursors};

    ghost view = { cursors_view };

    ghost invariant = { IsCursors };
}

// The position of a cursor after a look, in a queue of this length.
fn passed(cursor: usize, is_out: bool, end: usize) -> usize
    ensures { result ≡ (if is_out then end else cursor) }
{
    if is_out { end } else { cursor }
}

// Senders that were seen out pass a queue of this length. Returns the number of its places that all
// have passed.
fn pass(cursors: &mut Vec<usize>, outs: &Vec<bool>, senders: usize, end: usize) -> usize
    requires senders { (senders ≤ length cursors.old.items) × (senders ≤ length outs.now.items) }
    requires within { (n : ℕ) → n < senders → slice_index cursors.old.items n ≤ end }
    ensures moved { HavePassed outs.now.items end senders cursors.old.items cursors.new.items }
    ensures all { (n : ℕ) → n < senders → result ≤ slice_index cursors.new.items n }
    ensures some { 0 < senders → SomeStandsAt senders cursors.new.items result }
    ensures none { senders ≤ 0 → result ≡ end }
    ensures end { result ≤ end }
    ensures length { length cursors.new.items ≡ length cursors.old.items }
{
    let mut least = end;
    for sender in 0..senders {
        let cursor = passed(cursors[sender], outs[sender], end);
        cursors[sender] = cursor;
        least = least.min(cursor);
    }
    least
}

// Drops the front of the queue, which all have passed.
fn cut(cursors: &mut Vec<usize>, senders: usize, by: usize)
    requires senders { senders ≤ length cursors.old.items }
    requires all { (n : ℕ) → n < senders → by ≤ slice_index cursors.old.items n }
    ensures moved { AreCut by senders cursors.old.items cursors.new.items }
    ensures length { length cursors.new.items ≡ length cursors.old.items }
{
    for sender in 0..senders {
        cursors[sender] -= by;
    }
}

// Gives senders from one number up to another a cursor of their own.
fn part(cursors: &mut Vec<usize>, from: usize, until: usize, at: usize)
    requires until { until ≤ length cursors.old.items }
    ensures before { SameBelow from cursors.old.items cursors.new.items }
    ensures parted { (n : ℕ) → from ≤ n → n < until → slice_index cursors.new.items n ≡ at }
    ensures length { length cursors.new.items ≡ length cursors.old.items }
{
    for sender in from..until {
        cursors[sender] = at;
    }
}

impl Cursors {
    // Makes the cursors of this number of senders, none of whom has passed anything.
    pub(crate) fn all_first(alloc: Global, senders: usize) -> Result<Cursors, AllocError>
        ensures { IfOk result (λ c. c ≡ replicate senders 0) }
    {
        let own = vec![in alloc; 0; senders]?;
        Ok(Cursors {
            own,
            known: 0,
            rest: 0,
        })
    }

    // Senders that were seen out, among them all those from the number `known` on, pass a queue of
    // this length. Returns the number of its places that all have passed.
    pub(crate) fn pass(&mut self, outs: &Vec<bool>, known: usize, end: usize) -> usize
        requires known { known ≤ length self.old }
        requires outs { length self.old ≤ length outs.now.items }
        requires others { AreSeenOut known (length self.old) outs.now.items }
        requires within { (n : ℕ) → n < length self.old → slice_index self.old n ≤ end }
        ensures moved { HavePassed outs.now.items end (length self.old) self.old self.new }
        ensures all { (n : ℕ) → n < length self.old → result ≤ slice_index self.new n }
        ensures some { 0 < length self.old → SomeStandsAt (length self.old) self.new result }
        ensures end { result ≤ end }
        ensures length { length self.new ≡ length self.old }
    {
        let known = self.known.max(known);
        part(&mut self.own, self.known, known, self.rest);
        self.known = known;
        self.rest = end;
        pass(&mut self.own, outs, known, end)
    }

    // Drops the front of the queue, which all have passed.
    pub(crate) fn cut(&mut self, by: usize)
        requires all { (n : ℕ) → n < length self.old → by ≤ slice_index self.old n }
        ensures moved { AreCut by (length self.old) self.old self.new }
        ensures length { length self.new ≡ length self.old }
    {
        cut(&mut self.own, self.known, by);
        self.rest = self.rest.saturating_sub(by);
    }
}
