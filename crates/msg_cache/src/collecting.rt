//! A collection: it finds out which senders are out and which arrays nobody holds any more, and
//! clears the words of those.

ghost use Rattle.std.specs.Prelude.{◌≡◌, ℕ, ◌+◌, ◌^◌, ◌<◌, ◌≤◌, length, true, IfOk};
ghost use Rattle.msg_tables.specs.History.{lookup};
ghost use Rattle.msg_model.specs.declared.state.Standing.TheVariants.{Free};
ghost use Rattle.msg_model.specs.State.{awaits};
ghost use Rattle.msg_cache.specs.Keeping.{standing_of, looks, cleared, emptied, Collects};
ghost use Rattle.msg_cache.specs.Layout.{IsPlace, layout_of};
ghost use Rattle.msg_cache.specs.Rule.{NoneIsGivenFrom, TidyBy};
ghost use Rattle.msg_cache.specs.Seats.{CanReach, IsInOrder, IsKeeper, IsSameSeat, KnowsNow, keeper_at, uses_at};
ghost use Rattle.msg_cache.specs.Views.{layout};

use crate::arena::Arena;
use crate::standings::Standings;
use crate::steps::{Seat, Words, clear_word, load_probe, look_at_rest};
use std::alloc::{AllocError, Global};
use std::marker::Brand;

/// The senders that were out at the last look.
#[derive(Drop)]
pub(crate) struct Outs {
    were: Vec<bool>,
    // no sender number from this one on was ever given out
    known: u32,
    pub ghost few: { length were.items < 2 ^ 32 },
    pub ghost within: { known ≤ length were.items },
    pub ghost others: { (n : ℕ) → known ≤ n → n < length were.items → awaits were.items n ≡ true },
}

impl Outs {
    // Makes the record of this number of sender numbers, none of which was given out.
    pub(crate) fn all(alloc: Global, senders: usize) -> Result<Outs, AllocError>
        requires senders { senders < 2 ^ 32 }
        ensures senders { IfOk result (λ o. length o.were.items ≡ senders) }
        ensures known { IfOk result (λ o. o.known ≡ 0) }
    {
        let were = vec![in alloc; true; senders]?;
        Ok(Outs { were, known: 0 })
    }

    // Notes that a sender number is given out.
    pub(crate) fn know(&mut self, number: u32)
        requires number { number < length self.old.were.items }
        ensures outs { self.new.were.items ≡ self.old.were.items }
        ensures number { number < self.new.known }
        ensures known { self.old.known ≤ self.new.known }
    {
        self.known = self.known.max(number + 1);
    }
}

// Makes one look at each of the first sender numbers, and returns who was out.
fn look_at_first(arena: &Arena, seat: &mut Seat, were: &mut Vec<bool>, known: u32)
    requires table { seat.old.table_id ≡ arena.now.table }
    requires keeper { IsKeeper seat.old }
    requires tidy { TidyBy lookup arena.now.key (keeper_at seat.old) }
    requires were { length were.old.items ≡ arena.now.key.senders }
    requires known { known ≤ arena.now.key.senders }
    ensures seat { IsSameSeat seat.old seat.new }
    ensures told { KnowsNow (looks known were.new.items) seat.old seat.new }
    ensures were { length were.new.items ≡ length were.old.items }
    ensures others { (n : ℕ) → known ≤ n → awaits were.new.items n ≡ awaits were.old.items n }
    ensures tidy { TidyBy lookup arena.now.key (keeper_at seat.new) }
{
    let shared = arena.shared();
    for number in 0..known {
        let word = arena.probe_at(number);
        were[number as usize] = load_probe::<Brand>(shared, seat, word, number);
    }
}

// Makes one look at each sender number, and returns who was out.
fn look_at_senders(arena: &Arena, seat: &mut Seat, outs: &mut Outs)
    requires table { seat.old.table_id ≡ arena.now.table }
    requires keeper { IsKeeper seat.old }
    requires tidy { TidyBy lookup arena.now.key (keeper_at seat.old) }
    requires outs { length outs.old.were.items ≡ arena.now.key.senders }
    requires nobody { NoneIsGivenFrom outs.old.known (keeper_at seat.old).given }
    ensures seat { IsSameSeat seat.old seat.new }
    ensures told { KnowsNow (looks arena.now.key.senders outs.new.were.items) seat.old seat.new }
    ensures outs { length outs.new.were.items ≡ length outs.old.were.items }
    ensures known { outs.new.known ≡ outs.old.known }
    ensures tidy { TidyBy lookup arena.now.key (keeper_at seat.new) }
{
    look_at_first(arena, seat, &mut outs.were, outs.known);
    look_at_rest::<Brand>(arena.shared(), seat, outs.known);
}

// Clears a word of a free array, if it isn't 0.
#[tactic(auto, using(crate::proofs::ClearingLemmas::cleared_zero, crate::proofs::ClearingLemmas::cleared_some))]
fn clear_place(
    shared: &Words,
    seat: &mut Seat,
    words: &mut Vec<u64>,
    array: usize,
    base: usize,
    place: usize,
)
    requires table { CanReach shared.now.table_id seat.old (base + place) }
    requires few { shared.now.table_id.words < 2 ^ 32 }
    requires keeper { IsKeeper seat.old }
    requires tidy { TidyBy lookup shared.now.key (keeper_at seat.old) }
    requires words { words.old.items ≡ (keeper_at seat.old).words }
    requires within { base + place < length words.old.items }
    requires place { IsPlace shared.now.key array base place }
    requires free { standing_of (keeper_at seat.old) array ≡ Free }
    ensures seat { IsSameSeat seat.old seat.new }
    ensures told { KnowsNow (cleared (base + place)) seat.old seat.new }
    ensures tidy { TidyBy lookup shared.now.key (keeper_at seat.new) }
    ensures words { words.new.items ≡ (keeper_at seat.new).words }
{
    let at = base + place;
    if words[at] != 0 {
        clear_word::<Brand>(shared, seat, array, base, place);
        words[at] = 0;
    }
}

// Clears each word of a free array that isn't 0.
fn clear_array(arena: &Arena, seat: &mut Seat, words: &mut Vec<u64>, array: usize)
    requires table { seat.old.table_id ≡ arena.now.table }
    requires keeper { IsKeeper seat.old }
    requires tidy { TidyBy lookup arena.now.key (keeper_at seat.old) }
    requires words { words.old.items ≡ (keeper_at seat.old).words }
    requires array { array < length arena.now.key.capacities }
    requires free { standing_of (keeper_at seat.old) array ≡ Free }
    ensures seat { IsSameSeat seat.old seat.new }
    ensures told { KnowsNow (emptied (layout_of arena.now.key) array) seat.old seat.new }
    ensures tidy { TidyBy lookup arena.now.key (keeper_at seat.new) }
    ensures words { words.new.items ≡ (keeper_at seat.new).words }
{
    let shared = arena.shared();
    let base = arena.base(array);
    let capacity = arena.capacity(array) as usize;
    for place in 0..capacity {
        clear_place(shared, seat, words, array, base, place);
    }
}

// Makes a collection, with the keeper's copies of words and standings and its count of each array's
// entries. It looks at no sender if no array is retired.
pub(crate) fn collect_into(
    arena: &Arena,
    seat: &mut Seat,
    words: &mut Vec<u64>,
    standings: &mut Standings,
    occupied: &mut Vec<u32>,
    remembered: &Vec<u32>,
    outs: &mut Outs,
) -> u32
    requires table { seat.old.table_id ≡ arena.now.table }
    requires keeper { IsKeeper seat.old }
    requires in_order { IsInOrder arena.now.key seat.old remembered.now.items occupied.old.items }
    requires words { words.old.items ≡ (keeper_at seat.old).words }
    requires standings { standings.old ≡ uses_at arena.now.key.senders seat.old }
    requires outs { length outs.old.were.items ≡ arena.now.key.senders }
    requires nobody { NoneIsGivenFrom outs.old.known (keeper_at seat.old).given }
    ensures seat { IsSameSeat seat.old seat.new }
    ensures keeper { IsKeeper seat.new }
    ensures collects { Collects (layout arena.now) (keeper_at seat.old) (keeper_at seat.new) result }
    ensures in_order { IsInOrder arena.now.key seat.new remembered.now.items occupied.new.items }
    ensures words { words.new.items ≡ (keeper_at seat.new).words }
    ensures standings { standings.new ≡ uses_at arena.now.key.senders seat.new }
    ensures outs { length outs.new.were.items ≡ length outs.old.were.items }
    ensures known { outs.new.known ≡ outs.old.known }
{
    if !standings.has_retired() {
        return 0;
    }
    look_at_senders(arena, seat, outs);
    let freed = standings.see_out(&outs.were, outs.known as usize);
    for _turn in 0..freed {
        let array = standings.take_ready();
        clear_array(arena, seat, words, array);
        occupied[array] = 0;
    }
    freed
}
