//! Every step on the table. Each is one call of the table. Its comment begins with the event that
//! it is, if it is one.

ghost use Rattle.std.specs.Prelude.{◌≡◌, ◌≢◌, ℕ, suc, ◌+◌, ◌-◌, ◌^◌, ◌<◌, ◌≤◌, [], None, length, slice_index, false};
ghost use Rattle.msg_names.specs.Number.{selector_number};
ghost use Rattle.msg_names.specs.declared.value.ClassRef.{ClassRef};
ghost use Rattle.msg_tables.specs.Origin.{class_total};
ghost use Rattle.msg_tables.specs.History.{History, lookup, log};
ghost use Rattle.msg_tables.specs.Several.{refusal_of_all};
ghost use Rattle.msg_model.specs.declared.state.Standing.TheVariants.{Free, Live};
ghost use Rattle.msg_model.specs.declared.state.Whereabouts.TheVariants.{In, Out, Holding};
ghost use Rattle.msg_model.specs.State.{size, awaits};
ghost use Rattle.msg_model.specs.View.{standing_at};
ghost use Rattle.msg_cache.specs.declared.view.TurnAt.TheVariants.{Away, Home};
ghost use Rattle.msg_cache.specs.Layout.{IsPlace, IsProbeWord, layout_of, header_at, stamp_at, probe_at};
ghost use Rattle.msg_cache.specs.Plays.{SawStamp, SawVersion, SawWord, IsTold, seated, turn_of, stored, flushed, installed, committed, looked, rest_looked, given_out, taken_in, newcomer, newcomer_with, lent, at_home, turn_view};
ghost use Rattle.msg_cache.specs.Rule.{HasNoEntry, LiveWordsAgreeAfter, NoneIsGivenFrom, StampsAreClosedFor, TidyBy};
ghost use Rattle.msg_model.specs.Stamps.{last_affected};
ghost use Rattle.msg_cache.specs.Seats.{CanReach, FoundHeader, IsKeeper, IsSameSeat, IsSender, KnowsNow, WentTo, keeper_at, sender_at};
ghost use Rattle.msg_cache.specs.Views.{IsEntryFor};

use crate::plays::{
    About, Asks, Bucket, Commit, Enter, Flush, Gather, Give, Gives, Header, Install, Leave, Lend,
    Look, LookAtRest, Stamp, Store, Tidied, Version, Witness,
};
use crate::prober::Prober;
use crate::rule::Rule;
use crate::setting::Setting;
use crate::view::View;
use atomic_table::Shared;
use msg_names::{ClassRef, Selector};
use msg_tables::ChangeList;
use std::snapshot::Snapshot;

pub(crate) type Words = Shared<u8, View, Setting, Rule>;

pub(crate) type Seat = atomic_table::Seat<u8, View>;

// The place of the header word of a class reference.
#[inline(always)]
pub(crate) fn header_at(class: ClassRef) -> usize
    ensures { result ≡ header_at class }
{
    1 + class.slot()
}

// Header: the header word of a class reference is loaded, to look for a selector in the array that
// it names.
pub(crate) fn load_header<Q: Asks>(
    words: &Words,
    seat: &mut Seat,
    class: ClassRef,
    _sel: Selector,
) -> u64
    requires table { CanReach words.now.table_id seat.old (header_at class) }
    requires class_asked { Q.class ≡ class }
    requires sel_asked { Q.sel ≡ selector_number _sel }
    requires arrays_asked { Q.arrays ≡ length words.now.key.capacities }
    requires sender { IsSender seat.old }
    requires inside { (sender_at seat.old).whereabouts ≡ In }
    requires class { class.class < class_total words.now.key.origin }
    ensures seat { IsSameSeat seat.old seat.new }
    ensures told { FoundHeader words.now.key class (selector_number _sel) result seat.old seat.new }
{
    words.load::<Header<Q>>(seat, header_at(class))
}

// Read: a word of the array that is held is loaded.
pub(crate) fn load_bucket(
    words: &Words,
    seat: &mut Seat,
    array: usize,
    base: usize,
    place: usize,
) -> u64
    requires table { CanReach words.now.table_id seat.old (base + place) }
    requires few { words.now.table_id.words < 2 ^ 32 }
    requires sender { IsSender seat.old }
    requires holding { (sender_at seat.old).whereabouts ≡ Holding (sender_at seat.old).last.class array }
    requires sought { 0 < (sender_at seat.old).last.sel }
    requires place { IsPlace words.now.key array base place }
    ensures seat { IsSameSeat seat.old seat.new }
    ensures told { SawWord lookup (base + place) result (sender_at seat.old) seat.new.me }
{
    words.load::<Bucket>(seat, base + place)
}

// No event: a sender loads the count of changes.
pub(crate) fn load_version(words: &Words, seat: &mut Seat) -> u64
    requires table { CanReach words.now.table_id seat.old 0 }
    requires sender { IsSender seat.old }
    requires free { (c : ClassRef) (a : ℕ) → (sender_at seat.old).whereabouts ≢ Holding c a }
    ensures seat { IsSameSeat seat.old seat.new }
    ensures told { SawVersion result (sender_at seat.old) seat.new.me }
{
    words.load::<Version>(seat, 0)
}

// No event: a sender loads the stamp of a class reference.
pub(crate) fn load_stamp<Q: Asks>(
    words: &Words,
    seat: &mut Seat,
    _class: ClassRef,
    place: usize,
) -> u64
    requires table { CanReach words.now.table_id seat.old place }
    requires class_asked { Q.class ≡ _class }
    requires sender { IsSender seat.old }
    requires free { (c : ClassRef) (a : ℕ) → (sender_at seat.old).whereabouts ≢ Holding c a }
    requires class { _class.class < class_total words.now.key.origin }
    requires place { place ≡ stamp_at (layout_of words.now.key) _class }
    ensures seat { IsSameSeat seat.old seat.new }
    ensures told { SawStamp _class result (sender_at seat.old) seat.new.me }
{
    words.load::<Stamp<Q>>(seat, place)
}

// Enter: a sender sets its probe word.
pub(crate) fn enter(words: &Words, seat: &mut Seat, word: usize)
    requires table { CanReach words.now.table_id seat.old word }
    requires sender { IsSender seat.old }
    requires out { (sender_at seat.old).whereabouts ≡ Out }
    requires word { word ≡ probe_at (layout_of words.now.key) (sender_at seat.old).number }
    ensures seat { IsSameSeat seat.old seat.new }
    ensures told { WentTo In seat.old seat.new }
{
    words.store::<Enter>(seat, word, 1);
}

// Leave: a sender clears its probe word.
pub(crate) fn leave(words: &Words, seat: &mut Seat, word: usize)
    requires table { CanReach words.now.table_id seat.old word }
    requires sender { IsSender seat.old }
    requires inside { (sender_at seat.old).whereabouts ≢ Out }
    requires word { word ≡ probe_at (layout_of words.now.key) (sender_at seat.old).number }
    ensures seat { IsSameSeat seat.old seat.new }
    ensures told { WentTo Out seat.old seat.new }
{
    words.store::<Leave>(seat, word, 0);
}

// Fill: an entry is stored in an empty bucket of the live array of a class reference.
pub(crate) fn store_entry<Q: About>(
    words: &Words,
    seat: &mut Seat,
    _class: ClassRef,
    array: usize,
    base: usize,
    place: usize,
    word: u64,
)
    requires table { CanReach words.now.table_id seat.old (base + place) }
    requires few { words.now.table_id.words < 2 ^ 32 }
    requires about { Q.key ≡ words.now.key }
    requires keeper { IsKeeper seat.old }
    requires place { IsPlace words.now.key array base place }
    requires live { standing_at (keeper_at seat.old).standings array ≡ Live _class }
    requires clear { slice_index (keeper_at seat.old).words (base + place) ≡ 0 }
    requires agrees { IsEntryFor (keeper_at seat.old).history _class word }
    ensures seat { IsSameSeat seat.old seat.new }
    ensures told { KnowsNow (stored (base + place) word) seat.old seat.new }
    ensures tidy { TidyBy lookup words.now.key (keeper_at seat.new) }
{
    words.store::<Tidied<Store, Q>>(seat, base + place, word);
}

// Clear: 0 is stored in a word of a free array.
pub(crate) fn clear_word<Q: About>(
    words: &Words,
    seat: &mut Seat,
    array: usize,
    base: usize,
    place: usize,
)
    requires table { CanReach words.now.table_id seat.old (base + place) }
    requires few { words.now.table_id.words < 2 ^ 32 }
    requires about { Q.key ≡ words.now.key }
    requires keeper { IsKeeper seat.old }
    requires place { IsPlace words.now.key array base place }
    requires free { standing_at (keeper_at seat.old).standings array ≡ Free }
    ensures seat { IsSameSeat seat.old seat.new }
    ensures told { KnowsNow (stored (base + place) 0) seat.old seat.new }
    ensures tidy { TidyBy lookup words.now.key (keeper_at seat.new) }
{
    words.store::<Tidied<Store, Q>>(seat, base + place, 0);
}

// Flush: the live array of a class reference is retired.
pub(crate) fn store_none<Q: About>(words: &Words, seat: &mut Seat, class: ClassRef, _array: usize)
    requires table { CanReach words.now.table_id seat.old (header_at class) }
    requires about { Q.key ≡ words.now.key }
    requires keeper { IsKeeper seat.old }
    requires class { class.class < class_total words.now.key.origin }
    requires live { slice_index (keeper_at seat.old).words (header_at class) ≡ suc _array }
    ensures seat { IsSameSeat seat.old seat.new }
    ensures told { KnowsNow (flushed class) seat.old seat.new }
    ensures tidy { TidyBy lookup words.now.key (keeper_at seat.new) }
{
    words.store::<Tidied<Flush, Q>>(seat, header_at(class), 0);
}

// Install: an empty array that is free becomes the live one of a class reference, and the one
// before is retired.
pub(crate) fn store_array<Q: About>(words: &Words, seat: &mut Seat, class: ClassRef, array: u32)
    requires table { CanReach words.now.table_id seat.old (header_at class) }
    requires about { Q.key ≡ words.now.key }
    requires keeper { IsKeeper seat.old }
    requires class { class.class < class_total words.now.key.origin }
    requires array { array < length words.now.key.capacities }
    requires free { standing_at (keeper_at seat.old).standings array ≡ Free }
    requires clear { HasNoEntry (layout_of words.now.key) (keeper_at seat.old) array }
    ensures seat { IsSameSeat seat.old seat.new }
    ensures told { KnowsNow (installed class array) seat.old seat.new }
    ensures tidy { TidyBy lookup words.now.key (keeper_at seat.new) }
{
    words.store::<Tidied<Install, Q>>(seat, header_at(class), array as u64 + 1);
}

// No event: a stamp is stored, which is not below the number of the last change that affects its
// class reference.
pub(crate) fn store_stamp<Q: About>(
    words: &Words,
    seat: &mut Seat,
    _class: ClassRef,
    place: usize,
    count: u64,
)
    requires table { CanReach words.now.table_id seat.old place }
    requires about { Q.key ≡ words.now.key }
    requires keeper { IsKeeper seat.old }
    requires class { _class.class < class_total words.now.key.origin }
    requires place { place ≡ stamp_at (layout_of words.now.key) _class }
    requires since { last_affected (keeper_at seat.old).history _class ≤ count }
    ensures seat { IsSameSeat seat.old seat.new }
    ensures told { KnowsNow (stored place count) seat.old seat.new }
    ensures tidy { TidyBy lookup words.now.key (keeper_at seat.new) }
{
    words.store::<Tidied<Store, Q>>(seat, place, count);
}

// Commit: the count of changes is stored, while the turn is joined.
pub(crate) fn store_count<Q: About, L: ChangeList>(
    words: &Words,
    seat: &mut Seat,
    count: u64,
    changes: &L,
)
    requires table { CanReach words.now.table_id seat.old 0 }
    requires about { (Q.key ≡ words.now.key) × (Q.changes ≡ L.changes changes.now) }
    requires keeper { IsKeeper seat.old }
    requires turn { (g : History) × ((keeper_at seat.old).turn ≡ Home g) }
    requires count { count ≡ size (keeper_at seat.old).history + 1 }
    requires some { 0 < length (L.changes changes.now) }
    requires accepted { refusal_of_all (log (keeper_at seat.old).history) (L.changes changes.now) ≡ None }
    requires closed { StampsAreClosedFor words.now.key (keeper_at seat.old) (L.changes changes.now) }
    requires agrees { LiveWordsAgreeAfter lookup words.now.key (keeper_at seat.old) (L.changes changes.now) }
    ensures seat { IsSameSeat seat.old seat.new }
    ensures told { KnowsNow (committed (L.changes changes.now)) seat.old seat.new }
    ensures witness { IsTold (keeper_at seat.old) }
    ensures tidy { TidyBy lookup words.now.key (keeper_at seat.new) }
{
    words.store::<Tidied<Commit<Q>, Q>>(seat, 0, count);
}

// Look: a sender's probe word is loaded. Returns whether the sender was out, and is no longer
// awaited.
pub(crate) fn load_probe<Q: About>(words: &Words, seat: &mut Seat, word: usize, number: u32) -> bool
    requires table { CanReach words.now.table_id seat.old word }
    requires about { (Q.key ≡ words.now.key) × (Q.number ≡ number) }
    requires keeper { IsKeeper seat.old }
    requires word { IsProbeWord words.now.key number word }
    ensures seat { IsSameSeat seat.old seat.new }
    ensures told { KnowsNow (looked number result) seat.old seat.new }
    ensures tidy { TidyBy lookup words.now.key (keeper_at seat.new) }
{
    words.load::<Tidied<Look<Q>, Q>>(seat, word) == 0
}

// Look, once for each sender number from one on, none of which is given out. Their senders are out,
// so their probe words need no load. All these looks are one step, by a load of the count of
// changes.
pub(crate) fn look_at_rest<Q: About>(words: &Words, seat: &mut Seat, _number: u32)
    requires table { CanReach words.now.table_id seat.old 0 }
    requires about { (Q.key ≡ words.now.key) × (Q.number ≡ _number) }
    requires keeper { IsKeeper seat.old }
    requires number { _number ≤ words.now.key.senders }
    requires nobody { NoneIsGivenFrom _number (keeper_at seat.old).given }
    ensures seat { IsSameSeat seat.old seat.new }
    ensures told { KnowsNow (rest_looked _number (words.now.key.senders - _number)) seat.old seat.new }
    ensures tidy { TidyBy lookup words.now.key (keeper_at seat.new) }
{
    words.load::<Tidied<LookAtRest<Q>, Q>>(seat, 0);
}

// No event: the keeper loads the count of changes. It learns that what a joined seat knew is a
// beginning of the history.
pub(crate) fn witness<Q: About>(words: &Words, seat: &mut Seat)
    requires table { CanReach words.now.table_id seat.old 0 }
    requires about { Q.key ≡ words.now.key }
    requires keeper { IsKeeper seat.old }
    ensures seat { IsSameSeat seat.old seat.new }
    ensures told { (seat.new.me ≡ seat.old.me) × IsTold (keeper_at seat.old) }
    ensures tidy { TidyBy lookup words.now.key (keeper_at seat.new) }
{
    words.load::<Tidied<Witness, Q>>(seat, 0);
}

// No event: a sender's seat is split off, at the keeper's history.
pub(crate) fn split_sender<Q: Gives>(words: &Words, seat: &mut Seat, number: u32) -> Seat
    requires table { CanReach words.now.table_id seat.old 0 }
    requires about { Q.number ≡ number }
    requires unstamped { Q.stamps ≡ [] }
    requires keeper { IsKeeper seat.old }
    requires number { number < words.now.key.senders }
    requires free { awaits (keeper_at seat.old).given number ≡ false }
    ensures seat { IsSameSeat seat.old seat.new }
    ensures told { KnowsNow (given_out number) seat.old seat.new }
    ensures table { result.table_id ≡ seat.old.table_id }
    ensures sender { result.me ≡ seated (newcomer number (keeper_at seat.old).history) }
{
    words.split_seat::<Give<Q>>(seat)
}

// No event: the same, for a sender that was given out before. It still says which stamps it had
// loaded.
pub(crate) fn split_again<Q: Gives>(
    words: &Words,
    seat: &mut Seat,
    number: u32,
    _before: &Snapshot<Prober>,
) -> Seat
    requires table { CanReach words.now.table_id seat.old 0 }
    requires about { Q.number ≡ number }
    requires stamped { Q.stamps ≡ _before.now.value.sender.stamps }
    requires keeper { IsKeeper seat.old }
    requires number { number < words.now.key.senders }
    requires free { awaits (keeper_at seat.old).given number ≡ false }
    ensures seat { IsSameSeat seat.old seat.new }
    ensures told { KnowsNow (given_out number) seat.old seat.new }
    ensures table { result.table_id ≡ seat.old.table_id }
    ensures sender { result.me
        ≡ seated (newcomer_with number _before.now.value.sender.stamps (keeper_at seat.old).history) }
{
    words.split_seat::<Give<Q>>(seat)
}

// No event: the seat of a sender that is out is joined.
pub(crate) fn join_sender(words: &Words, seat: &mut Seat, other: Seat)
    requires table { CanReach words.now.table_id seat.old 0 }
    requires other { other.table_id ≡ words.now.table_id }
    requires keeper { IsKeeper seat.old }
    requires sender { IsSender other }
    requires out { (sender_at other).whereabouts ≡ Out }
    ensures seat { IsSameSeat seat.old seat.new }
    ensures told { KnowsNow (taken_in (sender_at other)) seat.old seat.new }
{
    words.join_seat::<Gather>(seat, other);
}

// No event: the turn's seat is split off.
pub(crate) fn split_turn(words: &Words, seat: &mut Seat) -> Seat
    requires table { CanReach words.now.table_id seat.old 0 }
    requires keeper { IsKeeper seat.old }
    requires home { (keeper_at seat.old).turn ≢ Away }
    ensures seat { IsSameSeat seat.old seat.new }
    ensures told { KnowsNow lent seat.old seat.new }
    ensures table { result.table_id ≡ seat.old.table_id }
    ensures turn { result.me ≡ (turn_view (keeper_at seat.old).history, []) }
{
    words.split_seat::<Lend>(seat)
}

// No event: the turn's seat is joined.
pub(crate) fn join_turn(words: &Words, seat: &mut Seat, other: Seat)
    requires table { CanReach words.now.table_id seat.old 0 }
    requires other { other.table_id ≡ words.now.table_id }
    requires keeper { IsKeeper seat.old }
    requires turn { other.me ≡ (turn_view (turn_of other.me.0), []) }
    ensures seat { IsSameSeat seat.old seat.new }
    ensures told { KnowsNow (at_home (turn_of other.me.0)) seat.old seat.new }
{
    words.join_seat::<Gather>(seat, other);
}
