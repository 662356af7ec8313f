//! Senders, which read caches without a lock.

ghost use Rattle.std.specs.Prelude.{◌≡◌, ◌≢◌, ◌<◌, ◌+◌, ◌≤◌, [], length, IfSome, IfNone};
ghost use Rattle.msg_tables.specs.History.{BeginsWith, lookup};
ghost use Rattle.msg_model.specs.State.{size};
ghost use Rattle.msg_model.specs.declared.state.Whereabouts.TheVariants.{In, Out};
ghost use Rattle.msg_cache.specs.Plays.{seated, given_again, taken_in, renewed, stamped_to};
ghost use Rattle.msg_cache.specs.Record.{MadeNoProbe, Misses};
ghost use Rattle.msg_cache.specs.Rule.{IsAccepted, TidyBy};
ghost use Rattle.msg_model.specs.Stamps.{last_affected};
ghost use Rattle.msg_cache.specs.Seats.{CanReach, IsKeeper, IsSameSeat, IsSender, KnowsNow, keeper_at, prober_at, sender_at};
ghost use Rattle.msg_cache.specs.Views.{HitsAndIsFound, IsSenderOf, ProbesFor, classes, layout};

use crate::arena::Arena;
use crate::steps::{
    Seat, Words, enter, join_sender, leave, load_bucket, load_header, load_stamp, load_version,
    split_again, witness,
};
use crate::view::View;
use atomic_table::Badge;
use msg_buckets::{Look, first_place, look_at, next_place};
use msg_names::{ClassRef, ImpRef, Selector};
use std::marker::{Brand, Model};
use std::mem::replace;
use std::snapshot::Snapshot;

/// A callback between the loads of a probe.
pub trait Pause {
    /// It is called before each load of a header or bucket word, with the number of such loads that
    /// this probe has made before.
    fn at(&mut self, loads: u32);
}

// The callback that does nothing.
#[derive(Clone, Copy)]
pub(crate) struct NoPause;

impl Pause for NoPause {
    #[inline(always)]
    fn at(&mut self, _loads: u32) {}
}

// Searches the live array of a class reference while the sender is in. Returns also the number of
// bucket words that were loaded.
pub(crate) fn search<P: Pause>(
    arena: &Arena,
    seat: &mut Seat,
    class: ClassRef,
    sel: Selector,
    pause: &mut P,
) -> (Option<ImpRef>, u32)
    requires table { seat.old.table_id ≡ arena.now.table }
    requires sender { IsSender seat.old }
    requires inside { (sender_at seat.old).whereabouts ≡ In }
    requires class { class.class < classes arena.now }
    ensures seat { IsSameSeat seat.old seat.new }
    ensures sender { IsSender seat.new }
    ensures inside { (sender_at seat.new).whereabouts ≢ Out }
    ensures probes { ProbesFor arena.now class sel (sender_at seat.old) (sender_at seat.new) }
    ensures loads { result.1 ≡ length (sender_at seat.new).last.reads }
    ensures some { IfSome result.0 (HitsAndIsFound (sender_at seat.new) class sel) }
    ensures none { IfNone result.0 (Misses (layout arena.now) (sender_at seat.new).last) }
{
    let shared = arena.shared();
    pause.at(0);
    let header = load_header::<Brand>(shared, seat, class, sel);
    if header == 0 {
        return (None, 0);
    }
    let array = (header - 1) as usize;
    let base = arena.base(array);
    let capacity = arena.capacity(array);
    let mut place = first_place(sel, capacity);
    // Most probes end at the first word, so nothing that only further words need is computed before
    // that is looked at.
    pause.at(1);
    let mut word = load_bucket(shared, seat, array, base, place);
    let mut loads = 1;
    loop {
        match look_at(word, sel) {
            Look::Hit(imp) => return (Some(imp), loads),
            Look::Empty => return (None, loads),
            Look::Other => {}
        }
        if loads == capacity {
            return (None, loads);
        }
        place = next_place(place, capacity);
        pause.at(loads + 1);
        word = load_bucket(shared, seat, array, base, place);
        loads += 1;
    }
}

/// A sender.
#[derive(Drop)]
pub struct Prober {
    badge: Badge<View>,
    // the place of the probe word
    place: usize,
    number: u32,
    loads: u32,
}

impl Model for Prober {
    ghost use Rattle.msg_cache.specs.Views.{ProberView};

    ghost Value = { ProberView };

    ghost use Rattle.std.specs.Coded.{codes};
    ghost use Rattle.atomic_table.specs.Seated.{table_id_coded};

    ghost coded = { Prim.hlevel (codes, table_id_coded) };

    ghost use Rattle.msg_cache.specs.Inside.{prober_view, IsProber};

    ghost view = { prober_view };

    ghost invariant = { IsProber };
}

impl Prober {
    // Makes a sender that has probed nothing.
    pub(crate) fn of(seat: Seat, number: u32, place: usize) -> Prober
        requires sender { IsSender seat }
        requires number { (sender_at seat).number ≡ number }
        requires out { (sender_at seat).whereabouts ≡ Out }
        requires reads { (sender_at seat).last.reads ≡ [] }
        ensures { result ≡ prober_at seat place }
    {
        Prober {
            badge: seat.into_badge(),
            place,
            number,
            loads: 0,
        }
    }

    // Joins the seat to the keeper's, and splits it off again with the same number, at the keeper's
    // history. It still says which stamps it has loaded.
    pub(crate) fn renew(&mut self, words: &Words, keeper: &mut Seat)
        requires own { self.old.table ≡ words.now.table_id }
        requires table { CanReach words.now.table_id keeper.old 0 }
        requires keeper { IsKeeper keeper.old }
        requires number { self.old.sender.number < words.now.key.senders }
        ensures own { self.new.table ≡ self.old.table }
        ensures table { keeper.new.table_id ≡ keeper.old.table_id }
        ensures place { self.new.place ≡ self.old.place }
        ensures keeper { KnowsNow (given_again self.old.sender) keeper.old keeper.new }
        ensures tidy { TidyBy lookup words.now.key (taken_in self.old.sender (keeper_at keeper.old)) }
        ensures sender { self.new.sender ≡ renewed self.old.sender (keeper_at keeper.old).history }
        ensures begins { BeginsWith (keeper_at keeper.old).history self.old.sender.front }
    {
        let before = Snapshot::of(&*self);
        let seat = replace(&mut self.badge, Badge::blank()).into_seat();
        join_sender(words, keeper, seat);
        witness::<Brand>(words, keeper);
        let seat = split_again::<Brand>(words, keeper, self.number, &before);
        self.badge = seat.into_badge();
        self.loads = 0;
    }

    pub(crate) fn into_seat(self) -> Seat
        ensures table { result.table_id ≡ self.table }
        ensures sender { result.me ≡ seated self.sender }
        ensures out { self.sender.whereabouts ≡ Out }
    {
        self.badge.into_seat()
    }

    /// Returns the implementation that the class reference's cache has for the selector, if it has
    /// one. It takes no lock.
    pub fn probe(&mut self, arena: &Arena, class: ClassRef, sel: Selector) -> Option<ImpRef>
        requires arena { IsSenderOf arena.now self.old }
        requires class { class.class < classes arena.now }
        ensures arena { IsSenderOf arena.now self.new }
        ensures probes { ProbesFor arena.now class sel self.old.sender self.new.sender }
        ensures some { IfSome result (HitsAndIsFound self.new.sender class sel) }
        ensures none { IfNone result (Misses (layout arena.now) self.new.sender.last) }
    {
        self.probe_paused(arena, class, sel, &mut NoPause)
    }

    /// Does the same, with a call before each load of a header or bucket word.
    pub fn probe_paused<P: Pause>(
        &mut self,
        arena: &Arena,
        class: ClassRef,
        sel: Selector,
        pause: &mut P,
    ) -> Option<ImpRef>
        requires arena { IsSenderOf arena.now self.old }
        requires class { class.class < classes arena.now }
        ensures arena { IsSenderOf arena.now self.new }
        ensures probes { ProbesFor arena.now class sel self.old.sender self.new.sender }
        ensures some { IfSome result (HitsAndIsFound self.new.sender class sel) }
        ensures none { IfNone result (Misses (layout arena.now) self.new.sender.last) }
    {
        let mut seat = replace(&mut self.badge, Badge::blank()).into_seat();
        let shared = arena.shared();
        let word = self.place;
        enter(shared, &mut seat, word);
        let (found, loads) = search(arena, &mut seat, class, sel, pause);
        leave(shared, &mut seat, word);
        self.badge = seat.into_badge();
        self.loads = loads;
        found
    }

    /// The number of times that changes were made.
    pub fn published(&mut self, arena: &Arena) -> u64
        requires arena { IsSenderOf arena.now self.old }
        ensures arena { IsSenderOf arena.now self.new }
        ensures number { self.new.sender.number ≡ self.old.sender.number }
        ensures no_probe { MadeNoProbe self.old.sender self.new.sender }
        ensures begins { BeginsWith self.new.sender.front self.old.sender.front }
        ensures accepted { IsAccepted self.new.sender.front }
        ensures length { result ≡ size self.new.sender.front }
        ensures looked { self.new.sender.looks ≡ self.old.sender.looks + 1 }
        ensures stamps { self.new.sender.stamps ≡ self.old.sender.stamps }
    {
        let mut seat = replace(&mut self.badge, Badge::blank()).into_seat();
        let shared = arena.shared();
        let count = load_version(shared, &mut seat);
        self.badge = seat.into_badge();
        count
    }

    /// Loads the stamp of a class reference. Of the changes that the sender has then seen, none
    /// after that many has affected the class reference.
    #[inline]
    pub fn stamp(&mut self, arena: &Arena, class: ClassRef) -> u64
        requires arena { IsSenderOf arena.now self.old }
        requires class { class.class < classes arena.now }
        ensures arena { IsSenderOf arena.now self.new }
        ensures loaded { self.new.sender ≡ stamped_to self.old.sender self.new.sender.front class result }
        ensures begins { BeginsWith self.new.sender.front self.old.sender.front }
        ensures accepted { IsAccepted self.new.sender.front }
        ensures since { last_affected self.new.sender.front class ≤ result }
    {
        let mut seat = replace(&mut self.badge, Badge::blank()).into_seat();
        let shared = arena.shared();
        let place = arena.stamp_at(class);
        let count = load_stamp::<Brand>(shared, &mut seat, class, place);
        self.badge = seat.into_badge();
        count
    }

    /// The number of bucket words that the last probe loaded, or 0 before the first probe.
    pub fn last_loads(&self) -> u32
        ensures { result ≡ length self.now.sender.last.reads }
    {
        self.loads
    }

    pub fn number(&self) -> u32
        ensures { result ≡ self.now.sender.number }
    {
        self.number
    }
}
