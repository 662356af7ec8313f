//! The sender's protocol: load the stamp and recall; else probe, load the stamp again, and note.
//!
//! A lookup is answered from the notes if it was noted after at least as many changes as the stamp
//! of its class reference says. No change has affected the class reference since then, so the note
//! is still right. A lookup that isn't in the notes is probed for. A hit is right at some moment
//! between the load of the count of changes before it and the load of the stamp after it. If the
//! stamp isn't above that count, no change in between affects the class reference. Then the hit is
//! right at both moments, and is noted at that count. No lock is taken: the runtime answers what a
//! cache lacks.

ghost use Rattle.std.specs.Prelude.{◌≡◌, ◌<◌, ◌≤◌, ◌+◌, length, option_map, IfSome, IfNone};
ghost use Rattle.msg_tables.specs.History.{BeginsWith};
ghost use Rattle.msg_model.specs.Stamps.{last_affected};
ghost use Rattle.msg_cache.specs.Ours.{IsOf, view};
ghost use Rattle.msg_cache.specs.Record.{MadeNoProbe, Misses};
ghost use Rattle.msg_cache.specs.Rule.{IsAccepted};
ghost use Rattle.msg_cache.specs.Views.{HitsAndIsFound, IsFoundAt, IsSenderOf, ProbesFor, classes, layout};
ghost use Rattle.msg_cache.specs.Plays.{given_again, renewed};
ghost use Rattle.msg_names.specs.Number.{imp_number, selector_number};
ghost use Rattle.msg_reader.specs.Cost.{ProbesOnce, ProbesOnceAtMost};
ghost use Rattle.msg_reader.specs.Found.{IsListed};
ghost use Rattle.msg_reader.specs.Kept.{FindsRecalled, FindsUnprobed, HasLoaded, IsNotedFound, KeepOthers, LoadsMore, LoadsStamp, MissesAfter, MissesUnlessChanged, RecallsSince};
ghost use Rattle.msg_reader.specs.Notes.{AreNotesOf, IsKeptAt, StayStamped};
ghost use Rattle.msg_reader.specs.Several.{IsFoundAfter};

use crate::laws::notes_are_of_longer_histories;
use crate::notes::Notes;
use msg_cache::{Arena, Keeper, Prober};
use msg_names::{ClassRef, ImpRef, Selector};
use msg_tables::laws::a_found_implementation_is_listed;
use std::marker::Model;

/// Reads without a lock. It remembers what it has seen of the history, and never answers from an
/// earlier point.
#[derive(Drop)]
pub struct Reader {
    prober: Prober,
}

impl Model for Reader {
    ghost use Rattle.msg_cache.specs.Views.{ProberView};

    ghost Value = { ProberView };

    ghost use Rattle.std.specs.Coded.{codes};
    ghost use Rattle.atomic_table.specs.Seated.{table_id_coded};

    ghost coded = { Prim.hlevel (codes, table_id_coded) };

    ghost view = { λ r. r.prober };
}

impl Reader {
    /// Makes a reader that has seen what its prober has.
    pub fn new(prober: Prober) -> Reader
        ensures { result ≡ prober }
    {
        Reader { prober }
    }

    /// Returns the prober, for the keeper to take back.
    pub fn into_prober(self) -> Prober
        ensures { result ≡ self }
    {
        self.prober
    }

    /// The number of its sender.
    pub fn number(&self) -> u32
        ensures { result ≡ self.now.sender.number }
    {
        self.prober.number()
    }

    /// Brings the reader up to date, like the keeper's `renew`: it has then seen all that the
    /// keeper has.
    pub fn renew(&mut self, arena: &Arena, keeper: &mut Keeper)
        requires keeper { IsOf arena.now keeper.old }
        requires reader { IsSenderOf arena.now self.old }
        ensures arena { IsOf arena.now keeper.new }
        ensures remembered { keeper.new.remembered.items ≡ keeper.old.remembered.items }
        ensures report { keeper.new.report ≡ keeper.old.report }
        ensures view { view keeper.new ≡ given_again self.old.sender (view keeper.old) }
        ensures reader { IsSenderOf arena.now self.new }
        ensures sender { self.new.sender ≡ renewed self.old.sender (view keeper.old).history }
        ensures begins { BeginsWith (view keeper.old).history self.old.sender.front }
    {
        keeper.renew(arena, &mut self.prober);
    }

    /// `cache_getImp`: the implementation that the cache of a class reference has. The lookup finds
    /// it at what the reader has then seen. The notes aren't used.
    #[inline]
    pub fn probe(&mut self, arena: &Arena, class: ClassRef, sel: Selector) -> Option<ImpRef>
        requires reader { IsSenderOf arena.now self.old }
        requires class { class.class < classes arena.now }
        ensures reader { IsSenderOf arena.now self.new }
        ensures probes { ProbesFor arena.now class sel self.old.sender self.new.sender }
        ensures some { IfSome result (HitsAndIsFound self.new.sender class sel) }
        ensures none { IfNone result (Misses (layout arena.now) self.new.sender.last) }
    {
        self.prober.probe(arena, class, sel)
    }

    /// The number of changes, which the reader has then seen: from then on it answers from no
    /// earlier point. It loads one shared word.
    #[inline]
    pub fn refresh(&mut self, arena: &Arena) -> u64
        requires reader { IsSenderOf arena.now self.old }
        ensures reader { IsSenderOf arena.now self.new }
        ensures begins { BeginsWith self.new.sender.front self.old.sender.front }
        ensures length { result ≡ length self.new.sender.front.changes }
        ensures looked { self.new.sender.looks ≡ self.old.sender.looks + 1 }
        ensures no_probe { MadeNoProbe self.old.sender self.new.sender }
        ensures stamps { self.new.sender.stamps ≡ self.old.sender.stamps }
    {
        self.prober.published(arena)
    }

    /// The stamp of a class reference: of the changes that the reader has then seen, none after
    /// that many has affected it. It loads one shared word.
    #[inline(always)]
    pub fn stamp(&mut self, arena: &Arena, class: ClassRef) -> u64
        requires reader { IsSenderOf arena.now self.old }
        requires class { class.class < classes arena.now }
        ensures reader { IsSenderOf arena.now self.new }
        ensures loaded { LoadsStamp class result self.old.sender self.new.sender }
        ensures begins { BeginsWith self.new.sender.front self.old.sender.front }
        ensures accepted { IsAccepted self.new.sender.front }
        ensures since { last_affected self.new.sender.front class ≤ result }
    {
        self.prober.stamp(arena, class)
    }

    /// Returns what was noted of a lookup since the stamp of the class reference. The lookup finds
    /// it after the changes that the reader has then seen. The stamp is the only shared word that
    /// the call loads.
    #[inline]
    pub fn recall(
        &mut self,
        arena: &Arena,
        notes: &Notes,
        class: ClassRef,
        sel: Selector,
    ) -> Option<ImpRef>
        requires reader { IsSenderOf arena.now self.old }
        requires class { class.class < classes arena.now }
        requires notes { AreNotesOf self.old.sender.front notes.now }
        ensures reader { IsSenderOf arena.now self.new }
        ensures begins { BeginsWith self.new.sender.front self.old.sender.front }
        ensures found { IfSome result (IsFoundAt self.new.sender.front class sel) }
        ensures listed { IfSome result (IsListed self.new.sender.front) }
        ensures notes { AreNotesOf self.new.sender.front notes.now }
        ensures exact { RecallsSince notes.now class (selector_number sel)
            self.old.sender self.new.sender (option_map imp_number result) }
    {
        notes_are_of_longer_histories();
        let since = self.stamp(arena, class);
        notes.recall(since, class, sel)
    }

    /// Returns the implementation from the notes, or else from the cache, which it then notes. A
    /// lookup finds it after the changes that the reader has then seen. If a change that affects
    /// the class reference falls into a probe that hits, the result is dropped. A class reference
    /// that is closed isn't probed.
    #[inline(always)]
    pub fn try_find(
        &mut self,
        arena: &Arena,
        notes: &mut Notes,
        class: ClassRef,
        sel: Selector,
    ) -> Option<ImpRef>
        requires reader { IsSenderOf arena.now self.old }
        requires class { class.class < classes arena.now }
        requires notes { AreNotesOf self.old.sender.front notes.old }
        ensures reader { IsSenderOf arena.now self.new }
        ensures begins { BeginsWith self.new.sender.front self.old.sender.front }
        ensures some { IfSome result (IsFoundAt self.new.sender.front class sel) }
        ensures listed { IfSome result (IsListed self.new.sender.front) }
        ensures notes { AreNotesOf self.new.sender.front notes.new }
        ensures stamped { StayStamped (layout arena.now) notes.old notes.new }
        ensures noted { IfSome result (IsNotedFound notes.new class sel self.new.sender) }
        ensures others { KeepOthers notes.old notes.new class sel }
        ensures private { FindsRecalled notes.old notes.new class (selector_number sel)
            self.old.sender self.new.sender (option_map imp_number result) }
        ensures missed { IfNone result
            (MissesUnlessChanged arena.now class (selector_number sel) self.old.sender self.new.sender) }
        ensures probed { ProbesOnceAtMost arena.now class (selector_number sel)
            self.old.sender self.new.sender }
    {
        notes_are_of_longer_histories();
        let since = self.stamp(arena, class);
        match notes.recall(since, class, sel) {
            Some(imp) => Some(imp),
            None => self.try_find_cached(arena, notes, since, class, sel),
        }
    }

    // Does the same as `try_find` for a lookup that the notes lack since the stamp that was loaded.
    #[cold]
    #[inline(never)]
    fn try_find_cached(
        &mut self,
        arena: &Arena,
        notes: &mut Notes,
        since: u64,
        class: ClassRef,
        sel: Selector,
    ) -> Option<ImpRef>
        requires reader { IsSenderOf arena.now self.old }
        requires class { class.class < classes arena.now }
        requires notes { AreNotesOf self.old.sender.front notes.old }
        requires loaded { HasLoaded class since self.old.sender }
        ensures reader { IsSenderOf arena.now self.new }
        ensures begins { BeginsWith self.new.sender.front self.old.sender.front }
        ensures some { IfSome result (IsFoundAt self.new.sender.front class sel) }
        ensures listed { IfSome result (IsListed self.new.sender.front) }
        ensures notes { AreNotesOf self.new.sender.front notes.new }
        ensures stamped { StayStamped (layout arena.now) notes.old notes.new }
        ensures noted { IfSome result (IsNotedFound notes.new class sel self.new.sender) }
        ensures others { KeepOthers notes.old notes.new class sel }
        ensures stamps { LoadsMore self.old.sender self.new.sender }
        ensures missed { IfNone result
            (MissesUnlessChanged arena.now class (selector_number sel) self.old.sender self.new.sender) }
        ensures probed { ProbesOnceAtMost arena.now class (selector_number sel)
            self.old.sender self.new.sender }
    {
        notes_are_of_longer_histories();
        let count = self.refresh(arena);
        if count < since {
            return None;
        }
        self.try_find_at(arena, notes, count, class, sel)
    }

    /// Does the same as `try_find` for a caller that uses the notes by the number of changes. What
    /// the notes have is noted again at that number, which is loaded first.
    pub fn try_find_counted(
        &mut self,
        arena: &Arena,
        notes: &mut Notes,
        class: ClassRef,
        sel: Selector,
    ) -> Option<ImpRef>
        requires reader { IsSenderOf arena.now self.old }
        requires class { class.class < classes arena.now }
        requires notes { AreNotesOf self.old.sender.front notes.old }
        ensures reader { IsSenderOf arena.now self.new }
        ensures begins { BeginsWith self.new.sender.front self.old.sender.front }
        ensures some { IfSome result (IsFoundAt self.new.sender.front class sel) }
        ensures listed { IfSome result (IsListed self.new.sender.front) }
        ensures notes { AreNotesOf self.new.sender.front notes.new }
        ensures stamped { StayStamped (layout arena.now) notes.old notes.new }
        ensures noted { IfSome result (IsNotedFound notes.new class sel self.new.sender) }
        ensures others { KeepOthers notes.old notes.new class sel }
        ensures unprobed { FindsUnprobed notes.old class (selector_number sel)
            self.old.sender self.new.sender (option_map imp_number result) }
        ensures missed { IfNone result
            (MissesUnlessChanged arena.now class (selector_number sel) self.old.sender self.new.sender) }
        ensures probed { ProbesOnceAtMost arena.now class (selector_number sel)
            self.old.sender self.new.sender }
    {
        notes_are_of_longer_histories();
        let count = self.refresh(arena);
        let since = self.stamp(arena, class);
        match notes.recall(since, class, sel) {
            Some(imp) => {
                if since <= count {
                    notes.keep(arena, count, class, sel, imp);
                }
                Some(imp)
            }
            None if count < since => None,
            None => self.try_find_at(arena, notes, count, class, sel),
        }
    }

    // Does the same as `try_find` for a lookup that the notes lack, when this number of changes was
    // counted. A hit is noted at that count.
    #[inline(always)]
    pub(crate) fn try_find_at(
        &mut self,
        arena: &Arena,
        notes: &mut Notes,
        count: u64,
        class: ClassRef,
        sel: Selector,
    ) -> Option<ImpRef>
        requires reader { IsSenderOf arena.now self.old }
        requires class { class.class < classes arena.now }
        requires notes { AreNotesOf self.old.sender.front notes.old }
        requires count { count ≤ length self.old.sender.front.changes }
        ensures reader { IsSenderOf arena.now self.new }
        ensures begins { BeginsWith self.new.sender.front self.old.sender.front }
        ensures some { IfSome result (IsFoundAt self.new.sender.front class sel) }
        ensures counted { IfSome result (IsFoundAfter count self.new.sender.front class sel) }
        ensures listed { IfSome result (IsListed self.new.sender.front) }
        ensures notes { AreNotesOf self.new.sender.front notes.new }
        ensures stamped { StayStamped (layout arena.now) notes.old notes.new }
        ensures noted { IfSome result (IsNotedFound notes.new class sel self.new.sender) }
        ensures kept { IfSome result (IsKeptAt count notes.new class sel) }
        ensures others { KeepOthers notes.old notes.new class sel }
        ensures looks { self.new.sender.looks ≡ self.old.sender.looks }
        ensures stamps { LoadsMore self.old.sender self.new.sender }
        ensures missed { IfNone result (MissesAfter arena.now class (selector_number sel) count self.new.sender) }
        ensures probed { ProbesOnce arena.now class (selector_number sel)
            self.old.sender self.new.sender }
    {
        notes_are_of_longer_histories();
        a_found_implementation_is_listed();
        let imp = self.probe(arena, class, sel)?;
        let after = self.stamp(arena, class);
        if count < after {
            return None;
        }
        notes.keep(arena, count, class, sel, imp);
        Some(imp)
    }
}
