//! Senders.

ghost use Rattle.std.specs.Prelude.{◌≡◌, ◌<◌, ◌+◌, ◌-◌, ◌^◌, ◌⊎◌, length, option_map, IfSome, IfNone};
ghost use Rattle.msg_tables.specs.Origin.{class_total};
ghost use Rattle.msg_tables.specs.History.{BeginsWith};
ghost use Rattle.msg_cache.specs.Record.{Misses};
ghost use Rattle.msg_cache.specs.Views.{HitsAndIsFound, IsFoundAt, ProbesFor, layout};
ghost use Rattle.msg_reader.specs.Found.{HitsCache, IsListed};
ghost use Rattle.msg_reader.specs.Kept.{IsNotedFound, KeepOthers, RecallsSince};
ghost use Rattle.msg_reader.specs.Notes.{AreNotesOf, IsNotedFor};
ghost use Rattle.msg_names.specs.Number.{imp_number, selector_number};
ghost use Rattle.msg_dispatch.specs.Seen.{FindsNoted, TakesOnceAtMost};

use crate::dispatcher::Dispatcher;
use crate::name::ArenaName;
use msg_names::{ClassRef, ImpRef, Selector};
use msg_reader::{Notes, Reader};
use msg_tables::laws::a_found_implementation_is_listed;
use std::marker::Model;
use std::sync::Wait;

/// Looks up, first in the caches without a lock. It remembers what it has seen of the history, and
/// never answers from an earlier point.
#[derive(Drop)]
pub struct Sender<'d, N: ArenaName> {
    pub(crate) dispatcher: &'d Dispatcher<N>,
    pub(crate) reader: Reader,
    pub(crate) takings: u64,
}

impl<'d, N: ArenaName> Model for Sender<'d, N> {
    ghost use Rattle.msg_dispatch.specs.Seen.{IsReaderOf, SenderView};

    ghost Value = { SenderView };

    ghost use Rattle.std.specs.Coded.{codes};

    ghost coded = { Prim.hlevel codes };

    ghost view = { λ s. record { seen = s.reader.sender; takings = s.takings } };

    ghost invariant = { λ s. IsReaderOf N.arena s.reader };
}

impl<'d, N: ArenaName> Sender<'d, N> {
    /// Returns the implementation that the cache of a class reference has. The lookup finds it at
    /// what the sender has then seen. No lock is taken.
    #[inline]
    pub fn find_cached(&mut self, class: ClassRef, sel: Selector) -> Option<ImpRef>
        requires class { class.class < class_total self.old.seen.front.origin }
        ensures probes { ProbesFor N.arena class sel self.old.seen self.new.seen }
        ensures takings { self.new.takings ≡ self.old.takings }
        ensures some { IfSome result (HitsAndIsFound self.new.seen class sel) }
        ensures none { IfNone result (Misses (layout N.arena) self.new.seen.last) }
    {
        self.reader.probe(&self.dispatcher.arena, class, sel)
    }

    // Counts that the lock is taken once more.
    fn count_taking(&mut self)
        ensures seen { self.new.seen ≡ self.old.seen }
        ensures takings { TakesOnceAtMost self.old self.new }
        ensures counted { self.old.takings < 2 ^ 64 - 1 → self.new.takings ≡ self.old.takings + 1 }
    {
        self.takings = self.takings.saturating_add(1);
    }

    // Answers after a miss, under the lock.
    fn find_locked<R: Wait>(&mut self, rt: &R, class: ClassRef, sel: Selector) -> ImpRef
        requires class { class.class < class_total self.old.seen.front.origin }
        ensures begins { BeginsWith self.new.seen.front self.old.seen.front }
        ensures found { IsFoundAt self.new.seen.front class sel result }
        ensures listed { IsListed self.new.seen.front result }
        ensures takings { TakesOnceAtMost self.old self.new }
        ensures counted { self.old.takings < 2 ^ 64 - 1 → self.new.takings ≡ self.old.takings + 1 }
    {
        self.count_taking();
        let dispatcher = self.dispatcher;
        dispatcher
            .locked_runtime
            .lock(rt)
            .answer(&dispatcher.arena, &mut self.reader, class, sel)
    }

    // Does the same, and notes the result.
    #[cold]
    #[inline(never)]
    fn find_locked_noted<R: Wait>(
        &mut self,
        rt: &R,
        notes: &mut Notes,
        class: ClassRef,
        sel: Selector,
    ) -> ImpRef
        requires class { class.class < class_total self.old.seen.front.origin }
        requires notes { AreNotesOf self.old.seen.front notes.old }
        ensures begins { BeginsWith self.new.seen.front self.old.seen.front }
        ensures found { IsFoundAt self.new.seen.front class sel result }
        ensures listed { IsListed self.new.seen.front result }
        ensures notes { AreNotesOf self.new.seen.front notes.new }
        ensures noted { IsNotedFor self.new.seen.front notes.new class sel result }
        ensures others { KeepOthers notes.old notes.new class sel }
        ensures stamps { self.new.seen.stamps ≡ self.old.seen.stamps }
        ensures takings { TakesOnceAtMost self.old self.new }
    {
        self.count_taking();
        let dispatcher = self.dispatcher;
        dispatcher
            .locked_runtime
            .lock(rt)
            .answer_noted(&dispatcher.arena, &mut self.reader, notes, class, sel)
    }

    /// Returns the implementation that a lookup finds at what the sender has then seen. After a
    /// miss it takes the lock, once.
    #[inline]
    pub fn find<R: Wait>(&mut self, rt: &R, class: ClassRef, sel: Selector) -> ImpRef
        requires class { class.class < class_total self.old.seen.front.origin }
        ensures begins { BeginsWith self.new.seen.front self.old.seen.front }
        ensures found { IsFoundAt self.new.seen.front class sel result }
        ensures listed { IsListed self.new.seen.front result }
        ensures takings { TakesOnceAtMost self.old self.new }
        ensures hit { self.new.takings ≡ self.old.takings → self.old.takings < 2 ^ 64 - 1
            → HitsCache N.arena class sel self.old.seen self.new.seen result }
    {
        a_found_implementation_is_listed();
        match self.find_cached(class, sel) {
            Some(imp) => imp,
            None => self.find_locked(rt, class, sel),
        }
    }

    /// Returns what was noted of a lookup since the stamp of the class reference, which is loaded.
    /// The lookup finds it at what the sender has then seen. The call waits for nobody.
    #[inline]
    pub fn recall(&mut self, notes: &Notes, class: ClassRef, sel: Selector) -> Option<ImpRef>
        requires class { class.class < class_total self.old.seen.front.origin }
        requires notes { AreNotesOf self.old.seen.front notes.now }
        ensures begins { BeginsWith self.new.seen.front self.old.seen.front }
        ensures found { IfSome result (IsFoundAt self.new.seen.front class sel) }
        ensures listed { IfSome result (IsListed self.new.seen.front) }
        ensures notes { AreNotesOf self.new.seen.front notes.now }
        ensures exact { RecallsSince notes.now class (selector_number sel)
            self.old.seen self.new.seen (option_map imp_number result) }
        ensures takings { self.new.takings ≡ self.old.takings }
    {
        self.reader
            .recall(&self.dispatcher.arena, notes, class, sel)
    }

    // Does the same as `find`, but uses the notes first. What they lack is then noted.
    #[inline(always)]
    #[tactic(auto, using(crate::proofs::RecallingLemmas::found_unlocked, crate::proofs::RecallingLemmas::found_locked))]
    pub(crate) fn find_noted<R: Wait>(
        &mut self,
        rt: &R,
        notes: &mut Notes,
        class: ClassRef,
        sel: Selector,
    ) -> ImpRef
        requires class { class.class < class_total self.old.seen.front.origin }
        requires notes { AreNotesOf self.old.seen.front notes.old }
        ensures begins { BeginsWith self.new.seen.front self.old.seen.front }
        ensures found { IsFoundAt self.new.seen.front class sel result }
        ensures listed { IsListed self.new.seen.front result }
        ensures notes { AreNotesOf self.new.seen.front notes.new }
        ensures noted { (IsNotedFound notes.new class sel self.new.seen result)
            ⊎ (IsNotedFor self.new.seen.front notes.new class sel result) }
        ensures others { KeepOthers notes.old notes.new class sel }
        ensures takings { TakesOnceAtMost self.old self.new }
        ensures private { FindsNoted self.old self.new notes.old notes.new class sel result }
    {
        match self
            .reader
            .try_find(&self.dispatcher.arena, notes, class, sel)
        {
            Some(imp) => imp,
            None => self.find_locked_noted(rt, notes, class, sel),
        }
    }

    /// The number of changes, which the sender has then seen. No lock is taken.
    pub fn published(&mut self) -> u64
        ensures begins { BeginsWith self.new.seen.front self.old.seen.front }
        ensures length { result ≡ length self.new.seen.front.changes }
        ensures looked { self.new.seen.looks ≡ self.old.seen.looks + 1 }
        ensures takings { self.new.takings ≡ self.old.takings }
    {
        self.reader.refresh(&self.dispatcher.arena)
    }

    /// The number of times that `find` took the lock.
    pub fn lock_takings(&self) -> u64
        ensures { result ≡ self.now.takings }
    {
        self.takings
    }

    /// Gives the sender's number back. The number of a sender that is dropped instead stays in use.
    ///
    /// No clause says that the number is then free: another sender may get it once the lock is
    /// released. The number is taken back behind the lock.
    pub fn finish<R: Wait>(self, rt: &R) {
        let Sender {
            dispatcher,
            reader,
            ..
        } = self;
        dispatcher
            .locked_runtime
            .lock(rt)
            .finish(&dispatcher.arena, reader);
    }
}
