//! A sender with notes of its own.

ghost use Rattle.std.specs.Prelude.{◌≡◌, ◌<◌, ◌+◌, length, option_map, IfErr, IfOk, IfSome};
ghost use Rattle.msg_tables.specs.Origin.{class_total};
ghost use Rattle.msg_tables.specs.History.{BeginsWith};
ghost use Rattle.msg_cache.specs.Views.{IsFoundAt};
ghost use Rattle.msg_reader.specs.Found.{IsListed};
ghost use Rattle.msg_reader.specs.Kept.{KeepOthers, RecallsSince};
ghost use Rattle.msg_reader.specs.Notes.{AreBlank};
ghost use Rattle.msg_names.specs.Number.{imp_number, selector_number};
ghost use Rattle.msg_dispatch.specs.Seen.{FindsRecalled, TakesOnceAtMost};

use crate::changer::Changer;
use crate::name::ArenaName;
use crate::sender::Sender;
use msg_names::{ClassRef, ImpRef, Selector};
use msg_reader::Notes;
use msg_reader::laws::notes_are_of_longer_histories;
use std::alloc::Global;
use std::marker::Model;
use std::sync::Wait;

/// A sender that notes its lookups. Contracts see the sender, and its notes.
#[derive(Drop)]
pub struct CachingSender<'d, N: ArenaName> {
    sender: Sender<'d, N>,
    notes: Box<Notes>,
}

impl<'d, N: ArenaName> Model for CachingSender<'d, N> {
    ghost use Rattle.msg_dispatch.specs.Seen.{RecallingView};

    ghost Value = { RecallingView };

    ghost use Rattle.std.specs.Coded.{codes};

    ghost coded = { Prim.hlevel codes };

    ghost use Rattle.msg_reader.specs.Notes.{AreNotesOf};

    ghost view = { λ r. record { sender = r.sender; notes = r.notes.value } };

    ghost invariant = { λ r. AreNotesOf r.sender.seen.front r.notes.value };
}

impl<'d, N: ArenaName> CachingSender<'d, N> {
    /// Makes a caching sender with nothing noted yet. Notes take 512 KiB. If they can't be
    /// allocated, the sender is returned.
    pub fn new(alloc: Global, sender: Sender<'d, N>) -> Result<CachingSender<'d, N>, Sender<'d, N>>
        ensures ok { IfOk result (λ r. (r.sender ≡ sender.entry) × AreBlank r.notes) }
        ensures err { IfErr result (λ s. s ≡ sender.entry) }
    {
        match Box::new(alloc, Notes::new()) {
            Ok(notes) => Ok(CachingSender { sender, notes }),
            Err(_) => Err(sender),
        }
    }

    /// The sender without its notes.
    pub fn into_sender(self) -> Sender<'d, N>
        ensures { result ≡ self.entry.sender }
    {
        self.sender
    }

    /// Returns the implementation that a lookup finds at what the sender has then seen. If it is
    /// noted since the stamp of the class reference, no lock is taken. The stamp is then the only
    /// shared word that is loaded. It is stored when the class reference is closed or opened.
    #[inline(always)]
    pub fn find<R: Wait>(&mut self, rt: &R, class: ClassRef, sel: Selector) -> ImpRef
        requires class { class.class < class_total self.old.sender.seen.front.origin }
        ensures begins { BeginsWith self.new.sender.seen.front self.old.sender.seen.front }
        ensures found { IsFoundAt self.new.sender.seen.front class sel result }
        ensures listed { IsListed self.new.sender.seen.front result }
        ensures takings { TakesOnceAtMost self.old.sender self.new.sender }
        ensures private { FindsRecalled self.old self.new class sel result }
        ensures others { KeepOthers self.old.notes self.new.notes class sel }
    {
        self.sender.find_noted(rt, &mut self.notes, class, sel)
    }

    /// Returns what was noted of a lookup since the stamp of the class reference, which is loaded.
    /// The lookup finds it at what the sender has then seen. The call waits for nobody.
    #[inline]
    pub fn recall(&mut self, class: ClassRef, sel: Selector) -> Option<ImpRef>
        requires class { class.class < class_total self.old.sender.seen.front.origin }
        ensures begins { BeginsWith self.new.sender.seen.front self.old.sender.seen.front }
        ensures found { IfSome result (IsFoundAt self.new.sender.seen.front class sel) }
        ensures listed { IfSome result (IsListed self.new.sender.seen.front) }
        ensures exact { RecallsSince self.old.notes class (selector_number sel)
            self.old.sender.seen self.new.sender.seen (option_map imp_number result) }
        ensures notes { self.new.notes ≡ self.old.notes }
        ensures takings { self.new.sender.takings ≡ self.old.sender.takings }
    {
        self.sender.recall(&self.notes, class, sel)
    }

    /// The number of changes, which the sender has then seen: from then on it answers from no
    /// earlier point. It loads one shared word, and forgets nothing.
    pub fn refresh(&mut self) -> u64
        ensures begins { BeginsWith self.new.sender.seen.front self.old.sender.seen.front }
        ensures length { result ≡ length self.new.sender.seen.front.changes }
        ensures looked { self.new.sender.seen.looks ≡ self.old.sender.seen.looks + 1 }
        ensures notes { self.new.notes ≡ self.old.notes }
        ensures takings { self.new.sender.takings ≡ self.old.sender.takings }
    {
        notes_are_of_longer_histories();
        self.sender.published()
    }

    /// Does the same as the changer's `meet`.
    pub fn meet<R: Wait>(&mut self, rt: &R, changer: &mut Changer<'_, N>)
        ensures same { changer.new ≡ changer.old }
        ensures begins { BeginsWith changer.old self.old.sender.seen.front }
        ensures seen { self.new.sender.seen.front ≡ changer.old }
        ensures notes { self.new.notes ≡ self.old.notes }
        ensures takings { self.new.sender.takings ≡ self.old.sender.takings }
    {
        notes_are_of_longer_histories();
        changer.meet(rt, &mut self.sender);
    }

    /// The number of times that `find` took the lock.
    pub fn lock_takings(&self) -> u64
        ensures { result ≡ self.now.sender.takings }
    {
        self.sender.lock_takings()
    }

    /// Gives the sender's number back, like the sender's `finish`.
    pub fn finish<R: Wait>(self, rt: &R) {
        let CachingSender { sender, .. } = self;
        sender.finish(rt);
    }
}
