//! The data behind the runtime lock.

ghost use Rattle.std.specs.Prelude.{◌≡◌, ◌<◌, ◌≤◌, ◌*◌, length};
ghost use Rattle.std.specs.Prelude.{IfOk, IfErr, IfSome, IsErrOf, IsNone, OnErr, OnOk, None};
ghost use Rattle.msg_tables.specs.Origin.{last_imp};
ghost use Rattle.msg_names.specs.Number.{imp_number};
ghost use Rattle.msg_tables.specs.History.{BeginsWith, empty, log};
ghost use Rattle.msg_tables.specs.Made.{AreMade, AreRefused, TellsWayBack};
ghost use Rattle.msg_tables.specs.Several.{refused_from};
ghost use Rattle.msg_tables.specs.declared.fault.ChangeFault.{ChangeFault};
ghost use Rattle.msg_cache.specs.Counts.{AreCounts, after_refusal};
ghost use Rattle.msg_cache.specs.Plays.{taken_in};
ghost use Rattle.msg_cache.specs.Views.{classes, IsFoundAt, IsSenderOf};
ghost use Rattle.msg_reader.specs.Kept.{KeepOthers};
ghost use Rattle.msg_reader.specs.Notes.{AreNotesOf, IsNotedFor};
ghost use Rattle.msg_runtime.specs.Parts.{AreOut, IsNew};
ghost use Rattle.msg_runtime.specs.Changed.{IsAccepted, IsMadeAt, IsRefusedAt};
ghost use Rattle.msg_dispatch.specs.Changed.{MarksAll, MarksTo};

use crate::name::ArenaName;
use msg_cache::{Arena, Report, Turn};
use msg_names::{ClassRef, ImpRef, Selector};
use msg_reader::{Notes, Reader};
use msg_runtime::Runtime;
use msg_tables::{Change, ChangeFault, ChangeList, Refused, Written};
use std::marker::{Model, PhantomData};

// The runtime of the arena that N names.
#[derive(Drop)]
pub(crate) struct LockedRuntime<N: ArenaName> {
    pub(crate) runtime: Runtime,
    pub(crate) of: PhantomData<N>,
}

impl<N: ArenaName> Model for LockedRuntime<N> {
    ghost use Rattle.std.specs.Prelude.{◌≡◌};
    ghost use Rattle.msg_runtime.specs.View.{RuntimeView};

    ghost Value = { RuntimeView };

    ghost use Rattle.std.specs.Coded.{codes};

    ghost coded = { Prim.hlevel codes };

    ghost view = { λ d. d.runtime };

    ghost invariant = { λ d. d.runtime.arena ≡ N.arena };
}

impl<N: ArenaName> LockedRuntime<N> {
    // Looks up at the history, which the reader has then seen.
    pub(crate) fn answer(
        &mut self,
        arena: &Arena,
        reader: &mut Reader,
        class: ClassRef,
        sel: Selector,
    ) -> ImpRef
        requires arena { arena.now ≡ N.arena }
        requires reader { IsSenderOf N.arena reader.old }
        requires class { class.class < classes N.arena }
        ensures reader { IsSenderOf N.arena reader.new }
        ensures origin { reader.new.sender.front.origin ≡ N.arena.key.origin }
        ensures begins { BeginsWith reader.new.sender.front reader.old.sender.front }
        ensures found { IsFoundAt reader.new.sender.front class sel result }
        ensures listed { imp_number result ≤ last_imp N.arena.key.origin.counts }
    {
        self.runtime.answer(arena, reader, class, sel)
    }

    // Does the same, and notes the result.
    pub(crate) fn answer_noted(
        &mut self,
        arena: &Arena,
        reader: &mut Reader,
        notes: &mut Notes,
        class: ClassRef,
        sel: Selector,
    ) -> ImpRef
        requires arena { arena.now ≡ N.arena }
        requires reader { IsSenderOf N.arena reader.old }
        requires notes { AreNotesOf reader.old.sender.front notes.old }
        requires class { class.class < classes N.arena }
        ensures reader { IsSenderOf N.arena reader.new }
        ensures origin { reader.new.sender.front.origin ≡ N.arena.key.origin }
        ensures begins { BeginsWith reader.new.sender.front reader.old.sender.front }
        ensures found { IsFoundAt reader.new.sender.front class sel result }
        ensures listed { imp_number result ≤ last_imp N.arena.key.origin.counts }
        ensures notes { AreNotesOf reader.new.sender.front notes.new }
        ensures noted { IsNotedFor reader.new.sender.front notes.new class sel result }
        ensures others { KeepOthers notes.old notes.new class sel }
        ensures stamps { reader.new.sender.stamps ≡ reader.old.sender.stamps }
    {
        self.runtime.answer_noted(arena, reader, notes, class, sel)
    }

    pub(crate) fn change(
        &mut self,
        arena: &Arena,
        turn: &mut Turn,
        change: &Change,
    ) -> Result<u64, ChangeFault>
        requires arena { arena.now ≡ N.arena }
        requires turn { turn.old.table ≡ N.arena.table }
        ensures turn { turn.new.table ≡ N.arena.table }
        ensures ok { IfOk result (IsMadeAt turn.old.history change.now turn.new.history) }
        ensures err { OnErr result (turn.new.history ≡ turn.old.history) }
        ensures fault { IfErr result (IsRefusedAt turn.old.history change.now) }
        ensures memory { IsErrOf result ChangeFault.Memory → IsAccepted turn.old.history change.now }
    {
        self.runtime.change(arena, turn, change)
    }

    // Notes what the list wrote in the room of the caller.
    pub(crate) fn change_all<L: ChangeList>(
        &mut self,
        arena: &Arena,
        turn: &mut Turn,
        changes: &L,
        written: &mut Written,
    ) -> Result<u64, Refused>
        requires arena { arena.now ≡ N.arena }
        requires turn { turn.old.table ≡ N.arena.table }
        ensures turn { turn.new.table ≡ N.arena.table }
        ensures ok { OnOk result (AreMade (L.changes changes.now) turn.old.history turn.new.history) }
        ensures count { IfOk result (λ count. count ≡ length turn.new.history.changes) }
        ensures back { OnOk result (TellsWayBack (L.changes changes.now) turn.old.history written.new.entries) }
        ensures room { written.old.room ≤ written.new.room }
        ensures err { OnErr result (turn.new.history ≡ turn.old.history) }
        ensures refused { IfErr result (AreRefused (L.changes changes.now) turn.old.history) }
    {
        self.runtime.swap_written(written);
        let outcome = self.runtime.change_all(arena, turn, changes);
        self.runtime.swap_written(written);
        outcome
    }

    pub(crate) fn reach_all(
        &mut self,
        arena: &Arena,
        turn: &mut Turn,
        changes: &[Change],
        marked: &mut [bool],
    ) -> Result<(), Refused>
        requires arena { arena.now ≡ N.arena }
        requires turn { turn.old.table ≡ N.arena.table }
        requires marks { length marked.old ≡ 2 * classes N.arena }
        ensures turn { turn.new.table ≡ N.arena.table }
        ensures same { turn.new.history ≡ turn.old.history }
        ensures ok { OnOk result (refused_from 0 (log turn.old.history) changes.now ≡ None) }
        ensures marks { OnOk result (MarksAll N.arena turn.old changes.now marked.old marked.new) }
        ensures refused { IfErr result (AreRefused changes.now turn.old.history) }
        ensures before { IfErr result (MarksTo N.arena turn.old changes.now marked.old marked.new) }
        ensures length { length marked.new ≡ length marked.old }
    {
        self.runtime.reach_all(arena, turn, &changes, marked)
    }

    // Brings a reader up to date: it has then seen the turn's history, which begins with what it
    // had seen.
    pub(crate) fn meet(&mut self, arena: &Arena, turn: &mut Turn, reader: &mut Reader)
        requires arena { arena.now ≡ N.arena }
        requires turn { turn.old.table ≡ N.arena.table }
        requires reader { IsSenderOf N.arena reader.old }
        ensures turn { turn.new.table ≡ N.arena.table }
        ensures reader { IsSenderOf N.arena reader.new }
        ensures same { turn.new.history ≡ turn.old.history }
        ensures begins { BeginsWith turn.old.history reader.old.sender.front }
        ensures front { reader.new.sender.front ≡ turn.old.history }
    {
        self.runtime.meet(arena, turn, reader);
    }

    // Returns a reader with a sender number that isn't given out.
    pub(crate) fn sender(&mut self, arena: &Arena) -> Option<Reader>
        requires arena { arena.now ≡ N.arena }
        ensures reader { IfSome result (λ r. IsSenderOf N.arena r) }
        ensures new { IfSome result (λ r. IsNew r.sender self.old.keeper self.new.keeper) }
        ensures none { IsNone result → AreOut N.arena.key.senders self.old.keeper }
        ensures refused { IsNone result → self.new.report ≡ after_refusal self.old.report }
        ensures origin { IfSome result (λ r. r.sender.front.origin ≡ N.arena.key.origin) }
    {
        self.runtime.sender(arena)
    }

    // Takes a reader's number back.
    pub(crate) fn finish(&mut self, arena: &Arena, reader: Reader)
        requires arena { arena.now ≡ N.arena }
        requires reader { IsSenderOf N.arena reader }
        ensures taken { self.new.keeper ≡ taken_in reader.sender self.old.keeper }
    {
        self.runtime.finish(arena, reader);
    }

    // Returns the turn the first time, and nothing later.
    pub(crate) fn turn(&mut self, arena: &Arena) -> Option<Turn>
        requires arena { arena.now ≡ N.arena }
        ensures turn { IfSome result (λ t. t.table ≡ N.arena.table) }
        ensures empty { IfSome result (λ t. t.history ≡ empty N.arena.key.origin) }
    {
        self.runtime.turn(arena)
    }

    pub(crate) fn report(&self) -> Report
        ensures value { result ≡ self.now.report }
        ensures counts { AreCounts result }
    {
        self.runtime.report()
    }
}
