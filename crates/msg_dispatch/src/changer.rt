//! The changer.

ghost use Rattle.std.specs.Prelude.{◌≡◌, ◌≤◌, ◌*◌, length, IfOk, IfErr, IsErrOf, OnErr, OnOk, None};
ghost use Rattle.msg_tables.specs.History.{BeginsWith, log};
ghost use Rattle.msg_tables.specs.Made.{AreMade, AreRefused, TellsWayBack};
ghost use Rattle.msg_tables.specs.Origin.{class_total};
ghost use Rattle.msg_tables.specs.Several.{refused_from};
ghost use Rattle.msg_tables.specs.declared.fault.ChangeFault.{ChangeFault};
ghost use Rattle.msg_runtime.specs.Changed.{IsAccepted, IsMadeAt, IsRefusedAt};
ghost use Rattle.msg_dispatch.specs.Changed.{MarksAllReached, MarksBefore};

use crate::dispatcher::Dispatcher;
use crate::name::ArenaName;
use crate::sender::Sender;
use msg_cache::Turn;
use msg_tables::{Change, ChangeFault, ChangeList, Refused, Written};
use std::marker::Model;
use std::sync::Wait;

/// The result of an accepted change.
#[derive(Clone, Copy, Debug, PartialEq, Eq)]
pub struct Receipt {
    /// The number of times that changes were accepted, including this one.
    pub count: u64,
}

/// Makes changes. Contracts see it as the history.
#[derive(Drop)]
pub struct Changer<'d, N: ArenaName> {
    pub(crate) dispatcher: &'d Dispatcher<N>,
    pub(crate) turn: Turn,
    pub(crate) count: u64,
}

impl<'d, N: ArenaName> Model for Changer<'d, N> {
    ghost use Rattle.msg_tables.specs.History.{History};
    ghost use Rattle.msg_dispatch.specs.Changed.{IsTurnAfter};

    ghost Value = { History };

    ghost use Rattle.std.specs.Coded.{codes};

    ghost coded = { Prim.hlevel codes };

    ghost view = { λ c. c.turn.history };

    ghost invariant = { λ c. IsTurnAfter N.arena c.turn c.count };
}

impl<'d, N: ArenaName> Changer<'d, N> {
    /// Makes a change, or returns why not. Senders see the change and its flushes of caches as one
    /// step.
    pub fn change<R: Wait>(&mut self, rt: &R, change: &Change) -> Result<Receipt, ChangeFault>
        ensures ok { IfOk result (λ r. IsMadeAt self.old change.now self.new r.count) }
        ensures err { OnErr result (self.new ≡ self.old) }
        ensures fault { IfErr result (IsRefusedAt self.old change.now) }
        ensures memory { IsErrOf result ChangeFault.Memory → IsAccepted self.old change.now }
    {
        let dispatcher = self.dispatcher;
        let count = dispatcher
            .locked_runtime
            .lock(rt)
            .change(&dispatcher.arena, &mut self.turn, change)?;
        self.count = count;
        Ok(Receipt { count })
    }

    /// Makes a list of changes as one. If a change would be refused, it returns which, and makes
    /// none. Each lookup, by any sender, is from before all of the changes or from after all. An
    /// empty list changes nothing and isn't counted.
    ///
    /// What the list wrote is noted in `written`. Directly afterwards its
    /// [`way_back`](Written::way_back) is a list that takes this one back.
    pub fn change_all<R: Wait, L: ChangeList>(
        &mut self,
        rt: &R,
        changes: &L,
        written: &mut Written,
    ) -> Result<Receipt, Refused>
        ensures ok { OnOk result (AreMade (L.changes changes.now) self.old self.new) }
        ensures count { IfOk result (λ r. r.count ≡ length self.new.changes) }
        ensures back { OnOk result (TellsWayBack (L.changes changes.now) self.old written.new.entries) }
        ensures room { written.old.room ≤ written.new.room }
        ensures err { OnErr result (self.new ≡ self.old) }
        ensures refused { IfErr result (AreRefused (L.changes changes.now) self.old) }
    {
        let dispatcher = self.dispatcher;
        let count = dispatcher
            .locked_runtime
            .lock(rt)
            .change_all(&dispatcher.arena, &mut self.turn, changes, written)?;
        self.count = count;
        Ok(Receipt { count })
    }

    /// Marks the class references whose lookups [`change_all`](Changer::change_all) may alter, in
    /// addition to those that are marked, each at its slot. It makes no change. If a change would
    /// be refused, it returns which, and marks what the changes before it may alter. If memory is
    /// lacking, the marks say nothing.
    pub fn reach<R: Wait>(
        &mut self,
        rt: &R,
        changes: &[Change],
        marked: &mut [bool],
    ) -> Result<(), Refused>
        requires { length marked.old ≡ 2 * class_total self.old.origin }
        ensures same { self.new ≡ self.old }
        ensures ok { OnOk result (refused_from 0 (log self.old) changes.now ≡ None) }
        ensures marks { OnOk result (MarksAllReached self.old changes.now marked.old marked.new) }
        ensures refused { IfErr result (AreRefused changes.now self.old) }
        ensures before { IfErr result (MarksBefore self.old changes.now marked.old marked.new) }
        ensures length { length marked.new ≡ length marked.old }
    {
        let dispatcher = self.dispatcher;
        dispatcher
            .locked_runtime
            .lock(rt)
            .reach_all(&dispatcher.arena, &mut self.turn, changes, marked)
    }

    /// The number of times that changes were accepted: a list of changes counts as one.
    pub fn count(&self) -> u64
        ensures { result ≡ length self.now.changes }
    {
        self.count
    }

    /// Brings a sender up to date: it has then seen the whole history, which begins with what it
    /// had seen.
    pub fn meet<R: Wait>(&mut self, rt: &R, sender: &mut Sender<'_, N>)
        ensures same { self.new ≡ self.old }
        ensures begins { BeginsWith self.old sender.old.seen.front }
        ensures seen { sender.new.seen.front ≡ self.old }
        ensures takings { sender.new.takings ≡ sender.old.takings }
    {
        let dispatcher = self.dispatcher;
        dispatcher
            .locked_runtime
            .lock(rt)
            .meet(&dispatcher.arena, &mut self.turn, &mut sender.reader);
    }
}
