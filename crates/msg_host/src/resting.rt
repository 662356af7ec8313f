//! When old code may be unloaded.

ghost use Rattle.std.specs.Prelude.{◌≡◌, length};
ghost use Rattle.msg_tables.specs.History.{BeginsWith};
ghost use Rattle.msg_cache.specs.Plays.{given_again};
ghost use Rattle.msg_runtime.specs.Calls.{RestsAs};
ghost use Rattle.msg_runtime.specs.Resting.{HaveAllSeen, IsLeastOut};

use crate::runtime::HostedRuntime;
use crate::sender::HostedSender;

impl HostedRuntime {
    /// Does the same as [`meet`](HostedRuntime::meet), and notes after how many changes the sender
    /// rested. By the call the host says that nothing which the sender found before is in use: its
    /// thread runs no such function, and keeps none to call.
    pub fn rest(&mut self, sender: &mut HostedSender)
        requires sender { sender.old.arena ≡ self.old.arena }
        ensures rested { self.new ≡ record self.old
            { keeper = given_again sender.old.seen self.old.keeper; rested = self.new.rested } }
        ensures count { RestsAs sender.old.seen self.old self.new }
        ensures arena { sender.new.arena ≡ sender.old.arena }
        ensures number { sender.new.seen.number ≡ sender.old.seen.number }
        ensures begins { BeginsWith self.old.keeper.history sender.old.seen.front }
        ensures front { sender.new.seen.front ≡ self.old.keeper.history }
    {
        self.runtime
            .rest(&self.arena, &mut self.turn, &mut sender.reader);
    }

    /// For each sender that is out, take the number of changes that it had seen when it last rested
    /// or was given out. Returns the least of these numbers, or the number of all changes if no
    /// sender is out. Each sender has seen that many, so it finds nothing older from then on. It
    /// goes over all sender numbers.
    pub fn seen_by_all(&self) -> u64
        ensures least { IsLeastOut self.now.keeper.given self.now.rested
            (length self.now.keeper.history.changes) result }
        ensures seen { HaveAllSeen self.now.arena.key self.now.keeper result }
    {
        self.runtime.seen_by_all()
    }
}
