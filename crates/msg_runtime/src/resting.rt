//! When old code may be unloaded: the number of changes since which each sender has rested.
//!
//! A sender rests when nothing that it found before is in use: no such method runs in its thread,
//! and none is kept to be called. It isn't enough that it has seen a change. A method from before
//! the change may have sent the message by whose answer the sender saw the change, and still runs.

ghost use Rattle.std.specs.Prelude.{◌≡◌, length};
ghost use Rattle.msg_tables.specs.History.{BeginsWith};
ghost use Rattle.msg_cache.specs.Plays.{given_again, lent};
ghost use Rattle.msg_cache.specs.Views.{IsSenderOf};
ghost use Rattle.msg_runtime.specs.Calls.{KeepsRoom, RestsAs};
ghost use Rattle.msg_runtime.specs.Resting.{HaveAllSeen, IsLeastOut};

use crate::runtime::Runtime;
use msg_cache::laws::senders_have_seen_what_they_were_given_out_at;
use msg_cache::{Arena, Turn};
use msg_reader::Reader;

impl Runtime {
    /// Does the same as [`meet`](Runtime::meet), and notes the number of changes for the reader's
    /// number. By the call the caller says that nothing which the reader found before is in use.
    pub fn rest(&mut self, arena: &Arena, turn: &mut Turn, reader: &mut Reader)
        requires arena { arena.now ≡ self.old.arena }
        requires turn { turn.old.table ≡ self.old.arena.table }
        requires reader { IsSenderOf self.old.arena reader.old }
        ensures arena { self.new.arena ≡ self.old.arena }
        ensures remembered { self.new.remembered ≡ self.old.remembered }
        ensures room { KeepsRoom self.old self.new }
        ensures report { self.new.report ≡ self.old.report }
        ensures keeper { self.new.keeper ≡ given_again reader.old.sender (lent self.old.keeper) }
        ensures rested { RestsAs reader.old.sender self.old self.new }
        ensures turn { turn.new.table ≡ self.old.arena.table }
        ensures reader { IsSenderOf self.old.arena reader.new }
        ensures number { reader.new.sender.number ≡ reader.old.sender.number }
        ensures was { turn.old.history ≡ self.old.keeper.history }
        ensures is { turn.new.history ≡ self.old.keeper.history }
        ensures begins { BeginsWith self.old.keeper.history reader.old.sender.front }
        ensures front { reader.new.sender.front ≡ self.old.keeper.history }
    {
        self.meet(arena, turn, reader);
        self.rested[reader.number() as usize] = self.keeper.count();
    }

    /// For each sender that is out, take the number of changes when it last rested or was given
    /// out. Returns the least of these numbers, or the number of all changes if no sender is out.
    /// Each sender has seen that many changes.
    ///
    /// It goes over all sender numbers.
    pub fn seen_by_all(&self) -> u64
        ensures least { IsLeastOut self.now.keeper.given self.now.rested
            (length self.now.keeper.history.changes) result }
        ensures seen { HaveAllSeen self.now.arena.key self.now.keeper result }
    {
        senders_have_seen_what_they_were_given_out_at();
        let mut least = self.keeper.count();
        for number in 0..self.rested.len() {
            if self.keeper.is_out(number) && self.rested[number] < least {
                least = self.rested[number];
            }
        }
        least
    }
}
