//! Several lookups at one point, behind the lock.

ghost use Rattle.std.specs.Prelude.{◌≡◌, ◌<◌, length};
ghost use Rattle.msg_names.specs.Number.{imp_number};
ghost use Rattle.msg_tables.specs.History.{BeginsWith};
ghost use Rattle.msg_cache.specs.declared.view.TurnAt.TheVariants.{Away};
ghost use Rattle.msg_cache.specs.Views.{IsFoundAt, IsSenderOf, classes, layout};
ghost use Rattle.msg_reader.specs.Kept.{KeepOthers, LoadsMore};
ghost use Rattle.msg_reader.specs.Notes.{AreNotesOf, StayStamped};
ghost use Rattle.msg_reader.specs.Several.{AreAsked, AreFoundAt, AreNotedOrAt, IsNotedOrAt, KeepOthersOfAll};
ghost use Rattle.msg_runtime.specs.Calls.{KeepsRoom};

use crate::runtime::Runtime;
use msg_cache::{Arena, Turn};
use msg_names::ImpRef;
use msg_reader::laws::notes_are_of_longer_histories;
use msg_reader::{Lookup, LookupList, Notes, Reader};

impl Runtime {
    /// Answers several lookups by the numbers of the implementations, 0 for forwarding, all at the
    /// whole history, which the reader has then seen. What its notes have since the stamp of the
    /// class reference is taken from there. The rest is looked up in the tables, cached and noted.
    /// The turn's history is the runtime's.
    pub fn answer_all<L: LookupList>(
        &mut self,
        arena: &Arena,
        turn: &mut Turn,
        reader: &mut Reader,
        notes: &mut Notes,
        lookups: &L,
        imps: &mut [u32],
    )
        requires arena { arena.now ≡ self.old.arena }
        requires turn { turn.old.table ≡ self.old.arena.table }
        requires reader { IsSenderOf self.old.arena reader.old }
        requires notes { AreNotesOf reader.old.sender.front notes.old }
        requires asked { AreAsked self.old.arena (L.lookups lookups.now) }
        requires places { length imps.old ≡ length (L.lookups lookups.now) }
        ensures arena { self.new.arena ≡ self.old.arena }
        ensures history { self.new.keeper.history ≡ self.old.keeper.history }
        ensures remembered { self.new.remembered ≡ self.old.remembered }
        ensures room { KeepsRoom self.old self.new }
        ensures rested { self.new.rested ≡ self.old.rested }
        ensures away { self.new.keeper.turn ≡ Away }
        ensures turn { turn.new.table ≡ self.old.arena.table }
        ensures was { turn.old.history ≡ self.old.keeper.history }
        ensures is { turn.new.history ≡ self.old.keeper.history }
        ensures reader { IsSenderOf self.old.arena reader.new }
        ensures number { reader.new.sender.number ≡ reader.old.sender.number }
        ensures begins { BeginsWith self.old.keeper.history reader.old.sender.front }
        ensures front { reader.new.sender.front ≡ self.old.keeper.history }
        ensures found { AreFoundAt self.old.keeper.history (L.lookups lookups.now) imps.new }
        ensures notes { AreNotesOf self.old.keeper.history notes.new }
        ensures noted { AreNotedOrAt self.old.keeper.history notes.new
            reader.old.sender reader.new.sender (L.lookups lookups.now) imps.new }
        ensures others { KeepOthersOfAll notes.old notes.new (L.lookups lookups.now) }
        ensures stamped { StayStamped (layout self.old.arena) notes.old notes.new }
    {
        notes_are_of_longer_histories();
        self.meet(arena, turn, reader);
        for place in 0..lookups.len() {
            let lookup = lookups.get(place);
            let imp = self.recall_or_answer(arena, reader, notes, lookup);
            imps[place] = imp.number();
        }
        self.meet(arena, turn, reader);
    }

    // Returns what a lookup finds at what the reader has then seen. It takes what the notes have
    // since the stamp of the class reference, or else what the tables have, which is then cached
    // and noted.
    fn recall_or_answer(
        &mut self,
        arena: &Arena,
        reader: &mut Reader,
        notes: &mut Notes,
        lookup: Lookup,
    ) -> ImpRef
        requires arena { arena.now ≡ self.old.arena }
        requires reader { IsSenderOf self.old.arena reader.old }
        requires notes { AreNotesOf reader.old.sender.front notes.old }
        requires class { lookup.class.class < classes self.old.arena }
        ensures arena { self.new.arena ≡ self.old.arena }
        ensures history { self.new.keeper.history ≡ self.old.keeper.history }
        ensures remembered { self.new.remembered ≡ self.old.remembered }
        ensures room { KeepsRoom self.old self.new }
        ensures rested { self.new.rested ≡ self.old.rested }
        ensures reader { IsSenderOf self.old.arena reader.new }
        ensures number { reader.new.sender.number ≡ reader.old.sender.number }
        ensures begins { BeginsWith reader.new.sender.front reader.old.sender.front }
        ensures found { IsFoundAt reader.new.sender.front lookup.class lookup.sel result }
        ensures notes { AreNotesOf reader.new.sender.front notes.new }
        ensures noted { IsNotedOrAt self.old.keeper.history notes.new
            reader.old.sender reader.new.sender lookup (imp_number result) }
        ensures others { KeepOthers notes.old notes.new lookup.class lookup.sel }
        ensures stamps { LoadsMore reader.old.sender reader.new.sender }
        ensures stamped { StayStamped (layout self.old.arena) notes.old notes.new }
    {
        match reader.recall(arena, notes, lookup.class, lookup.sel) {
            Some(imp) => imp,
            None => self.answer_noted(arena, reader, notes, lookup.class, lookup.sel),
        }
    }
}
