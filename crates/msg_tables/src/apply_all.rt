//! Makes a list of changes as one.

ghost use Rattle.std.specs.Prelude.{◌≡◌, ◌≢◌, ◌<◌, ◌≤◌, ◌+◌, ◌*◌, [], All, IfErr, IfOk, IsErrOf, None, OnErr, OnOk, Some, length, take};
ghost use Rattle.std.specs.Vec.{vec_capacity};
ghost use Rattle.msg_tables.specs.declared.fault.ChangeFault.{ChangeFault};
ghost use Rattle.msg_tables.specs.Accepts.{Accepts, Makes, Refuses};
ghost use Rattle.msg_tables.specs.ChangeList.{change_of};
ghost use Rattle.msg_tables.specs.Journal.{GoesBack, NamesListed, classes_of};
ghost use Rattle.msg_tables.specs.Making.{AreHeld, AreMadeBefore, AreMadeTo, WantsMemory, WantsMore, HasPlaces, IsMade, IsReadPart, IsRefused, IsRefusedUnlessMemory, IsUndone, LacksMemory, StandAfter, TellsAll};
ghost use Rattle.msg_rows.specs.RowList.{HaveGrown};
ghost use Rattle.msg_tables.specs.Several.{made_by_all};
ghost use Rattle.msg_tables.specs.View.{IsKept, IsWithinRoom};

use crate::change::ChangeRef;
use crate::change_list::ChangeList;
use crate::entry::{Entry, Written};
use crate::fault::ChangeFault;
use crate::tables::Tables;

/// Why a list of changes was not made: the place of the first change that was refused, from 0, and
/// its fault.
#[derive(Clone, Copy, Debug, PartialEq, Eq)]
pub struct Refused {
    pub place: usize,
    pub fault: ChangeFault,
}

impl Tables {
    // Makes a change of a list, and notes what it wrote.
    #[inline(always)]
    pub(crate) fn apply_part(
        &mut self,
        change: ChangeRef<'_>,
        journal: &mut Vec<Entry>,
    ) -> Result<(), ChangeFault>
        requires within { IsWithinRoom self.old }
        ensures ok { OnOk result (Makes self.old (change_of change.entry) self.new) }
        ensures part { OnOk result (IsReadPart change.entry journal.old.items journal.new.items self.old self.new) }
        ensures err { OnErr result ((IsKept self.old self.new) × (journal.new.items ≡ journal.old.items)) }
        ensures grown { HaveGrown self.old.rooms self.new.rooms }
        ensures fault { IfErr result (λ f. f ≢ ChangeFault.Memory → Refuses self.old (change_of change.entry) f) }
        ensures memory { IsErrOf result ChangeFault.Memory → Accepts self.old (change_of change.entry) }
        ensures wanting { IsErrOf result ChangeFault.Memory
            → WantsMore (change_of change.entry) (length journal.old.items) (vec_capacity journal.old) self.old }
        ensures within { IsWithinRoom self.new }
        ensures room { vec_capacity journal.old ≤ vec_capacity journal.new }
    {
        let edit = self.judge(change)?;
        self.write_with_room(edit, journal)?;
        self.change_count += 1;
        Ok(())
    }

    // Makes changes one after another, up to the first that is refused.
    pub(crate) fn apply_each<L: ChangeList>(
        &mut self,
        changes: &L,
        journal: &mut Vec<Entry>,
    ) -> Result<(), Refused>
        requires none { journal.old.items ≡ [] }
        requires within { IsWithinRoom self.old }
        ensures ok { OnOk result (IsMade (L.changes changes.now) journal.new.items self.old self.new) }
        ensures err { IfErr result (AreMadeTo (L.changes changes.now) journal.new.items self.old self.new) }
        ensures fault { IfErr result (IsRefusedUnlessMemory (L.changes changes.now) self.old) }
        ensures memory { IfErr result (LacksMemory (L.changes changes.now) self.old) }
        ensures wanting { IfErr result (WantsMemory (L.changes changes.now) (vec_capacity journal.old) self.old) }
        ensures held { OnOk result (AreHeld (L.changes changes.now) self.old self.new) }
        ensures room { vec_capacity journal.old ≤ vec_capacity journal.new }
    {
        for place in 0..changes.len() {
            if let Err(fault) = self.apply_part(changes.get(place), journal) {
                return Err(Refused { place, fault });
            }
        }
        Ok(())
    }

    /// Makes a list of changes as one. If a change would be refused, it returns which, and changes
    /// nothing.
    ///
    /// Each change is judged and made after those before it. What the changes write is noted in
    /// `written`, in place of what was there. It gets an entry for each row that is added,
    /// rewritten or removed, and for each class, and it grows if it is too small. If a change is
    /// refused or memory is lacking, the changes before it are taken back, from the last to the
    /// first. Taking them back needs no memory. For each row that a change had removed it visits
    /// the rows of that list, and if a class was made or disposed of, all classes once.
    ///
    /// [`Written::way_back`], made directly afterwards, takes the list back. It writes as many
    /// entries, so the room of a `Written` that held the list is enough, and it needs no memory.
    pub fn apply_all<L: ChangeList>(
        &mut self,
        changes: &L,
        written: &mut Written,
    ) -> Result<(), Refused>
        ensures ok { OnOk result (StandAfter (L.changes changes.now) self.old self.new) }
        ensures err { OnErr result (IsKept self.old self.new) }
        ensures grown { HaveGrown self.old.rooms self.new.rooms }
        ensures fault { IfErr result (IsRefusedUnlessMemory (L.changes changes.now) self.old) }
        ensures memory { IfErr result (LacksMemory (L.changes changes.now) self.old) }
        ensures wanting { IfErr result (WantsMemory (L.changes changes.now) written.old.room self.old) }
        ensures held { OnOk result (AreHeld (L.changes changes.now) self.old self.new) }
        ensures room { written.old.room ≤ written.new.room }
        ensures forgotten { OnErr result (written.new.entries ≡ []) }
        ensures before { IfErr result (AreMadeBefore (L.changes changes.now) self.old) }
        ensures within { IfErr result (λ r. r.place < length (L.changes changes.now)) }
        ensures places { OnOk result (HasPlaces (L.changes changes.now) self.old written.new.entries) }
        ensures made { OnOk result (classes_of written.new.entries ≡ made_by_all (L.changes changes.now)) }
        ensures undo { OnOk result (IsUndone (L.changes changes.now) self.old written.new.entries) }
        ensures noted { length written.new.entries ≤ written.new.room }
        ensures back { OnOk result
            (GoesBack written.new.entries self.old.row_count self.old.change_count self.old self.new) }
        ensures affected { OnOk result (TellsAll (L.changes changes.now) self.old written.new.entries) }
        ensures listed { OnOk result (All (NamesListed (length self.new.supers)) written.new.entries) }
        ensures classes { length self.new.supers ≡ length self.old.supers }
        ensures counts { self.new.counts ≡ self.old.counts }
    {
        let start = self.start();
        written.entries.clear();
        let outcome = self.apply_each(changes, &mut written.entries);
        if outcome.is_err() {
            self.take_back(start, &mut written.entries);
        }
        outcome
    }
}
