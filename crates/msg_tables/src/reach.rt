//! What a list of changes would affect.

ghost use Rattle.std.specs.Prelude.{◌≡◌, ◌<◌, ◌≤◌, ◌*◌, [], ◌∷◌, All, IfErr, OnOk, length};
ghost use Rattle.msg_names.specs.declared.value.ClassRef.{ClassRef};
ghost use Rattle.msg_tables.specs.Journal.{NamesListed};
ghost use Rattle.msg_tables.specs.Log.{Log};
ghost use Rattle.msg_tables.specs.Making.{AreMadeBefore, IsMarkedBelow, IsRefusedUnlessMemory, LacksMemory};
ghost use Rattle.msg_tables.specs.Making.{MarksTold, ReachesAll, ReachesBefore, RefusesNone, WantsMemory};
ghost use Rattle.msg_tables.specs.Recent.{HasPlace};
ghost use Rattle.msg_rows.specs.RowList.{HaveGrown};
ghost use Rattle.msg_tables.specs.Stands.{StandsAt};
ghost use Rattle.msg_tables.specs.View.{IsKept};

use crate::apply_all::Refused;
use crate::change_list::ChangeList;
use crate::entry::{Entry, Written};
use crate::marks::mark_made;
use crate::recent::Recent;
use crate::tables::Tables;

impl Tables {
    // Marks what an entry affects: a class that was made or disposed of, or the class reference
    // where rows were written and all below it.
    fn mark_entry(&self, entry: Entry, marked: &mut [bool])
        requires listed { NamesListed (length self.now.supers) entry }
        requires marks { length marked.old ≡ 2 * length self.now.supers }
        ensures marks { MarksTold self.now (entry ∷ []) marked.old marked.new }
        ensures length { length marked.new ≡ length marked.old }
    {
        if let Entry::Made { class } | Entry::Disposed { class, .. } = entry {
            mark_made(marked, class);
        } else if let Some(place) = entry.place() {
            self.mark_below(place, marked);
        }
    }

    // Marks what an entry affects, unless what is below its place was marked lately.
    fn mark_once(&self, entry: Entry, recent: &mut Recent, marked: &mut [bool])
        requires listed { NamesListed (length self.now.supers) entry }
        requires recent { (c : ClassRef) → HasPlace recent.old c → IsMarkedBelow self.now marked.old c }
        requires marks { length marked.old ≡ 2 * length self.now.supers }
        ensures marks { MarksTold self.now (entry ∷ []) marked.old marked.new }
        ensures recent { (c : ClassRef) → HasPlace recent.new c → IsMarkedBelow self.now marked.new c }
        ensures length { length marked.new ≡ length marked.old }
    {
        if !recent.had(&entry) {
            self.mark_entry(entry, marked);
        }
    }

    // Marks what entries affect.
    fn mark_written(&self, entries: &[Entry], marked: &mut [bool])
        requires listed { All (NamesListed (length self.now.supers)) entries.now }
        requires marks { length marked.old ≡ 2 * length self.now.supers }
        ensures marks { MarksTold self.now entries.now marked.old marked.new }
        ensures length { length marked.new ≡ length marked.old }
    {
        let mut recent = Recent::none();
        for entry in entries {
            self.mark_once(*entry, &mut recent, marked);
        }
    }

    /// Marks the class references whose lookups a list of changes may alter if it is made as one,
    /// in addition to those that are marked, each at its slot. The list alters no lookup of any
    /// other class reference. If a change would be refused, it returns which, and marks what the
    /// changes before it affect. If memory is lacking, the marks say nothing.
    ///
    /// The changes are made and taken back, and what they write is noted in `written`;
    /// [`apply_all`](Tables::apply_all) says what that costs. The classes that are marked are also
    /// visited, mostly once for each place at which the changes write: [`Recent`] says for how many
    /// places.
    pub fn reach_all<L: ChangeList>(
        &mut self,
        changes: &L,
        written: &mut Written,
        marked: &mut [bool],
    ) -> Result<(), Refused>
        requires stands { (h : Log) × StandsAt self.old h }
        requires marks { length marked.old ≡ 2 * length self.old.supers }
        ensures same { IsKept self.old self.new }
        ensures grown { HaveGrown self.old.rooms self.new.rooms }
        ensures ok { OnOk result (RefusesNone (L.changes changes.now) self.old) }
        ensures marks { OnOk result (ReachesAll (L.changes changes.now) self.old marked.old marked.new) }
        ensures fault { IfErr result (IsRefusedUnlessMemory (L.changes changes.now) self.old) }
        ensures memory { IfErr result (LacksMemory (L.changes changes.now) self.old) }
        ensures before { IfErr result (AreMadeBefore (L.changes changes.now) self.old) }
        ensures within { IfErr result (λ r. r.place < length (L.changes changes.now)) }
        ensures kept { IfErr result (ReachesBefore (L.changes changes.now) self.old marked.old marked.new) }
        ensures length { length marked.new ≡ length marked.old }
        ensures wanting { IfErr result (WantsMemory (L.changes changes.now) written.old.room self.old) }
        ensures room { written.old.room ≤ written.new.room }
        ensures forgotten { written.new.entries ≡ [] }
    {
        let start = self.start();
        let entries = &mut written.entries;
        entries.clear();
        let outcome = self.apply_each(changes, entries);
        self.mark_written(entries, marked);
        self.take_back(start, entries);
        outcome
    }
}
