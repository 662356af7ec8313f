//! The way back from lists of changes in numbers.

ghost use Rattle.std.specs.Prelude.{◌≡◌, ◌≢◌, ◌<◌, ◌≤◌, ◌⊎◌, length, take};
ghost use Rattle.msg_tables.specs.Journal.{undo_journal};
ghost use Rattle.msg_runtime.specs.Calls.{KeepsAtLeastRoom};
ghost use Rattle.msg_host.specs.Asking.{IsLeft, IsRefusal, want_of_room};
ghost use Rattle.msg_host.specs.Listing as spec;
ghost use Rattle.msg_host.specs.Listing.{AreMeant, AreRefusedRows, FlushesRows, LackMemoryIf, MakesRows, UndoesRows, WeighRows};
ghost use Rattle.msg_host.specs.WayBack.{TakesBack};

use crate::fault::NO_ROOM;
use crate::laws::every_list_of_rows_has_a_way_back;
use crate::listing::{ChangeRow, RowsUnmade};
use crate::runtime::HostedRuntime;
use msg_names::{ClassRef, Selector};
use msg_tables::Entry;

impl ChangeRow {
    // A row of a kind that names a method, and perhaps its implementation.
    fn of_method(kind: u32, class: ClassRef, sel: Selector, imp: u32) -> ChangeRow
        ensures { result ≡ spec.method_row kind class sel imp }
    {
        ChangeRow {
            kind,
            class: class.class,
            meta: u32::from(class.meta),
            sel: sel.number(),
            imp,
            other: 0,
            other_meta: 0,
            other_sel: 0,
        }
    }

    // A row of a kind that names a class, and perhaps its superclass.
    fn of_class(kind: u32, class: u32, other: u32) -> ChangeRow
        ensures { result ≡ spec.class_row kind class other }
    {
        ChangeRow {
            kind,
            class,
            meta: 0,
            sel: 0,
            imp: 0,
            other,
            other_meta: 0,
            other_sel: 0,
        }
    }

    // The row of the change that takes an entry back.
    fn undoing(entry: Entry) -> ChangeRow
        ensures { result ≡ spec.undoing entry }
    {
        match entry {
            Entry::Added { class, sel } => ChangeRow::of_method(7, class, sel, 0),
            Entry::Rewrote { class, sel, imp } => ChangeRow::of_method(2, class, sel, imp.number()),
            Entry::Removed {
                class,
                sel,
                imp,
                ..
            } => ChangeRow::of_method(9, class, sel, imp.number()),
            Entry::Made { class } => ChangeRow::of_class(8, class, 0),
            Entry::Disposed {
                class,
                superclass: Some(superclass),
                ..
            } => ChangeRow::of_class(5, class, superclass),
            Entry::Disposed { class, .. } => ChangeRow::of_class(6, class, 0),
        }
    }
}

// Writes the changes that take changes back, the last first.
fn write_way_back(entries: &[Entry], rows: &mut [ChangeRow])
    requires { length entries.now ≤ length rows.old }
    ensures meant { AreMeant (take (length entries.now) rows.new) (undo_journal entries.now) }
    ensures length { length rows.new ≡ length rows.old }
{
    for place in 0..entries.len() {
        rows[place] = ChangeRow::undoing(entries[entries.len() - 1 - place]);
    }
}

impl HostedRuntime {
    /// Makes the changes of rows as one, like [`make_all`](HostedRuntime::make_all), and writes the
    /// rows that take them back directly after it, which are made as one too. `undone` is their
    /// number. If `undo` has fewer places, it returns 76 and does nothing, and `undone` is the
    /// number that is needed. There is one row for each row of the tables that the list adds,
    /// rewrites or removes, and for each class that it makes or disposes of.
    #[tactic(auto, using(crate::proofs::ListingLemmas::rows_undone, crate::proofs::WayBackLemmas::taken_back))]
    pub fn make_all_with_undo(
        &mut self,
        rows: &[ChangeRow],
        undo: &mut [ChangeRow],
        undone: &mut usize,
        place: &mut usize,
    ) -> u32
        ensures arena { self.new.arena ≡ self.old.arena }
        ensures given { self.new.keeper.given ≡ self.old.keeper.given }
        ensures rested { self.new.rested ≡ self.old.rested }
        ensures made { result ≡ 0 → MakesRows rows.now self.old self.new }
        ensures keeps_room { result ≡ 0 → KeepsAtLeastRoom self.old self.new }
        ensures flushed { result ≡ 0 → FlushesRows rows.now self.old self.new }
        ensures undo { result ≡ 0 → UndoesRows rows.now self.old.keeper.history undo.new undone.new }
        ensures back { result ≡ 0 → TakesBack (take undone.new undo.new) self.old self.new }
        ensures within { result ≡ 0 → undone.new ≤ length undo.new }
        ensures left { result ≢ 0 → IsLeft self.old self.new }
        ensures room { result ≡ want_of_room → length undo.old < undone.new }
        ensures wanted { result ≡ want_of_room → WeighRows rows.now self.old.keeper.history undone.new }
        ensures unwritten { result ≢ 0 → undo.new ≡ undo.old }
        ensures untold { result ≢ 0 → result ≢ want_of_room → undone.new ≡ undone.old }
        ensures kept { (result ≡ 0) ⊎ (result ≡ want_of_room) → place.new ≡ place.old }
        ensures place { result ≢ 0 → result ≢ want_of_room → place.new < length rows.now }
        ensures fault { IsRefusal result → AreRefusedRows rows.now self.old.keeper.history place.new result }
        ensures memory { LackMemoryIf rows.now self.old place.new result }
    {
        every_list_of_rows_has_a_way_back();
        let _accepted = self.count();
        match self.change_rows(rows, undo.len()) {
            Ok(()) => {}
            Err(RowsUnmade::Fault(fault)) => return fault.tell(place),
            Err(RowsUnmade::TooLong(wanted)) => {
                *undone = wanted;
                return NO_ROOM;
            }
        }
        let entries = self.written().as_slice();
        write_way_back(entries, undo);
        *undone = entries.len();
        0
    }
}
