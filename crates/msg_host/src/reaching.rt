//! What changes in numbers would affect.

ghost use Rattle.std.specs.Prelude.{◌≡◌, ◌≢◌, ◌<◌, ◌*◌, ◌⊎◌, IfErr, OnOk, length};
ghost use Rattle.msg_cache.specs.Views.{classes};
ghost use Rattle.msg_host.specs.Asking.{IsLeft, IsRefusal, want_of_room};
ghost use Rattle.msg_host.specs.Listing.{IsRowFault, LackMemoryIf, ReachesRowsOf, RefusesToReach};

use crate::fault::NO_ROOM;
use crate::listing::{ChangeRow, RowFault, meant};
use crate::runtime::HostedRuntime;

impl HostedRuntime {
    // Marks what the changes of rows may alter if they are made as one, or returns why they would
    // be refused.
    fn rows_reach(&mut self, rows: &[ChangeRow], reached: &mut [bool]) -> Result<(), RowFault>
        requires { length reached.old ≡ 2 * classes self.old.arena }
        ensures same { IsLeft self.old self.new }
        ensures reached { OnOk result (ReachesRowsOf self.old rows.now reached.old reached.new) }
        ensures fault { IfErr result (IsRowFault rows.now self.old) }
        ensures before { IfErr result (λ r. IsRefusal r.number
            → RefusesToReach self.old rows.now r.place r.number reached.old reached.new) }
    {
        let changes = meant(rows)?;
        match self.reach_all(&changes, reached) {
            Ok(()) => Ok(()),
            Err(refused) => Err(RowFault::of(refused)),
        }
    }

    /// Marks the class references whose lookups the changes of rows may alter if they are made as
    /// one, in addition to those that are marked. It makes no change. A class has its place at
    /// twice its number, and its metaclass has the next. If there aren't that many places, it
    /// returns 76 and marks nothing. It returns 0, or the number of the fault for which the changes
    /// would be refused, with the place of the row. If the row means no change, nothing is marked.
    /// If it is the first that would be refused, what the changes before it may alter is marked. If
    /// memory is lacking, the marks say nothing.
    pub fn reach_rows(&mut self, rows: &[ChangeRow], reached: &mut [bool], place: &mut usize) -> u32
        ensures same { IsLeft self.old self.new }
        ensures reached { result ≡ 0 → ReachesRowsOf self.old rows.now reached.old reached.new }
        ensures room { length reached.old ≢ 2 * classes self.old.arena → result ≡ want_of_room }
        ensures short { result ≡ want_of_room → length reached.old ≢ 2 * classes self.old.arena }
        ensures unmarked { result ≡ want_of_room → reached.new ≡ reached.old }
        ensures kept { (result ≡ 0) ⊎ (result ≡ want_of_room) → place.new ≡ place.old }
        ensures place { result ≢ 0 → result ≢ want_of_room → place.new < length rows.now }
        ensures fault { IsRefusal result → RefusesToReach self.old rows.now place.new result reached.old reached.new }
        ensures memory { LackMemoryIf rows.now self.old place.new result }
    {
        if reached.len() != 2 * self.class_count() as usize {
            return NO_ROOM;
        }
        match self.rows_reach(rows, reached) {
            Ok(()) => 0,
            Err(fault) => fault.tell(place),
        }
    }
}
