//! Lists of changes.

ghost use Rattle.std.specs.Prelude.{◌≡◌, ◌<◌, ◌^◌, List, Some, length, slice_get};
ghost use Rattle.msg_tables.specs.declared.change.Change.{Change};
ghost use Rattle.msg_tables.specs.ChangeList.{change_of};

use crate::change::{Change, ChangeRef};

/// A list of changes that are read one at a time: a slice of changes, or a host's own kind of list.
pub trait ChangeList {
    ghost changes: { Self → List Change };

    /// The number of changes.
    fn len(&self) -> usize
        ensures count { result ≡ length (changes self.now) }
        ensures few { result < 2 ^ 63 };

    /// The change at a place, from 0.
    fn get(&self, place: usize) -> ChangeRef<'_>
        requires { place < length (changes self.now) }
        ensures { slice_get (changes self.now) place ≡ Some (change_of result) };
}

impl ChangeList for &[Change] {
    ghost changes = { λ list. list.now };

    #[inline(always)]
    fn len(&self) -> usize {
        (*self).len()
    }

    #[inline(always)]
    fn get(&self, place: usize) -> ChangeRef<'_> {
        self[place].by_ref()
    }
}
