//! Lists of lookups.

ghost use Rattle.std.specs.Prelude.{◌≡◌, ◌<◌, ◌^◌, List, Some, length, slice_get};
ghost use Rattle.msg_reader.specs.declared.lookup.Lookup.{Lookup};

use crate::lookup::Lookup;

/// A list of lookups that are read one at a time: a slice of lookups, or a host's own kind of list.
pub trait LookupList {
    ghost lookups: { Self → List Lookup };

    /// The number of lookups.
    fn len(&self) -> usize
        ensures count { result ≡ length (lookups self.now) }
        ensures few { result < 2 ^ 63 };

    /// The lookup at a place, from 0.
    fn get(&self, place: usize) -> Lookup
        requires { place < length (lookups self.now) }
        ensures { slice_get (lookups self.now) place ≡ Some result };
}

impl LookupList for &[Lookup] {
    ghost lookups = { λ list. list.now };

    #[inline(always)]
    fn len(&self) -> usize {
        (*self).len()
    }

    #[inline(always)]
    fn get(&self, place: usize) -> Lookup {
        self[place]
    }
}
