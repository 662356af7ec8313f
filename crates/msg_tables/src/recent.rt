//! The places that were visited last.

ghost use Rattle.std.specs.Prelude.{◌≡◌, ◌⊎◌, IfSome, Some, true};
ghost use Rattle.msg_names.specs.declared.value.ClassRef.{ClassRef};
ghost use Rattle.msg_tables.specs.Journal.{place_of};
ghost use Rattle.msg_tables.specs.Recent.{HasNoPlace, HasPlace, HasPlaceOf};

use crate::entry::Entry;
use msg_names::ClassRef;
use std::marker::Model;

const PLACES: usize = 8;

/// Some of the class references that were visited last, eight at most. Of two whose slots differ by
/// a multiple of eight, the later one is among them. That is a matter of cost alone: no clause says
/// more than that the last one is.
#[derive(Drop)]
pub struct Recent {
    // one more than the slot of each, or 0
    marks: [usize; PLACES],
}

impl Model for Recent {
    ghost use Rattle.std.specs.Prelude.{List, ℕ};

    ghost Value = { List ℕ };

    ghost view = { λ r. r.marks };
}

impl Recent {
    /// None is among them.
    pub fn none() -> Recent
        ensures { HasNoPlace result }
    {
        Recent { marks: [0; PLACES] }
    }

    /// Whether an entry wrote at one of these class references. If not, the one where it wrote
    /// comes to them.
    #[inline(always)]
    pub fn had(&mut self, entry: &Entry) -> bool
        ensures had { result ≡ true → HasPlaceOf self.old entry.now }
        ensures places { (c : ClassRef) → HasPlace self.new c → HasPlace self.old c ⊎ (place_of entry.now ≡ Some c) }
        ensures comes { IfSome (place_of entry.now) (HasPlace self.new) }
    {
        let Some(place) = entry.place() else {
            return false;
        };
        let mark = place.slot() + 1;
        let index = mark % PLACES;
        if self.marks[index] == mark {
            return true;
        }
        self.marks[index] = mark;
        false
    }
}
