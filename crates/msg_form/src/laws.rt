//! Laws of the faults of documents.

ghost use Rattle.std.specs.Prelude.{◌≡◌};
ghost use Rattle.msg_form.specs.Laws.{ConditionsAreInOrder, LeastFaultIsTold};

use crate::limits::{
    MAX_CATEGORIES, MAX_CLASSES, MAX_DEPTH, MAX_ENTRIES, MAX_EXPRESSIONS, MAX_IMPS, MAX_ITEMS,
    MAX_OBJECTS,
};

/// The conditions that are judged on a form are in the order of their faults' numbers, and none is
/// left out.
pub fn faults_are_judged_in_the_order_of_their_numbers()
    ensures { ConditionsAreInOrder }
{}

/// The fault that is returned has the least number of those whose conditions the form meets.
pub fn the_least_fault_is_told()
    ensures { LeastFaultIsTold }
{}

/// The limits of documents, as in the document format.
pub fn the_limits_are_the_formats()
    ensures classes { MAX_CLASSES ≡ 1024 }
    ensures categories { MAX_CATEGORIES ≡ 1024 }
    ensures objects { MAX_OBJECTS ≡ 4096 }
    ensures implementations { MAX_IMPS ≡ 4096 }
    ensures items { MAX_ITEMS ≡ 65536 }
    ensures entries { MAX_ENTRIES ≡ 16384 }
    ensures depth { MAX_DEPTH ≡ 32 }
    ensures expressions { MAX_EXPRESSIONS ≡ 256 }
{}
