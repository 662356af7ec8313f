//! Laws of lists of changes, which are made as one or undone.

ghost use Rattle.msg_tables.specs.RoomLaws.{NoRowWantsNoMemory, WayBackWantsNoMemory, WayBackWritesNoMore};
ghost use Rattle.std.specs.Prelude.{◌≡◌, List};
ghost use Rattle.msg_tables.specs.History.{History, BeginsWith, log};
ghost use Rattle.msg_tables.specs.ListLaws.{AcceptedWhereNoneIsRefused, AffectedIsAtItsPlaces, ListAffectsNoMore};
ghost use Rattle.msg_tables.specs.ListLaws.{NoneIsRefusedWhereAccepted, OneIsRefusedAsItself, RefusedIsFirst};
ghost use Rattle.msg_tables.specs.ListLaws.{EveryListHasWayBack, ListAndWayBackReachTheSame, WayBackBringsBackEachLookup};
ghost use Rattle.msg_tables.specs.ListLaws.{WayBackBringsBackTheTables, WayBackHoldsNoMore, WayBackIsAccepted, WhatIsBelowStays};
ghost use Rattle.msg_tables.specs.Log.{Log, table, table_after_all};
ghost use Rattle.msg_tables.specs.Refusal.{IsLog};
ghost use Rattle.msg_tables.specs.Several.{and_all};
ghost use Rattle.msg_tables.specs.declared.change.Change.{Change};

use crate::limits::{MAX_CLASSES, MAX_IMP, MOST_CHANGES, MOST_SENDERS, MOST_WORDS};

/// What a history of accepted changes begins with is such a history too: each earlier point of a
/// history is a history.
pub fn an_earlier_point_is_a_history()
    ensures { (h g : History) → BeginsWith h g → IsLog (log h) → IsLog (log g) }
{}

/// The limits that an origin may have.
pub fn the_limits_are_these()
    ensures classes { MAX_CLASSES ≡ 16777216 }
    ensures implementations { MAX_IMP ≡ 4294967295 }
    ensures changes { MOST_CHANGES ≡ 281474976710656 }
    ensures senders { MOST_SENDERS ≡ 16384 }
    ensures words { MOST_WORDS ≡ 268435456 }
{}

/// The tables after a change are the tables after its parts, made one after another.
pub fn parts_come_one_after_another()
    ensures { (h : Log) (xs : List Change) → table (and_all h xs) ≡ table_after_all (table h) xs }
{}

/// A change with parts is accepted exactly if the parts would be, one after another.
pub fn parts_are_accepted_one_after_another()
    ensures accepted { AcceptedWhereNoneIsRefused }
    ensures all { NoneIsRefusedWhereAccepted }
{}

/// The part that is named is the first that would be refused, and the fault is its fault.
pub fn a_refused_part_is_the_first()
    ensures { RefusedIsFirst }
{}

/// A change of one part is refused as that part, at place 0.
pub fn one_part_is_refused_as_itself()
    ensures { OneIsRefusedAsItself }
{}

/// A class reference that no part of an accepted change affects finds what it found before.
pub fn a_change_of_parts_affects_no_more()
    ensures { ListAffectsNoMore }
{}

/// What is below a class reference stays there while parts are made, unless its class is disposed
/// of. So what a part affects can be found after all are made.
pub fn what_is_below_stays_below()
    ensures { WhatIsBelowStays }
{}

/// Consider a class reference that some change of a list affects. After all changes are made, it
/// belongs to a class that was made or disposed of, or it is or is below a class reference at which
/// one wrote.
pub fn what_is_affected_is_at_its_places()
    ensures { AffectedIsAtItsPlaces }
{}

/// Every accepted list has a way back. It is accepted directly afterwards, as long as that many
/// changes are, and it restores each lookup.
pub fn every_list_has_a_way_back()
    ensures { EveryListHasWayBack }
{}

/// Directly after a list its way back is accepted, as long as that many changes are.
pub fn a_way_back_is_accepted()
    ensures { WayBackIsAccepted }
{}

/// A way back restores each lookup. It restores the tables too, except for the order of rows that
/// no lookup compares.
pub fn a_way_back_brings_back_each_lookup()
    ensures lookups { WayBackBringsBackEachLookup }
    ensures tables { WayBackBringsBackTheTables }
{}

/// A list and its way back affect the same class references.
pub fn what_a_list_and_its_way_back_reach_is_the_same()
    ensures { ListAndWayBackReachTheSame }
{}

/// In each class reference a way back never has more rows than its list had at some time. So the
/// room that was enough for the list is enough for its way back.
pub fn a_way_back_holds_no_more_rows()
    ensures { WayBackHoldsNoMore }
{}

/// A way back writes no more entries than its list did, and needs no memory: the room that
/// `Tables::apply_all` left (`held`, `room`) is enough for it (`wanting`).
pub fn a_way_back_wants_no_memory()
    ensures entries { WayBackWritesNoMore }
    ensures memory { WayBackWantsNoMemory }
{}

/// Setting or removing a method, an exchange, and making a class add no row. They need no memory if
/// each class reference has room for its rows and there is room for two entries.
pub fn a_change_that_adds_no_row_wants_no_memory()
    ensures { NoRowWantsNoMemory }
{}
