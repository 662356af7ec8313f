//! Laws of lists of changes, and of rows.

ghost use Rattle.msg_host.specs.WayBack.{EveryListOfRowsHasWayBack, TwoListsGoBack};

use msg_tables::list_laws::{
    a_way_back_brings_back_each_lookup, a_way_back_is_accepted, a_way_back_wants_no_memory,
    parts_are_accepted_one_after_another,
};

/// Every list of rows that was made has a way back, which is written with it. If it is made
/// directly afterwards, it is accepted, as long as that many changes are. It restores each lookup,
/// and needs no memory.
pub fn every_list_of_rows_has_a_way_back()
    ensures { EveryListOfRowsHasWayBack }
{
    parts_are_accepted_one_after_another();
    a_way_back_is_accepted();
    a_way_back_brings_back_each_lookup();
    a_way_back_wants_no_memory();
}

/// The way back of two lists that are made as one is that of the second, and then that of the
/// first.
pub fn two_lists_go_back_one_after_another()
    ensures { TwoListsGoBack }
{}
