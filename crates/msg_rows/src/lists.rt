//! The lists of rows, one for each class reference.

ghost use Rattle.std.specs.Prelude.{◌⊎◌, ◌≡◌, ◌<◌, ◌≤◌, ◌+◌, length, OnOk, OnErr, slice_index_or};
ghost use Rattle.msg_rows.specs.RowList.{Attaches, ChangesAt, IsOwnIn, IsOwnRow, KeepRoom, LacksRoomAt};
ghost use Rattle.msg_rows.specs.RowList.{rows_of, with_imp, with_methods, with_row, with_row_at, without_last, without_row};
ghost use Rattle.msg_rows.specs.Kept.{no_rows};
ghost use Rattle.std.specs.Vec.{vec_capacity};
ghost use Rattle.msg_names.specs.Number.{selector_number};

use crate::rows::MethodRows;
use msg_names::{ImpRef, Selector};
use std::alloc::AllocError;

// Adds a row to one of the lists.
pub(crate) fn append_row(
    lists: &mut Vec<MethodRows>,
    at: usize,
    sel: Selector,
    imp: ImpRef,
) -> Result<(), AllocError>
    requires { at < length lists.old.items }
    ensures ok { OnOk result (ChangesAt (with_row sel imp) at lists.old.items lists.new.items) }
    ensures err { OnErr result (rows_of lists.new.items ≡ rows_of lists.old.items) }
    ensures refused { OnErr result (LacksRoomAt lists.old.items at 1) }
    ensures keeps { KeepRoom lists.old.items lists.new.items }
    ensures room { vec_capacity lists.old ≤ vec_capacity lists.new }
{
    let rows = &mut lists[at];
    rows.reserve(1)?;
    rows.push(sel, imp);
    Ok(())
}

// Writes another implementation into the last row of a selector in one of the lists, if it has one.
// Returns the old one.
pub(crate) fn rewrite_row(
    lists: &mut Vec<MethodRows>,
    at: usize,
    sel: Selector,
    imp: ImpRef,
) -> Option<ImpRef>
    requires { at < length lists.old.items }
    ensures rows { ChangesAt (with_imp sel imp) at lists.old.items lists.new.items }
    ensures was { IsOwnIn lists.old.items at sel result }
    ensures keeps { KeepRoom lists.old.items lists.new.items }
    ensures room { vec_capacity lists.old ≤ vec_capacity lists.new }
{
    let rows = &mut lists[at];
    rows.set(sel, imp)
}

// Removes the last row of a selector from one of the lists, if it has one. Returns its place and
// its implementation.
pub(crate) fn remove_row(
    lists: &mut Vec<MethodRows>,
    at: usize,
    sel: Selector,
) -> Option<(usize, ImpRef)>
    requires { at < length lists.old.items }
    ensures rows { ChangesAt (without_row (selector_number sel)) at lists.old.items lists.new.items }
    ensures was { IsOwnRow lists.old.items at sel result }
    ensures keeps { KeepRoom lists.old.items lists.new.items }
    ensures room { vec_capacity lists.old ≤ vec_capacity lists.new }
{
    let rows = &mut lists[at];
    rows.remove(sel)
}

// Puts a row back at its place in one of the lists.
pub(crate) fn put_back_row(
    lists: &mut Vec<MethodRows>,
    at: usize,
    place: usize,
    sel: Selector,
    imp: ImpRef,
)
    requires at { at < length lists.old.items }
    requires room { 0 < (slice_index_or lists.old.items at no_rows).room }
    requires place { place ≤ length (slice_index_or lists.old.items at no_rows).rows }
    ensures rows { ChangesAt (with_row_at place sel imp) at lists.old.items lists.new.items }
    ensures keeps { KeepRoom lists.old.items lists.new.items }
    ensures room { vec_capacity lists.old ≤ vec_capacity lists.new }
{
    let rows = &mut lists[at];
    rows.put_back(place, sel, imp);
}

// Removes this number of rows at the end of one of the lists.
pub(crate) fn shorten_rows(lists: &mut Vec<MethodRows>, at: usize, count: usize)
    requires { at < length lists.old.items }
    ensures rows { ChangesAt (without_last count) at lists.old.items lists.new.items }
    ensures keeps { KeepRoom lists.old.items lists.new.items }
    ensures room { vec_capacity lists.old ≤ vec_capacity lists.new }
{
    let rows = &mut lists[at];
    rows.shorten(count);
}

// Adds methods at the end of one of the lists.
pub(crate) fn append_rows(
    lists: &mut Vec<MethodRows>,
    at: usize,
    methods: &[(Selector, ImpRef)],
) -> Result<(), AllocError>
    requires { at < length lists.old.items }
    ensures ok { OnOk result (ChangesAt (with_methods methods.now) at lists.old.items lists.new.items) }
    ensures err { OnErr result (rows_of lists.new.items ≡ rows_of lists.old.items) }
    ensures keeps { KeepRoom lists.old.items lists.new.items }
    ensures room { vec_capacity lists.old ≤ vec_capacity lists.new }
{
    let rows = &mut lists[at];
    rows.reserve(methods.len())?;
    rows.append(methods);
    Ok(())
}

// Adds methods at the end of the lists of a class and of its metaclass, each from its last to its
// first. Makes room in both before it writes either.
pub(crate) fn attach_rows(
    lists: &mut Vec<MethodRows>,
    at: usize,
    methods: &[(Selector, ImpRef)],
    class_methods: &[(Selector, ImpRef)],
) -> Result<(), AllocError>
    requires { at + 1 < length lists.old.items }
    ensures ok { OnOk result (Attaches at methods.now class_methods.now lists.old.items lists.new.items) }
    ensures err { OnErr result (rows_of lists.new.items ≡ rows_of lists.old.items) }
    ensures refused { OnErr result
        (LacksRoomAt lists.old.items at (length methods.now)
        ⊎ LacksRoomAt lists.old.items (at + 1) (length class_methods.now)) }
    ensures keeps { KeepRoom lists.old.items lists.new.items }
    ensures room { vec_capacity lists.old ≤ vec_capacity lists.new }
{
    lists[at].reserve(methods.len())?;
    lists[at + 1].reserve(class_methods.len())?;
    lists[at].append_reversed(methods);
    lists[at + 1].append_reversed(class_methods);
    Ok(())
}
