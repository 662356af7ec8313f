//! The lists of rows of all class references.

ghost use Rattle.std.specs.Prelude.{◌⊎◌, ◌≡◌, ◌<◌, ◌≤◌, ◌+◌, ◌^◌, [], ℕ, IfOk, OnErr, OnOk, length, option_map, replicate, slice_index_or};
ghost use Rattle.msg_rows.specs.RowList.{Attaches, ChangesAt, GainsEmpty, IsCoveredIn, IsOwnIn, IsOwnRow, KeepRoom, LacksRoomAt, last_row};
ghost use Rattle.msg_rows.specs.RowList.{rows_of, with_imp, with_methods, with_row, with_row_at, without_last, without_row};
ghost use Rattle.msg_rows.specs.Kept.{no_rows};
ghost use Rattle.std.specs.Vec.{vec_capacity};
ghost use Rattle.msg_rows.specs.Methods.{method_number, method_numbers};
ghost use Rattle.msg_names.specs.Number.{selector_number};

use crate::lists::{
    append_row, append_rows, attach_rows, put_back_row, remove_row, rewrite_row, shorten_rows,
};
use crate::rows::MethodRows;
use msg_names::{ImpRef, Selector};
use std::alloc::{AllocError, Global};
use std::marker::Model;

/// A list for each class reference. Room for all lists is allocated at once. They are written only
/// up to the last list that ever had a row, so class numbers that are only reserved cost nothing.
#[derive(Drop)]
pub struct RowLists {
    written: Vec<MethodRows>,
    count: usize,
    alloc: Global,
}

impl Model for RowLists {
    ghost use Rattle.std.specs.Prelude.{List};
    ghost use Rattle.msg_rows.specs.RowList.{RowList};

    ghost Value = { List RowList };

    ghost use Rattle.msg_rows.specs.Reserved.{row_lists, AreRowLists};

    ghost view = { row_lists };

    ghost invariant = { AreRowLists };
}

// Writes lists without rows, up to one at a place, for which there is room.
fn reach(alloc: Global, lists: &mut Vec<MethodRows>, at: usize)
    requires { at < vec_capacity lists.old }
    ensures rows { GainsEmpty lists.old.items lists.new.items }
    ensures more { length lists.old.items ≤ length lists.new.items }
    ensures few { (n : ℕ) → at < n → length lists.old.items ≤ n → length lists.new.items ≤ n }
    ensures reached { at < length lists.new.items }
    ensures room { vec_capacity lists.old ≤ vec_capacity lists.new }
    ensures keeps { KeepRoom lists.old.items lists.new.items }
{
    while lists.len() <= at {
        let pushed: Result<_, _> = lists.push(MethodRows::new(alloc));
        pushed.unwrap();
    }
}

impl RowLists {
    /// Makes this number of lists, without rows.
    pub fn blank(alloc: Global, count: usize) -> Result<RowLists, AllocError>
        ensures rows { IfOk result (λ lists. rows_of lists ≡ replicate count []) }
        ensures count { IfOk result (λ lists. length lists ≡ count) }
    {
        Ok(RowLists {
            written: Vec::with_capacity(alloc, count)?,
            count,
            alloc,
        })
    }

    /// The number of lists.
    pub fn len(&self) -> usize
        ensures { result ≡ length self.now }
    {
        self.count
    }

    /// The implementation in the last row of a selector in one of the lists.
    #[inline(always)]
    pub fn find(&self, at: usize, sel: Selector) -> Option<ImpRef>
        ensures { IsOwnIn self.now at sel result }
    {
        self.written.get(at)?.find(sel)
    }

    /// The implementation that would be in the last row of a selector in one of the lists if that
    /// row were removed.
    pub fn covered(&self, at: usize, sel: Selector) -> Option<ImpRef>
        ensures { IsCoveredIn self.now at sel result }
    {
        self.written.get(at)?.covered(sel)
    }

    /// Adds a row to one of the lists.
    pub fn append_row(&mut self, at: usize, sel: Selector, imp: ImpRef) -> Result<(), AllocError>
        requires { at < length self.old }
        ensures ok { OnOk result (ChangesAt (with_row sel imp) at self.old self.new) }
        ensures err { OnErr result (rows_of self.new ≡ rows_of self.old) }
        ensures refused { OnErr result (LacksRoomAt self.old at 1) }
        ensures keeps { KeepRoom self.old self.new }
    {
        reach(self.alloc, &mut self.written, at);
        append_row(&mut self.written, at, sel, imp)
    }

    /// Writes another implementation into the last row of a selector in one of the lists, if it has
    /// one. Returns the old one.
    pub fn rewrite_row(&mut self, at: usize, sel: Selector, imp: ImpRef) -> Option<ImpRef>
        ensures rows { ChangesAt (with_imp sel imp) at self.old self.new }
        ensures was { IsOwnIn self.old at sel result }
        ensures keeps { KeepRoom self.old self.new }
    {
        if at < self.written.len() {
            rewrite_row(&mut self.written, at, sel, imp)
        } else {
            None
        }
    }

    /// Removes the last row of a selector from one of the lists, if it has one. Returns its place
    /// and its implementation.
    pub fn remove_row(&mut self, at: usize, sel: Selector) -> Option<(usize, ImpRef)>
        ensures rows { ChangesAt (without_row (selector_number sel)) at self.old self.new }
        ensures was { IsOwnRow self.old at sel result }
        ensures keeps { KeepRoom self.old self.new }
    {
        if at < self.written.len() {
            remove_row(&mut self.written, at, sel)
        } else {
            None
        }
    }

    /// Puts a row back at its place in one of the lists.
    pub fn put_back_row(&mut self, at: usize, place: usize, sel: Selector, imp: ImpRef)
        requires at { at < length self.old }
        requires room { 0 < (slice_index_or self.old at no_rows).room }
        requires place { place ≤ length (slice_index_or self.old at no_rows).rows }
        ensures rows { ChangesAt (with_row_at place sel imp) at self.old self.new }
        ensures keeps { KeepRoom self.old self.new }
    {
        if at < self.written.len() {
            put_back_row(&mut self.written, at, place, sel, imp);
        }
    }

    /// The number of rows in one of the lists.
    pub fn rows_at(&self, at: usize) -> usize
        ensures count { result ≡ length (slice_index_or (rows_of self.now) at []) }
        ensures few { result < 2 ^ 63 }
    {
        match self.written.get(at) {
            Some(rows) => rows.len(),
            None => 0,
        }
    }

    /// The rows of one of the lists, oldest first.
    pub fn rows(&self, at: usize) -> &[(Selector, ImpRef)]
        ensures { method_numbers result.now ≡ slice_index_or (rows_of self.now) at [] }
    {
        match self.written.get(at) {
            Some(rows) => rows.rows(),
            None => &[],
        }
    }

    /// The last row of one of the lists.
    pub fn last_row(&self, at: usize) -> Option<(Selector, ImpRef)>
        ensures { option_map method_number result ≡ last_row (slice_index_or (rows_of self.now) at []) }
    {
        self.written.get(at)?.last()
    }

    /// Removes this number of rows at the end of one of the lists.
    pub fn shorten_rows(&mut self, at: usize, count: usize)
        ensures rows { ChangesAt (without_last count) at self.old self.new }
        ensures keeps { KeepRoom self.old self.new }
    {
        if at < self.written.len() {
            shorten_rows(&mut self.written, at, count);
        }
    }

    /// Adds methods at the end of one of the lists.
    pub fn append_rows(
        &mut self,
        at: usize,
        methods: &[(Selector, ImpRef)],
    ) -> Result<(), AllocError>
        requires { at < length self.old }
        ensures ok { OnOk result (ChangesAt (with_methods methods.now) at self.old self.new) }
        ensures err { OnErr result (rows_of self.new ≡ rows_of self.old) }
        ensures keeps { KeepRoom self.old self.new }
    {
        reach(self.alloc, &mut self.written, at);
        append_rows(&mut self.written, at, methods)
    }

    /// Adds methods at the end of the lists of a class and of its metaclass, each from its last to
    /// its first. Makes room in both before it writes either.
    pub fn attach_rows(
        &mut self,
        at: usize,
        methods: &[(Selector, ImpRef)],
        class_methods: &[(Selector, ImpRef)],
    ) -> Result<(), AllocError>
        requires { at + 1 < length self.old }
        ensures ok { OnOk result (Attaches at methods.now class_methods.now self.old self.new) }
        ensures err { OnErr result (rows_of self.new ≡ rows_of self.old) }
        ensures refused { OnErr result
            (LacksRoomAt self.old at (length methods.now)
            ⊎ LacksRoomAt self.old (at + 1) (length class_methods.now)) }
        ensures keeps { KeepRoom self.old self.new }
    {
        if methods.len() + class_methods.len() == 0 {
            return Ok(());
        }
        reach(self.alloc, &mut self.written, at + 1);
        attach_rows(&mut self.written, at, methods, class_methods)
    }
}
