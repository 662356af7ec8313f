//! The rows of one class reference.

ghost use Rattle.std.specs.Prelude.{◌≡◌, ◌+◌, ◌^◌, ◌<◌, ◌≤◌, [], ◌++◌, IfOk, length, reverse, OnOk, OnErr, option_map};
ghost use Rattle.msg_rows.specs.Methods.{method_number, method_numbers};
ghost use Rattle.msg_names.specs.Number.{selector_number, imp_number};
ghost use Rattle.msg_rows.specs.RowList.{KeepsRoom, last_index, last_row, own_in, with_imp, with_row, with_row_at, without_last, without_row};

use crate::indexed_rows::IndexedRows;
use msg_names::{ImpRef, Selector};
use std::alloc::{AllocError, Global};
use std::marker::Model;

// Rows with their index. A class reference that never had a row keeps only one word for them. So
// little is kept for a class that may be made but isn't.
#[derive(Drop)]
pub(crate) struct MethodRows {
    indexed: Option<Box<IndexedRows>>,
    alloc: Global,
}

impl Model for MethodRows {
    ghost use Rattle.msg_rows.specs.RowList.{RowList};

    ghost Value = { RowList };

    ghost use Rattle.msg_rows.specs.Kept.{kept_rows};

    ghost view = { kept_rows };
}

// Makes rows with room for some, of which there are none yet.
fn reserved(alloc: Global, more: usize) -> Result<Box<IndexedRows>, AllocError>
    ensures rows { IfOk result (λ rows. rows.value.rows ≡ []) }
    ensures room { IfOk result (λ rows. more ≤ rows.value.room) }
{
    let rows = IndexedRows::with_room(alloc, more)?;
    match Box::new(alloc, rows) {
        Ok(rows) => Ok(rows),
        Err(_) => Err(AllocError),
    }
}

impl MethodRows {
    pub(crate) fn new(alloc: Global) -> Self
        ensures { result.rows ≡ [] }
    {
        MethodRows {
            indexed: None,
            alloc,
        }
    }

    // The implementation in a selector's last row.
    #[inline]
    pub(crate) fn find(&self, sel: Selector) -> Option<ImpRef>
        ensures { option_map imp_number result ≡ own_in (selector_number sel) self.now.rows }
    {
        self.indexed.as_ref()?.find(sel)
    }

    // The implementation that would be in a selector's last row if that row were removed.
    pub(crate) fn covered(&self, sel: Selector) -> Option<ImpRef>
        ensures { option_map imp_number result
            ≡ own_in (selector_number sel) (without_row (selector_number sel) self.now.rows) }
    {
        self.indexed.as_ref()?.covered(sel)
    }

    // Makes room for this number of further rows.
    pub(crate) fn reserve(&mut self, more: usize) -> Result<(), AllocError>
        ensures rows { self.new.rows ≡ self.old.rows }
        ensures room { OnOk result (more ≤ self.new.room) }
        ensures refused { OnErr result (self.old.room < more) }
        ensures keeps { KeepsRoom self.old self.new }
    {
        if more == 0 {
            return Ok(());
        }
        match &mut self.indexed {
            Some(rows) => rows.reserve(self.alloc, more),
            None => {
                self.indexed = Some(reserved(self.alloc, more)?);
                Ok(())
            }
        }
    }

    pub(crate) fn push(&mut self, sel: Selector, imp: ImpRef)
        requires { 0 < self.old.room }
        ensures rows { self.new.rows ≡ with_row sel imp self.old.rows }
        ensures room { self.old.room ≤ self.new.room + 1 }
    {
        self.indexed.as_mut().unwrap().push(sel, imp);
    }

    // Writes another implementation into a selector's last row, if it has one, and returns the old
    // one.
    pub(crate) fn set(&mut self, sel: Selector, imp: ImpRef) -> Option<ImpRef>
        ensures rows { self.new.rows ≡ with_imp sel imp self.old.rows }
        ensures was { option_map imp_number result ≡ own_in (selector_number sel) self.old.rows }
        ensures keeps { KeepsRoom self.old self.new }
    {
        match &mut self.indexed {
            Some(rows) => rows.set(sel, imp),
            None => None,
        }
    }

    // Removes a selector's last row, if it has one, and returns its place and its implementation.
    pub(crate) fn remove(&mut self, sel: Selector) -> Option<(usize, ImpRef)>
        ensures rows { self.new.rows ≡ without_row (selector_number sel) self.old.rows }
        ensures was { option_map (λ r. imp_number r.1) result ≡ own_in (selector_number sel) self.old.rows }
        ensures place { option_map (λ r. r.0) result ≡ last_index (selector_number sel) self.old.rows }
        ensures keeps { KeepsRoom self.old self.new }
    {
        match &mut self.indexed {
            Some(rows) => rows.remove(sel),
            None => None,
        }
    }

    // Puts a row back at its place, for which there is room.
    pub(crate) fn put_back(&mut self, place: usize, sel: Selector, imp: ImpRef)
        requires room { 0 < self.old.room }
        requires place { place ≤ length self.old.rows }
        ensures rows { self.new.rows ≡ with_row_at place sel imp self.old.rows }
        ensures room { self.old.room ≤ self.new.room + 1 }
    {
        self.indexed.as_mut().unwrap().put_back(place, sel, imp);
    }

    // The number of rows.
    pub(crate) fn len(&self) -> usize
        ensures count { result ≡ length self.now.rows }
        ensures few { result < 2 ^ 63 }
    {
        match &self.indexed {
            Some(rows) => rows.len(),
            None => 0,
        }
    }

    // The rows, oldest first.
    pub(crate) fn rows(&self) -> &[(Selector, ImpRef)]
        ensures { method_numbers result.now ≡ self.now.rows }
    {
        match &self.indexed {
            Some(rows) => rows.rows(),
            None => &[],
        }
    }

    // The last row, if there is one.
    pub(crate) fn last(&self) -> Option<(Selector, ImpRef)>
        ensures { option_map method_number result ≡ last_row self.now.rows }
    {
        let rows = self.indexed.as_ref()?;
        let count = rows.len();
        if count == 0 {
            return None;
        }
        Some(rows.row(count - 1))
    }

    // Removes this number of rows at the end.
    pub(crate) fn shorten(&mut self, count: usize)
        ensures rows { self.new.rows ≡ without_last count self.old.rows }
        ensures keeps { KeepsRoom self.old self.new }
    {
        if let Some(rows) = &mut self.indexed {
            rows.shorten(count);
        }
    }

    pub(crate) fn append(&mut self, methods: &[(Selector, ImpRef)])
        requires { length methods.now ≤ self.old.room }
        ensures rows { self.new.rows ≡ self.old.rows ++ method_numbers methods.now }
        ensures keeps { KeepsRoom self.old self.new }
    {
        for (sel, imp) in methods {
            self.push(*sel, *imp);
        }
    }

    // From the last method to the first.
    pub(crate) fn append_reversed(&mut self, methods: &[(Selector, ImpRef)])
        requires { length methods.now ≤ self.old.room }
        ensures rows { self.new.rows ≡ self.old.rows ++ reverse (method_numbers methods.now) }
        ensures keeps { KeepsRoom self.old self.new }
    {
        for (sel, imp) in methods.iter().rev() {
            self.push(*sel, *imp);
        }
    }
}
