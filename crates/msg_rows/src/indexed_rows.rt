//! The rows of one class reference, with their index.

ghost use Rattle.std.specs.Prelude.{◌≡◌, ◌+◌, ◌^◌, ◌<◌, ◌≤◌, [], IfOk, OnOk, OnErr, length, option_map, replicate, slice_index_or};
ghost use Rattle.msg_names.specs.Number.{selector_number, imp_number};
ghost use Rattle.msg_rows.specs.Buckets.{AreLinked, bucket_of};
ghost use Rattle.msg_rows.specs.Methods.{method_numbers};
ghost use Rattle.msg_rows.specs.RowList.{KeepsRoom, own_in, last_index, with_imp, with_row, with_row_at, without_last, without_row};

use msg_names::{ImpRef, Selector};
use std::alloc::{AllocError, Global};
use std::marker::Model;

// The rows, oldest first. Selectors share buckets, and the rows of a bucket are linked. `newest`
// holds for each bucket 1 more than the place of its newest row, or 0 if it has none. `older` holds
// the same for the row before each row in its bucket. So a lookup goes from the newest row of a
// selector's bucket to the oldest.
#[derive(Drop)]
pub(crate) struct IndexedRows {
    rows: Vec<(Selector, ImpRef)>,
    older: Vec<usize>,
    newest: Vec<usize>,
}

impl Model for IndexedRows {
    ghost use Rattle.msg_rows.specs.RowList.{RowList};

    ghost Value = { RowList };

    ghost use Rattle.msg_rows.specs.Indexed.{row_list, IsIndexed};

    ghost view = { row_list };

    ghost invariant = { IsIndexed };
}

// The bucket of a selector, among `count` buckets. Consecutive numbers have consecutive buckets.
// Numbers at any other step, like those that a host makes from addresses, are spread too: a 32nd of
// the number is added to it, times the golden ratio's 0.618 (Knuth, The Art of Computer
// Programming, 6.4).
#[inline(always)]
fn bucket(sel: Selector, count: usize) -> usize
    requires { 0 < count }
    ensures value { result ≡ bucket_of count (selector_number sel) }
    ensures inside { result < count }
{
    let number = sel.number() as usize;
    (number + number * 2_654_435_769 / 137_438_953_472) & (count - 1)
}

// Links rows into buckets that are all empty.
fn link(rows: &[(Selector, ImpRef)], older: &mut [usize], newest: &mut [usize])
    requires buckets { 0 < length newest.old }
    requires empty { newest.old ≡ replicate (length newest.old) 0 }
    requires older { length older.old ≡ length rows.now }
    ensures linked { AreLinked (method_numbers rows.now) (length rows.now) older.new newest.new }
    ensures older { length older.new ≡ length older.old }
    ensures newest { length newest.new ≡ length newest.old }
{
    for (at, row) in rows.iter().enumerate() {
        let bucket = bucket(row.0, newest.len());
        older[at] = newest[bucket];
        newest[bucket] = at + 1;
    }
}

// Links rows again, into the buckets that there are.
fn relink(rows: &[(Selector, ImpRef)], older: &mut [usize], newest: &mut [usize])
    requires buckets { 0 < length newest.old }
    requires older { length older.old ≡ length rows.now }
    ensures linked { AreLinked (method_numbers rows.now) (length rows.now) older.new newest.new }
    ensures older { length older.new ≡ length older.old }
    ensures newest { length newest.new ≡ length newest.old }
{
    newest.fill(0);
    link(rows, older, newest);
}

// Makes at least this number of buckets.
fn widen(
    alloc: Global,
    rows: &[(Selector, ImpRef)],
    older: &mut [usize],
    newest: &mut Vec<usize>,
    count: usize,
) -> Result<(), AllocError>
    requires buckets { 0 < length newest.old.items }
    requires older { length older.old ≡ length rows.now }
    requires linked { AreLinked (method_numbers rows.now) (length rows.now) older.old newest.old.items }
    ensures linked { AreLinked (method_numbers rows.now) (length rows.now) older.new newest.new.items }
    ensures older { length older.new ≡ length older.old }
    ensures more { length newest.old.items ≤ length newest.new.items }
    ensures ok { OnOk result (count ≤ length newest.new.items) }
    ensures refused { OnErr result (length newest.old.items < count) }
{
    if newest.len() < count {
        let Some(count) = count.checked_next_power_of_two() else {
            return Err(AllocError);
        };
        let mut wider = vec![in alloc; 0; count]?;
        link(rows, older, &mut wider);
        *newest = wider;
    }
    Ok(())
}

impl IndexedRows {
    // Makes rows with room for some, of which there are none yet.
    pub(crate) fn with_room(alloc: Global, more: usize) -> Result<IndexedRows, AllocError>
        ensures rows { IfOk result (λ rows. rows.rows ≡ []) }
        ensures room { IfOk result (λ rows. more ≤ rows.room) }
    {
        let mut rows = IndexedRows {
            rows: Vec::new(alloc),
            older: Vec::new(alloc),
            newest: vec![in alloc; 0; 1]?,
        };
        rows.reserve(alloc, more)?;
        Ok(rows)
    }

    // The place of a selector's last row.
    #[inline(always)]
    fn place(&self, sel: Selector) -> Option<usize>
        ensures { result ≡ last_index (selector_number sel) self.now.rows }
    {
        let mut at = self.newest[bucket(sel, self.newest.len())];
        while at != 0 {
            if self.rows[at - 1].0.number() == sel.number() {
                return Some(at - 1);
            }
            at = self.older[at - 1];
        }
        None
    }

    // The implementation in a selector's last row.
    #[inline]
    pub(crate) fn find(&self, sel: Selector) -> Option<ImpRef>
        ensures { option_map imp_number result ≡ own_in (selector_number sel) self.now.rows }
    {
        Some(self.rows[self.place(sel)?].1)
    }

    // The implementation that would be in a selector's last row if that row were removed. It visits
    // all rows.
    pub(crate) fn covered(&self, sel: Selector) -> Option<ImpRef>
        ensures { option_map imp_number result
            ≡ own_in (selector_number sel) (without_row (selector_number sel) self.now.rows) }
    {
        let mut last = None;
        let mut covered = None;
        for row in &self.rows {
            if row.0.number() == sel.number() {
                covered = last;
                last = Some(row.1);
            }
        }
        covered
    }

    // Makes room for this number of further rows.
    pub(crate) fn reserve(&mut self, alloc: Global, more: usize) -> Result<(), AllocError>
        ensures rows { self.new.rows ≡ self.old.rows }
        ensures room { OnOk result (more ≤ self.new.room) }
        ensures refused { OnErr result (self.old.room < more) }
        ensures keeps { KeepsRoom self.old self.new }
    {
        if more == 0 {
            return Ok(());
        }
        self.rows.reserve(more)?;
        self.older.reserve(more)?;
        let count = self.rows.len().saturating_add(more);
        widen(alloc, &self.rows, &mut self.older, &mut self.newest, count)
    }

    pub(crate) fn push(&mut self, sel: Selector, imp: ImpRef)
        requires { 0 < self.old.room }
        ensures rows { self.new.rows ≡ with_row sel imp self.old.rows }
        ensures room { self.old.room ≤ self.new.room + 1 }
    {
        let bucket = bucket(sel, self.newest.len());
        let older: Result<_, _> = self.older.push(self.newest[bucket]);
        older.unwrap();
        let pushed: Result<_, _> = self.rows.push((sel, imp));
        pushed.unwrap();
        self.newest[bucket] = self.rows.len();
    }

    // Writes another implementation into a selector's last row, if it has one, and returns the old
    // one.
    pub(crate) fn set(&mut self, sel: Selector, imp: ImpRef) -> Option<ImpRef>
        ensures rows { self.new.rows ≡ with_imp sel imp self.old.rows }
        ensures was { option_map imp_number result ≡ own_in (selector_number sel) self.old.rows }
        ensures keeps { KeepsRoom self.old self.new }
    {
        if let Some(place) = self.place(sel) {
            let was = self.rows[place].1;
            self.rows[place] = (sel, imp);
            Some(was)
        } else {
            None
        }
    }

    // Removes the last row, if there is one.
    fn pop(&mut self)
        ensures rows { self.new.rows ≡ without_last 1 self.old.rows }
        ensures keeps { KeepsRoom self.old self.new }
    {
        let Some((sel, _)) = self.rows.pop() else {
            return;
        };
        let older = self.older.pop();
        let bucket = bucket(sel, self.newest.len());
        self.newest[bucket] = older.unwrap();
    }

    // The number of rows.
    pub(crate) fn len(&self) -> usize
        ensures count { result ≡ length self.now.rows }
        ensures few { result < 2 ^ 63 }
    {
        self.rows.as_slice().len()
    }

    // The rows, oldest first.
    pub(crate) fn rows(&self) -> &[(Selector, ImpRef)]
        ensures { method_numbers result.now ≡ self.now.rows }
    {
        &self.rows
    }

    // The row at a place.
    pub(crate) fn row(&self, place: usize) -> (Selector, ImpRef)
        requires { place < length self.now.rows }
        ensures { (selector_number result.0, imp_number result.1) ≡ slice_index_or self.now.rows place (0, 0) }
    {
        self.rows[place]
    }

    // Removes this number of rows at the end.
    pub(crate) fn shorten(&mut self, count: usize)
        ensures rows { self.new.rows ≡ without_last count self.old.rows }
        ensures keeps { KeepsRoom self.old self.new }
    {
        for _step in 0..count {
            self.pop();
        }
    }

    // Removes a selector's last row, if it has one, and returns its place and its implementation.
    // It leaves room for one more row.
    //
    // If rows come after it, all are moved up and linked again. The last row of all, like one that
    // was just added, costs one bucket.
    pub(crate) fn remove(&mut self, sel: Selector) -> Option<(usize, ImpRef)>
        ensures rows { self.new.rows ≡ without_row (selector_number sel) self.old.rows }
        ensures was { option_map (λ r. imp_number r.1) result ≡ own_in (selector_number sel) self.old.rows }
        ensures place { option_map (λ r. r.0) result ≡ last_index (selector_number sel) self.old.rows }
        ensures keeps { KeepsRoom self.old self.new }
    {
        let Some(place) = self.place(sel) else {
            return None;
        };
        let imp = self.rows[place].1;
        if place + 1 == self.rows.len() {
            self.pop();
            return Some((place, imp));
        }
        let _row = self.rows.remove(place);
        let _older = self.older.pop();
        relink(&self.rows, &mut self.older, &mut self.newest);
        Some((place, imp))
    }

    // Puts a row back at its place, for which there is room.
    pub(crate) fn put_back(&mut self, place: usize, sel: Selector, imp: ImpRef)
        requires room { 0 < self.old.room }
        requires place { place ≤ length self.old.rows }
        ensures rows { self.new.rows ≡ with_row_at place sel imp self.old.rows }
        ensures room { self.old.room ≤ self.new.room + 1 }
    {
        let row: Result<_, _> = self.rows.insert(place, (sel, imp));
        row.unwrap();
        let older: Result<_, _> = self.older.push(0);
        older.unwrap();
        relink(&self.rows, &mut self.older, &mut self.newest);
    }
}
