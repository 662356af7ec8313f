//! Takes back what a list of changes wrote.

ghost use Rattle.std.specs.Prelude.{◌≡◌, ◌<◌, ◌≤◌, ◌-◌, ◌∷◌, ◌++◌, [], None, Some, drop, length, slice_set, take, true, false};
ghost use Rattle.std.specs.Vec.{vec_capacity};
ghost use Rattle.msg_tables.specs.Journal.{lists_before, supers_before, order_before, before_all, makes};
ghost use Rattle.msg_tables.specs.Journal.{AreTakenBack, CanAllGoBack, CanGoBack, GoesBack, IsSoundView};
ghost use Rattle.msg_rows.specs.RowList.{HaveGrown, KeepRoom, rows_of};
ghost use Rattle.msg_tables.specs.View.{IsWithinRoom, TablesView};

use crate::entry::{Entry, Written};
use crate::presence::Presence;
use crate::tables::Tables;
use msg_rows::RowLists;

/// The numbers of rows and of changes that tables have before a list is made.
#[derive(Clone, Copy)]
pub struct Start {
    pub rows: u64,
    pub changes: u64,
}

// Takes back the class that was made last.
fn unmake(class: u32, supers: &mut Vec<Option<Presence>>, order: &mut Vec<u32>)
    ensures supers { supers.new.items ≡ slice_set supers.old.items class None }
    ensures order { order.new.items ≡ take (length order.old.items - 1) order.old.items }
    ensures room { vec_capacity order.new ≡ vec_capacity order.old }
{
    let _class = order.pop();
    if (class as usize) < supers.len() {
        supers[class as usize] = None;
    }
}

// Puts back a class that was disposed of, for which there is room in the order.
fn remake(
    class: u32,
    superclass: Option<u32>,
    place: usize,
    supers: &mut Vec<Option<Presence>>,
    order: &mut Vec<u32>,
)
    requires room { length order.old.items < vec_capacity order.old }
    requires place { place ≤ length order.old.items }
    ensures supers { supers.new.items ≡ slice_set supers.old.items class (Some (record { superclass = superclass })) }
    ensures order { order.new.items ≡ take place order.old.items ++ class ∷ drop place order.old.items }
    ensures room { vec_capacity order.new ≡ vec_capacity order.old }
{
    let put: Result<_, _> = order.insert(place, class);
    put.unwrap();
    if (class as usize) < supers.len() {
        supers[class as usize] = Some(Presence { superclass });
    }
}

// Takes back what an entry describes. Returns whether it is a class.
fn unwrite(
    entry: Entry,
    supers: &mut Vec<Option<Presence>>,
    order: &mut Vec<u32>,
    lists: &mut RowLists,
) -> bool
    requires { CanGoBack entry (vec_capacity order.old) lists.old order.old.items }
    ensures supers { supers.new.items ≡ supers_before entry supers.old.items }
    ensures order { order.new.items ≡ order_before entry order.old.items }
    ensures lists { rows_of lists.new ≡ lists_before entry (rows_of lists.old) }
    ensures room { vec_capacity order.new ≡ vec_capacity order.old }
    ensures keeps { KeepRoom lists.old lists.new }
    ensures made { result ≡ makes entry }
{
    match entry {
        Entry::Added { class, .. } => {
            lists.shorten_rows(class.slot(), 1);
            false
        }
        Entry::Rewrote { class, sel, imp } => {
            let _later = lists.rewrite_row(class.slot(), sel, imp);
            false
        }
        Entry::Made { class } => {
            unmake(class, supers, order);
            true
        }
        Entry::Removed {
            class,
            sel,
            imp,
            place,
        } => {
            lists.put_back_row(class.slot(), place, sel, imp);
            false
        }
        Entry::Disposed {
            class,
            superclass,
            place,
        } => {
            remake(class, superclass, place, supers, order);
            true
        }
    }
}

// Takes back the entries of a journal, the last first. Returns whether a class is among them.
fn unwrite_all(
    journal: &mut Vec<Entry>,
    supers: &mut Vec<Option<Presence>>,
    order: &mut Vec<u32>,
    lists: &mut RowLists,
) -> bool
    requires { CanAllGoBack journal.old.items (vec_capacity order.old) lists.old order.old.items }
    ensures supers { supers.new.items ≡ before_all supers_before journal.old.items supers.old.items }
    ensures order { order.new.items ≡ before_all order_before journal.old.items order.old.items }
    ensures lists { rows_of lists.new ≡ before_all lists_before journal.old.items (rows_of lists.old) }
    ensures room { vec_capacity order.new ≡ vec_capacity order.old }
    ensures keeps { KeepRoom lists.old lists.new }
    ensures journal { vec_capacity journal.old ≤ vec_capacity journal.new }
    ensures emptied { journal.new.items ≡ [] }
    ensures kept { result ≡ false → supers.new.items ≡ supers.old.items }
{
    let mut made = false;
    while let Some(entry) = journal.pop() {
        made |= unwrite(entry, supers, order, lists);
    }
    made
}

impl Tables {
    /// What [`retract`](Tables::retract) needs to know of the tables from before a list is made.
    pub fn start(&self) -> Start
        ensures start { result ≡ record { rows = self.now.row_count; changes = self.now.change_count } }
        ensures sound { IsSoundView self.now }
        ensures within { IsWithinRoom self.now }
    {
        Start {
            rows: self.row_count,
            changes: self.change_count,
        }
    }

    // Takes back all that a journal describes. No memory is taken. If a class was made or disposed
    // of, all classes are visited.
    pub(crate) fn take_back(&mut self, start: Start, journal: &mut Vec<Entry>)
        requires { (old : TablesView) × GoesBack journal.old.items start.rows start.changes old self.old }
        ensures back { AreTakenBack journal.old.items start.rows start.changes self.old self.new }
        ensures grown { HaveGrown self.old.rooms self.new.rooms }
        ensures journal { vec_capacity journal.old ≤ vec_capacity journal.new }
        ensures emptied { journal.new.items ≡ [] }
    {
        let made = unwrite_all(journal, &mut self.supers, &mut self.order, &mut self.lists);
        self.row_count = start.rows;
        self.change_count = start.changes;
        if made {
            self.preorder.rebuild(&self.supers, &self.order);
        }
    }

    /// Takes back the list that was made last, of which nothing was published yet. The tables are
    /// as they were before, and the list isn't counted. No memory is taken. It costs the same as
    /// taking back a refused list.
    pub fn retract(&mut self, start: Start, written: &mut Written)
        requires { (old : TablesView) × GoesBack written.old.entries start.rows start.changes old self.old }
        ensures back { AreTakenBack written.old.entries start.rows start.changes self.old self.new }
        ensures grown { HaveGrown self.old.rooms self.new.rooms }
        ensures room { written.old.room ≤ written.new.room }
        ensures forgotten { written.new.entries ≡ [] }
    {
        self.take_back(start, &mut written.entries);
    }
}
