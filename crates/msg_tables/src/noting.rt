//! Makes changes and notes what they write, so that it can be taken back.

ghost use Rattle.std.specs.Prelude.{◌≡◌, ◌<◌, ◌≤◌, ◌+◌, ◌⊎◌, [], ◌∷◌, ◌++◌, IfErr, OnOk, OnErr, length, option_map, reverse};
ghost use Rattle.std.specs.Vec.{vec_capacity};
ghost use Rattle.msg_tables.specs.declared.edit.Edit.TheVariants.{Append, Attach, Dispose, Make, Remove, Rewrite, RewriteBoth};
ghost use Rattle.msg_rows.specs.Methods.{method_numbers};
ghost use Rattle.msg_tables.specs.declared.edit.MethodRow.{MethodRow};
ghost use Rattle.msg_tables.specs.declared.entry.Entry.{Entry};
ghost use Rattle.msg_tables.specs.declared.fault.ChangeFault.{ChangeFault};
ghost use Rattle.msg_names.specs.Number.{selector_number};
ghost use Rattle.msg_tables.specs.Edits.{EditLacksRoom, Fits, IsOfTables, IsOwn};
ghost use Rattle.msg_tables.specs.Journal.{added_all, entry_count, IsAttachNoted, IsNoted, TakesRows};
ghost use Rattle.msg_rows.specs.RowList.{HaveGrown, last_row};
ghost use Rattle.msg_tables.specs.View.{IsKept, kept};

use crate::edit::{Edit, MethodRow};
use crate::entry::Entry;
use crate::fault::ChangeFault;
use crate::methods::MethodList;
use crate::tables::Tables;
use msg_names::{ClassRef, ImpRef, Selector};
use std::alloc::AllocError;

// Notes one more entry, for which there is room.
#[inline(always)]
fn note(journal: &mut Vec<Entry>, entry: Entry)
    requires { length journal.old.items < vec_capacity journal.old }
    ensures items { journal.new.items ≡ journal.old.items ++ entry ∷ [] }
    ensures room { vec_capacity journal.old ≤ vec_capacity journal.new }
{
    let pushed: Result<_, _> = journal.push(entry);
    pushed.unwrap();
}

// Notes a row that was rewritten, with the implementation that it had.
#[inline(always)]
fn note_rewritten(journal: &mut Vec<Entry>, row: MethodRow, was: ImpRef)
    requires { length journal.old.items < vec_capacity journal.old }
    ensures items { journal.new.items ≡ journal.old.items ++ Entry.Rewrote row.class row.sel was ∷ [] }
    ensures room { vec_capacity journal.old ≤ vec_capacity journal.new }
{
    let rewrote = Entry::Rewrote {
        class: row.class,
        sel: row.sel,
        imp: was,
    };
    note(journal, rewrote);
}

// Notes a row that was added.
#[inline(always)]
fn note_row(journal: &mut Vec<Entry>, class: ClassRef, sel: Selector)
    requires { length journal.old.items < vec_capacity journal.old }
    ensures items { journal.new.items ≡ journal.old.items ++ Entry.Added class sel ∷ [] }
    ensures room { vec_capacity journal.old ≤ vec_capacity journal.new }
{
    note(journal, Entry::Added { class, sel });
}

// Notes rows that were added, from the last entry to the first.
fn note_added(journal: &mut Vec<Entry>, class: ClassRef, methods: &[(Selector, ImpRef)])
    requires { length journal.old.items + length methods.now ≤ vec_capacity journal.old }
    ensures items { journal.new.items ≡ journal.old.items ++ added_all class (reverse (method_numbers methods.now)) }
    ensures room { vec_capacity journal.old ≤ vec_capacity journal.new }
{
    for (sel, _) in methods.iter().rev() {
        note_row(journal, class, *sel);
    }
}

impl Tables {
    // The number of entries that describe an edit.
    pub(crate) fn entry_count(&self, edit: &Edit) -> usize
        ensures { result ≡ entry_count self.now edit.now }
    {
        match edit {
            Edit::RewriteBoth(_, _) => 2,
            Edit::Attach {
                methods,
                class_methods,
                ..
            } => methods.as_slice().len() + class_methods.as_slice().len(),
            Edit::Dispose(class) => {
                let at = 2 * *class as usize;
                self.lists.rows_at(at) + self.lists.rows_at(at + 1) + 1
            }
            _ => 1,
        }
    }

    // The selector of the last row of a class reference.
    fn last_selector(&self, class: ClassRef) -> Option<Selector>
        ensures { option_map selector_number result ≡ option_map (λ m. m.0) (last_row (kept self.now.lists class)) }
    {
        Some(self.lists.last_row(class.slot())?.0)
    }

    fn remove_noted(&mut self, class: ClassRef, sel: Selector, journal: &mut Vec<Entry>)
        requires own { IsOfTables self.old (Remove class sel) }
        requires room { length journal.old.items < vec_capacity journal.old }
        ensures journals { IsNoted (Remove class sel) journal.old journal.new self.old self.new }
        ensures room { vec_capacity journal.old ≤ vec_capacity journal.new }
    {
        let removed = self.remove(class, sel);
        note(journal, removed);
    }

    // Removes the rows of a class reference, the last first, and notes them.
    fn empty_noted(&mut self, class: ClassRef, journal: &mut Vec<Entry>)
        requires class { class.class < length self.old.supers }
        requires room { length journal.old.items + length (kept self.old.lists class) ≤ vec_capacity journal.old }
        ensures takes { TakesRows class journal.old.items journal.new.items self.old self.new }
        ensures none { kept self.new.lists class ≡ [] }
        ensures room { vec_capacity journal.old ≤ vec_capacity journal.new }
    {
        while let Some(sel) = self.last_selector(class) {
            let row = self.remove(class, sel);
            note(journal, row);
        }
    }

    // The rows of the metaclass are removed first, so that their way back begins with the class's
    // own rows, the oldest first.
    fn dispose_noted(&mut self, class: u32, journal: &mut Vec<Entry>)
        requires leaf { IsOfTables self.old (Dispose class) }
        requires room { length journal.old.items + entry_count self.old (Dispose class) ≤ vec_capacity journal.old }
        ensures journals { IsNoted (Dispose class) journal.old journal.new self.old self.new }
        ensures room { vec_capacity journal.old ≤ vec_capacity journal.new }
    {
        let _ = &self.supers;
        self.empty_noted(ClassRef { class, meta: true }, journal);
        self.empty_noted(ClassRef { class, meta: false }, journal);
        let disposed = self.unmake(class);
        note(journal, disposed);
    }

    #[inline(always)]
    fn append_noted(&mut self, row: MethodRow, journal: &mut Vec<Entry>) -> Result<(), AllocError>
        requires fits { Fits self.old (Append row) }
        requires room { length journal.old.items < vec_capacity journal.old }
        ensures ok { OnOk result (IsNoted (Append row) journal.old journal.new self.old self.new) }
        ensures err { OnErr result ((IsKept self.old self.new) × (journal.new.items ≡ journal.old.items)) }
        ensures refused { OnErr result (EditLacksRoom self.old (Append row)) }
        ensures grown { HaveGrown self.old.rooms self.new.rooms }
        ensures room { vec_capacity journal.old ≤ vec_capacity journal.new }
    {
        self.append(row)?;
        note_row(journal, row.class, row.sel);
        Ok(())
    }

    #[inline(always)]
    fn rewrite_noted(&mut self, row: MethodRow, journal: &mut Vec<Entry>)
        requires own { IsOwn self.old row }
        requires room { length journal.old.items < vec_capacity journal.old }
        ensures journals { IsNoted (Rewrite row) journal.old journal.new self.old self.new }
        ensures room { vec_capacity journal.old ≤ vec_capacity journal.new }
    {
        let was = self.rewrite(row);
        note_rewritten(journal, row, was);
    }

    fn rewrite_both_noted(&mut self, first: MethodRow, second: MethodRow, journal: &mut Vec<Entry>)
        requires first { IsOwn self.old first }
        requires second { IsOwn self.old second }
        requires room { length journal.old.items + 2 ≤ vec_capacity journal.old }
        ensures journals { IsNoted (RewriteBoth first second) journal.old journal.new self.old self.new }
        ensures room { vec_capacity journal.old ≤ vec_capacity journal.new }
    {
        let one = self.own(first.class, first.sel).unwrap();
        let two = self.own(second.class, second.sel).unwrap();
        self.rewrite_both(first, second);
        note_rewritten(journal, first, one);
        note_rewritten(journal, second, two);
    }

    fn attach_noted(
        &mut self,
        class: u32,
        own: &MethodList,
        meta: &MethodList,
        journal: &mut Vec<Entry>,
    ) -> Result<(), AllocError>
        requires fits { Fits self.old (Attach class own meta) }
        requires room { length journal.old.items + (length own.now + length meta.now) ≤ vec_capacity journal.old }
        ensures ok { OnOk result (IsAttachNoted class own.entry meta.entry journal.old journal.new self.old self.new) }
        ensures err { OnErr result ((IsKept self.old self.new) × (journal.new.items ≡ journal.old.items)) }
        ensures refused { OnErr result (EditLacksRoom self.old (Attach class own.entry meta.entry)) }
        ensures grown { HaveGrown self.old.rooms self.new.rooms }
        ensures room { vec_capacity journal.old ≤ vec_capacity journal.new }
    {
        self.attach(class, own, meta)?;
        note_added(journal, ClassRef { class, meta: false }, own.as_slice());
        note_added(journal, ClassRef { class, meta: true }, meta.as_slice());
        Ok(())
    }

    fn make_noted(&mut self, class: u32, superclass: Option<u32>, journal: &mut Vec<Entry>)
        requires fits { Fits self.old (Make class superclass) }
        requires room { length journal.old.items < vec_capacity journal.old }
        ensures journals { IsNoted (Make class superclass) journal.old journal.new self.old self.new }
        ensures room { vec_capacity journal.old ≤ vec_capacity journal.new }
    {
        self.make(class, superclass);
        note(journal, Entry::Made { class });
    }

    // Writes an edit, and notes it.
    #[inline(always)]
    pub(crate) fn write_noted(
        &mut self,
        edit: Edit,
        journal: &mut Vec<Entry>,
    ) -> Result<(), AllocError>
        requires fits { Fits self.old edit }
        requires room { length journal.old.items + entry_count self.old edit ≤ vec_capacity journal.old }
        ensures ok { OnOk result (IsNoted edit.entry journal.old journal.new self.old self.new) }
        ensures err { OnErr result ((IsKept self.old self.new) × (journal.new.items ≡ journal.old.items)) }
        ensures refused { OnErr result (EditLacksRoom self.old edit.entry) }
        ensures grown { HaveGrown self.old.rooms self.new.rooms }
        ensures room { vec_capacity journal.old ≤ vec_capacity journal.new }
    {
        match edit {
            Edit::Append(row) => self.append_noted(row, journal),
            Edit::Rewrite(row) => {
                self.rewrite_noted(row, journal);
                Ok(())
            }
            Edit::RewriteBoth(first, second) => {
                self.rewrite_both_noted(first, second, journal);
                Ok(())
            }
            Edit::Attach {
                class,
                methods,
                class_methods,
            } => self.attach_noted(class, methods, class_methods, journal),
            Edit::Make(class, superclass) => {
                self.make_noted(class, superclass, journal);
                Ok(())
            }
            Edit::Remove(class, sel) => {
                self.remove_noted(class, sel, journal);
                Ok(())
            }
            Edit::Dispose(class) => {
                self.dispose_noted(class, journal);
                Ok(())
            }
        }
    }

    // Makes room in the journal for what an edit writes, writes it and notes it. Most edits write
    // one row: what these are is looked at once.
    #[inline(always)]
    pub(crate) fn write_with_room(
        &mut self,
        edit: Edit,
        journal: &mut Vec<Entry>,
    ) -> Result<(), ChangeFault>
        requires fits { Fits self.old edit }
        ensures ok { OnOk result (IsNoted edit.entry journal.old journal.new self.old self.new) }
        ensures err { OnErr result ((IsKept self.old self.new) × (journal.new.items ≡ journal.old.items)) }
        ensures fault { IfErr result (λ f. f ≡ ChangeFault.Memory) }
        ensures wanting { OnErr result
            ((vec_capacity journal.old < length journal.old.items + entry_count self.old edit.entry)
            ⊎ EditLacksRoom self.old edit.entry) }
        ensures grown { HaveGrown self.old.rooms self.new.rooms }
        ensures room { vec_capacity journal.old ≤ vec_capacity journal.new }
    {
        match edit {
            Edit::Append(row) => {
                journal.reserve(1)?;
                self.append_noted(row, journal)?;
            }
            Edit::Rewrite(row) => {
                journal.reserve(1)?;
                self.rewrite_noted(row, journal);
            }
            edit => {
                journal.reserve(self.entry_count(&edit))?;
                self.write_noted(edit, journal)?;
            }
        }
        Ok(())
    }
}
