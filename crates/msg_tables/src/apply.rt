//! Makes changes.

ghost use Rattle.std.specs.Prelude.{◌≡◌, ◌<◌, ◌≤◌, Option, Some, None, OnOk, OnErr, length, ◌+◌, [], ◌∷◌, slice_get, slice_set, true};
ghost use Rattle.msg_tables.specs.Preorder.{is_in};
ghost use Rattle.msg_tables.specs.declared.fault.ChangeFault.{ChangeFault};
ghost use Rattle.msg_tables.specs.declared.edit.Edit.{Edit};
ghost use Rattle.msg_tables.specs.declared.edit.MethodRow.{MethodRow};
ghost use Rattle.msg_tables.specs.Edits.{EditLacksRoom, Fits, IsOfTables, IsOwn, Writes};
ghost use Rattle.msg_tables.specs.Log.{Log};
ghost use Rattle.msg_tables.specs.Journal.{IsImpOf, IsJournalOf, IsRemoved, TellAttached, TellBothRewritten, TellsDisposed, TellsRemoved, TellsRewritten, lists_rewritten};
ghost use Rattle.msg_tables.specs.Refusal.{refusal};
ghost use Rattle.msg_rows.specs.RowList.{HaveGrown};
ghost use Rattle.msg_tables.specs.Stands.{StandsAt};
ghost use Rattle.msg_tables.specs.View.{IsKept};

use crate::change::Change;
use crate::edit::MethodRow;
use crate::entry::Entry;
use crate::fault::ChangeFault;
use crate::methods::MethodList;
use crate::presence::Presence;
use crate::tables::Tables;
use msg_names::{ClassRef, ImpRef, Selector};
use std::alloc::AllocError;

impl Tables {
    pub(crate) fn append(&mut self, row: MethodRow) -> Result<(), AllocError>
        requires { Fits self.old (Edit.Append row) }
        ensures ok { OnOk result (Writes self.old self.new (Edit.Append row)) }
        ensures err { OnErr result (IsKept self.old self.new) }
        ensures refused { OnErr result (EditLacksRoom self.old (Edit.Append row)) }
        ensures grown { HaveGrown self.old.rooms self.new.rooms }
        ensures back { OnOk result (IsJournalOf (Entry.Added row.class row.sel ∷ []) self.old self.new) }
    {
        self.lists.append_row(row.class.slot(), row.sel, row.imp)?;
        self.row_count += 1;
        Ok(())
    }

    // Rewrites an own row, and returns the implementation that it had.
    pub(crate) fn rewrite(&mut self, row: MethodRow) -> ImpRef
        requires { IsOwn self.old row }
        ensures writes { Writes self.old self.new (Edit.Rewrite row) }
        ensures own { (other : MethodRow) → IsOwn self.old other → IsOwn self.new other }
        ensures value { self.new ≡ record self.old
            { lists = lists_rewritten row self.old.lists; rooms = self.new.rooms } }
        ensures grown { HaveGrown self.old.rooms self.new.rooms }
        ensures was { IsImpOf self.old row result }
        ensures back { TellsRewritten row self.old self.new }
    {
        let was = self.lists.rewrite_row(row.class.slot(), row.sel, row.imp);
        was.unwrap()
    }

    pub(crate) fn rewrite_both(&mut self, first: MethodRow, second: MethodRow)
        requires first { IsOwn self.old first }
        requires second { IsOwn self.old second }
        ensures writes { Writes self.old self.new (Edit.RewriteBoth first second) }
        ensures back { TellBothRewritten first second self.old self.new }
    {
        let _second = self.rewrite(second);
        let _first = self.rewrite(first);
    }

    pub(crate) fn attach(
        &mut self,
        class: u32,
        methods: &MethodList,
        class_methods: &MethodList,
    ) -> Result<(), AllocError>
        requires { Fits self.old (Edit.Attach class methods class_methods) }
        ensures ok { OnOk result (Writes self.old self.new (Edit.Attach class methods.entry class_methods.entry)) }
        ensures err { OnErr result (IsKept self.old self.new) }
        ensures refused { OnErr result (EditLacksRoom self.old (Edit.Attach class methods.entry class_methods.entry)) }
        ensures grown { HaveGrown self.old.rooms self.new.rooms }
        ensures back { OnOk result (TellAttached class methods.now class_methods.now self.old self.new) }
    {
        let own = methods.as_slice();
        let meta = class_methods.as_slice();
        let at = ClassRef { class, meta: false }.slot();
        self.lists.attach_rows(at, own, meta)?;
        self.row_count += (own.len() + meta.len()) as u64;
        Ok(())
    }

    pub(crate) fn make(&mut self, class: u32, superclass: Option<u32>)
        requires { Fits self.old (Edit.Make class superclass) }
        ensures writes { Writes self.old self.new (Edit.Make class superclass) }
        ensures back { IsJournalOf (Entry.Made class ∷ []) self.old self.new }
    {
        let pushed: Result<_, _> = self.order.push(class);
        pushed.unwrap();
        self.preorder.place(class, superclass);
        self.supers[class as usize] = Some(Presence { superclass });
    }

    // Removes an own row, and returns the entry that describes it.
    pub(crate) fn remove(&mut self, class: ClassRef, sel: Selector) -> Entry
        requires { IsOfTables self.old (Edit.Remove class sel) }
        ensures writes { Writes self.old self.new (Edit.Remove class sel) }
        ensures value { IsRemoved class sel self.old self.new }
        ensures was { TellsRemoved self.old class sel result }
        ensures back { IsJournalOf (result ∷ []) self.old self.new }
    {
        let removed = self.lists.remove_row(class.slot(), sel);
        let (place, imp) = removed.unwrap();
        self.row_count -= 1;
        Entry::Removed {
            class,
            sel,
            imp,
            place,
        }
    }

    // Removes a class that has no class below it and no rows, and returns the entry that describes
    // it. If the class comes right after its superclass, as the last class that was made does, no
    // other is visited; otherwise all are.
    pub(crate) fn unmake(&mut self, class: u32) -> Entry
        requires { IsOfTables self.old (Edit.Dispose class) }
        ensures value { self.new ≡ record self.old
            { supers = slice_set self.old.supers class None; order = self.new.order } }
        ensures was { TellsDisposed self.old class result }
        ensures back { IsJournalOf (result ∷ []) self.old self.new }
    {
        let superclass = self.supers[class as usize].unwrap().superclass;
        let place = place_in(&self.order, class);
        let _class = self.order.remove(place);
        self.supers[class as usize] = None;
        self.preorder
            .forget(class, superclass, &self.supers, &self.order);
        Entry::Disposed {
            class,
            superclass,
            place,
        }
    }

    /// Returns the fault for which the change would be refused, or none if it would be made. It
    /// takes no memory.
    pub fn refusal(&self, change: &Change) -> Option<ChangeFault>
        ensures { (h : Log) → StandsAt self.now h → result ≡ refusal h change.now }
    {
        self.judge(change.by_ref()).err()
    }
}

// The place of a class in an order that has it. The classes that were made last are found at once.
fn place_in(order: &[u32], class: u32) -> usize
    requires { is_in class order.now ≡ true }
    ensures { slice_get order.now result ≡ Some class }
{
    for back in 0..order.len() {
        let place = order.len() - 1 - back;
        if order[place] == class {
            return place;
        }
    }
    unreachable!()
}
