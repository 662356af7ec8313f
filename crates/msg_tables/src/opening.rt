//! Opens tables.

ghost use Rattle.std.specs.Prelude.{◌≡◌, ◌<◌, ◌≤◌, ◌+◌, ◌*◌, IfOk, OnOk, length};
ghost use Rattle.std.specs.Option.{ForSome};
ghost use Rattle.std.specs.Vec.{vec_capacity};
ghost use Rattle.msg_tables.specs.After.{opened_supers, rows_at, list_rows};
ghost use Rattle.msg_tables.specs.Log.{empty};
ghost use Rattle.msg_rows.specs.Methods.{method_numbers};
ghost use Rattle.msg_tables.specs.Attached.{list_in};
ghost use Rattle.msg_tables.specs.Opening.{Adds, AddsList, HasClassesOf, IsBlank, IsFor, rows_before};
ghost use Rattle.msg_tables.specs.Order.{IsOrder};
ghost use Rattle.msg_tables.specs.Origin.{IsSound, class_total};
ghost use Rattle.msg_tables.specs.Stands.{StandsAt};
ghost use Rattle.msg_tables.specs.View.{HaveListedImps};

use crate::counts::Counts;
use crate::origin::{HasOrigin, Origin};
use crate::preorder::preorder_of;
use crate::presence::Presence;
use crate::tables::Tables;
use msg_names::{ClassRef, ImpRef, Selector};
use msg_order::class_order;
use msg_rows::RowLists;
use std::alloc::{AllocError, Global};

// The classes when tables are opened: the listed ones are present, and those that may be made
// aren't.
fn opened_classes(alloc: Global, origin: &Origin) -> Result<Vec<Option<Presence>>, AllocError>
    ensures { IfOk result (λ supers. supers.items ≡ opened_supers origin.now) }
{
    let mut supers = Vec::with_capacity(alloc, origin.class_count() as usize)?;
    for class in 0..origin.listed_count() {
        supers.push(Some(Presence {
            superclass: origin.superclass(class),
        }))?;
    }
    for _made in origin.listed_count()..origin.class_count() {
        supers.push(None)?;
    }
    Ok(supers)
}

fn superclasses(alloc: Global, origin: &Origin) -> Result<Vec<Option<u32>>, AllocError>
    ensures { IfOk result (λ supers. supers.items ≡ origin.now.superclasses) }
{
    let mut supers = Vec::with_capacity(alloc, origin.listed_count() as usize)?;
    for class in 0..origin.listed_count() {
        supers.push(origin.superclass(class))?;
    }
    Ok(supers)
}

// The listed classes, each after its superclass, with room for all that may be made.
fn listed_order(alloc: Global, origin: &Origin) -> Result<Vec<u32>, AllocError>
    ensures order { IfOk result (λ order. IsOrder (opened_supers origin.now) order.items) }
    ensures room { IfOk result (λ order. class_total origin.now ≤ vec_capacity order) }
{
    let mut order = Vec::with_capacity(alloc, origin.class_count() as usize)?;
    let listed = class_order(alloc, &superclasses(alloc, origin)?)?.unwrap();
    order.extend_from_slice(&listed)?;
    Ok(order)
}

fn copied_counts(counts: &Option<Counts>) -> Result<Option<Counts>, AllocError>
    ensures { IfOk result (λ copied. copied ≡ counts.now) }
{
    match counts {
        Some(counts) => Ok(Some(counts.copied()?)),
        None => Ok(None),
    }
}

impl Tables {
    // Makes tables of the classes, without rows.
    fn blank(alloc: Global, origin: &Origin) -> Result<Tables, AllocError>
        ensures { IfOk result (IsBlank origin.now) }
    {
        let count = origin.class_count();
        let supers = opened_classes(alloc, origin)?;
        let order = listed_order(alloc, origin)?;
        let preorder = preorder_of(alloc, &supers, &order)?;
        Ok(Tables {
            supers,
            order,
            preorder,
            listed: origin.listed_count(),
            lists: RowLists::blank(alloc, 2 * count as usize)?,
            counts: copied_counts(&origin.counts)?,
            limits: origin.limits(),
            row_count: 0,
            change_count: 0,
        })
    }

    // Adds the methods of a class reference, in the order of its list.
    fn open_methods(
        &mut self,
        class: ClassRef,
        methods: &[(Selector, ImpRef)],
    ) -> Result<(), AllocError>
        requires class { class.class < length self.old.supers }
        requires listed { HaveListedImps self.old (method_numbers methods.now) }
        requires room { self.old.row_count + length methods.now ≤ self.old.limits.rows }
        ensures { OnOk result (Adds self.old self.new (rows_at class (method_numbers methods.now))) }
    {
        self.lists.append_rows(class.slot(), methods)?;
        self.row_count += methods.len() as u64;
        Ok(())
    }

    // Adds the method list of a pair, after those before it.
    fn open_list(&mut self, origin: &Origin, pair: usize, meta: bool) -> Result<(), AllocError>
        requires tables { IsFor origin.now self.old }
        requires sound { IsSound origin.now }
        requires pair { 2 * pair < length origin.now.lists }
        requires before { self.old.row_count ≡ rows_before origin.now.lists pair meta }
        ensures { ForSome (list_in origin.now.lists pair meta) (λ list. OnOk result (AddsList self.old self.new list)) }
    {
        let (class, methods) = origin.list(pair, meta);
        self.open_methods(class, methods.as_slice())
    }

    fn open_lists(&mut self, origin: &Origin) -> Result<(), AllocError>
        requires tables { IsFor origin.now self.old }
        requires blank { self.old.row_count ≡ 0 }
        ensures { OnOk result (Adds self.old self.new (list_rows origin.now.lists)) }
    {
        for pair in 0..origin.pair_count() {
            self.open_list(origin, pair, false)?;
            self.open_list(origin, pair, true)?;
        }
        Ok(())
    }

    // Opens the tables of an origin.
    fn of(alloc: Global, origin: &Origin) -> Result<Tables, AllocError>
        ensures stands { IfOk result (λ tables. StandsAt tables (empty origin.now)) }
        ensures classes { IfOk result (HasClassesOf origin.now) }
    {
        let mut tables = Tables::blank(alloc, origin)?;
        tables.open_lists(origin)?;
        Ok(tables)
    }

    /// Opens the tables of a program that was just loaded: each class has its methods, and the
    /// categories were attached one after another.
    ///
    /// Each method is copied once.
    pub fn open<C: HasOrigin>(alloc: Global, classes: &C) -> Result<Tables, AllocError>
        ensures stands { IfOk result (λ tables. StandsAt tables (empty (C.given classes.now))) }
        ensures classes { IfOk result (HasClassesOf (C.given classes.now)) }
    {
        Tables::of(alloc, classes.origin())
    }
}
