//! What a lookup will find after a change is made.
//!
//! The chain stays the same, except for a class that is made or disposed of. At each class
//! reference what the change writes comes before the class's own method. So the result is known
//! before the change is made, and needs no memory.

ghost use Rattle.std.specs.Prelude.{◌≡◌, ◌<◌, length, option_map, reverse, IfSome, true};
ghost use Rattle.msg_names.specs.Number.{selector_number, imp_number};
ghost use Rattle.msg_tables.specs.Log.{Log};
ghost use Rattle.msg_tables.specs.After.{supers_after};
ghost use Rattle.msg_tables.specs.Chain.{super_of, is_present};
ghost use Rattle.msg_rows.specs.RowList.{own_in, without_row};
ghost use Rattle.msg_tables.specs.View.{kept};
ghost use Rattle.msg_tables.specs.Written as spec;
ghost use Rattle.msg_tables.specs.Written.{IsFoundAfter, IsOwnAfter, IsWritten, IsWrittenAt};
ghost use Rattle.msg_tables.specs.Written.{SeeksAmong, imp_at_ref};

use crate::change::Change;
use crate::methods::MethodList;
use crate::tables::Tables;
use msg_names::{ClassRef, ImpRef, Selector};

// The implementation of the first entry with a selector.
fn listed(methods: &MethodList, sel: Selector) -> Option<ImpRef>
    ensures { option_map imp_number result ≡ own_in (selector_number sel) (reverse methods.now) }
{
    let pairs = methods.as_slice();
    for pair in pairs {
        if pair.0 == sel {
            return Some(pair.1);
        }
    }
    None
}

// The implementation, if the written class reference and selector are the ones that are looked for.
fn at_ref(
    place: Option<ClassRef>,
    here: ClassRef,
    named: Selector,
    sel: Selector,
    imp: ImpRef,
) -> Option<ImpRef>
    ensures { option_map imp_number result ≡ imp_at_ref place here named sel imp }
{
    match place {
        Some(class) if class == here && named == sel => Some(imp),
        _ => None,
    }
}

// The implementation that the change writes at a class reference for a selector.
fn written(tables: &Tables, change: &Change, here: ClassRef, sel: Selector) -> Option<ImpRef>
    requires { SeeksAmong (length tables.now.supers) change.now }
    ensures { IsWritten tables.now change.now here sel result }
{
    match change {
        Change::Add {
            class,
            sel: named,
            imp,
        } => at_ref(Some(*class), here, *named, sel, *imp),
        Change::Replace {
            class,
            sel: named,
            imp,
        } => at_ref(Some(*class), here, *named, sel, *imp),
        Change::SetImp {
            class,
            sel: named,
            imp,
        } => at_ref(tables.holder(*class, *named), here, *named, sel, *imp),
        Change::Exchange {
            class,
            sel: named,
            other,
            other_sel,
        } => exchanged(tables, *class, *named, *other, *other_sel, here, sel),
        Change::Attach {
            class,
            methods,
            class_methods,
        } => attached(*class, methods, class_methods, here, sel),
        Change::AddClass { .. } => None,
        Change::Remove { .. } | Change::DisposeClass { .. } => None,
    }
}

// Whether the class will be present after the change.
fn is_present_after(tables: &Tables, change: &Change, here: ClassRef) -> bool
    requires { here.class < length tables.now.supers }
    ensures { result ≡ is_present (supers_after tables.now.supers change.now) here.class }
{
    match change {
        Change::AddClass { class, .. } if *class == here.class => true,
        Change::DisposeClass { class } if *class == here.class => false,
        _ => tables.present(here).is_some(),
    }
}

// The class reference that will be above this one.
fn above_after(tables: &Tables, change: &Change, here: ClassRef) -> Option<ClassRef>
    requires here { here.class < length tables.now.supers }
    requires listed { SeeksAmong (length tables.now.supers) change.now }
    ensures value { result ≡ super_of (supers_after tables.now.supers change.now) here }
    ensures listed { IfSome result (λ above. above.class < length tables.now.supers) }
{
    match change {
        Change::AddClass { class, superclass } if *class == here.class => {
            here.above(*superclass)
        }
        Change::DisposeClass { class } if *class == here.class => None,
        _ => tables.above(here),
    }
}

// What `Change::Attach` writes.
fn attached(
    class: u32,
    methods: &MethodList,
    class_methods: &MethodList,
    here: ClassRef,
    sel: Selector,
) -> Option<ImpRef>
    ensures { (h : Log) → IsWrittenAt h (Change.Attach class methods.now class_methods.now) here sel result }
{
    if here == (ClassRef { class, meta: true }) {
        listed(class_methods, sel)
    } else if here == (ClassRef { class, meta: false }) {
        listed(methods, sel)
    } else {
        None
    }
}

// What `Change::Exchange` writes.
fn exchanged(
    tables: &Tables,
    class: ClassRef,
    named: Selector,
    other: ClassRef,
    other_sel: Selector,
    here: ClassRef,
    sel: Selector,
) -> Option<ImpRef>
    requires class { class.class < length tables.now.supers }
    requires other { other.class < length tables.now.supers }
    ensures { IsWritten tables.now (Change.Exchange class named other other_sel) here sel result }
{
    let first = tables.holder(class, named);
    let second = tables.holder(other, other_sel);
    let by_first = at_ref(first, here, named, sel, tables.lookup(other, other_sel));
    if by_first.is_some() {
        return by_first;
    }
    at_ref(second, here, other_sel, sel, tables.lookup(class, named))
}

// Whether the change removes the own row of a class reference and a selector.
fn row_leaves(change: &Change, here: ClassRef, sel: Selector) -> bool
    ensures { result ≡ spec.row_leaves change.now here (selector_number sel) }
{
    match change {
        Change::Remove { class, sel: named } => *class == here && *named == sel,
        Change::DisposeClass { class } => *class == here.class,
        _ => false,
    }
}

// The implementation that a class reference itself will have for a selector whose own row is
// removed.
fn own_left(tables: &Tables, change: &Change, here: ClassRef, sel: Selector) -> Option<ImpRef>
    requires here { here.class < length tables.now.supers }
    requires leaves { spec.row_leaves change.now here (selector_number sel) ≡ true }
    ensures { IsOwnAfter tables.now change.now here sel result }
{
    match change {
        Change::Remove { .. } => tables.covered(here, sel),
        _ => None,
    }
}

// The implementation that a class reference itself will have for a selector.
fn own_after(tables: &Tables, change: &Change, here: ClassRef, sel: Selector) -> Option<ImpRef>
    requires here { here.class < length tables.now.supers }
    requires listed { SeeksAmong (length tables.now.supers) change.now }
    ensures { IsOwnAfter tables.now change.now here sel result }
{
    if row_leaves(change, here, sel) {
        return own_left(tables, change, here, sel);
    }
    match written(tables, change, here, sel) {
        Some(imp) => Some(imp),
        None => tables.own(here, sel),
    }
}

// The implementation that a lookup will find if it begins at a class that will be present.
// `classes` is the number of classes.
fn found_from(
    tables: &Tables,
    classes: usize,
    change: &Change,
    class: ClassRef,
    sel: Selector,
) -> ImpRef
    requires classes { classes ≡ length tables.now.supers }
    requires class { class.class < length tables.now.supers }
    requires present { is_present (supers_after tables.now.supers change.now) class.class ≡ true }
    requires listed { SeeksAmong (length tables.now.supers) change.now }
    ensures { IsFoundAfter tables.now change.now class sel result }
{
    let mut here = class;
    for _step in 0..classes {
        if let Some(imp) = own_after(tables, change, here, sel) {
            return imp;
        }
        match above_after(tables, change, here) {
            Some(above) => here = above,
            None => return ImpRef::FORWARD,
        }
    }
    match own_after(tables, change, here, sel) {
        Some(imp) => imp,
        None => ImpRef::FORWARD,
    }
}

impl Tables {
    // The implementation that the class reference itself would have for a selector without its own
    // row.
    fn covered(&self, class: ClassRef, sel: Selector) -> Option<ImpRef>
        requires { class.class < length self.now.supers }
        ensures { option_map imp_number result
            ≡ own_in (selector_number sel) (without_row (selector_number sel) (kept self.now.lists class)) }
    {
        self.lists.covered(class.slot(), sel)
    }

    /// Returns the implementation that [`Tables::lookup`] will find after a change is made. The
    /// class and the classes of the change have numbers.
    ///
    /// Each class on the way costs a search in its own methods. If the change names methods by
    /// `SetImp` or `Exchange`, it also costs a lookup of those. No memory is taken.
    pub fn lookup_after(&self, change: &Change, class: ClassRef, sel: Selector) -> ImpRef
        requires class { class.class < length self.now.supers }
        requires listed { SeeksAmong (length self.now.supers) change.now }
        ensures { IsFoundAfter self.now change.now class sel result }
    {
        if is_present_after(self, change, class) {
            found_from(self, self.supers.len(), change, class, sel)
        } else {
            ImpRef::FORWARD
        }
    }
}
