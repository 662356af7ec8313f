//! What is wrong with the names that a document cites.
//!
//! Each check goes once over the parts that cite such names. The names in bodies were looked up
//! before.

ghost use Rattle.std.specs.Prelude.{◌≡◌, ◌++◌, map, IfOk};
ghost use Rattle.std.specs.List.{list_any};
ghost use Rattle.msg_form.specs.BodyFaults.{AreBodyFaults};
ghost use Rattle.msg_form.specs.ExprView.{constant_view};
ghost use Rattle.msg_form.specs.Faults as spec;
ghost use Rattle.msg_form.specs.FormNames.{AreNamesOf};
ghost use Rattle.msg_form.specs.Lists.{imps_cited, home_classes, other_classes};
ghost use Rattle.msg_form.specs.Lists.{change_classes, change_imps, item_classes, item_imps, item_objects};
ghost use Rattle.msg_form.specs.Parts.{own_class, own_object};
ghost use Rattle.msg_form.specs.Text.{is_unknown};
ghost use Rattle.msg_form.specs.Views.{change_view, item_view, items_view, lists_view, form_view};

use super::any::{Test, any};
use super::bodies::BodyFaults;
use super::classes::is_outside;
use super::lists::all_lists;
use crate::form::{Category, Change, Class, Constant, Form, Imp, Item, Object, Pair};
use crate::form_names::FormNames;
use crate::name_set::NameSet;
use std::alloc::{AllocError, Global};

// ---- classes

/// Tests whether a part names a class that is not in the set.
#[derive(Drop)]
pub(super) struct ClassOutside<'s, 'v> {
    pub(super) classes: &'s NameSet<'v>,
}

impl<'v> Test<Category<'v>> for ClassOutside<'_, '_> {
    ghost passes = { λ t c. is_unknown t.classes.now c.class.now };

    fn passes(&self, category: &Category<'v>) -> bool {
        self.classes.lacks(category.class)
    }
}

impl<'v> Test<Imp<'v>> for ClassOutside<'_, '_> {
    ghost passes = { λ t i. is_unknown t.classes.now i.class.now };

    fn passes(&self, imp: &Imp<'v>) -> bool {
        self.classes.lacks(imp.class)
    }
}

impl<'v> Test<Object<'v>> for ClassOutside<'_, '_> {
    ghost passes = { λ t o. is_unknown t.classes.now o.class.now };

    fn passes(&self, object: &Object<'v>) -> bool {
        self.classes.lacks(object.class)
    }
}

impl<'v> Test<Constant<'v>> for ClassOutside<'_, '_> {
    ghost passes = { λ t c. list_any (is_unknown t.classes.now) (own_class (constant_view c)) };

    fn passes(&self, constant: &Constant<'v>) -> bool {
        match constant {
            Constant::Class(name) => self.classes.lacks(*name),
            _ => false,
        }
    }
}

impl<'v> Test<Change<'v>> for ClassOutside<'_, '_> {
    ghost passes = { λ t c. list_any (is_unknown t.classes.now) (change_classes (change_view c)) };

    fn passes(&self, change: &Change<'v>) -> bool {
        match change {
            Change::Add { method, .. }
            | Change::Replace { method, .. }
            | Change::SetImp { method, .. }
            | Change::Remove { method } => self.classes.lacks(method.class),
            Change::Exchange { method, other } => {
                self.classes.lacks(method.class) || self.classes.lacks(other.class)
            }
            Change::Attach { class, .. } | Change::Dispose { class } => self.classes.lacks(*class),
            Change::Make { class, superclass } => {
                self.classes.lacks(*class) || is_outside(self.classes, *superclass)
            }
        }
    }
}

impl<'v> Test<Item<'v>> for ClassOutside<'_, '_> {
    ghost passes = { λ t i. list_any (is_unknown t.classes.now) (item_classes (item_view i)) };

    #[tactic(auto, using(crate::proofs::AnyLemmas::anys))]
    fn passes(&self, item: &Item<'v>) -> bool {
        match item {
            Item::Send { receiver, args, .. } => self.passes(receiver) || any(self, *args),
            _ => any(self, item.changes()),
        }
    }
}

pub(super) fn has_unknown_class(form: &Form, names: &FormNames, bodies: BodyFaults) -> bool
    requires names { AreNamesOf names.now (form_view form.now) }
    requires bodies { AreBodyFaults bodies (form_view form.now) }
    ensures { result ≡ spec.has_unknown_class (form_view form.now) }
{
    if bodies.unknown_class {
        return true;
    }
    if has_home_outside(&names.listed, form) {
        return true;
    }
    names_class_outside(&names.classes, form)
}

/// Whether a category or an implementation has a class that is not in the set.
fn has_home_outside(classes: &NameSet, form: &Form) -> bool
    ensures { result ≡ list_any (is_unknown classes.now) (home_classes (form_view form.now)) }
{
    let test = ClassOutside { classes };
    any(&test, &form.categories) || any(&test, &form.imps)
}

/// Whether a part outside of bodies names a class that is not in the set.
fn names_class_outside(classes: &NameSet, form: &Form) -> bool
    ensures { result ≡ list_any (is_unknown classes.now) (other_classes (form_view form.now)) }
{
    let test = ClassOutside { classes };
    any(&test, &form.objects) || any(&test, &form.items)
}

// ---- objects

/// Tests whether a part names an object that is not in the set.
#[derive(Drop)]
struct ObjectOutside<'s, 'v> {
    objects: &'s NameSet<'v>,
}

impl<'v> Test<Constant<'v>> for ObjectOutside<'_, '_> {
    ghost passes = { λ t c. list_any (is_unknown t.objects.now) (own_object (constant_view c)) };

    fn passes(&self, constant: &Constant<'v>) -> bool {
        match constant {
            Constant::Object(name) => self.objects.lacks(*name),
            _ => false,
        }
    }
}

impl<'v> Test<Item<'v>> for ObjectOutside<'_, '_> {
    ghost passes = { λ t i. list_any (is_unknown t.objects.now) (item_objects (item_view i)) };

    #[tactic(auto, using(crate::proofs::AnyLemmas::anys))]
    fn passes(&self, item: &Item<'v>) -> bool {
        match item {
            Item::Send { receiver, args, .. } => self.passes(receiver) || any(self, *args),
            _ => false,
        }
    }
}

pub(super) fn has_unknown_object(form: &Form, names: &FormNames, bodies: BodyFaults) -> bool
    requires names { AreNamesOf names.now (form_view form.now) }
    requires bodies { AreBodyFaults bodies (form_view form.now) }
    ensures { result ≡ spec.has_unknown_object (form_view form.now) }
{
    let test = ObjectOutside {
        objects: &names.objects,
    };
    bodies.unknown_object || any(&test, &form.items)
}

// ---- implementations

/// Tests whether a part names an implementation that is not in the set.
#[derive(Drop)]
struct ImpOutside<'s, 'v> {
    imps: &'s NameSet<'v>,
}

impl<'v> Test<Pair<'v>> for ImpOutside<'_, '_> {
    ghost passes = { λ t p. is_unknown t.imps.now p.imp.now };

    fn passes(&self, pair: &Pair<'v>) -> bool {
        self.imps.lacks(pair.imp)
    }
}

impl<'f, 'v> Test<&'f [Pair<'v>]> for ImpOutside<'_, '_> {
    ghost passes = { λ t l. list_any (λ p. is_unknown t.imps.now p.imp.now) l.now };

    fn passes(&self, list: &&'f [Pair<'v>]) -> bool {
        any(self, *list)
    }
}

impl<'v> Test<Change<'v>> for ImpOutside<'_, '_> {
    ghost passes = { λ t c. list_any (is_unknown t.imps.now) (change_imps (change_view c)) };

    fn passes(&self, change: &Change<'v>) -> bool {
        match change {
            Change::Add { imp, .. } | Change::Replace { imp, .. } | Change::SetImp { imp, .. } => {
                self.imps.lacks(*imp)
            }
            _ => false,
        }
    }
}

impl<'v> Test<Item<'v>> for ImpOutside<'_, '_> {
    ghost passes = { λ t i. list_any (is_unknown t.imps.now) (item_imps (item_view i)) };

    #[tactic(auto, using(crate::proofs::AnyLemmas::anys))]
    fn passes(&self, item: &Item<'v>) -> bool {
        any(self, item.changes())
    }
}

pub(super) fn has_unknown_imp(
    alloc: Global,
    form: &Form,
    names: &FormNames,
) -> Result<bool, AllocError>
    requires { AreNamesOf names.now (form_view form.now) }
    ensures { IfOk result (λ b. b ≡ spec.has_unknown_imp (form_view form.now)) }
{
    let lists = all_lists(alloc, form)?;
    Ok(names_imp_outside(&names.imps, &lists, &form.items))
}

#[tactic(auto, using(crate::proofs::AnyLemmas::anys))]
fn names_imp_outside(imps: &NameSet, lists: &[&[Pair]], items: &[Item]) -> bool
    ensures { result
        ≡ list_any (is_unknown imps.now) (imps_cited (lists_view lists.now) (items_view items.now)) }
{
    let test = ImpOutside { imps };
    any(&test, lists) || any(&test, items)
}
