//! Whether superclasses form a cycle.

ghost use Rattle.std.specs.Prelude.{◌≡◌, ◌≤◌, length, map, option_map, IfOk};
ghost use Rattle.msg_form.specs.Faults as spec;
ghost use Rattle.msg_form.specs.FormNames.{AreNamesOf};
ghost use Rattle.msg_form.specs.Text.{distinct, number_among};
ghost use Rattle.msg_form.specs.Views.{classes_view, form_view, superclasses_among};
ghost use Rattle.msg_order.specs.Superclasses.{AreListed};

use crate::form::{Class, Form, makes_classes};
use crate::form_names::FormNames;
use crate::limits::MAX_CLASSES;
use crate::name_set::NameSet;
use msg_order::class_order;
use std::alloc::{AllocError, Global};

#[tactic(auto, unfolding(crate::specs::Faults::has_class_cycle))]
pub(super) fn has_class_cycle(
    alloc: Global,
    form: &Form,
    names: &FormNames,
) -> Result<bool, AllocError>
    requires names { AreNamesOf names.now (form_view form.now) }
    requires classes { length form.now.classes.items ≤ MAX_CLASSES }
    ensures { IfOk result (λ b. b ≡ spec.has_class_cycle (form_view form.now)) }
{
    if !makes_classes(form.version) {
        return Ok(false);
    }
    let supers = superclasses(alloc, &names.listed, &form.classes)?;
    let order = class_order(alloc, &supers)?;
    Ok(order.is_none())
}

/// The superclasses of the listed classes, by their numbers from 0.
fn superclasses(
    alloc: Global,
    listed: &NameSet,
    classes: &[Class],
) -> Result<Vec<Option<u32>>, AllocError>
    requires { listed.now ≡ distinct (map (λ c. c.name) (classes_view classes.now)) }
    ensures numbers { IfOk result
        (λ v. v.items ≡ spec.superclasses_of (classes_view classes.now)) }
    ensures listed { IfOk result (λ v. AreListed v.items) }
{
    superclasses_among(alloc, listed, classes)
}

fn superclasses_among(
    alloc: Global,
    names: &NameSet,
    classes: &[Class],
) -> Result<Vec<Option<u32>>, AllocError>
    ensures { IfOk result (λ v. v.items ≡ superclasses_among names.now classes.now) }
{
    let mut supers = Vec::with_capacity(alloc, classes.len())?;
    for class in classes {
        supers.push(number_of(names, class.superclass))?;
    }
    Ok(supers)
}

fn number_of(names: &NameSet, superclass: Option<&str>) -> Option<u32>
    ensures { result ≡ option_map (number_among names.now) (option_map (λ s. s.now) superclass.entry) }
{
    let number = names.number(superclass?).unwrap_or(1);
    Some(number.saturating_sub(1))
}
