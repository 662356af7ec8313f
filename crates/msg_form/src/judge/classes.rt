//! What is wrong with superclasses.

ghost use Rattle.std.specs.Prelude.{◌≡◌, [], map, option_map, IfOk};
ghost use Rattle.msg_form.specs.BodyFaults.{AreBodyFaults};
ghost use Rattle.msg_form.specs.Faults as spec;
ghost use Rattle.msg_form.specs.FormNames.{AreNamesOf};
ghost use Rattle.msg_form.specs.Text.{distinct};
ghost use Rattle.msg_form.specs.Views.{class_view, classes_view, form_view};

use super::any::{Test, any};
use super::bodies::BodyFaults;
use super::names::ClassOutside;
use crate::form::{Class, Form, makes_classes};
use crate::form_names::FormNames;
use crate::name_set::NameSet;
use std::alloc::{AllocError, Global};

#[tactic(auto, unfolding(crate::specs::Faults::has_unknown_superclass))]
pub(super) fn has_unknown_superclass(
    alloc: Global,
    form: &Form,
    names: &FormNames,
    bodies: BodyFaults,
) -> Result<bool, AllocError>
    requires names { AreNamesOf names.now (form_view form.now) }
    requires bodies { AreBodyFaults bodies (form_view form.now) }
    ensures { IfOk result (λ b. b ≡ spec.has_unknown_superclass (form_view form.now)) }
{
    Ok(has_other_superclass(alloc, form, names)? || bodies.sends_above)
}

#[tactic(auto, unfolding(crate::specs::Faults::has_other_superclass))]
fn has_other_superclass(alloc: Global, form: &Form, names: &FormNames) -> Result<bool, AllocError>
    requires { AreNamesOf names.now (form_view form.now) }
    ensures { IfOk result (λ b. b ≡ spec.has_other_superclass (form_view form.now)) }
{
    if makes_classes(form.version) {
        Ok(has_unlisted_superclass(&names.listed, &form.classes))
    } else {
        has_late_superclass(alloc, &form.classes)
    }
}

fn has_unlisted_superclass(listed: &NameSet, classes: &[Class]) -> bool
    requires { listed.now ≡ distinct (map (λ c. c.name) (classes_view classes.now)) }
    ensures { result ≡ spec.has_unlisted_superclass (classes_view classes.now) }
{
    any(&ClassOutside { classes: listed }, classes)
}

impl<'v> Test<Class<'v>> for ClassOutside<'_, '_> {
    ghost passes = { λ t c. spec.is_outside t.classes.now (class_view c).superclass };

    fn passes(&self, class: &Class<'v>) -> bool {
        is_outside(self.classes, class.superclass)
    }
}

fn has_late_superclass(alloc: Global, classes: &[Class]) -> Result<bool, AllocError>
    ensures { IfOk result (λ b. b ≡ spec.has_late_superclass [] (classes_view classes.now)) }
{
    let mut earlier = NameSet::new(alloc);
    any_late(&mut earlier, classes)
}

/// Whether a class has a superclass that is not among the earlier classes. Adds the classes to
/// them.
fn any_late<'v>(earlier: &mut NameSet<'v>, classes: &[Class<'v>]) -> Result<bool, AllocError>
    ensures { IfOk result (λ b. b ≡ spec.has_late_superclass earlier.old (classes_view classes.now)) }
{
    for class in classes {
        if is_outside(earlier, class.superclass) {
            return Ok(true);
        }
        earlier.insert(class.name)?;
    }
    Ok(false)
}

pub(super) fn is_outside(names: &NameSet, superclass: Option<&str>) -> bool
    ensures { result ≡ spec.is_outside names.now (option_map (λ s. s.now) superclass.entry) }
{
    match superclass {
        Some(name) => names.lacks(name),
        None => false,
    }
}
