//! Whether a class has the superclass that it names.

ghost use Rattle.std.specs.Prelude.{◌≡◌, option_map};
ghost use Rattle.msg_form.specs.FormNames.{AreNamesOf};
ghost use Rattle.msg_form.specs.Text.{is_unknown};
ghost use Rattle.msg_form.specs.Views.{class_view, classes_view, form_view};
ghost use Rattle.msg_explain.specs.Judging as spec;

use msg_form::{Class, Form, FormNames, makes_classes};

/// Whether the class's superclass isn't listed, or in version 1 isn't listed before it.
pub(crate) fn has_no_superclass(form: &Form, names: &FormNames, class: &Class) -> bool
    requires { AreNamesOf names.now (form_view form.now) }
    ensures { result ≡ spec.has_other_superclass (form_view form.now) (class_view class.now) }
{
    match class.superclass {
        None => false,
        Some(superclass) if makes_classes(form.version) => names.lacks_listed(superclass),
        Some(superclass) => is_late(&form.classes, class.name, superclass),
    }
}

/// Whether a superclass isn't listed before the class with the name.
fn is_late(classes: &[Class], name: &str, superclass: &str) -> bool
    ensures { result ≡ is_unknown
        (spec.names_before name.now (classes_view classes.now)) superclass.now }
{
    for class in classes {
        if name == class.name {
            return true;
        }
        if superclass == class.name {
            return false;
        }
    }
    true
}

/// Whether the way up from the class comes back to it. It takes a walk over the classes for each
/// class on the way.
pub(crate) fn is_above_itself(classes: &[Class], class: &Class) -> bool
    ensures { result ≡ spec.is_above_itself (classes_view classes.now) (class_view class.now) }
{
    let mut above = class.superclass;
    for _step in 0..classes.len() {
        let Some(name) = above else {
            return false;
        };
        if class.name == name {
            return true;
        }
        above = superclass_named(classes, name);
    }
    false
}

/// The superclass of the first class with a name.
fn superclass_named<'t>(classes: &[Class<'t>], name: &str) -> Option<&'t str>
    ensures { option_map (λ s. s.now) result
        ≡ spec.superclass_named (classes_view classes.now) name.now }
{
    for class in classes {
        if name == class.name {
            return class.superclass;
        }
    }
    None
}
