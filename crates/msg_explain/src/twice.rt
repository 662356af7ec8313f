//! Names that are given twice.

ghost use Rattle.std.specs.Prelude.{◌≡◌, IfOk};
ghost use Rattle.msg_form.specs.Lists as lists;
ghost use Rattle.msg_form.specs.Text.{texts_view};
ghost use Rattle.msg_form.specs.Views.{form_view};
ghost use Rattle.msg_explain.specs.Judging as spec;

use msg_form::{DocumentFault, Form};
use std::alloc::{AllocError, Global};

/// Whether the text occurs twice among the texts.
pub(crate) fn stands_twice(texts: &[&str], text: &str) -> bool
    ensures { result ≡ spec.stands_twice (texts_view texts.now) text.now }
{
    let mut stands = false;
    for other in texts {
        if text == *other {
            if stands {
                return true;
            }
            stands = true;
        }
    }
    false
}

/// The names that are given, of the kind that the fault is about.
pub(crate) fn names_given<'t>(
    alloc: Global,
    form: &Form<'t>,
    fault: DocumentFault,
) -> Result<Vec<&'t str>, AllocError>
    ensures { IfOk result
        (λ v. texts_view v.items ≡ spec.names_given fault (form_view form.now)) }
{
    match fault {
        DocumentFault::DuplicateClass => class_names(alloc, form),
        DocumentFault::DuplicateObject => object_names(alloc, form),
        DocumentFault::DuplicateImp => imp_names(alloc, form),
        _ => Ok(Vec::new(alloc)),
    }
}

fn class_names<'t>(alloc: Global, form: &Form<'t>) -> Result<Vec<&'t str>, AllocError>
    ensures { IfOk result (λ v. texts_view v.items ≡ lists.class_names (form_view form.now)) }
{
    let mut names = Vec::new(alloc);
    for class in &form.classes {
        names.push(class.name)?;
    }
    names.extend_from_slice(&form.made)?;
    Ok(names)
}

fn object_names<'t>(alloc: Global, form: &Form<'t>) -> Result<Vec<&'t str>, AllocError>
    ensures { IfOk result (λ v. texts_view v.items ≡ lists.object_names (form_view form.now)) }
{
    let mut names = Vec::new(alloc);
    for object in &form.objects {
        names.push(object.name)?;
    }
    Ok(names)
}

fn imp_names<'t>(alloc: Global, form: &Form<'t>) -> Result<Vec<&'t str>, AllocError>
    ensures { IfOk result (λ v. texts_view v.items ≡ lists.imp_names (form_view form.now)) }
{
    let mut names = Vec::new(alloc);
    for imp in &form.imps {
        names.push(imp.name)?;
    }
    Ok(names)
}
