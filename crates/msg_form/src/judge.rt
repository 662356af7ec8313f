//! The least fault of a document.
//!
//! All checks together take time in proportion to the document's size. Each check goes once over
//! the parts that its fault is about, and looks names up in the form's sets of names. The walk over
//! the places of selectors and the walk over the bodies cost the most. The checks take memory for a
//! reference to each list of pairs.

ghost use Rattle.std.specs.Prelude.{◌≡◌, ◌≤◌, drop, length, IfOk};
ghost use Rattle.msg_form.specs.BodyFaults.{AreBodyFaults};
ghost use Rattle.msg_form.specs.Faults as spec;
ghost use Rattle.msg_form.specs.FormNames.{AreNamesOf};
ghost use Rattle.msg_form.specs.Text.{distinct};
ghost use Rattle.msg_form.specs.Views.{form_view};
ghost use Rattle.msg_form.specs.Walk.{selector_texts};

mod any;
mod bodies;
mod body_walk;
mod classes;
mod counts;
mod cycle;
mod limits;
mod lists;
mod names;
mod parts;
mod selectors;

use crate::faults::DocumentFault;
use crate::form::Form;
use crate::form_names::FormNames;
use crate::limits::MAX_CLASSES;
use bodies::body_faults;
pub(crate) use bodies::{BodyFaults, looked_at};
use classes::has_unknown_superclass;
use counts::has_wrong_argument_count;
pub use counts::is_miscounted_send;
use cycle::has_class_cycle;
use limits::is_over_limit;
pub use limits::{has_many_entries, is_other_version};
use names::{has_unknown_class, has_unknown_imp, has_unknown_object};
pub use parts::has_selector_twice;
use selectors::{has_bad_selector, has_duplicate_selector};
use std::alloc::{AllocError, Global};

/// Returns the least fault that a form has, of those from [`Version`](DocumentFault::Version) to
/// [`ClassCycle`](DocumentFault::ClassCycle), by the form's names.
#[tactic(auto, unfolding(crate::specs::Faults::fault_of))]
pub fn fault_by(
    alloc: Global,
    form: &Form,
    names: &FormNames,
) -> Result<Option<DocumentFault>, AllocError>
    requires { AreNamesOf names.now (form_view form.now) }
    ensures { IfOk result (λ f. f ≡ spec.fault_of (form_view form.now)) }
{
    if is_other_version(form) {
        return Ok(Some(DocumentFault::Version));
    }
    if is_over_limit(alloc, form, &names.selectors)? {
        return Ok(Some(DocumentFault::Limit));
    }
    if names.class_twice {
        return Ok(Some(DocumentFault::DuplicateClass));
    }
    let bodies = body_faults(form, names);
    if has_unknown_superclass(alloc, form, names, bodies)? {
        return Ok(Some(DocumentFault::UnknownSuperclass));
    }
    if has_unknown_class(form, names, bodies) {
        return Ok(Some(DocumentFault::UnknownClass));
    }
    if names.object_twice {
        return Ok(Some(DocumentFault::DuplicateObject));
    }
    if has_unknown_object(form, names, bodies) {
        return Ok(Some(DocumentFault::UnknownObject));
    }
    later_fault(alloc, form, names, bodies)
}

/// Returns the least fault from [`DuplicateImp`](DocumentFault::DuplicateImp) on, which is the
/// eighth.
#[tactic(auto, using(crate::proofs::TextLemmas::any_distinct), unfolding(crate::specs::Faults::has_bad_selector))]
fn later_fault(
    alloc: Global,
    form: &Form,
    names: &FormNames,
    bodies: BodyFaults,
) -> Result<Option<DocumentFault>, AllocError>
    requires names { AreNamesOf names.now (form_view form.now) }
    requires selectors { names.now.selectors ≡ distinct (selector_texts (form_view form.now)) }
    requires bodies { AreBodyFaults bodies (form_view form.now) }
    requires classes { length form.now.classes.items ≤ MAX_CLASSES }
    ensures { IfOk result (λ f. f ≡ spec.first_of (drop 7 spec.conditions) (form_view form.now)) }
{
    if names.imp_twice {
        return Ok(Some(DocumentFault::DuplicateImp));
    }
    if has_unknown_imp(alloc, form, names)? {
        return Ok(Some(DocumentFault::UnknownImp));
    }
    if has_bad_selector(&names.selectors) {
        return Ok(Some(DocumentFault::BadSelector));
    }
    if has_duplicate_selector(alloc, form)? {
        return Ok(Some(DocumentFault::DuplicateSelector));
    }
    if has_wrong_argument_count(alloc, form, &names.imps, bodies)? {
        return Ok(Some(DocumentFault::ArgumentCount));
    }
    if bodies.argument_index {
        return Ok(Some(DocumentFault::ArgumentIndex));
    }
    if bodies.too_deep {
        return Ok(Some(DocumentFault::BodyTooDeep));
    }
    if has_class_cycle(alloc, form, names)? {
        return Ok(Some(DocumentFault::ClassCycle));
    }
    Ok(None)
}
