//! What is wrong with selectors. Each check walks once over the places of selectors.

ghost use Rattle.std.specs.Prelude.{◌≡◌, map, not, IfOk};
ghost use Rattle.std.specs.List.{list_any};
ghost use Rattle.msg_names.specs.Name.{is_selector_name};
ghost use Rattle.msg_form.specs.Faults as spec;
ghost use Rattle.msg_form.specs.Text.{has_duplicate};
ghost use Rattle.msg_form.specs.Views.{form_view};

use super::lists::all_lists;
use crate::form::{Form, Pair};
use crate::form_names::are_alike;
use crate::name_set::NameSet;
use msg_names::is_selector_name;
use std::alloc::{AllocError, Global};

/// Whether a text of the set isn't the name of a selector.
pub(super) fn has_bad_selector(selectors: &NameSet) -> bool
    ensures { result ≡ list_any (λ t. not (is_selector_name t)) selectors.now }
{
    for selector in selectors.as_slice() {
        if !is_selector_name(selector) {
            return true;
        }
    }
    false
}

pub(super) fn has_duplicate_selector(alloc: Global, form: &Form) -> Result<bool, AllocError>
    ensures { IfOk result (λ b. b ≡ spec.has_duplicate_selector (form_view form.now)) }
{
    let lists = all_lists(alloc, form)?;
    any_repeats(alloc, &lists)
}

fn any_repeats(alloc: Global, lists: &[&[Pair]]) -> Result<bool, AllocError>
    ensures { IfOk result
        (λ b. b ≡ list_any (λ l. has_duplicate (map (λ p. p.selector.now) l.now)) lists.now) }
{
    for list in lists {
        if are_alike(alloc, list)? {
            return Ok(true);
        }
    }
    Ok(false)
}
