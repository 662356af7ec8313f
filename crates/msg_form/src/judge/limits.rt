//! The version and the limits of a document.

ghost use Rattle.std.specs.Prelude.{◌≡◌, length, nat_lt, IfOk};
ghost use Rattle.std.specs.List.{flat_map};
ghost use Rattle.msg_form.specs.Faults as spec;
ghost use Rattle.msg_form.specs.Text.{AreDistinct};
ghost use Rattle.msg_form.specs.Views.{form_view};
ghost use Rattle.msg_form.specs.Walk.{selector_texts};

use super::lists::method_lists;
use crate::form::{Form, Pair, makes_classes};
use crate::limits::{MAX_CATEGORIES, MAX_CLASSES, MAX_ENTRIES, MAX_IMPS, MAX_ITEMS, MAX_OBJECTS};
use crate::name_set::NameSet;
use msg_names::MAX_NAMES;
use std::alloc::{AllocError, Global};

/// Whether the version is none of 1, 2 and 3.
#[tactic(auto, unfolding(crate::specs::Faults::is_other_version))]
pub fn is_other_version(form: &Form) -> bool
    ensures { result ≡ spec.is_other_version (form_view form.now) }
{
    form.version != 1 && !makes_classes(form.version)
}

#[tactic(auto, unfolding(crate::specs::Faults::is_over_limit, crate::specs::Faults::has_many_selectors))]
pub(super) fn is_over_limit(
    alloc: Global,
    form: &Form,
    selectors: &NameSet,
) -> Result<bool, AllocError>
    requires { AreDistinct selectors.now (selector_texts (form_view form.now)) }
    ensures { IfOk result (λ b. b ≡ spec.is_over_limit (form_view form.now)) }
{
    if has_long_list(form) {
        return Ok(true);
    }
    if has_many_entries(alloc, form)? {
        return Ok(true);
    }
    Ok(selectors.len() > MAX_NAMES)
}

#[tactic(auto, unfolding(crate::specs::Faults::has_long_list))]
fn has_long_list(form: &Form) -> bool
    ensures { result ≡ spec.has_long_list (form_view form.now) }
{
    form.classes.len() + form.made.len() > MAX_CLASSES
        || form.categories.len() > MAX_CATEGORIES
        || form.objects.len() > MAX_OBJECTS
        || form.imps.len() > MAX_IMPS
        || form.items.len() > MAX_ITEMS
}

/// Whether the method lists of classes and categories have too many entries.
#[tactic(auto, unfolding(crate::specs::Faults::has_many_entries))]
pub fn has_many_entries(alloc: Global, form: &Form) -> Result<bool, AllocError>
    ensures { IfOk result (λ b. b ≡ spec.has_many_entries (form_view form.now)) }
{
    let lists = method_lists(alloc, form)?;
    Ok(are_many(&lists))
}

fn are_many(lists: &[&[Pair]]) -> bool
    ensures { result ≡ nat_lt MAX_ENTRIES (length (flat_map (λ l. l.now) lists.now)) }
{
    let mut room = MAX_ENTRIES;
    for list in lists {
        match room.checked_sub(list.len()) {
            Some(left) => room = left,
            None => return true,
        }
    }
    false
}
