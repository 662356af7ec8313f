//! Reads values inside a JSON value.

ghost use Rattle.std.specs.Prelude.{◌≡◌, map, option_map, slice_get};
ghost use Rattle.serde_json.specs.Find.{as_bool, as_str};
ghost use Rattle.msg_json.specs.View.{view};
ghost use Rattle.msg_form.specs.Json as spec;

use msg_json::{Tree, get};

/// The name at a key.
pub(super) fn name_at<'v>(value: &Tree<'v, '_>, key: &str) -> Option<&'v str>
    ensures { option_map (λ s. s.now) result ≡ spec.field_of spec.name_of key.now (view value.now) }
{
    name(get(value, key)?)
}

/// The value at a place.
pub(super) fn value_in<'a, 'v, 'b>(
    values: &'a [Tree<'v, 'b>],
    place: usize,
) -> Option<&'a Tree<'v, 'b>>
    ensures { option_map (λ v. view v.now) result ≡ slice_get (map view values.now) place }
{
    if place >= values.len() {
        return None;
    }
    Some(&values[place])
}

/// The text at a place.
pub(super) fn text_in<'v>(values: &[Tree<'v, '_>], place: usize) -> Option<&'v str>
    ensures { option_map (λ s. s.now) result ≡ spec.value_of as_str place (map view values.now) }
{
    text(value_in(values, place)?)
}

/// The name at a place.
pub(super) fn name_in<'v>(values: &[Tree<'v, '_>], place: usize) -> Option<&'v str>
    ensures { option_map (λ s. s.now) result ≡ spec.value_of spec.name_of place (map view values.now) }
{
    name(value_in(values, place)?)
}

/// The values of a list.
pub(super) fn list<'v, 'b>(value: &Tree<'v, 'b>) -> Option<&'b [Tree<'v, 'b>]>
    ensures { option_map (λ vs. map view vs.now) result ≡ spec.list_at (view value.now) }
{
    match value {
        Tree::Array(values) => Some(*values),
        _ => None,
    }
}

fn text<'v>(value: &Tree<'v, '_>) -> Option<&'v str>
    ensures { option_map (λ s. s.now) result ≡ as_str (view value.now) }
{
    match value {
        Tree::Text(text) => Some(*text),
        _ => None,
    }
}

/// Reads the name of a class, an object or an implementation.
#[tactic(auto, unfolding(crate::specs::Json::name_of))]
pub(super) fn name<'v>(value: &Tree<'v, '_>) -> Option<&'v str>
    ensures { option_map (λ s. s.now) result ≡ spec.name_of (view value.now) }
{
    match value {
        Tree::Text(text) if msg_names::is_identifier(*text) => Some(*text),
        _ => None,
    }
}

pub(super) fn truth(value: &Tree<'_, '_>) -> Option<bool>
    ensures { result ≡ as_bool (view value.now) }
{
    match value {
        Tree::Bool(truth) => Some(*truth),
        _ => None,
    }
}
