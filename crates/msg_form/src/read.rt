//! Reads a form from a JSON tree. Each value is looked at once, and texts are borrowed from the
//! JSON text.

ghost use Rattle.std.specs.Prelude.{◌≡◌, IfErr, IfOk, Option, map};
ghost use Rattle.serde_json.specs.Data.{Data};
ghost use Rattle.msg_json.specs.View.{view};
ghost use Rattle.msg_form.specs.Gives.{Gives, GivesAll};
ghost use Rattle.msg_form.specs.Json.{each, field_of, list_of, value_of};
ghost use Rattle.msg_form.specs.declared.faults.ReadFault.TheVariants.{Memory};

mod change;
mod expr;
mod parts;
mod values;

use crate::faults::ReadFault;
pub use change::{change_item, send_item};
use msg_json::{Bump, Tree, get};
use std::alloc::Global;
use values::{list, value_in};

/// A part that a JSON value may spell.
pub trait FromValue<'v>: Sized + Drop {
    // The part as pure data.
    ghost Plain: { Type 0 };

    ghost plain: { Self → Plain };

    // What a value spells.
    ghost spelled: { Data → Option Plain };

    fn from_value(alloc: Global, bump: &'v Bump, value: &Tree<'v, '_>) -> Result<Self, ReadFault>
        ensures { Gives plain result (spelled (view value.now)) };
}

/// Reads the values of a list.
fn list_of<'v, T: FromValue<'v>>(
    alloc: Global,
    bump: &'v Bump,
    value: &Tree<'v, '_>,
) -> Result<Vec<T>, ReadFault>
    ensures { GivesAll T.plain result (list_of T.spelled (view value.now)) }
{
    match list(value) {
        Some(values) => each(alloc, bump, values),
        None => Err(ReadFault::Shape),
    }
}

/// Reads the values of the list at a key.
fn list_at<'v, T: FromValue<'v>>(
    alloc: Global,
    bump: &'v Bump,
    value: &Tree<'v, '_>,
    key: &str,
) -> Result<Vec<T>, ReadFault>
    ensures { GivesAll T.plain result (field_of (list_of T.spelled) key.now (view value.now)) }
{
    match get(value, key) {
        Some(value) => list_of(alloc, bump, value),
        None => Err(ReadFault::Shape),
    }
}

/// Reads the values of the list at a place.
fn list_in<'v, T: FromValue<'v>>(
    alloc: Global,
    bump: &'v Bump,
    values: &[Tree<'v, '_>],
    place: usize,
) -> Result<Vec<T>, ReadFault>
    ensures { GivesAll T.plain result (value_of (list_of T.spelled) place (map view values.now)) }
{
    match value_in(values, place) {
        Some(value) => list_of(alloc, bump, value),
        None => Err(ReadFault::Shape),
    }
}

/// Keeps parts in the arena.
fn kept<'v, T: Copy>(bump: &'v Bump, parts: &[T]) -> Result<&'v [T], ReadFault>
    ensures ok { IfOk result (λ kept. kept.now ≡ parts.now) }
    ensures err { IfErr result (λ e. e ≡ Memory) }
{
    match bump.try_alloc_slice_copy(parts) {
        Ok(kept) => Ok(kept),
        Err(_) => Err(ReadFault::Memory),
    }
}

/// Reads each of the values.
fn each<'v, T: FromValue<'v>>(
    alloc: Global,
    bump: &'v Bump,
    values: &[Tree<'v, '_>],
) -> Result<Vec<T>, ReadFault>
    ensures { GivesAll T.plain result (each T.spelled (map view values.now)) }
{
    let mut parts = Vec::with_capacity(alloc, values.len())?;
    for value in values {
        parts.push(T::from_value(alloc, bump, value)?)?;
    }
    Ok(parts)
}
