//! Whether a value has the form that is expected, by the reader of documents.

ghost use Rattle.std.specs.Prelude.{◌≡◌, is_some, map, IfOk, OnOk};
ghost use Rattle.std.specs.List.{list_all};
ghost use Rattle.msg_json.specs.View.{view};
ghost use Rattle.msg_form.specs.Shape.{change_item_of, form_of, item_form_of, send_item_of, superclass_of};
ghost use Rattle.msg_form.specs.Views.{item_view};
ghost use Rattle.msg_explain.specs.Fitting as spec;
ghost use Rattle.msg_explain.specs.Fitting.{IsPlain};

use crate::part::{Edition, Part, Wanted};
use msg_form::{
    Category, Change, Class, Constant, Expr, Form, FromValue, Imp, Item, Object, Pair, ReadFault,
    change_item, send_item,
};
use msg_json::{Bump, Tree, whole};
use std::alloc::{AllocError, Global};

/// Whether the value has the form that is expected.
#[tactic(auto, unfolding(crate::specs::Fitting::fits))]
pub fn fits<'v>(
    alloc: Global,
    bump: &'v Bump,
    wanted: Wanted,
    value: &Tree<'v, '_>,
) -> Result<bool, AllocError>
    ensures { IfOk result (λ is. is ≡ spec.fits wanted (view value.now)) }
{
    match wanted {
        Wanted::One(part) => is_part(alloc, bump, part, value),
        Wanted::Many(part) => match value {
            Tree::Array(values) => are_parts(alloc, bump, part, values),
            _ => Ok(false),
        },
    }
}

fn are_parts<'v>(
    alloc: Global,
    bump: &'v Bump,
    part: Part,
    values: &[Tree<'v, '_>],
) -> Result<bool, AllocError>
    ensures { IfOk result (λ are. are ≡ list_all (spec.is_part part) (map view values.now)) }
{
    for value in values {
        if !is_part(alloc, bump, part, value)? {
            return Ok(false);
        }
    }
    Ok(true)
}

#[tactic(auto, unfolding(crate::specs::Fitting::is_part))]
fn is_part<'v>(
    alloc: Global,
    bump: &'v Bump,
    part: Part,
    value: &Tree<'v, '_>,
) -> Result<bool, AllocError>
    ensures { IfOk result (λ is. is ≡ spec.is_part part (view value.now)) }
{
    match part {
        Part::Document(_) => is_document(alloc, bump, value),
        Part::Class => spells::<Class>(alloc, bump, value),
        Part::Category => spells::<Category>(alloc, bump, value),
        Part::Object => spells::<Object>(alloc, bump, value),
        Part::Imp => spells::<Imp>(alloc, bump, value),
        Part::Item(edition) => is_item(alloc, bump, edition, value),
        Part::Name(_) => spells::<&str>(alloc, bump, value),
        Part::Pair | Part::Attached => spells::<Pair>(alloc, bump, value),
        Part::Body => spells::<Expr>(alloc, bump, value),
        Part::Send => is_send(alloc, bump, value),
        Part::Changes(edition) => are_changes(alloc, bump, edition, value),
        Part::Change => spells::<Change>(alloc, bump, value),
        Part::Constant => spells::<Constant>(alloc, bump, value),
        Part::Superclass | Part::MadeUnder => is_superclass(alloc, bump, value),
        Part::Version | Part::Truth | Part::Args | Part::Selector | Part::Index => {
            Ok(is_plain(part, value))
        }
    }
}

fn spells<'v, T: FromValue<'v>>(
    alloc: Global,
    bump: &'v Bump,
    value: &Tree<'v, '_>,
) -> Result<bool, AllocError>
    ensures { IfOk result (λ is. is ≡ is_some (T.spelled (view value.now))) }
{
    match T::from_value(alloc, bump, value) {
        Ok(_) => Ok(true),
        Err(ReadFault::Shape) => Ok(false),
        Err(ReadFault::Memory) => Err(AllocError),
    }
}

fn is_document<'v>(alloc: Global, bump: &'v Bump, value: &Tree<'v, '_>) -> Result<bool, AllocError>
    ensures { IfOk result (λ is. is ≡ is_some (form_of (view value.now))) }
{
    match Form::read(alloc, bump, value) {
        Ok(_) => Ok(true),
        Err(ReadFault::Shape) => Ok(false),
        Err(ReadFault::Memory) => Err(AllocError),
    }
}

fn is_send<'v>(alloc: Global, bump: &'v Bump, value: &Tree<'v, '_>) -> Result<bool, AllocError>
    ensures { IfOk result (λ is. is ≡ is_some (send_item_of (view value.now))) }
{
    match send_item(alloc, bump, value) {
        Ok(_) => Ok(true),
        Err(ReadFault::Shape) => Ok(false),
        Err(ReadFault::Memory) => Err(AllocError),
    }
}

fn is_item<'v>(
    alloc: Global,
    bump: &'v Bump,
    edition: Edition,
    value: &Tree<'v, '_>,
) -> Result<bool, AllocError>
    ensures { IfOk result (λ is. is ≡ spec.is_item edition (item_form_of (view value.now))) }
{
    match Item::from_value(alloc, bump, value) {
        Ok(item) => Ok(suits(edition, &item)),
        Err(ReadFault::Shape) => Ok(false),
        Err(ReadFault::Memory) => Err(AllocError),
    }
}

fn are_changes<'v>(
    alloc: Global,
    bump: &'v Bump,
    edition: Edition,
    value: &Tree<'v, '_>,
) -> Result<bool, AllocError>
    ensures { IfOk result (λ are. are ≡ spec.is_item edition (change_item_of (view value.now))) }
{
    match change_item(alloc, bump, value) {
        Ok(item) => Ok(suits(edition, &item)),
        Err(ReadFault::Shape) => Ok(false),
        Err(ReadFault::Memory) => Err(AllocError),
    }
}

/// Whether the edition has such items.
fn suits(edition: Edition, item: &Item) -> bool
    ensures { result ≡ spec.suits edition (item_view item.now) }
{
    match (edition, item) {
        (Edition::First, Item::Change(Change::Make { .. })) => false,
        (Edition::First | Edition::Second, Item::ChangeAll(_)) => false,
        (Edition::First | Edition::Second, Item::Change(Change::Remove { .. })) => false,
        (Edition::First | Edition::Second, Item::Change(Change::Dispose { .. })) => false,
        _ => true,
    }
}

#[tactic(auto, unfolding(msg_form::specs::Shape::superclass_of))]
fn is_superclass<'v>(
    alloc: Global,
    bump: &'v Bump,
    value: &Tree<'v, '_>,
) -> Result<bool, AllocError>
    ensures { IfOk result (λ is. is ≡ is_some (superclass_of (view value.now))) }
{
    match value {
        Tree::Null => Ok(true),
        Tree::Text(_) => spells::<&str>(alloc, bump, value),
        _ => Ok(false),
    }
}

/// Whether the value is one without parts of its own.
#[tactic(auto, unfolding(crate::specs::Fitting::is_part, msg_form::specs::Json::whole_of, msg_form::specs::Shape::args_of))]
fn is_plain(part: Part, value: &Tree<'_, '_>) -> bool
    ensures { IsPlain part → result ≡ spec.is_part part (view value.now) }
{
    match part {
        Part::Version => whole(value).is_some(),
        Part::Truth => matches!(value, Tree::Bool(_)),
        Part::Args => matches!(whole(value), Some(0..=4)),
        Part::Index => matches!(whole(value), Some(0..)),
        _ => matches!(value, Tree::Text(_)),
    }
}
