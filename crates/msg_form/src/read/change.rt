//! Reads changes and items.

ghost use Rattle.std.specs.Prelude.{◌≡◌, ◌+◌, ◌≤◌, codes, false, map, length, option_map};
ghost use Rattle.msg_json.specs.View.{view};
ghost use Rattle.msg_form.specs.ExprShape.{is_word};
ghost use Rattle.msg_form.specs.Form.{ChangeForm, ItemForm};
ghost use Rattle.msg_form.specs.Gives.{Gives};
ghost use Rattle.msg_form.specs.Shape as spec;
ghost use Rattle.msg_form.specs.Views.{method_view, change_view, changes_view, item_view};

use super::expr::{constant, constants};
use super::parts::superclass;
use super::values::{list, name_in, text_in, truth, value_in};
use super::{FromValue, each, list_in};
use crate::faults::ReadFault;
use crate::form::{Change, Item, MethodName};
use msg_json::{Bump, Tree, get, has_keys};
use std::alloc::Global;

/// Reads a method's name, which takes three values from a place on.
#[tactic(auto, unfolding(crate::specs::Shape::method_form_of))]
fn method<'v>(values: &[Tree<'v, '_>], place: usize) -> Option<MethodName<'v>>
    requires { place + 3 ≤ length values.now }
    ensures { option_map method_view result ≡ spec.method_form_of place (map view values.now) }
{
    Some(MethodName {
        class: name_in(values, place)?,
        meta: truth(value_in(values, place + 1)?)?,
        selector: text_in(values, place + 2)?,
    })
}

/// Reads the method and the implementation of `add`, `replace` or `set`.
#[tactic(auto, unfolding(crate::specs::Shape::edit_of))]
fn edit<'v>(values: &[Tree<'v, '_>]) -> Option<(MethodName<'v>, &'v str)>
    ensures { option_map (λ e. (method_view e.0, e.1.now)) result ≡ spec.edit_of (map view values.now) }
{
    if values.len() != 5 {
        return None;
    }
    Some((method(values, 1)?, name_in(values, 4)?))
}

#[tactic(auto, unfolding(crate::specs::Shape::exchange_of))]
fn exchange<'v>(values: &[Tree<'v, '_>]) -> Option<Change<'v>>
    ensures { option_map change_view result ≡ spec.exchange_of (map view values.now) }
{
    if values.len() != 7 {
        return None;
    }
    Some(Change::Exchange {
        method: method(values, 1)?,
        other: method(values, 4)?,
    })
}

#[tactic(auto, unfolding(crate::specs::Shape::attach_of))]
fn attach<'v>(
    alloc: Global,
    bump: &'v Bump,
    values: &[Tree<'v, '_>],
) -> Result<Change<'v>, ReadFault>
    ensures { Gives change_view result (spec.attach_of (map view values.now)) }
{
    if values.len() != 4 {
        return Err(ReadFault::Shape);
    }
    let Some(class) = name_in(values, 1) else {
        return Err(ReadFault::Shape);
    };
    Ok(Change::Attach {
        class,
        methods: list_in(alloc, bump, values, 2)?,
        class_methods: list_in(alloc, bump, values, 3)?,
    })
}

#[tactic(auto, unfolding(crate::specs::Shape::make_of))]
fn make<'v>(values: &[Tree<'v, '_>]) -> Option<Change<'v>>
    ensures { option_map change_view result ≡ spec.make_of (map view values.now) }
{
    if values.len() != 3 {
        return None;
    }
    Some(Change::Make {
        class: name_in(values, 1)?,
        superclass: superclass(value_in(values, 2)?)?,
    })
}

#[tactic(auto, unfolding(crate::specs::Shape::remove_of))]
fn remove<'v>(values: &[Tree<'v, '_>]) -> Option<Change<'v>>
    ensures { option_map change_view result ≡ spec.remove_of (map view values.now) }
{
    if values.len() != 4 {
        return None;
    }
    Some(Change::Remove {
        method: method(values, 1)?,
    })
}

#[tactic(auto, unfolding(crate::specs::Shape::dispose_of))]
fn dispose<'v>(values: &[Tree<'v, '_>]) -> Option<Change<'v>>
    ensures { option_map change_view result ≡ spec.dispose_of (map view values.now) }
{
    if values.len() != 2 {
        return None;
    }
    Some(Change::Dispose {
        class: name_in(values, 1)?,
    })
}

/// Reads a change that has no lists.
#[tactic(auto, unfolding(crate::specs::Shape::worded_change_of))]
fn plain_change<'v>(word: &str, values: &[Tree<'v, '_>]) -> Option<Change<'v>>
    requires { is_word word.now (codes "attach") ≡ false }
    ensures { option_map change_view result ≡ spec.worded_change_of word.now (map view values.now) }
{
    match word {
        "add" => {
            let (method, imp) = edit(values)?;
            Some(Change::Add { method, imp })
        }
        "replace" => {
            let (method, imp) = edit(values)?;
            Some(Change::Replace { method, imp })
        }
        "set" => {
            let (method, imp) = edit(values)?;
            Some(Change::SetImp { method, imp })
        }
        "exchange" => exchange(values),
        "make" => make(values),
        "remove" => remove(values),
        "dispose" => dispose(values),
        _ => None,
    }
}

fn worded_change<'v>(
    alloc: Global,
    bump: &'v Bump,
    word: &str,
    values: &[Tree<'v, '_>],
) -> Result<Change<'v>, ReadFault>
    ensures { Gives change_view result (spec.worded_change_of word.now (map view values.now)) }
{
    if word == "attach" {
        return attach(alloc, bump, values);
    }
    plain_change(word, values).ok_or(ReadFault::Shape)
}

impl<'v> FromValue<'v> for Change<'v> {
    ghost Plain = { ChangeForm };

    ghost plain = { change_view };

    ghost spelled = { spec.change_form_of };

    #[tactic(auto, unfolding(crate::specs::Shape::change_form_of))]
    fn from_value(
        alloc: Global,
        bump: &'v Bump,
        value: &Tree<'v, '_>,
    ) -> Result<Change<'v>, ReadFault> {
        let Some(values) = list(value) else {
            return Err(ReadFault::Shape);
        };
        let Some(word) = text_in(values, 0) else {
            return Err(ReadFault::Shape);
        };
        worded_change(alloc, bump, word, values)
    }
}

/// Reads the changes after the word `all`.
#[tactic(auto, unfolding(crate::specs::Shape::all_of))]
fn all<'v>(
    alloc: Global,
    bump: &'v Bump,
    values: &[Tree<'v, '_>],
) -> Result<Vec<Change<'v>>, ReadFault>
    ensures { Gives (λ v. changes_view v.items) result (spec.all_of (map view values.now)) }
{
    if values.len() < 3 {
        return Err(ReadFault::Shape);
    }
    each(alloc, bump, &values[1..])
}

/// Reads an item that is a change.
#[tactic(auto, unfolding(crate::specs::Shape::change_item_of))]
pub fn change_item<'v>(
    alloc: Global,
    bump: &'v Bump,
    value: &Tree<'v, '_>,
) -> Result<Item<'v>, ReadFault>
    ensures { Gives item_view result (spec.change_item_of (view value.now)) }
{
    let Some(values) = list(value) else {
        return Err(ReadFault::Shape);
    };
    let Some(word) = text_in(values, 0) else {
        return Err(ReadFault::Shape);
    };
    if word == "all" {
        return Ok(Item::ChangeAll(all(alloc, bump, values)?));
    }
    Ok(Item::Change(worded_change(alloc, bump, word, values)?))
}

/// Reads an item that is a send.
#[tactic(auto, unfolding(crate::specs::Shape::send_item_of))]
pub fn send_item<'v>(
    alloc: Global,
    bump: &'v Bump,
    value: &Tree<'v, '_>,
) -> Result<Item<'v>, ReadFault>
    ensures { Gives item_view result (spec.send_item_of (view value.now)) }
{
    let Some(values) = list(value) else {
        return Err(ReadFault::Shape);
    };
    if values.len() < 2 {
        return Err(ReadFault::Shape);
    }
    let Some(receiver) = constant(&values[0]) else {
        return Err(ReadFault::Shape);
    };
    let Some(selector) = text_in(values, 1) else {
        return Err(ReadFault::Shape);
    };
    Ok(Item::Send {
        receiver,
        selector,
        args: constants(alloc, bump, &values[2..])?,
    })
}

impl<'v> FromValue<'v> for Item<'v> {
    ghost Plain = { ItemForm };

    ghost plain = { item_view };

    ghost spelled = { spec.item_form_of };

    #[tactic(auto, unfolding(crate::specs::Shape::item_form_of))]
    fn from_value(
        alloc: Global,
        bump: &'v Bump,
        value: &Tree<'v, '_>,
    ) -> Result<Item<'v>, ReadFault> {
        if !has_keys(value, 1) {
            return Err(ReadFault::Shape);
        }
        if let Some(send) = get(value, "send") {
            return send_item(alloc, bump, send);
        }
        match get(value, "change") {
            Some(value) => change_item(alloc, bump, value),
            None => Err(ReadFault::Shape),
        }
    }
}
