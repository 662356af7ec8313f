//! Reads the parts of a document.

ghost use Rattle.std.specs.Prelude.{◌≡◌, ◌≤◌, [], codes, option_map, IfSome};
ghost use Rattle.msg_json.specs.View.{view};
ghost use Rattle.msg_form.specs.Filling.{Fills, whole_form_of};
ghost use Rattle.msg_form.specs.Form.{PairForm, ClassForm, CategoryForm, ObjectForm, ImpForm};
ghost use Rattle.msg_form.specs.Gives.{Gives};
ghost use Rattle.msg_form.specs.Json.{field_of, name_of, whole_of};
ghost use Rattle.msg_form.specs.Shape as spec;
ghost use Rattle.msg_form.specs.Text.{Text};
ghost use Rattle.std.specs.List.{list_any};
ghost use Rattle.msg_form.specs.Views.{pair_view, class_view, category_view, object_view};
ghost use Rattle.msg_form.specs.Views.{imp_view, item_view, form_view};

use super::values::{list, name, name_at, name_in, text_in, truth};
use super::{FromValue, list_at};
use crate::faults::ReadFault;
use crate::form::{
    Category, Change, Class, Expr, Form, Imp, Item, Object, Pair, is_second, is_third,
};
use crate::judge::looked_at;
use msg_json::{Bump, Tree, get, has_keys, whole};
use std::alloc::Global;

#[tactic(auto, unfolding(crate::specs::Shape::pair_form_of))]
fn pair<'v>(value: &Tree<'v, '_>) -> Option<Pair<'v>>
    ensures { option_map pair_view result ≡ spec.pair_form_of (view value.now) }
{
    let values = list(value)?;
    if values.len() != 2 {
        return None;
    }
    Some(Pair {
        selector: text_in(values, 0)?,
        imp: name_in(values, 1)?,
    })
}

impl<'v> FromValue<'v> for Pair<'v> {
    ghost Plain = { PairForm };

    ghost plain = { pair_view };

    ghost spelled = { spec.pair_form_of };

    fn from_value(
        _alloc: Global,
        _bump: &'v Bump,
        value: &Tree<'v, '_>,
    ) -> Result<Pair<'v>, ReadFault> {
        pair(value).ok_or(ReadFault::Shape)
    }
}

#[tactic(auto, unfolding(crate::specs::Shape::superclass_of))]
pub(super) fn superclass<'v>(value: &Tree<'v, '_>) -> Option<Option<&'v str>>
    ensures { option_map (λ o. option_map (λ s. s.now) o) result ≡ spec.superclass_of (view value.now) }
{
    match value {
        Tree::Null => Some(None),
        Tree::Text(_) => Some(Some(name(value)?)),
        _ => None,
    }
}

impl<'v> FromValue<'v> for Class<'v> {
    ghost Plain = { ClassForm };

    ghost plain = { class_view };

    ghost spelled = { spec.class_form_of };

    #[tactic(auto, unfolding(crate::specs::Shape::class_form_of))]
    fn from_value(
        alloc: Global,
        bump: &'v Bump,
        value: &Tree<'v, '_>,
    ) -> Result<Class<'v>, ReadFault> {
        if !has_keys(value, 4) {
            return Err(ReadFault::Shape);
        }
        let (Some(name), Some(above)) = (name_at(value, "name"), get(value, "super")) else {
            return Err(ReadFault::Shape);
        };
        let Some(superclass) = superclass(above) else {
            return Err(ReadFault::Shape);
        };
        Ok(Class {
            name,
            superclass,
            methods: list_at(alloc, bump, value, "methods")?,
            class_methods: list_at(alloc, bump, value, "class_methods")?,
        })
    }
}

impl<'v> FromValue<'v> for Category<'v> {
    ghost Plain = { CategoryForm };

    ghost plain = { category_view };

    ghost spelled = { spec.category_form_of };

    #[tactic(auto, unfolding(crate::specs::Shape::category_form_of))]
    fn from_value(
        alloc: Global,
        bump: &'v Bump,
        value: &Tree<'v, '_>,
    ) -> Result<Category<'v>, ReadFault> {
        if !has_keys(value, 3) {
            return Err(ReadFault::Shape);
        }
        let Some(class) = name_at(value, "class") else {
            return Err(ReadFault::Shape);
        };
        Ok(Category {
            class,
            methods: list_at(alloc, bump, value, "methods")?,
            class_methods: list_at(alloc, bump, value, "class_methods")?,
        })
    }
}

#[tactic(auto, unfolding(crate::specs::Shape::object_form_of))]
fn object<'v>(value: &Tree<'v, '_>) -> Option<Object<'v>>
    ensures { option_map object_view result ≡ spec.object_form_of (view value.now) }
{
    if !has_keys(value, 2) {
        return None;
    }
    Some(Object {
        name: name_at(value, "name")?,
        class: name_at(value, "class")?,
    })
}

impl<'v> FromValue<'v> for Object<'v> {
    ghost Plain = { ObjectForm };

    ghost plain = { object_view };

    ghost spelled = { spec.object_form_of };

    fn from_value(
        _alloc: Global,
        _bump: &'v Bump,
        value: &Tree<'v, '_>,
    ) -> Result<Object<'v>, ReadFault> {
        object(value).ok_or(ReadFault::Shape)
    }
}

/// Reads the number of arguments that an implementation takes.
#[tactic(auto, unfolding(crate::specs::Shape::args_of, crate::specs::Json::whole_of))]
fn arg_count(value: &Tree<'_, '_>) -> Option<u8>
    ensures number { result ≡ spec.args_of (view value.now) }
    ensures few { IfSome result (λ n. n ≤ 4) }
{
    match whole(value)? {
        number @ 0..=4 => Some(number as u8),
        _ => None,
    }
}

impl<'v> FromValue<'v> for Imp<'v> {
    ghost Plain = { ImpForm };

    ghost plain = { imp_view };

    ghost spelled = { spec.imp_form_of };

    #[tactic(auto, unfolding(crate::specs::Shape::imp_form_of))]
    fn from_value(
        alloc: Global,
        bump: &'v Bump,
        value: &Tree<'v, '_>,
    ) -> Result<Imp<'v>, ReadFault> {
        if !has_keys(value, 5) {
            return Err(ReadFault::Shape);
        }
        let (Some(name), Some(class)) = (name_at(value, "name"), name_at(value, "class")) else {
            return Err(ReadFault::Shape);
        };
        let (Some(meta), Some(args), Some(body)) = (
            get(value, "meta"),
            get(value, "args"),
            get(value, "body"),
        ) else {
            return Err(ReadFault::Shape);
        };
        let (Some(meta), Some(args)) = (truth(meta), arg_count(args)) else {
            return Err(ReadFault::Shape);
        };
        let body = Expr::from_value(alloc, bump, body)?;
        let found = looked_at(alloc, &body, args);
        Ok(Imp {
            name,
            class,
            meta,
            args,
            body,
            worst: found.faults,
            selects: found.selects,
        })
    }
}

impl<'v> FromValue<'v> for &'v str {
    ghost Plain = { Text };

    ghost plain = { λ s. s.now };

    ghost spelled = { name_of };

    fn from_value(
        _alloc: Global,
        _bump: &'v Bump,
        value: &Tree<'v, '_>,
    ) -> Result<&'v str, ReadFault> {
        name(value).ok_or(ReadFault::Shape)
    }
}

#[tactic(auto, unfolding(crate::specs::Json::whole_of))]
fn version(value: &Tree<'_, '_>) -> Option<i64>
    ensures { result ≡ field_of whole_of (codes "version") (view value.now) }
{
    whole(get(value, "version")?)
}

fn is_newest(item: &Item) -> bool
    ensures { result ≡ spec.is_newest (item_view item.now) }
{
    match item {
        Item::ChangeAll(_) => true,
        Item::Change(Change::Remove { .. } | Change::Dispose { .. }) => true,
        _ => false,
    }
}

fn has_newest(items: &[Item]) -> bool
    ensures { result ≡ list_any (λ i. spec.is_newest (item_view i)) items.now }
{
    items.iter().any(is_newest)
}

fn is_later(item: &Item) -> bool
    ensures { result ≡ spec.is_later (item_view item.now) }
{
    matches!(item, Item::Change(Change::Make { .. })) || is_newest(item)
}

fn has_later(items: &[Item]) -> bool
    ensures { result ≡ list_any (λ i. spec.is_later (item_view i)) items.now }
{
    items.iter().any(is_later)
}

impl<'v> Form<'v> {
    /// Reads the form that a JSON value spells.
    #[tactic(auto, unfolding(crate::specs::Shape::form_of, crate::specs::Json::whole_of))]
    pub fn read(alloc: Global, bump: &'v Bump, value: &Tree<'v, '_>) -> Result<Form<'v>, ReadFault>
        ensures { Gives form_view result (spec.form_of (view value.now)) }
    {
        let Some(version) = version(value) else {
            return Err(ReadFault::Shape);
        };
        let mut form = Form::empty(alloc, version);
        form.fill(alloc, bump, value).and(Ok(form))
    }

    fn empty(alloc: Global, version: i64) -> Form<'v>
        ensures version { result.version ≡ version }
        ensures made { result.made.items ≡ [] }
    {
        Form {
            version,
            classes: Vec::new(alloc),
            made: Vec::new(alloc),
            categories: Vec::new(alloc),
            objects: Vec::new(alloc),
            imps: Vec::new(alloc),
            items: Vec::new(alloc),
        }
    }

    // The lists stay in place, so that none is dropped if another can't be read.
    fn fill(&mut self, alloc: Global, bump: &'v Bump, value: &Tree<'v, '_>) -> Result<(), ReadFault>
        requires { self.old.made.items ≡ [] }
        ensures { Fills self.new result (spec.form_by self.old.version (view value.now)) }
    {
        if is_third(self.version) {
            self.fill_third(alloc, bump, value)
        } else if is_second(self.version) {
            self.fill_second(alloc, bump, value)
        } else {
            self.fill_first(alloc, bump, value)
        }
    }

    /// Fills in a form of version 1, which has no `made` and no changes as one.
    #[tactic(auto, using(crate::proofs::AnyLemmas::anys), unfolding(crate::specs::Shape::first_form_of))]
    fn fill_first(
        &mut self,
        alloc: Global,
        bump: &'v Bump,
        value: &Tree<'v, '_>,
    ) -> Result<(), ReadFault>
        requires { self.old.made.items ≡ [] }
        ensures { Fills self.new result (spec.first_form_of self.old.version (view value.now)) }
    {
        if !has_keys(value, 6) {
            return Err(ReadFault::Shape);
        }
        self.fill_parts(alloc, bump, value)?;
        if has_later(&self.items) {
            return Err(ReadFault::Shape);
        }
        Ok(())
    }

    /// Fills in a form of version 2, which has no changes as one.
    #[tactic(auto, using(crate::proofs::AnyLemmas::anys), unfolding(crate::specs::Shape::second_form_of))]
    fn fill_second(
        &mut self,
        alloc: Global,
        bump: &'v Bump,
        value: &Tree<'v, '_>,
    ) -> Result<(), ReadFault>
        ensures { Fills self.new result (spec.second_form_of self.old.version (view value.now)) }
    {
        self.fill_third(alloc, bump, value)?;
        if has_newest(&self.items) {
            return Err(ReadFault::Shape);
        }
        Ok(())
    }

    /// Fills in a form of version 3, which names the classes that may be made.
    #[tactic(auto, unfolding(crate::specs::Shape::third_form_of))]
    fn fill_third(
        &mut self,
        alloc: Global,
        bump: &'v Bump,
        value: &Tree<'v, '_>,
    ) -> Result<(), ReadFault>
        ensures { Fills self.new result (spec.third_form_of self.old.version (view value.now)) }
    {
        if !has_keys(value, 7) {
            return Err(ReadFault::Shape);
        }
        self.made = list_at(alloc, bump, value, "made")?;
        self.fill_parts(alloc, bump, value)
    }

    /// Fills in the parts that the versions share.
    #[tactic(auto, unfolding(crate::specs::Shape::parts_of))]
    fn fill_parts(
        &mut self,
        alloc: Global,
        bump: &'v Bump,
        value: &Tree<'v, '_>,
    ) -> Result<(), ReadFault>
        ensures { Fills self.new result (whole_form_of self.old (view value.now)) }
    {
        self.classes = list_at(alloc, bump, value, "classes")?;
        self.categories = list_at(alloc, bump, value, "categories")?;
        self.objects = list_at(alloc, bump, value, "objects")?;
        self.imps = list_at(alloc, bump, value, "imps")?;
        self.items = list_at(alloc, bump, value, "items")?;
        Ok(())
    }
}
