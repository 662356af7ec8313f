//! The lists of pairs in a document.

ghost use Rattle.std.specs.Prelude.{◌≡◌, ◌++◌, List, IfOk, OnOk};
ghost use Rattle.std.specs.List.{flat_map};
ghost use Rattle.msg_form.specs.Form.{PairForm};
ghost use Rattle.msg_form.specs.Lists as spec;
ghost use Rattle.msg_form.specs.Views.{both_view, lists_view, class_view, category_view};
ghost use Rattle.msg_form.specs.Views.{change_view, item_view, form_view};

use crate::form::{Category, Change, Class, Form, Item, Pair};
use std::alloc::{AllocError, Global};

/// The method lists of classes and categories.
pub(super) fn method_lists<'f, 'v>(
    alloc: Global,
    form: &'f Form<'v>,
) -> Result<Vec<&'f [Pair<'v>]>, AllocError>
    ensures { IfOk result (λ v. lists_view v.items ≡ spec.method_lists (form_view form.now)) }
{
    let mut lists = Vec::new(alloc);
    push_all(&form.classes, &mut lists)?;
    push_all(&form.categories, &mut lists)?;
    Ok(lists)
}

/// The method lists, and those of changes.
pub(super) fn all_lists<'f, 'v>(
    alloc: Global,
    form: &'f Form<'v>,
) -> Result<Vec<&'f [Pair<'v>]>, AllocError>
    ensures { IfOk result (λ v. lists_view v.items ≡ spec.all_lists (form_view form.now)) }
{
    let mut lists = method_lists(alloc, form)?;
    push_all(&form.items, &mut lists)?;
    Ok(lists)
}

/// A part with lists.
trait HasLists<'v> {
    ghost lists: { Self → List (List PairForm) };

    fn push_lists<'f>(&'f self, all: &mut Vec<&'f [Pair<'v>]>) -> Result<(), AllocError>
        ensures { OnOk result
            (lists_view all.new.items ≡ lists_view all.old.items ++ lists self.now) };
}

fn push_all<'f, 'v, T: HasLists<'v>>(
    parts: &'f [T],
    all: &mut Vec<&'f [Pair<'v>]>,
) -> Result<(), AllocError>
    ensures { OnOk result
        (lists_view all.new.items ≡ lists_view all.old.items ++ flat_map T.lists parts.now) }
{
    for part in parts {
        part.push_lists(all)?;
    }
    Ok(())
}

fn push_both<'f, 'v>(
    methods: &'f [Pair<'v>],
    class_methods: &'f [Pair<'v>],
    all: &mut Vec<&'f [Pair<'v>]>,
) -> Result<(), AllocError>
    ensures { OnOk result
        (lists_view all.new.items ≡ lists_view all.old.items ++ both_view methods.now class_methods.now) }
{
    all.push(methods)?;
    all.push(class_methods)?;
    Ok(())
}

impl<'v> HasLists<'v> for Class<'v> {
    ghost lists = { λ c. spec.class_lists (class_view c) };

    fn push_lists<'f>(&'f self, all: &mut Vec<&'f [Pair<'v>]>) -> Result<(), AllocError> {
        push_both(&self.methods, &self.class_methods, all)
    }
}

impl<'v> HasLists<'v> for Category<'v> {
    ghost lists = { λ c. spec.category_lists (category_view c) };

    fn push_lists<'f>(&'f self, all: &mut Vec<&'f [Pair<'v>]>) -> Result<(), AllocError> {
        push_both(&self.methods, &self.class_methods, all)
    }
}

impl<'v> HasLists<'v> for Change<'v> {
    ghost lists = { λ c. spec.change_lists (change_view c) };

    fn push_lists<'f>(&'f self, all: &mut Vec<&'f [Pair<'v>]>) -> Result<(), AllocError> {
        match self {
            Change::Attach {
                methods,
                class_methods,
                ..
            } => push_both(methods, class_methods, all),
            _ => Ok(()),
        }
    }
}

impl<'v> HasLists<'v> for Item<'v> {
    ghost lists = { λ i. spec.item_lists (item_view i) };

    fn push_lists<'f>(&'f self, all: &mut Vec<&'f [Pair<'v>]>) -> Result<(), AllocError> {
        push_all(self.changes(), all)
    }
}
