//! The walk over a document's places of selectors, which numbers them. It visits each part once,
//! and copies no text.

ghost use Rattle.std.specs.Prelude.{◌≡◌, List, [], ◌∷◌, ◌++◌, IfOk, OnOk};
ghost use Rattle.std.specs.List.{flat_map};
ghost use Rattle.msg_form.specs.ExprView.{constant_view, expr_view, exprs_view};
ghost use Rattle.msg_form.specs.Parts.{own_selector};
ghost use Rattle.msg_form.specs.Text.{Text, texts_view};
ghost use Rattle.msg_form.specs.Views.{pairs_view, class_view, category_view, imp_view};
ghost use Rattle.msg_form.specs.Views.{change_view, item_view, form_view};
ghost use Rattle.msg_form.specs.Walk as spec;

use crate::form::{Category, Change, Class, Constant, Expr, Form, Imp, Item, Pair};
use std::alloc::{AllocError, Global};

/// The selector of the message that asks an object for a forwarding target.
pub const FORWARDING: &str = "forwardingTargetForSelector:";

impl<'v> Form<'v> {
    /// Returns the texts at all places of selectors, in the order in which they are numbered.
    /// [`FORWARDING`] comes first.
    pub fn selector_texts(&self, alloc: Global) -> Result<Vec<&'v str>, AllocError>
        ensures { IfOk result
            (λ v. texts_view v.items ≡ spec.selector_texts (form_view self.now)) }
    {
        let mut texts = Vec::new(alloc);
        self.push_texts(&mut texts).and(Ok(texts))
    }

    fn push_texts(&self, texts: &mut Vec<&'v str>) -> Result<(), AllocError>
        ensures { OnOk result
            (texts_view texts.new.items ≡ texts_view texts.old.items ++ spec.selector_texts (form_view self.now)) }
    {
        push_text(FORWARDING, texts)?;
        push_all(&self.classes, texts)?;
        push_all(&self.categories, texts)?;
        push_all(&self.imps, texts)?;
        push_all(&self.items, texts)
    }
}

fn push_text<'v>(text: &'v str, texts: &mut Vec<&'v str>) -> Result<(), AllocError>
    ensures { OnOk result
        (texts_view texts.new.items ≡ texts_view texts.old.items ++ text.now ∷ []) }
{
    texts.push(text)?;
    Ok(())
}

/// A part with places of selectors.
trait HasSelectors<'v> {
    ghost selectors: { Self → List Text };

    fn push_selectors(&self, texts: &mut Vec<&'v str>) -> Result<(), AllocError>
        ensures { OnOk result
            (texts_view texts.new.items ≡ texts_view texts.old.items ++ selectors self.now) };
}

fn push_all<'v, T: HasSelectors<'v>>(
    parts: &[T],
    texts: &mut Vec<&'v str>,
) -> Result<(), AllocError>
    ensures { OnOk result
        (texts_view texts.new.items
        ≡ texts_view texts.old.items ++ flat_map T.selectors parts.now) }
{
    for part in parts {
        part.push_selectors(texts)?;
    }
    Ok(())
}

fn push_list<'v>(pairs: &[Pair<'v>], texts: &mut Vec<&'v str>) -> Result<(), AllocError>
    ensures { OnOk result
        (texts_view texts.new.items
        ≡ texts_view texts.old.items ++ spec.list_texts (pairs_view pairs.now)) }
{
    for pair in pairs {
        push_text(pair.selector, texts)?;
    }
    Ok(())
}

impl<'v> HasSelectors<'v> for Class<'v> {
    ghost selectors = { λ c. spec.class_texts (class_view c) };

    fn push_selectors(&self, texts: &mut Vec<&'v str>) -> Result<(), AllocError> {
        push_list(&self.methods, texts)?;
        push_list(&self.class_methods, texts)
    }
}

impl<'v> HasSelectors<'v> for Category<'v> {
    ghost selectors = { λ c. spec.category_texts (category_view c) };

    fn push_selectors(&self, texts: &mut Vec<&'v str>) -> Result<(), AllocError> {
        push_list(&self.methods, texts)?;
        push_list(&self.class_methods, texts)
    }
}

impl<'v> HasSelectors<'v> for Imp<'v> {
    ghost selectors = { λ i. spec.imp_texts (imp_view i) };

    fn push_selectors(&self, texts: &mut Vec<&'v str>) -> Result<(), AllocError> {
        if !self.selects {
            return Ok(());
        }
        push_expr(&self.body, texts)
    }
}

impl<'v> HasSelectors<'v> for Constant<'v> {
    ghost selectors = { λ c. own_selector (constant_view c) };

    fn push_selectors(&self, texts: &mut Vec<&'v str>) -> Result<(), AllocError> {
        match self {
            Constant::Selector(text) => push_text(*text, texts),
            _ => Ok(()),
        }
    }
}

impl<'v> HasSelectors<'v> for Change<'v> {
    ghost selectors = { λ c. spec.change_texts (change_view c) };

    fn push_selectors(&self, texts: &mut Vec<&'v str>) -> Result<(), AllocError> {
        match self {
            Change::Add { method, .. }
            | Change::Replace { method, .. }
            | Change::SetImp { method, .. }
            | Change::Remove { method } => push_text(method.selector, texts),
            Change::Exchange { method, other } => {
                push_text(method.selector, texts)?;
                push_text(other.selector, texts)
            }
            Change::Attach {
                methods,
                class_methods,
                ..
            } => {
                push_list(methods, texts)?;
                push_list(class_methods, texts)
            }
            Change::Make { .. } | Change::Dispose { .. } => Ok(()),
        }
    }
}

impl<'v> HasSelectors<'v> for Item<'v> {
    ghost selectors = { λ i. spec.item_texts (item_view i) };

    fn push_selectors(&self, texts: &mut Vec<&'v str>) -> Result<(), AllocError> {
        match self {
            Item::Send {
                receiver,
                selector,
                args,
            } => {
                receiver.push_selectors(texts)?;
                push_text(*selector, texts)?;
                push_all(*args, texts)
            }
            _ => push_all(self.changes(), texts),
        }
    }
}

#[cycle(push_expr)]
fn push_expr<'v>(expr: &Expr<'v>, texts: &mut Vec<&'v str>) -> Result<(), AllocError>
    ensures { OnOk result
        (texts_view texts.new.items
        ≡ texts_view texts.old.items ++ spec.texts_in (expr_view expr.now)) }
{
    match expr {
        Expr::Const(constant) => constant.push_selectors(texts),
        Expr::Whole(_) => Ok(()),
        Expr::Me | Expr::Arg(_) => Ok(()),
        Expr::Binary(binary) => {
            push_expr(&binary.left, texts)?;
            push_expr(&binary.right, texts)
        }
        Expr::If(choice) => {
            push_expr(&choice.condition, texts)?;
            push_expr(&choice.then, texts)?;
            push_expr(&choice.otherwise, texts)
        }
        Expr::Send(send) => {
            push_expr(&send.receiver, texts)?;
            push_text(send.selector, texts)?;
            push_exprs(send.args, texts)
        }
        Expr::Super(send) => {
            push_text(send.selector, texts)?;
            push_exprs(send.args, texts)
        }
    }
}

#[cycle(push_expr)]
fn push_exprs<'v>(exprs: &[Expr<'v>], texts: &mut Vec<&'v str>) -> Result<(), AllocError>
    ensures { OnOk result
        (texts_view texts.new.items
        ≡ texts_view texts.old.items ++ spec.all_texts_in (exprs_view exprs.now)) }
{
    for expr in exprs {
        push_expr(expr, texts)?;
    }
    Ok(())
}
