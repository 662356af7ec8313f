//! Makes the document that a form spells, with numbers for names. Each place of a name is hashed
//! once.

ghost use Rattle.std.specs.Prelude.{◌≡◌, ℕ, List, Ok, IfOk, map, take, option_map, string_bytes};
ghost use Rattle.msg_form.specs.ExprView.{constant_view};
ghost use Rattle.msg_form.specs.Views.{pairs_view, class_view, category_view, object_view, imp_view, method_view, change_view, item_view};
ghost use Rattle.msg_image.specs.Document as spec;
ghost use Rattle.msg_image.specs.Numbers as named;
ghost use Rattle.msg_image.specs.Numbers.{Numbers, numbers_by};
ghost use Rattle.msg_image.specs.Items.{ItemParts};
ghost use Rattle.msg_image.specs.Parts.{Two, ObjectParts, ImpParts};
ghost use Rattle.msg_image.specs.Plain.{plain, plain_all, object_parts, imp_parts, item_parts};
ghost use Rattle.msg_image.specs.Resolved.{expression_by, expressions_by};
ghost use Rattle.msg_tables.specs.declared.change.Change.{Change};
ghost use Rattle.msg_tables.specs.declared.origin.Category.{Category};
ghost use Rattle.msg_tables.specs.declared.origin.ListedClass.{ListedClass};

use crate::change::Item;
use crate::expr::Expr;
use crate::image::{Imp, Object};
use crate::numbers::{class_named, imp_named, object_named, selector_named};
use arrayvec::ArrayVec;
use msg_form::{self as form, Constant, FormNames, MethodName, Operator, Pair};
use msg_names::{ClassRef, Value};
use msg_tables::{Category, Change, ListedClass, MethodList};
use std::alloc::{AllocError, Global};

/// A part of a document that is made from the names of a form.
trait Resolve<F>: Sized + Drop {
    // The part without pointers.
    ghost Plain: { Type 0 };

    ghost parts: { Self → Plain };

    // The part that a part of a form represents.
    ghost meaning: { Numbers → F → Plain };

    fn resolve(alloc: Global, names: &FormNames, form: &F) -> Result<Self, AllocError>
        ensures { IfOk result (λ part. parts part ≡ meaning (numbers_by names.now) form.now) };
}

pub(crate) fn each<F, T: Resolve<F>>(
    alloc: Global,
    names: &FormNames,
    forms: &[F],
) -> Result<Vec<T>, AllocError>
    ensures { IfOk result (λ found. map T.parts found.items ≡ map (T.meaning (numbers_by names.now)) forms.now) }
{
    let mut found = Vec::with_capacity(alloc, forms.len())?;
    for form in forms {
        found.push(T::resolve(alloc, names, form)?)?;
    }
    Ok(found)
}

// Two values that were made, or the refusal of one. A value that was made along with one that was
// refused is dropped here, for all types at once.
pub(crate) fn both<A: Drop, B: Drop>(
    first: Result<A, AllocError>,
    second: Result<B, AllocError>,
) -> Result<(A, B), AllocError>
    ensures { IfOk result (λ made. (first ≡ Ok made.0) × (second ≡ Ok made.1)) }
{
    Ok((first?, second?))
}

fn boxed<T: Drop>(alloc: Global, value: T) -> Result<Box<T>, AllocError>
    ensures { IfOk result (λ boxed. boxed.value ≡ value) }
{
    Ok(Box::new(alloc, value)?)
}

fn value(names: &FormNames, constant: &Constant) -> Value
    ensures { result ≡ spec.constant (numbers_by names.now) (constant_view constant.now) }
{
    match constant {
        Constant::Whole(number) => Value::Number(*number),
        Constant::Nil => Value::Nil,
        Constant::Object(name) => Value::Object(object_named(names, name)),
        Constant::Class(name) => Value::Class(class_named(names, name)),
        Constant::Selector(text) => Value::Sel(selector_named(names, text)),
    }
}

fn binary(operator: Operator, left: Box<Expr>, right: Box<Expr>) -> Expr
    ensures { plain result ≡ Two (spec.operation operator) (plain left.value) (plain right.value) }
{
    match operator {
        Operator::Add => Expr::Add(left, right),
        Operator::Sub => Expr::Sub(left, right),
        Operator::Mul => Expr::Mul(left, right),
        Operator::Eq => Expr::Eq(left, right),
        Operator::Lt => Expr::Lt(left, right),
    }
}

#[cycle(expr)]
fn expr(alloc: Global, names: &FormNames, form: &form::Expr) -> Result<Expr, AllocError>
    ensures { IfOk result (λ e. plain e ≡ expression_by names.now form.now) }
{
    Ok(Box::into_inner(boxed_expr(alloc, names, form)?))
}

// Each expression is written at its final place.
#[cycle(expr)]
fn boxed_expr(alloc: Global, names: &FormNames, form: &form::Expr) -> Result<Box<Expr>, AllocError>
    ensures { IfOk result (λ b. plain b.value ≡ expression_by names.now form.now) }
{
    match form {
        form::Expr::Whole(number) => boxed(alloc, Expr::Const(Value::Number(*number))),
        form::Expr::Const(constant) => boxed(alloc, Expr::Const(value(names, constant))),
        form::Expr::Me => boxed(alloc, Expr::Me),
        form::Expr::Arg(place) => boxed(alloc, Expr::Arg((*place).min(255) as u8)),
        form::Expr::Binary(parts) => {
            let left = boxed_expr(alloc, names, &parts.left);
            let right = boxed_expr(alloc, names, &parts.right);
            let (left, right) = both(left, right)?;
            boxed(alloc, binary(parts.operator, left, right))
        }
        form::Expr::If(parts) => {
            let condition = boxed_expr(alloc, names, &parts.condition);
            let then = boxed_expr(alloc, names, &parts.then);
            let otherwise = boxed_expr(alloc, names, &parts.otherwise);
            let (condition, (then, otherwise)) = both(condition, both(then, otherwise))?;
            boxed(alloc, Expr::If(condition, then, otherwise))
        }
        form::Expr::Send(send) => {
            let receiver = boxed_expr(alloc, names, &send.receiver);
            let (receiver, args) = both(receiver, exprs(alloc, names, send.args))?;
            let sel = selector_named(names, send.selector);
            boxed(alloc, Expr::Send(receiver, sel, args))
        }
        form::Expr::Super(send) => {
            let args = exprs(alloc, names, send.args)?;
            boxed(
                alloc,
                Expr::Super(selector_named(names, send.selector), args),
            )
        }
    }
}

#[cycle(expr)]
fn exprs(alloc: Global, names: &FormNames, forms: &[form::Expr]) -> Result<Vec<Expr>, AllocError>
    ensures { IfOk result (λ found. plain_all found.items ≡ expressions_by names.now forms.now) }
{
    let mut found = Vec::with_capacity(alloc, forms.len())?;
    for form in forms {
        found.push(expr(alloc, names, form)?)?;
    }
    Ok(found)
}

fn methods(alloc: Global, names: &FormNames, pairs: &[Pair]) -> Result<MethodList, AllocError>
    ensures { IfOk result (λ list. list ≡ spec.methods (numbers_by names.now) (pairs_view pairs.now)) }
{
    let mut found = Vec::with_capacity(alloc, pairs.len())?;
    for pair in pairs {
        found.push((
            selector_named(names, pair.selector),
            imp_named(names, pair.imp),
        ))?;
    }
    Ok(MethodList::new(found))
}

fn superclass(names: &FormNames, name: Option<&str>) -> Option<u32>
    ensures { result ≡ option_map (named.class_named (numbers_by names.now)) (option_map (λ s. s.now) name.entry) }
{
    Some(class_named(names, name?))
}

impl<'v> Resolve<&'v str> for String {
    ghost Plain = { List ℕ };

    ghost parts = { string_bytes };

    ghost meaning = { λ _ name. name.now };

    fn resolve(alloc: Global, _names: &FormNames, name: &&'v str) -> Result<String, AllocError> {
        String::from_str(alloc, *name)
    }
}

// The name of a listed class.
impl<'v> Resolve<form::Class<'v>> for String {
    ghost Plain = { List ℕ };

    ghost parts = { string_bytes };

    ghost meaning = { λ _ class. (class_view class).name };

    fn resolve(
        alloc: Global,
        _names: &FormNames,
        class: &form::Class<'v>,
    ) -> Result<String, AllocError> {
        String::from_str(alloc, class.name)
    }
}

impl<'v> Resolve<form::Class<'v>> for ListedClass {
    ghost Plain = { ListedClass };

    ghost parts = { λ class. class };

    ghost meaning = { λ numbers class. spec.listed numbers (class_view class) };

    fn resolve(
        alloc: Global,
        names: &FormNames,
        class: &form::Class<'v>,
    ) -> Result<ListedClass, AllocError> {
        let (methods, class_methods) = both(
            methods(alloc, names, &class.methods),
            methods(alloc, names, &class.class_methods),
        )?;
        Ok(ListedClass {
            superclass: superclass(names, class.superclass),
            methods,
            class_methods,
        })
    }
}

impl<'v> Resolve<form::Category<'v>> for Category {
    ghost Plain = { Category };

    ghost parts = { λ category. category };

    ghost meaning = { λ numbers category. spec.category numbers (category_view category) };

    fn resolve(
        alloc: Global,
        names: &FormNames,
        category: &form::Category<'v>,
    ) -> Result<Category, AllocError> {
        let (methods, class_methods) = both(
            methods(alloc, names, &category.methods),
            methods(alloc, names, &category.class_methods),
        )?;
        Ok(Category {
            class: class_named(names, category.class),
            methods,
            class_methods,
        })
    }
}

impl<'v> Resolve<form::Object<'v>> for Object {
    ghost Plain = { ObjectParts };

    ghost parts = { object_parts };

    ghost meaning = { λ numbers object. spec.object numbers (object_view object) };

    fn resolve(
        alloc: Global,
        names: &FormNames,
        object: &form::Object<'v>,
    ) -> Result<Object, AllocError> {
        Ok(Object {
            name: String::from_str(alloc, object.name)?,
            class: class_named(names, object.class),
        })
    }
}

impl<'v> Resolve<form::Imp<'v>> for Imp {
    ghost Plain = { ImpParts };

    ghost parts = { imp_parts };

    ghost meaning = { λ numbers imp. spec.imp numbers (imp_view imp) };

    fn resolve(alloc: Global, names: &FormNames, imp: &form::Imp<'v>) -> Result<Imp, AllocError> {
        Ok(Imp {
            home: ClassRef {
                class: class_named(names, imp.class),
                meta: imp.meta,
            },
            args: imp.args,
            body: expr(alloc, names, &imp.body)?,
        })
    }
}

fn class_ref(names: &FormNames, method: &MethodName) -> ClassRef
    ensures { result ≡ spec.class_ref (numbers_by names.now) (method_view method.now) }
{
    ClassRef {
        class: class_named(names, method.class),
        meta: method.meta,
    }
}

fn change(alloc: Global, names: &FormNames, change: &form::Change) -> Result<Change, AllocError>
    ensures { IfOk result (λ x. x ≡ spec.change (numbers_by names.now) (change_view change.now)) }
{
    match change {
        form::Change::Add { method, imp } => Ok(Change::Add {
            class: class_ref(names, method),
            sel: selector_named(names, method.selector),
            imp: imp_named(names, imp),
        }),
        form::Change::Replace { method, imp } => Ok(Change::Replace {
            class: class_ref(names, method),
            sel: selector_named(names, method.selector),
            imp: imp_named(names, imp),
        }),
        form::Change::SetImp { method, imp } => Ok(Change::SetImp {
            class: class_ref(names, method),
            sel: selector_named(names, method.selector),
            imp: imp_named(names, imp),
        }),
        form::Change::Exchange { method, other } => Ok(Change::Exchange {
            class: class_ref(names, method),
            sel: selector_named(names, method.selector),
            other: class_ref(names, other),
            other_sel: selector_named(names, other.selector),
        }),
        form::Change::Attach {
            class,
            methods: own,
            class_methods,
        } => {
            let (methods, class_methods) = both(
                methods(alloc, names, own),
                methods(alloc, names, class_methods),
            )?;
            Ok(Change::Attach {
                class: class_named(names, class),
                methods,
                class_methods,
            })
        }
        form::Change::Make {
            class,
            superclass: above,
        } => Ok(Change::AddClass {
            class: class_named(names, class),
            superclass: superclass(names, *above),
        }),
        form::Change::Remove { method } => Ok(Change::Remove {
            class: class_ref(names, method),
            sel: selector_named(names, method.selector),
        }),
        form::Change::Dispose { class } => Ok(Change::DisposeClass {
            class: class_named(names, class),
        }),
    }
}

impl<'v> Resolve<form::Change<'v>> for Change {
    ghost Plain = { Change };

    ghost parts = { λ change. change };

    ghost meaning = { λ numbers change. spec.change numbers (change_view change) };

    fn resolve(
        alloc: Global,
        names: &FormNames,
        form: &form::Change<'v>,
    ) -> Result<Change, AllocError> {
        change(alloc, names, form)
    }
}

// The arguments of a send, of which there are at most four.
fn arguments(names: &FormNames, forms: &[Constant]) -> ArrayVec<Value, 4>
    ensures { result.items ≡ map (spec.constant (numbers_by names.now)) (take 4 (map constant_view forms.now)) }
{
    let mut args = ArrayVec::new();
    for form in &forms[..forms.len().min(4)] {
        args.push(value(names, form));
    }
    args
}

impl<'v> Resolve<form::Item<'v>> for Item {
    ghost Plain = { ItemParts };

    ghost parts = { item_parts };

    ghost meaning = { λ numbers item. spec.item numbers (item_view item) };

    fn resolve(
        alloc: Global,
        names: &FormNames,
        item: &form::Item<'v>,
    ) -> Result<Item, AllocError> {
        match item {
            form::Item::Send {
                receiver,
                selector,
                args,
            } => Ok(Item::Send {
                receiver: value(names, receiver),
                sel: selector_named(names, selector),
                args: arguments(names, *args),
            }),
            form::Item::Change(form) => Ok(Item::Change(change(alloc, names, form)?)),
            form::Item::ChangeAll(forms) => Ok(Item::ChangeAll(each(alloc, names, forms)?)),
        }
    }
}
