//! Reads constants and expressions. A body is read once, from the outside in.

ghost use Rattle.std.specs.Prelude.{◌≡◌, ◌≤◌, Some, map, length, option_map};
ghost use Rattle.msg_json.specs.View.{view};
ghost use Rattle.msg_form.specs.Expression as plain;
ghost use Rattle.msg_form.specs.ExprShape as spec;
ghost use Rattle.msg_form.specs.ExprShape.{expression_of};
ghost use Rattle.msg_form.specs.ExprView.{binary_view, choice_view, constant_view, expr_view};
ghost use Rattle.msg_form.specs.ExprView.{exprs_view, pair_of_exprs_view, send_view};
ghost use Rattle.msg_form.specs.Gives.{Gives};
ghost use Rattle.msg_form.specs.Json.{each};
ghost use Rattle.msg_form.specs.Readings.{readings};

use super::values::{name_in, text_in};
use super::{FromValue, each, kept};
use crate::faults::ReadFault;
use crate::form::{BinaryExpr, Constant, Expr, IfExpr, Operator, SendExpr, SuperExpr};
use msg_json::{Bump, Tree, whole};
use std::alloc::Global;

impl<'v> FromValue<'v> for Constant<'v> {
    ghost Plain = { plain.Constant };

    ghost plain = { constant_view };

    ghost spelled = { spec.constant_of };

    fn from_value(
        _alloc: Global,
        _bump: &'v Bump,
        value: &Tree<'v, '_>,
    ) -> Result<Constant<'v>, ReadFault> {
        constant(value).ok_or(ReadFault::Shape)
    }
}

#[tactic(auto, unfolding(crate::specs::ExprShape::constant_of, crate::specs::ExprShape::whole_constant_of, crate::specs::Json::whole_of))]
pub(super) fn constant<'v>(value: &Tree<'v, '_>) -> Option<Constant<'v>>
    ensures { option_map constant_view result ≡ spec.constant_of (view value.now) }
{
    match value {
        Tree::Null => Some(Constant::Nil),
        Tree::Number(_) => Some(Constant::Whole(whole(value)?)),
        Tree::Array(values) => listed_constant(values),
        _ => None,
    }
}

#[tactic(auto, unfolding(crate::specs::ExprShape::listed_constant_of))]
fn listed_constant<'v>(values: &[Tree<'v, '_>]) -> Option<Constant<'v>>
    ensures { option_map constant_view result ≡ spec.listed_constant_of (map view values.now) }
{
    named(text_in(values, 0)?, values)
}

#[tactic(auto, unfolding(crate::specs::ExprShape::named_of))]
fn named<'v>(word: &str, values: &[Tree<'v, '_>]) -> Option<Constant<'v>>
    ensures { option_map constant_view result ≡ spec.named_of word.now (map view values.now) }
{
    if values.len() != 2 {
        return None;
    }
    match word {
        "obj" => Some(Constant::Object(name_in(values, 1)?)),
        "class" => Some(Constant::Class(name_in(values, 1)?)),
        "sel" => Some(Constant::Selector(text_in(values, 1)?)),
        _ => None,
    }
}

#[tactic(auto, unfolding(crate::specs::ExprShape::operator_of))]
fn operator(word: &str) -> Option<Operator>
    ensures { result ≡ spec.operator_of word.now }
{
    match word {
        "add" => Some(Operator::Add),
        "sub" => Some(Operator::Sub),
        "mul" => Some(Operator::Mul),
        "eq" => Some(Operator::Eq),
        "lt" => Some(Operator::Lt),
        _ => None,
    }
}

#[tactic(auto, unfolding(crate::specs::ExprShape::arg_of, crate::specs::Json::whole_of))]
fn arg<'v>(values: &[Tree<'v, '_>]) -> Option<Expr<'v>>
    ensures { option_map expr_view result ≡ spec.arg_of (map view values.now) }
{
    if values.len() != 2 {
        return None;
    }
    let number = whole(&values[1])?;
    if number < 0 {
        return None;
    }
    Some(Expr::Arg(number as u64))
}

impl<'v> FromValue<'v> for Expr<'v> {
    ghost Plain = { plain.Expression };

    ghost plain = { expr_view };

    ghost spelled = { expression_of };

    fn from_value(
        alloc: Global,
        bump: &'v Bump,
        value: &Tree<'v, '_>,
    ) -> Result<Expr<'v>, ReadFault> {
        expr(alloc, bump, value)
    }
}

#[cycle(expr)]
fn expr<'v>(alloc: Global, bump: &'v Bump, value: &Tree<'v, '_>) -> Result<Expr<'v>, ReadFault>
    ensures { Gives expr_view result (expression_of (view value.now)) }
{
    match value {
        Tree::Array(values) => listed(alloc, bump, values),
        _ => match constant(value) {
            Some(constant) => kept_constant(bump, constant),
            None => Err(ReadFault::Shape),
        },
    }
}

/// Reads the expression at a place.
#[cycle(expr)]
#[tactic(auto, using(crate::proofs::ExprShapeLemmas::reading_there))]
fn expr_in<'v>(
    alloc: Global,
    bump: &'v Bump,
    values: &[Tree<'v, '_>],
    place: usize,
) -> Result<Expr<'v>, ReadFault>
    ensures { Gives expr_view result (spec.at place (readings values.now)) }
{
    if place >= values.len() {
        return Err(ReadFault::Shape);
    }
    expr(alloc, bump, &values[place])
}

#[cycle(expr)]
#[tactic(auto, unfolding(crate::specs::ExprShape::listed_of, crate::specs::ExprShape::worded_of, crate::specs::ExprShape::me_of))]
fn listed<'v>(alloc: Global, bump: &'v Bump, values: &[Tree<'v, '_>]) -> Result<Expr<'v>, ReadFault>
    ensures { Gives expr_view result (spec.listed_of (map view values.now) (readings values.now)) }
{
    let Some(word) = text_in(values, 0) else {
        return Err(ReadFault::Shape);
    };
    match word {
        "self" => {
            if values.len() == 1 {
                Ok(Expr::Me)
            } else {
                Err(ReadFault::Shape)
            }
        }
        "arg" => arg(values).ok_or(ReadFault::Shape),
        "if" => choice(alloc, bump, values),
        "send" => send(alloc, bump, values),
        "super" => super_send(alloc, bump, values),
        _ => match operator(word) {
            Some(operator) => binary(alloc, bump, operator, values),
            None => match named(word, values) {
                Some(constant) => kept_constant(bump, constant),
                None => Err(ReadFault::Shape),
            },
        },
    }
}

/// Reads the expressions at two places.
#[cycle(expr)]
fn two<'v>(
    alloc: Global,
    bump: &'v Bump,
    values: &[Tree<'v, '_>],
    first: usize,
    second: usize,
) -> Result<(Expr<'v>, Expr<'v>), ReadFault>
    ensures { Gives pair_of_exprs_view result (spec.two_at first second (readings values.now)) }
{
    let left = expr_in(alloc, bump, values, first)?;
    let right = expr_in(alloc, bump, values, second)?;
    Ok((left, right))
}

#[cycle(expr)]
#[tactic(auto, unfolding(crate::specs::ExprShape::binary_of))]
fn binary<'v>(
    alloc: Global,
    bump: &'v Bump,
    operator: Operator,
    values: &[Tree<'v, '_>],
) -> Result<Expr<'v>, ReadFault>
    ensures { Gives expr_view result (spec.binary_of operator (readings values.now)) }
{
    if values.len() != 3 {
        return Err(ReadFault::Shape);
    }
    let left = expr_in(alloc, bump, values, 1)?;
    let right = expr_in(alloc, bump, values, 2)?;
    kept_binary(bump, operator, left, right)
}

#[cycle(expr)]
#[tactic(auto, unfolding(crate::specs::ExprShape::choice_of))]
fn choice<'v>(alloc: Global, bump: &'v Bump, values: &[Tree<'v, '_>]) -> Result<Expr<'v>, ReadFault>
    ensures { Gives expr_view result (spec.choice_of (readings values.now)) }
{
    if values.len() != 4 {
        return Err(ReadFault::Shape);
    }
    let condition = expr_in(alloc, bump, values, 1)?;
    let (then, otherwise) = two(alloc, bump, values, 2, 3)?;
    kept_choice(bump, condition, then, otherwise)
}

#[cycle(expr)]
#[tactic(auto, using(crate::proofs::ExprShapeLemmas::unselected), unfolding(crate::specs::ExprShape::send_expression_of))]
fn send<'v>(alloc: Global, bump: &'v Bump, values: &[Tree<'v, '_>]) -> Result<Expr<'v>, ReadFault>
    ensures { Gives expr_view result (spec.send_expression_of (map view values.now) (readings values.now)) }
{
    if values.len() < 3 {
        return Err(ReadFault::Shape);
    }
    let Some(selector) = text_in(values, 2) else {
        return Err(ReadFault::Shape);
    };
    let receiver = expr_in(alloc, bump, values, 1)?;
    let args = exprs(alloc, bump, values, 3)?;
    kept_send(bump, receiver, selector, args)
}

#[cycle(expr)]
#[tactic(auto, unfolding(crate::specs::ExprShape::super_expression_of))]
fn super_send<'v>(
    alloc: Global,
    bump: &'v Bump,
    values: &[Tree<'v, '_>],
) -> Result<Expr<'v>, ReadFault>
    ensures { Gives expr_view result (spec.super_expression_of (map view values.now) (readings values.now)) }
{
    if values.len() < 2 {
        return Err(ReadFault::Shape);
    }
    let Some(selector) = text_in(values, 1) else {
        return Err(ReadFault::Shape);
    };
    let args = exprs(alloc, bump, values, 2)?;
    kept_super(bump, selector, args)
}

/// Reads the expressions from a place on.
#[cycle(expr)]
fn exprs<'v>(
    alloc: Global,
    bump: &'v Bump,
    values: &[Tree<'v, '_>],
    from: usize,
) -> Result<&'v [Expr<'v>], ReadFault>
    requires { from ≤ length values.now }
    ensures { Gives (λ v. map expr_view v.now) result (spec.all_from from (readings values.now)) }
{
    let mut exprs = Vec::with_capacity(alloc, values.len() - from)?;
    for value in &values[from..] {
        exprs.push(expr(alloc, bump, value)?)?;
    }
    kept(bump, &exprs)
}

/// Reads the constants that the values spell.
pub(super) fn constants<'v>(
    alloc: Global,
    bump: &'v Bump,
    values: &[Tree<'v, '_>],
) -> Result<&'v [Constant<'v>], ReadFault>
    ensures { Gives (λ v. map constant_view v.now) result (each spec.constant_of (map view values.now)) }
{
    let constants: Vec<Constant> = each(alloc, bump, values)?;
    kept(bump, &constants)
}

// ---- large parts, in the arena

#[inline(always)]
fn kept_constant<'v>(bump: &'v Bump, constant: Constant<'v>) -> Result<Expr<'v>, ReadFault>
    ensures { Gives expr_view result (Some (plain.constant (constant_view constant.entry))) }
{
    if let Constant::Whole(number) = constant {
        return Ok(Expr::Whole(number));
    }
    match bump.try_alloc(constant) {
        Ok(constant) => Ok(Expr::Const(constant)),
        Err(_) => Err(ReadFault::Memory),
    }
}

fn kept_binary<'v>(
    bump: &'v Bump,
    operator: Operator,
    left: Expr<'v>,
    right: Expr<'v>,
) -> Result<Expr<'v>, ReadFault>
    ensures { Gives expr_view result (Some (binary_view operator left.entry right.entry)) }
{
    let binary = BinaryExpr {
        operator,
        left,
        right,
    };
    match bump.try_alloc(binary) {
        Ok(binary) => Ok(Expr::Binary(binary)),
        Err(_) => Err(ReadFault::Memory),
    }
}

fn kept_choice<'v>(
    bump: &'v Bump,
    condition: Expr<'v>,
    then: Expr<'v>,
    otherwise: Expr<'v>,
) -> Result<Expr<'v>, ReadFault>
    ensures { Gives expr_view result (Some (choice_view condition.entry then.entry otherwise.entry)) }
{
    let choice = IfExpr {
        condition,
        then,
        otherwise,
    };
    match bump.try_alloc(choice) {
        Ok(choice) => Ok(Expr::If(choice)),
        Err(_) => Err(ReadFault::Memory),
    }
}

fn kept_send<'v>(
    bump: &'v Bump,
    receiver: Expr<'v>,
    selector: &'v str,
    args: &'v [Expr<'v>],
) -> Result<Expr<'v>, ReadFault>
    ensures { Gives expr_view result (Some (send_view receiver.entry selector.now args.now)) }
{
    let send = SendExpr {
        receiver,
        selector,
        args,
    };
    match bump.try_alloc(send) {
        Ok(send) => Ok(Expr::Send(send)),
        Err(_) => Err(ReadFault::Memory),
    }
}

fn kept_super<'v>(
    bump: &'v Bump,
    selector: &'v str,
    args: &'v [Expr<'v>],
) -> Result<Expr<'v>, ReadFault>
    ensures { Gives expr_view result (Some (plain.super_send selector.now (exprs_view args.now))) }
{
    match bump.try_alloc(SuperExpr { selector, args }) {
        Ok(send) => Ok(Expr::Super(send)),
        Err(_) => Err(ReadFault::Memory),
    }
}
