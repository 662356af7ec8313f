//! The evaluation of bodies.
//!
//! Each function that evaluates a part of a send is small, so that no frame on the stack has room
//! for more than its part.

ghost use Rattle.std.specs.Prelude.{◌≡◌, ◌<◌, ◌≤◌, ◌+◌, length, List, [], IfOk};
ghost use Rattle.arrayvec.specs.ArrayVec.{array_vec_len};
ghost use Rattle.msg_names.specs.Number.{imp_number};
ghost use Rattle.msg_names.specs.declared.value.Value.{Value};
ghost use Rattle.msg_image.specs.Parts.{superclass_in, class_total};
ghost use Rattle.msg_image.specs.Plain.{plain, plain_all};
ghost use Rattle.msg_image.specs.Sizes.{arity};
ghost use Rattle.msg_image.specs.Sound.{IsOf, IsExpressionOf, AreExpressionsOf};
ghost use Rattle.msg_eval.specs.Evaluated.{evaluated, args_evaluated, sent, sent_above};
ghost use Rattle.msg_eval.specs.Evaluated.{dispatched, forwarded, entered};
ghost use Rattle.msg_eval.specs.Evaluation.{send_of};
ghost use Rattle.msg_eval.specs.Finder.{sizes_of};
ghost use Rattle.msg_eval.specs.Expressions.{plain_two, plain_if, plain_send, plain_super};
ghost use Rattle.msg_eval.specs.Facts.{AreOf};
ghost use Rattle.msg_eval.specs.Step.{Means, Replies, with_ok};

use crate::finder::Finder;
use crate::frame::{Args, Frame, Message};
use crate::lookups::ask;
use crate::operation::{Operation, is_no, operate};
use crate::receiver::{class_of, new_receiver};
use crate::reply::{Reply, SendFault};
use msg_image::{Expr, Image};
use msg_names::{ClassRef, ImpRef, Selector, Value};

/// The most lookups that a send may make.
pub const MAX_LOOKUPS: u32 = 10_000;

/// The most bodies that may be active at once.
pub const MAX_BODIES: u32 = 32;

/// Sends a message, and evaluates the bodies that it reaches.
///
/// It takes no memory, and on the stack no more than the greatest depth of 32 bodies. Forwarding
/// doesn't nest, however often it starts again.
pub fn send<F: Finder>(
    finder: &mut F,
    image: &Image,
    receiver: Value,
    sel: Selector,
    args: &Args,
) -> Reply
    requires sizes { F.sizes (F.kept finder.old) ≡ sizes_of image.now }
    requires receiver_of { IsOf image.now receiver }
    requires args_of { AreOf image.now args.now.items }
    ensures kept { F.kept finder.new ≡ F.kept finder.old }
    ensures meaning { Replies F.step F.is_in finder.old finder.new
        (send_of image.now receiver sel args.now.items) result }
{
    let message = Message {
        image,
        sel,
        args,
        depth: MAX_BODIES,
    };
    let mut left = MAX_LOOKUPS;
    match send_to(finder, &message, receiver, &mut left) {
        Ok(value) => Reply::Value(value),
        Err(fault) => Reply::Fault(fault),
    }
}

// Evaluates an expression of the body that sees this frame.
#[cycle(eval)]
fn eval_expr<F: Finder>(
    finder: &mut F,
    frame: &Frame<'_>,
    expr: &Expr,
    left: &mut u32,
) -> Result<Value, SendFault>
    requires sizes { F.sizes (F.kept finder.old) ≡ sizes_of frame.now.image.now }
    requires expr_of { IsExpressionOf frame.now.image.now (plain expr.now) }
    ensures kept { F.kept finder.new ≡ F.kept finder.old }
    ensures no_more { left.new ≤ left.old }
    ensures value_of { IfOk result (IsOf frame.now.image.now) }
    ensures meaning { Means F.step F.is_in finder.old finder.new
        (evaluated frame.now (plain expr.now) left.old) result left.new }
{
    match expr {
        Expr::Const(value) => Ok(*value),
        Expr::Me => Ok(frame.me),
        Expr::Arg(place) => Ok(frame.argument(*place)),
        Expr::Add(a, b) => eval_two(finder, frame, Operation::Add, a, b, left),
        Expr::Sub(a, b) => eval_two(finder, frame, Operation::Sub, a, b, left),
        Expr::Mul(a, b) => eval_two(finder, frame, Operation::Mul, a, b, left),
        Expr::Eq(a, b) => eval_two(finder, frame, Operation::Eq, a, b, left),
        Expr::Lt(a, b) => eval_two(finder, frame, Operation::Lt, a, b, left),
        Expr::If(test, yes, no) => eval_if(finder, frame, test, yes, no, left),
        Expr::Send(receiver, sel, args) => eval_send(finder, frame, receiver, *sel, args, left),
        Expr::Super(sel, args) => eval_super(finder, frame, *sel, args, left),
    }
}

// Evaluates both operands, and operates on them.
//
// Every second expression of a body is a leaf. A leaf is looked at before a call that might wait,
// because the compiled code has one more test after each such call. This function is inlined: a
// result that goes from one function to the next would be copied in other pieces than it was
// written in, and the processor waits for that.
#[cycle(eval)]
#[inline(always)]
fn eval_two<F: Finder>(
    finder: &mut F,
    frame: &Frame<'_>,
    op: Operation,
    a: &Expr,
    b: &Expr,
    left: &mut u32,
) -> Result<Value, SendFault>
    requires sizes { F.sizes (F.kept finder.old) ≡ sizes_of frame.now.image.now }
    requires a_of { IsExpressionOf frame.now.image.now (plain a.now) }
    requires b_of { IsExpressionOf frame.now.image.now (plain b.now) }
    ensures kept { F.kept finder.new ≡ F.kept finder.old }
    ensures no_more { left.new ≤ left.old }
    ensures value_of { IfOk result (IsOf frame.now.image.now) }
    ensures meaning { Means F.step F.is_in finder.old finder.new
        (evaluated frame.now (plain_two op a.now b.now) left.old) result left.new }
{
    let x = match frame.leaf(a) {
        Some(value) => value,
        None => eval_expr(finder, frame, a, left)?,
    };
    let y = match frame.leaf(b) {
        Some(value) => value,
        None => eval_expr(finder, frame, b, left)?,
    };
    operate(op, x, y)
}

// Evaluates the test, and then the part that it chooses.
#[cycle(eval)]
fn eval_if<F: Finder>(
    finder: &mut F,
    frame: &Frame<'_>,
    test: &Expr,
    yes: &Expr,
    no: &Expr,
    left: &mut u32,
) -> Result<Value, SendFault>
    requires sizes { F.sizes (F.kept finder.old) ≡ sizes_of frame.now.image.now }
    requires test_of { IsExpressionOf frame.now.image.now (plain test.now) }
    requires yes_of { IsExpressionOf frame.now.image.now (plain yes.now) }
    requires no_of { IsExpressionOf frame.now.image.now (plain no.now) }
    ensures kept { F.kept finder.new ≡ F.kept finder.old }
    ensures no_more { left.new ≤ left.old }
    ensures value_of { IfOk result (IsOf frame.now.image.now) }
    ensures meaning { Means F.step F.is_in finder.old finder.new
        (evaluated frame.now (plain_if test.now yes.now no.now) left.old) result left.new }
{
    let chosen = match frame.leaf(test) {
        Some(value) => value,
        None => eval_expr(finder, frame, test, left)?,
    };
    if is_no(chosen) {
        eval_expr(finder, frame, no, left)
    } else {
        eval_expr(finder, frame, yes, left)
    }
}

// Evaluates the receiver, then the arguments, and then sends the message.
#[cycle(eval)]
fn eval_send<F: Finder>(
    finder: &mut F,
    frame: &Frame<'_>,
    receiver: &Expr,
    sel: Selector,
    args: &[Expr],
    left: &mut u32,
) -> Result<Value, SendFault>
    requires sizes { F.sizes (F.kept finder.old) ≡ sizes_of frame.now.image.now }
    requires receiver_of { IsExpressionOf frame.now.image.now (plain receiver.now) }
    requires args_of { AreExpressionsOf frame.now.image.now (plain_all args.now) }
    requires few { length args.now ≤ 4 }
    ensures kept { F.kept finder.new ≡ F.kept finder.old }
    ensures no_more { left.new ≤ left.old }
    ensures value_of { IfOk result (IsOf frame.now.image.now) }
    ensures meaning { Means F.step F.is_in finder.old finder.new
        (evaluated frame.now (plain_send receiver.now sel args.now) left.old) result left.new }
{
    let receiver = match frame.leaf(receiver) {
        Some(value) => value,
        None => eval_expr(finder, frame, receiver, left)?,
    };
    let mut values = Args::new();
    eval_args(finder, frame, args, &mut values, left)?;
    let message = Message {
        image: frame.image,
        sel,
        args: &values,
        depth: frame.depth,
    };
    send_to(finder, &message, receiver, left)
}

// Evaluates the arguments, and then sends the message to what the home class inherits.
#[cycle(eval)]
fn eval_super<F: Finder>(
    finder: &mut F,
    frame: &Frame<'_>,
    sel: Selector,
    args: &[Expr],
    left: &mut u32,
) -> Result<Value, SendFault>
    requires sizes { F.sizes (F.kept finder.old) ≡ sizes_of frame.now.image.now }
    requires args_of { AreExpressionsOf frame.now.image.now (plain_all args.now) }
    requires few { length args.now ≤ 4 }
    ensures kept { F.kept finder.new ≡ F.kept finder.old }
    ensures no_more { left.new ≤ left.old }
    ensures value_of { IfOk result (IsOf frame.now.image.now) }
    ensures meaning { Means F.step F.is_in finder.old finder.new
        (evaluated frame.now (plain_super sel args.now) left.old) result left.new }
{
    let mut values = Args::new();
    eval_args(finder, frame, args, &mut values, left)?;
    let message = Message {
        image: frame.image,
        sel,
        args: &values,
        depth: frame.depth,
    };
    send_super(finder, &message, frame.me, frame.home, left)
}

// Evaluates arguments from left to right.
#[cycle(eval)]
fn eval_args<F: Finder>(
    finder: &mut F,
    frame: &Frame<'_>,
    exprs: &[Expr],
    values: &mut Args,
    left: &mut u32,
) -> Result<(), SendFault>
    requires sizes { F.sizes (F.kept finder.old) ≡ sizes_of frame.now.image.now }
    requires exprs_of { AreExpressionsOf frame.now.image.now (plain_all exprs.now) }
    requires few { length exprs.now ≤ 4 }
    requires none { values.old.items ≡ [] }
    ensures kept { F.kept finder.new ≡ F.kept finder.old }
    ensures no_more { left.new ≤ left.old }
    ensures values_of { AreOf frame.now.image.now values.new.items }
    ensures meaning { Means F.step F.is_in finder.old finder.new
        (args_evaluated frame.now exprs.now left.old) (with_ok values.new.items result) left.new }
{
    for expr in exprs {
        let value = eval_expr(finder, frame, expr, left)?;
        values.push(value);
    }
    Ok(())
}

// Sends a message to a value.
#[cycle(eval)]
fn send_to<F: Finder>(
    finder: &mut F,
    message: &Message<'_>,
    receiver: Value,
    left: &mut u32,
) -> Result<Value, SendFault>
    requires sizes { F.sizes (F.kept finder.old) ≡ sizes_of message.now.image.now }
    requires receiver_of { IsOf message.now.image.now receiver }
    ensures kept { F.kept finder.new ≡ F.kept finder.old }
    ensures no_more { left.new ≤ left.old }
    ensures value_of { IfOk result (IsOf message.now.image.now) }
    ensures meaning { Means F.step F.is_in finder.old finder.new
        (sent message.now receiver left.old) result left.new }
{
    if let Value::Nil = receiver {
        return Ok(Value::Nil);
    }
    match class_of(message.image, receiver) {
        Some(class) => dispatch(finder, message, receiver, class, class, left),
        None => Err(SendFault::NotAnObject),
    }
}

// Makes a super send of a body with this home class.
#[cycle(eval)]
fn send_super<F: Finder>(
    finder: &mut F,
    message: &Message<'_>,
    me: Value,
    home: ClassRef,
    left: &mut u32,
) -> Result<Value, SendFault>
    requires sizes { F.sizes (F.kept finder.old) ≡ sizes_of message.now.image.now }
    requires me_of { IsOf message.now.image.now me }
    requires home_of { home.class < length message.now.image.now.classes }
    ensures kept { F.kept finder.new ≡ F.kept finder.old }
    ensures no_more { left.new ≤ left.old }
    ensures value_of { IfOk result (IsOf message.now.image.now) }
    ensures meaning { Means F.step F.is_in finder.old finder.new
        (sent_above message.now me home left.old) result left.new }
{
    let Some(class) = class_of(message.image, me) else {
        return Err(SendFault::NotAnObject);
    };
    let Some(above) = message.image.superclass(home) else {
        return Err(SendFault::NotAnObject);
    };
    dispatch(finder, message, me, class, above, left)
}

// Dispatches until a receiver has the method. The first lookup begins at `from`.
#[cycle(eval)]
fn dispatch<F: Finder>(
    finder: &mut F,
    message: &Message<'_>,
    me: Value,
    class: ClassRef,
    from: ClassRef,
    left: &mut u32,
) -> Result<Value, SendFault>
    requires sizes { F.sizes (F.kept finder.old) ≡ sizes_of message.now.image.now }
    requires me_of { IsOf message.now.image.now me }
    requires class_listed { class.class < class_total message.now.image.now }
    requires from_listed { from.class < class_total message.now.image.now }
    ensures kept { F.kept finder.new ≡ F.kept finder.old }
    ensures no_more { left.new ≤ left.old }
    ensures value_of { IfOk result (IsOf message.now.image.now) }
    ensures meaning { Means F.step F.is_in finder.old finder.new
        (dispatched message.now left.old me class from left.old) result left.new }
{
    let mut me = me;
    let mut class = class;
    let mut from = from;
    loop {
        let imp = ask(finder, from, message.sel, left)?;
        if imp.number() != 0 {
            return enter(finder, message, imp, me, left);
        }
        let (target, target_class) = forward(finder, message, me, class, left)?;
        me = target;
        class = target_class;
        from = target_class;
    }
}

// Asks the receiver for a forwarding target.
#[cycle(eval)]
fn forward<F: Finder>(
    finder: &mut F,
    message: &Message<'_>,
    me: Value,
    class: ClassRef,
    left: &mut u32,
) -> Result<(Value, ClassRef), SendFault>
    requires sizes { F.sizes (F.kept finder.old) ≡ sizes_of message.now.image.now }
    requires me_of { IsOf message.now.image.now me }
    requires class_listed { class.class < class_total message.now.image.now }
    ensures kept { F.kept finder.new ≡ F.kept finder.old }
    ensures no_more { left.new ≤ left.old }
    ensures target_of { IfOk result (λ r. IsOf message.now.image.now r.0
        × (r.1.class < class_total message.now.image.now)) }
    ensures meaning { Means F.step F.is_in finder.old finder.new
        (forwarded message.now me class left.old) result left.new }
{
    let sel = message.image.forwarding_selector();
    let unrecognized = SendFault::Unrecognized {
        class,
        sel: message.sel,
    };
    let imp = ask(finder, class, sel, left)?;
    if imp.number() == 0 {
        return Err(unrecognized);
    }
    let mut args = Args::new();
    args.push(Value::Sel(message.sel));
    let asked = Message {
        image: message.image,
        sel,
        args: &args,
        depth: message.depth,
    };
    let target = enter(finder, &asked, imp, me, left)?;
    new_receiver(message.image, me, unrecognized, target)
}

// Evaluates the body of an implementation, if one more may be active.
#[cycle(eval)]
fn enter<F: Finder>(
    finder: &mut F,
    message: &Message<'_>,
    imp: ImpRef,
    me: Value,
    left: &mut u32,
) -> Result<Value, SendFault>
    requires sizes { F.sizes (F.kept finder.old) ≡ sizes_of message.now.image.now }
    requires real { 0 < imp_number imp }
    requires listed { imp_number imp ≤ length message.now.image.now.imps }
    requires me_of { IsOf message.now.image.now me }
    ensures kept { F.kept finder.new ≡ F.kept finder.old }
    ensures no_more { left.new ≤ left.old }
    ensures value_of { IfOk result (IsOf message.now.image.now) }
    ensures meaning { Means F.step F.is_in finder.old finder.new
        (entered message.now imp me left.old) result left.new }
{
    if message.depth == 0 {
        return Err(SendFault::Depth);
    }
    let imp = message.image.imp(imp);
    let frame = Frame {
        image: message.image,
        me,
        args: message.args,
        home: imp.home,
        depth: message.depth - 1,
    };
    eval_expr(finder, &frame, &imp.body, left)
}
