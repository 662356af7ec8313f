//! What a body sees, and a message on its way to a body.

ghost use Rattle.std.specs.Prelude.{◌≡◌, ◌<◌, ℕ, IfSome, length};
ghost use Rattle.msg_image.specs.Parts.{ImageParts};
ghost use Rattle.msg_image.specs.Sound.{IsOf};
ghost use Rattle.msg_eval.specs.Facts.{AreOf, of_image, all_of_image};

use arrayvec::ArrayVec;
use msg_image::{Expr, Image};
use msg_names::{ClassRef, Selector, Value};

/// The arguments of a send.
pub type Args = ArrayVec<Value, 4>;

// What a body sees, and the number of further bodies that may be active in it.
#[derive(Drop)]
pub(crate) struct Frame<'a> {
    pub(crate) image: &'a Image,
    pub(crate) me: Value,
    pub(crate) args: &'a Args,
    pub(crate) home: ClassRef,
    pub(crate) depth: u32,
    pub(crate) ghost me_of: { IsOf image.now me } by { of_image image.now me },
    pub(crate) ghost args_of: { AreOf image.now args.now.items } by { all_of_image image.now args.now.items },
    pub(crate) ghost home_of: { home.class < length image.now.classes },
}

// The selector, the arguments, and the number of further bodies that may be active.
#[derive(Drop)]
pub(crate) struct Message<'a> {
    pub(crate) image: &'a Image,
    pub(crate) sel: Selector,
    pub(crate) args: &'a Args,
    pub(crate) depth: u32,
    pub(crate) ghost args_of: { AreOf image.now args.now.items } by { all_of_image image.now args.now.items },
}

impl Frame<'_> {
    ghost use Rattle.msg_image.specs.Plain.{plain};
    ghost use Rattle.msg_image.specs.Sound.{IsExpressionOf};
    ghost use Rattle.msg_eval.specs.Argument.{argument};
    ghost use Rattle.msg_eval.specs.Evaluated.{IsValue};

    // An argument, from 0.
    pub(crate) fn argument(&self, place: u8) -> Value
        ensures value { result ≡ argument self.now.args.now.items place }
        ensures listed { IsOf self.now.image.now result }
    {
        match self.args.as_slice().get(usize::from(place)) {
            Some(value) => *value,
            None => Value::Nil,
        }
    }

    // The value of an expression that has no parts: a constant, the receiver or an argument.
    pub(crate) fn leaf(&self, expr: &Expr) -> Option<Value>
        requires expr_of { IsExpressionOf self.now.image.now (plain expr.now) }
        ensures value_of { IfSome result (IsOf self.now.image.now) }
        ensures meaning { IfSome result (IsValue self.now (plain expr.now)) }
    {
        match expr {
            Expr::Const(value) => Some(*value),
            Expr::Me => Some(self.me),
            Expr::Arg(place) => Some(self.argument(*place)),
            _ => None,
        }
    }
}
