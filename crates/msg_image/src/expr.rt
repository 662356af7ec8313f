//! The expressions of bodies.

use msg_names::{Selector, Value};

/// An expression of a body, with numbers for names.
#[derive(Drop)]
pub enum Expr {
    Const(Value),
    /// The receiver.
    Me,
    /// An argument, from 0.
    Arg(u8),
    Add(Box<Expr>, Box<Expr>),
    Sub(Box<Expr>, Box<Expr>),
    Mul(Box<Expr>, Box<Expr>),
    Eq(Box<Expr>, Box<Expr>),
    Lt(Box<Expr>, Box<Expr>),
    /// The condition, the value if that is neither nil nor 0, and the value otherwise.
    If(Box<Expr>, Box<Expr>, Box<Expr>),
    /// The receiver, the selector and the arguments.
    Send(Box<Expr>, Selector, Vec<Expr>),
    /// A send to the receiver whose lookup begins above the home class.
    Super(Selector, Vec<Expr>),
}
