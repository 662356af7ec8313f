//! The parts of a document. They borrow their texts from the JSON text, and expressions lie in an
//! arena.

ghost use Rattle.std.specs.Prelude.{◌≡◌, ◌≤◌};
ghost use Rattle.msg_form.specs.BodyFaults.{AreWorst};
ghost use Rattle.msg_form.specs.ExprView.{expr_view};
ghost use Rattle.msg_form.specs.Parts.{has_texts};
ghost use Rattle.msg_form.specs.Version as spec;

use crate::judge::BodyFaults;

/// A document. It has version 1, 2 or 3 if `version` is that number.
#[derive(Drop)]
pub struct Form<'v> {
    pub version: i64,
    pub classes: Vec<Class<'v>>,
    /// The names of the classes that may be made at run time. A document of version 1 has none.
    pub made: Vec<&'v str>,
    pub categories: Vec<Category<'v>>,
    pub objects: Vec<Object<'v>>,
    pub imps: Vec<Imp<'v>>,
    pub items: Vec<Item<'v>>,
}

#[tactic(auto, unfolding(crate::specs::Version::is_second))]
pub(crate) fn is_second(version: i64) -> bool
    ensures { result ≡ spec.is_second version }
{
    version == 2
}

#[tactic(auto, unfolding(crate::specs::Version::is_third))]
pub(crate) fn is_third(version: i64) -> bool
    ensures { result ≡ spec.is_third version }
{
    version == 3
}

/// Whether documents of this version name the classes that they may make.
pub fn makes_classes(version: i64) -> bool
    ensures { result ≡ spec.makes_classes version }
{
    is_second(version) || is_third(version)
}

/// An entry of a method list: a selector and the name of its implementation.
#[derive(Clone, Copy)]
pub struct Pair<'v> {
    pub selector: &'v str,
    pub imp: &'v str,
}

#[derive(Drop)]
pub struct Class<'v> {
    pub name: &'v str,
    pub superclass: Option<&'v str>,
    pub methods: Vec<Pair<'v>>,
    pub class_methods: Vec<Pair<'v>>,
}

#[derive(Drop)]
pub struct Category<'v> {
    pub class: &'v str,
    pub methods: Vec<Pair<'v>>,
    pub class_methods: Vec<Pair<'v>>,
}

#[derive(Clone, Copy)]
pub struct Object<'v> {
    pub name: &'v str,
    pub class: &'v str,
}

/// An implementation. Its home class is `class`, or the metaclass of `class` if `meta` is true.
#[derive(Drop)]
pub struct Imp<'v> {
    pub name: &'v str,
    pub class: &'v str,
    pub meta: bool,
    pub args: u8,
    pub body: Expr<'v>,
    /// The faults of the body in the worst case.
    pub(crate) worst: BodyFaults,
    /// Whether the body has texts at places of selectors.
    pub(crate) selects: bool,
    pub ghost few_args: { args ≤ 4 },
    ghost worst_of: { AreWorst worst args (expr_view body) },
    ghost selects_of: { selects ≡ has_texts (expr_view body) },
}

#[derive(Drop)]
pub enum Item<'v> {
    Send {
        receiver: Constant<'v>,
        selector: &'v str,
        args: &'v [Constant<'v>],
    },
    Change(Change<'v>),
    /// Changes that are made as one change.
    ChangeAll(Vec<Change<'v>>),
}

/// The name of a method: `-[class selector]`, or `+[class selector]` if `meta` is true.
#[derive(Clone, Copy)]
pub struct MethodName<'v> {
    pub class: &'v str,
    pub meta: bool,
    pub selector: &'v str,
}

#[derive(Drop)]
pub enum Change<'v> {
    Add {
        method: MethodName<'v>,
        imp: &'v str,
    },
    Replace {
        method: MethodName<'v>,
        imp: &'v str,
    },
    SetImp {
        method: MethodName<'v>,
        imp: &'v str,
    },
    Exchange {
        method: MethodName<'v>,
        other: MethodName<'v>,
    },
    Attach {
        class: &'v str,
        methods: Vec<Pair<'v>>,
        class_methods: Vec<Pair<'v>>,
    },
    Make {
        class: &'v str,
        superclass: Option<&'v str>,
    },
    Remove {
        method: MethodName<'v>,
    },
    Dispose {
        class: &'v str,
    },
}

#[derive(Clone, Copy)]
pub enum Constant<'v> {
    Whole(i64),
    Nil,
    Object(&'v str),
    Class(&'v str),
    Selector(&'v str),
}

#[derive(Clone, Copy)]
pub enum Operator {
    Add,
    Sub,
    Mul,
    Eq,
    Lt,
}

/// An expression. Large parts lie in an arena, so that an `Expr` has 16 bytes and can be copied.
#[cycle(expr)]
#[derive(Clone, Copy)]
pub enum Expr<'v> {
    Whole(i64),
    /// A constant that is no number.
    Const(&'v Constant<'v>),
    /// The receiver, `self`.
    Me,
    /// The argument with this number, from 0.
    Arg(u64),
    Binary(&'v BinaryExpr<'v>),
    If(&'v IfExpr<'v>),
    Send(&'v SendExpr<'v>),
    /// A super send, whose receiver is `self`.
    Super(&'v SuperExpr<'v>),
}

#[cycle(expr)]
#[derive(Clone, Copy)]
pub struct BinaryExpr<'v> {
    pub operator: Operator,
    pub left: Expr<'v>,
    pub right: Expr<'v>,
}

#[cycle(expr)]
#[derive(Clone, Copy)]
pub struct IfExpr<'v> {
    pub condition: Expr<'v>,
    pub then: Expr<'v>,
    pub otherwise: Expr<'v>,
}

#[cycle(expr)]
#[derive(Clone, Copy)]
pub struct SendExpr<'v> {
    pub receiver: Expr<'v>,
    pub selector: &'v str,
    pub args: &'v [Expr<'v>],
}

#[cycle(expr)]
#[derive(Clone, Copy)]
pub struct SuperExpr<'v> {
    pub selector: &'v str,
    pub args: &'v [Expr<'v>],
}
