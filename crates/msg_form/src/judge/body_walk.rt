//! One walk over a body, which visits each expression once. It takes no memory.

ghost use Rattle.std.specs.Prelude.{◌≡◌, fold};
ghost use Rattle.msg_form.specs.BodyWalk as spec;
ghost use Rattle.msg_form.specs.ExprView.{constant_view, expr_view, exprs_view};
ghost use Rattle.msg_form.specs.Parts.{names_text};

use super::bodies::BodyFaults;
use super::counts::is_miscounted_send;
use crate::form::{Constant, Expr};
use crate::limits::{MAX_DEPTH, MAX_EXPRESSIONS};
use crate::name_set::NameSet;

/// What a walk has found so far.
#[derive(Clone, Copy)]
pub(crate) struct Found {
    pub(crate) faults: BodyFaults,
    /// Whether there is a text at a place of a selector.
    pub(crate) selects: bool,
    /// The number of expressions that may still come.
    room: u32,
}

impl Found {
    /// Goes on to an expression that may have this number of levels.
    fn enter(&mut self, levels: u32)
        ensures { self.new ≡ spec.entered levels self.old }
    {
        let full = (levels == 0) | (self.room == 0);
        self.faults.too_deep = self.faults.too_deep | full;
        self.room = self.room.saturating_sub(1);
    }
}

/// What a body may use.
#[derive(Drop)]
pub(super) struct BodyWalk<'s, 'v> {
    /// Whether a super send would look above a root class.
    pub(super) above: bool,
    pub(super) classes: &'s NameSet<'v>,
    pub(super) objects: &'s NameSet<'v>,
    pub(super) args: u64,
}

impl BodyWalk<'_, '_> {
    /// Adds what the whole body has to the faults.
    pub(super) fn found(&self, faults: BodyFaults, body: &Expr) -> Found
        ensures { result ≡ fold (spec.with_part_by self.now) (spec.with_faults faults)
            (spec.parts_at MAX_DEPTH (expr_view body.now)) }
    {
        let mut found = Found {
            faults,
            selects: false,
            room: MAX_EXPRESSIONS,
        };
        self.visit(body, MAX_DEPTH, &mut found);
        found
    }

    /// Looks at an expression and those inside it, which may have this number of levels.
    #[cycle(visit)]
    fn visit(&self, expr: &Expr, levels: u32, found: &mut Found)
        ensures { found.new
            ≡ fold (spec.with_part_by self.now) found.old (spec.parts_at levels (expr_view expr.now)) }
    {
        self.look(expr, levels, found);
        let inner = levels.saturating_sub(1);
        match expr {
            Expr::Whole(_) | Expr::Const(_) | Expr::Me | Expr::Arg(_) => {}
            Expr::Binary(binary) => {
                self.visit(&binary.left, inner, found);
                self.visit(&binary.right, inner, found);
            }
            Expr::If(choice) => {
                self.visit(&choice.condition, inner, found);
                self.visit(&choice.then, inner, found);
                self.visit(&choice.otherwise, inner, found);
            }
            Expr::Send(send) => {
                self.visit(&send.receiver, inner, found);
                self.visit_all(send.args, inner, found);
            }
            Expr::Super(send) => self.visit_all(send.args, inner, found),
        }
    }

    #[cycle(visit)]
    fn visit_all(&self, exprs: &[Expr], levels: u32, found: &mut Found)
        ensures { found.new
            ≡ fold (spec.with_part_by self.now) found.old (spec.all_parts_at levels (exprs_view exprs.now)) }
    {
        for expr in exprs {
            self.visit(expr, levels, found);
        }
    }

    /// Looks at an expression, but not at those inside it.
    fn look(&self, expr: &Expr, levels: u32, found: &mut Found)
        ensures { found.new
            ≡ spec.with_part_by self.now found.old (levels, expr_view expr.now) }
    {
        found.enter(levels);
        found.selects = found.selects | names_text(expr);
        self.note(expr, &mut found.faults);
    }

    fn note(&self, expr: &Expr, faults: &mut BodyFaults)
        ensures { faults.new
            ≡ spec.with_own_by self.now faults.old (expr_view expr.now) }
    {
        match expr {
            Expr::Const(constant) => self.note_constant(constant, faults),
            Expr::Arg(index) => {
                let beyond = self.args <= *index;
                faults.argument_index = faults.argument_index | beyond;
            }
            Expr::Send(send) => {
                let miscounted = is_miscounted_send(send.selector, send.args.len());
                faults.argument_count = faults.argument_count | miscounted;
            }
            Expr::Super(send) => {
                let miscounted = is_miscounted_send(send.selector, send.args.len());
                faults.argument_count = faults.argument_count | miscounted;
                faults.sends_above = faults.sends_above | self.above;
            }
            Expr::Whole(_) | Expr::Me | Expr::Binary(_) | Expr::If(_) => {}
        }
    }

    fn note_constant(&self, constant: &Constant, faults: &mut BodyFaults)
        ensures { faults.new ≡ spec.with_constant self.now.classes.now self.now.objects.now
            faults.old (constant_view constant.now) }
    {
        match constant {
            Constant::Class(name) => {
                faults.unknown_class = faults.unknown_class | self.classes.lacks(*name);
            }
            Constant::Object(name) => {
                faults.unknown_object = faults.unknown_object | self.objects.lacks(*name);
            }
            Constant::Whole(_) | Constant::Nil | Constant::Selector(_) => {}
        }
    }
}

/// Whether an expression itself has a text at a place of a selector.
fn names_text(expr: &Expr) -> bool
    ensures { result ≡ names_text (expr_view expr.now) }
{
    match expr {
        Expr::Const(constant) => matches!(constant, Constant::Selector(_)),
        Expr::Send(_) | Expr::Super(_) => true,
        _ => false,
    }
}
