//! The values of the lists and objects that are still open.

ghost use Rattle.std.specs.Prelude.{◌≡◌, ◌≤◌, IfOk, drop, length, take};

use crate::tree::Tree;
use bumpalo::Bump;
use std::alloc::{AllocError, Global};

/// The values of open lists and the members of open objects. Those of the innermost come last.
#[derive(Drop)]
pub(crate) struct Stack<'t, 'b> {
    pub(crate) values: Vec<Tree<'t, 'b>>,
    pub(crate) members: Vec<(&'t str, Tree<'t, 'b>)>,
}

impl<'t, 'b> Stack<'t, 'b> {
    pub(crate) fn new(alloc: Global) -> Stack<'t, 'b> {
        Stack {
            values: Vec::new(alloc),
            members: Vec::new(alloc),
        }
    }
}

/// Takes the values from a place on off the stack, and keeps them in the arena.
#[inline(always)]
pub(crate) fn kept<'b, T: Copy>(
    bump: &'b Bump,
    stack: &mut Vec<T>,
    from: usize,
) -> Result<&'b [T], AllocError>
    requires { from ≤ length stack.old.items }
    ensures kept { IfOk result (λ vs. vs.now ≡ drop from stack.old.items) }
    ensures left { stack.new.items ≡ take from stack.old.items }
{
    let kept = bump.try_alloc_slice_copy(&stack[from..]);
    stack.truncate(from);
    Ok(kept?)
}
