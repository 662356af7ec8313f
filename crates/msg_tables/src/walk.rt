//! A walk over a class and those below it.

ghost use Rattle.std.specs.Prelude.{◌≡◌, ◌≤◌, [], length};
ghost use Rattle.std.specs.Iterator.{YieldsFirst, at_most};
ghost use Rattle.msg_tables.specs.Walk.{AreAllBelow, AreFirstAndOnce, CanBeWalked};

use crate::preorder::Preorder;
use std::marker::Model;

/// The classes that a walk has still to visit, each once. No clause says in which order.
///
/// The walk follows the links from one class to the next. It takes no memory.
#[derive(Drop)]
pub struct Walk<'t> {
    preorder: &'t Preorder,
    // the walk ends before a class that isn't deeper
    depth: u32,
    next: Option<u32>,
}

impl<'t> Model for Walk<'t> {
    ghost use Rattle.std.specs.Prelude.{List, ℕ};

    ghost Value = { List ℕ };

    ghost use Rattle.msg_tables.specs.Walk.{IsWalk, classes_of};

    ghost view = { classes_of };

    ghost invariant = { IsWalk };
}

impl<'t> Walk<'t> {
    // A walk over no class.
    pub(crate) fn none(preorder: &'t Preorder) -> Walk<'t>
        ensures { result ≡ [] }
    {
        Walk {
            preorder,
            depth: 0,
            next: None,
        }
    }

    // A walk over a class and those below it. It visits just these and looks at one more.
    pub(crate) fn from(preorder: &'t Preorder, class: u32) -> Walk<'t>
        requires { CanBeWalked preorder.now class }
        ensures below { AreAllBelow preorder.now class result }
        ensures once { AreFirstAndOnce class result }
        ensures few { length result ≤ length preorder.now.depths }
    {
        Walk {
            preorder,
            depth: preorder.depth(class),
            next: Some(class),
        }
    }
}

impl<'t> Walk<'t> {
    /// A walk over the same classes.
    pub fn again(&self) -> Walk<'t>
        ensures { result ≡ self.now }
    {
        Walk {
            preorder: self.preorder,
            depth: self.depth,
            next: self.next,
        }
    }
}

impl<'t> Iterator for Walk<'t> {
    type Item = u32;

    ghost next_gives = { YieldsFirst (λ w. w) };

    ghost remaining = { λ w. at_most (length w) };

    #[inline(always)]
    fn next(&mut self) -> Option<u32> {
        let class = self.next?;
        let preorder = self.preorder;
        self.next = preorder.after(class, self.depth);
        Some(class)
    }
}
