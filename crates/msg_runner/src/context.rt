//! The context of a run.

use crate::changes::Changes;
use crate::gate::Gate;
use msg_answers::Deal;
use std::alloc::{AllocError, Global};
use std::sync::Wait;

// A run: the handle by which it waits and starts threads, its allocator, the gate to which it
// reports its progress, when it makes the changes, and how sends are distributed.
pub(crate) struct Run<'r, G: Gate, R: Wait> {
    pub(crate) rt: &'r R,
    pub(crate) alloc: Global,
    pub(crate) gate: &'r G,
    pub(crate) changes: Changes,
    pub(crate) deal: Deal,
}

impl<'r, G: Gate, R: Wait> Clone for Run<'r, G, R> {
    fn clone(&self) -> Result<Run<'r, G, R>, AllocError> {
        Ok(*self)
    }
}

impl<'r, G: Gate, R: Wait> Copy for Run<'r, G, R> {}
