//! The numbers of arguments that selectors and implementations take.

ghost use Rattle.std.specs.Prelude.{◌≡◌, ◌-◌, IfOk, length, slice_get};
ghost use Rattle.msg_names.specs.Number.{selector_number, imp_number};
ghost use Rattle.msg_tables.specs.Origin as spec;

use crate::limits::MAX_IMP;
use msg_names::{ImpRef, Selector};
use std::alloc::AllocError;
use std::marker::Model;

/// The number of arguments of each selector and of each implementation, from number 1.
#[derive(Drop)]
pub struct Counts {
    colons: Vec<u8>,
    args: Vec<u8>,
}

impl Model for Counts {
    ghost use Rattle.msg_tables.specs.Origin.{CountsView};

    ghost Value = { CountsView };

    ghost view = { λ c. record { colons = c.colons.items; args = c.args.items } };
}

impl Counts {
    pub fn new(colons: Vec<u8>, args: Vec<u8>) -> Self
        ensures colons { result.colons ≡ colons.items }
        ensures args { result.args ≡ args.items }
    {
        Counts { colons, args }
    }

    pub(crate) fn copied(&self) -> Result<Counts, AllocError>
        ensures { IfOk result (λ counts. counts ≡ self.now) }
    {
        Ok(Counts {
            colons: self.colons.clone()?,
            args: self.args.clone()?,
        })
    }

    // The number of implementations.
    fn imps(&self) -> usize
        ensures { result ≡ length self.now.args }
    {
        self.args.len()
    }

    // The number of arguments that a selector takes, if there is a selector with the number.
    fn colons(&self, sel: Selector) -> Option<u8>
        ensures { result ≡ slice_get self.now.colons (selector_number sel - 1) }
    {
        self.colons.get(sel.number() as usize - 1).copied()
    }

    // The number of arguments that an implementation takes.
    fn args(&self, imp: ImpRef) -> Option<u8>
        ensures { result ≡ slice_get self.now.args (imp_number imp - 1) }
    {
        self.args
            .get((imp.number() as usize).saturating_sub(1))
            .copied()
    }
}

// Whether two counts are not known to be equal.
fn differ(a: Option<u8>, b: Option<u8>) -> bool
    ensures { result ≡ spec.differ a b }
{
    match (a, b) {
        (Some(a), Some(b)) => a != b,
        _ => true,
    }
}

// The greatest number of an implementation.
pub(crate) fn last_imp(counts: &Option<Counts>) -> usize
    ensures { result ≡ spec.last_imp counts.now }
{
    match counts {
        Some(counts) => counts.imps(),
        None => MAX_IMP as usize,
    }
}

// Whether a selector and an implementation take different numbers of arguments.
pub(crate) fn misfits(counts: &Option<Counts>, sel: Selector, imp: ImpRef) -> bool
    ensures { result ≡ spec.misfits_in counts.now (selector_number sel) (imp_number imp) }
{
    match counts {
        Some(counts) => differ(counts.colons(sel), counts.args(imp)),
        None => false,
    }
}

// Whether two selectors take different numbers of arguments.
pub(crate) fn unlike(counts: &Option<Counts>, sel: Selector, other: Selector) -> bool
    ensures { result ≡ spec.unlike_in counts.now (selector_number sel) (selector_number other) }
{
    match counts {
        Some(counts) => differ(counts.colons(sel), counts.colons(other)),
        None => false,
    }
}
