//! The machine before the first event.

ghost use Rattle.std.specs.Prelude.{◌≡◌, ◌≤◌, IfOk, All};
ghost use Rattle.msg_buckets.specs.Capacity.{IsCapacity};
ghost use Rattle.msg_model.specs.Runs.{opening};
ghost use Rattle.msg_model.specs.State.{empty_arrays_of};
ghost use Rattle.msg_model.specs.View.{HasLayout, state_of};

use crate::buckets::Buckets;
use crate::machine::Machine;
use crate::state::{Standing, Whereabouts};
use msg_tables::{HasOrigin, MOST_SENDERS, Origin, Tables, Written};
use std::alloc::{AllocError, Global};
use std::snapshot::Snapshot;

// Empty arrays of these capacities.
fn empty_arrays(alloc: Global, capacities: &[u32]) -> Result<Vec<Buckets>, AllocError>
    ensures { IfOk result (λ arrays. arrays.items ≡ empty_arrays_of capacities.now) }
{
    let mut arrays = Vec::new(alloc);
    for capacity in capacities {
        let words = Buckets::empty(alloc, *capacity)?;
        arrays.push(words)?;
    }
    Ok(arrays)
}

impl Machine {
    // The machine of an origin.
    fn of(
        alloc: Global,
        origin: &Origin,
        senders: u32,
        arrays: &[u32],
    ) -> Result<Machine, AllocError>
        requires some_sender { 1 ≤ senders }
        requires few_senders { senders ≤ MOST_SENDERS }
        requires arrays { All IsCapacity arrays.now }
        ensures layout { IfOk result (HasLayout origin.now senders arrays.now) }
        ensures state { IfOk result (λ machine. state_of machine ≡ opening origin.now) }
    {
        let classes = origin.class_count() as usize;
        Ok(Machine {
            origin: Snapshot::of(origin),
            changes: Vec::new(alloc),
            tables: Tables::open(alloc, origin)?,
            written: Written::none(alloc),
            live: vec![in alloc; None; 2 * classes]?,
            arrays: empty_arrays(alloc, arrays)?,
            standings: vec![in alloc; Standing::Free; arrays.len()]?,
            whereabouts: vec![in alloc; Whereabouts::Out; senders as usize]?,
        })
    }

    /// Makes the machine of the classes, with a number of senders and arrays of these capacities.
    pub fn open<C: HasOrigin>(
        alloc: Global,
        classes: &C,
        senders: u32,
        arrays: &[u32],
    ) -> Result<Machine, AllocError>
        requires some_sender { 1 ≤ senders }
        requires few_senders { senders ≤ MOST_SENDERS }
        requires arrays { All IsCapacity arrays.now }
        ensures layout { IfOk result (HasLayout (C.given classes.now) senders arrays.now) }
        ensures state { IfOk result (λ machine. state_of machine ≡ opening (C.given classes.now)) }
    {
        Machine::of(alloc, classes.origin(), senders, arrays)
    }
}
