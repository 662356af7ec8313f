//! The order of classes.

ghost use Rattle.std.specs.Prelude.{◌≡◌, ◌<◌, ◌^◌, length, false, true, is_none, IfOk, IfSome, OnOk};
ghost use Rattle.msg_order.specs.Order.{HasPlaced, IsClassOrder, IsPlacing, Stay};
ghost use Rattle.msg_order.specs.Superclasses.{AreListed, depth_up, has_cycle, super_of};

use std::alloc::{AllocError, Global};

// The classes that were put in order so far, and a mark for each class that was.
#[derive(Drop)]
struct Placing {
    order: Vec<u32>,
    marks: Vec<bool>,
}

impl Placing {
    fn new(alloc: Global, supers: &[Option<u32>]) -> Result<Placing, AllocError>
        ensures { IfOk result (IsPlacing supers.now) }
    {
        Ok(Placing {
            order: Vec::with_capacity(alloc, supers.len())?,
            marks: vec![in alloc; false; supers.len()]?,
        })
    }

    // Puts a class at the end, unless it is in the order.
    fn push(&mut self, supers: &[Option<u32>], class: u32) -> Result<(), AllocError>
        requires class { class < length supers.now }
        requires placed { IsPlacing supers.now self.old }
        requires above { IfSome (super_of supers.now class) (HasPlaced self.old) }
        ensures placed { OnOk result (IsPlacing supers.now self.new) }
        ensures marked { OnOk result (HasPlaced self.new class) }
        ensures stays { OnOk result (Stay self.old.marks.items self.new.marks.items) }
    {
        if !self.marks[class as usize] {
            self.order.push(class)?;
            self.marks[class as usize] = true;
        }
        Ok(())
    }

    // Puts a class in the order, after those above it. At most `room` classes may be above it.
    // Returns false if more are.
    fn place(&mut self, supers: &[Option<u32>], class: u32, room: usize) -> Result<bool, AllocError>
        requires listed { AreListed supers.now }
        requires class { class < length supers.now }
        requires placed { IsPlacing supers.now self.old }
        ensures placed { OnOk result (IsPlacing supers.now self.new) }
        ensures marked { IfOk result (λ b. b ≡ true → HasPlaced self.new class) }
        ensures stays { OnOk result (Stay self.old.marks.items self.new.marks.items) }
        ensures endless { IfOk result (λ b. b ≡ false → depth_up room supers.now class ≡ room) }
    {
        if self.marks[class as usize] {
            return Ok(true);
        }
        if let Some(above) = supers[class as usize] {
            if room == 0 || !self.place(supers, above, room - 1)? {
                return Ok(false);
            }
        }
        self.push(supers, class)?;
        Ok(true)
    }
}

/// Returns the classes, each after its superclass, or nothing if a chain of superclasses doesn't
/// end.
///
/// It takes time and memory in proportion to the number of classes. The stack needs a small frame
/// for each superclass above a class.
pub fn class_order(alloc: Global, supers: &[Option<u32>]) -> Result<Option<Vec<u32>>, AllocError>
    requires few { length supers.now < 2 ^ 32 }
    requires listed { AreListed supers.now }
    ensures ends { IfOk result (λ o. is_none o ≡ has_cycle supers.now) }
    ensures order { IfOk result (λ o. IfSome o (λ order. IsClassOrder supers.now order.items)) }
{
    let mut placing = Placing::new(alloc, supers)?;
    for class in 0..supers.len() {
        if !placing.place(supers, class as u32, supers.len())? {
            return Ok(None);
        }
    }
    Ok(Some(placing.order))
}
