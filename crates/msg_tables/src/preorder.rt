//! The classes that are present, in an order in which those below a class come right after it.

ghost use Rattle.std.specs.Prelude.{◌≡◌, ◌<◌, ◌≤◌, length, replicate, slice_set, false, true};
ghost use Rattle.std.specs.Prelude.{IfOk, IfSome, None, Some};
ghost use Rattle.msg_tables.specs.declared.limits.TheConstants.{MAX_CLASSES};
ghost use Rattle.msg_tables.specs.Chain.{is_present, presence_of};
ghost use Rattle.msg_tables.specs.Order.{IsOrder};
ghost use Rattle.msg_tables.specs.Preorder.{CanBeForgotten, CanBeSuperclass, HavePreorder, LeavesAfter};
ghost use Rattle.msg_tables.specs.Preorder.{depth_at, depths_with, next_at, nexts_with};
ghost use Rattle.msg_tables.specs.Walk.{if_deeper};

use crate::presence::Presence;
use std::alloc::{AllocError, Global};
use std::marker::Model;

// The number of superclasses above a class, and the class that comes next, unless that is a root
// class. Both lie together: a walk reads both of each class that it visits.
#[derive(Clone, Copy, Drop)]
struct Link {
    depth: u32,
    next: Option<u32>,
}

// A link for each class. So the classes below a class are found by a walk over just those classes.
#[derive(Drop)]
pub(crate) struct Preorder {
    links: Vec<Link>,
}

impl Model for Preorder {
    ghost use Rattle.msg_tables.specs.PreorderView.{PreorderView};

    ghost Value = { PreorderView };

    ghost use Rattle.msg_tables.specs.PreorderView.{preorder_view};

    ghost view = { preorder_view };
}

// The link of a class that isn't in the order.
const NO_LINK: Link = Link {
    depth: 0,
    next: None,
};

impl Preorder {
    // Makes room for classes, none of which is in the order.
    pub(crate) fn new(alloc: Global, classes: usize) -> Result<Preorder, AllocError>
        ensures depths { IfOk result (λ t. t.depths ≡ replicate classes 0) }
        ensures nexts { IfOk result (λ t. t.nexts ≡ replicate classes None) }
    {
        Ok(Preorder {
            links: vec![in alloc; NO_LINK; classes]?,
        })
    }

    // Places a class right after its superclass, or a root class before all others.
    pub(crate) fn place(&mut self, class: u32, superclass: Option<u32>)
        requires depths { class < length self.old.depths }
        requires nexts { class < length self.old.nexts }
        requires above { IfSome superclass (CanBeSuperclass self.old) }
        ensures depths { self.new.depths ≡ depths_with self.old.depths class superclass }
        ensures nexts { self.new.nexts ≡ nexts_with self.old.nexts class superclass }
    {
        let Some(above) = superclass else {
            self.set(class, NO_LINK);
            return;
        };
        let link = Link {
            depth: self.depth(above) + 1,
            next: self.next(above),
        };
        self.set(class, link);
        self.set_next(above, Some(class));
    }

    // Removes a class that `supers` and `order` no longer have, and that has no class below it. If
    // the class comes right after its superclass, no other is visited; otherwise all are.
    pub(crate) fn forget(
        &mut self,
        class: u32,
        superclass: Option<u32>,
        supers: &[Option<Presence>],
        order: &[u32],
    )
        requires was { CanBeForgotten self.old class superclass supers.now }
        requires order { IsOrder supers.now order.now }
        requires few { length supers.now ≤ MAX_CLASSES }
        ensures { HavePreorder supers.now self.new.depths self.new.nexts }
    {
        if !self.leave(class, superclass) {
            self.rebuild(supers, order);
        }
    }

    // Removes a class if it comes right after its superclass. Returns whether it does; if not, the
    // order stays the same.
    fn leave(&mut self, class: u32, superclass: Option<u32>) -> bool
        requires next { class < length self.old.nexts }
        requires above { IfSome superclass (λ d. d < length self.old.nexts) }
        ensures depths { self.new.depths ≡ self.old.depths }
        ensures left { result ≡ true → LeavesAfter self.old.nexts class superclass self.new.nexts }
        ensures still { result ≡ false → self.new.nexts ≡ self.old.nexts }
    {
        let Some(above) = superclass else {
            return false;
        };
        if self.next(above) != Some(class) {
            return false;
        }
        self.set_next(above, self.next(class));
        true
    }

    // Places the classes of an order again, in the room that there is.
    pub(crate) fn rebuild(&mut self, supers: &[Option<Presence>], order: &[u32])
        requires order { IsOrder supers.now order.now }
        requires few { length supers.now ≤ MAX_CLASSES }
        requires depths { length self.old.depths ≡ length supers.now }
        requires nexts { length self.old.nexts ≡ length supers.now }
        ensures { HavePreorder supers.now self.new.depths self.new.nexts }
    {
        self.links.fill(NO_LINK);
        place_all(self, supers, order);
    }

    // The class that comes right after another, if it is deeper than this.
    #[inline(always)]
    pub(crate) fn after(&self, class: u32, depth: u32) -> Option<u32>
        requires class { class < length self.now.nexts }
        requires next { IfSome (next_at self.now.nexts class) (λ k. k < length self.now.depths) }
        ensures { result ≡ if_deeper (depth_at self.now.depths) depth (next_at self.now.nexts class) }
    {
        let next = self.next(class)?;
        if self.depth(next) <= depth {
            return None;
        }
        Some(next)
    }

    // Sets the link of a class.
    #[inline(always)]
    fn set(&mut self, class: u32, link: Link)
        requires { class < length self.old.depths }
        ensures depths { self.new.depths ≡ slice_set self.old.depths class link.depth }
        ensures nexts { self.new.nexts ≡ slice_set self.old.nexts class link.next }
    {
        self.links[class as usize] = link;
    }

    // Sets the class that comes next to one.
    #[inline(always)]
    fn set_next(&mut self, class: u32, next: Option<u32>)
        requires { class < length self.old.nexts }
        ensures depths { self.new.depths ≡ self.old.depths }
        ensures nexts { self.new.nexts ≡ slice_set self.old.nexts class next }
    {
        self.links[class as usize].next = next;
    }

    // The class that comes next, unless it is a root class.
    #[inline(always)]
    fn next(&self, class: u32) -> Option<u32>
        requires { class < length self.now.nexts }
        ensures { result ≡ next_at self.now.nexts class }
    {
        self.links[class as usize].next
    }

    // The number of superclasses above a class.
    #[inline(always)]
    pub(crate) fn depth(&self, class: u32) -> u32
        requires { class < length self.now.depths }
        ensures { result ≡ depth_at self.now.depths class }
    {
        self.links[class as usize].depth
    }
}

// The superclass of a class that is present.
fn superclass_in(supers: &[Option<Presence>], class: u32) -> Option<u32>
    requires { is_present supers.now class ≡ true }
    ensures { presence_of supers.now class ≡ Some (record { superclass = result }) }
{
    supers[class as usize].unwrap().superclass
}

// Places the classes of an order one by one, if none is placed yet.
fn place_all(preorder: &mut Preorder, supers: &[Option<Presence>], order: &[u32])
    requires order { IsOrder supers.now order.now }
    requires few { length supers.now ≤ MAX_CLASSES }
    requires depths { preorder.old.depths ≡ replicate (length supers.now) 0 }
    requires nexts { preorder.old.nexts ≡ replicate (length supers.now) None }
    ensures { HavePreorder supers.now preorder.new.depths preorder.new.nexts }
{
    for class in order {
        preorder.place(*class, superclass_in(supers, *class));
    }
}

// The classes of an order. Those below a class come right after it.
pub(crate) fn preorder_of(
    alloc: Global,
    supers: &[Option<Presence>],
    order: &[u32],
) -> Result<Preorder, AllocError>
    requires order { IsOrder supers.now order.now }
    requires few { length supers.now ≤ MAX_CLASSES }
    ensures { IfOk result (λ t. HavePreorder supers.now t.depths t.nexts) }
{
    let mut preorder = Preorder::new(alloc, supers.len())?;
    place_all(&mut preorder, supers, order);
    Ok(preorder)
}
