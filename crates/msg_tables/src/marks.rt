//! Marks on class references, and the class references below one.

ghost use Rattle.std.specs.Prelude.{◌≡◌, ◌==◌, ◌<◌, ◌≤◌, ◌+◌, ◌*◌, IfOk, ℕ, length, count_by, replicate, false, true};
ghost use Rattle.msg_names.specs.ClassRef.{slot_of};
ghost use Rattle.msg_tables.specs.Below.{covers};
ghost use Rattle.msg_tables.specs.Marking.{MarksDescendants, MarksThose, is_marked, is_of};
ghost use Rattle.msg_tables.specs.Preorder.{is_in};

use crate::below::Below;
use crate::tables::Tables;
use msg_names::ClassRef;
use std::alloc::{AllocError, Global};
use std::marker::Model;

/// A mark for each class reference of an image.
#[derive(Drop)]
pub struct Marks {
    pub(crate) marked: Vec<bool>,
}

impl Model for Marks {
    ghost use Rattle.std.specs.Prelude.{List, Bool};

    ghost Value = { List Bool };

    ghost use Rattle.msg_tables.specs.Marking.{marks_of};

    ghost view = { marks_of };
}

impl Marks {
    /// Whether a class reference is marked.
    pub fn has(&self, class: ClassRef) -> bool
        requires { slot_of class < length self.now }
        ensures { result ≡ is_marked self.now class }
    {
        self.marked[class.slot()]
    }

    /// The number of marked class references, classes and metaclasses together. Each place is
    /// visited.
    pub fn count(&self) -> usize
        ensures { result ≡ count_by (λ mark. mark) self.now }
    {
        self.marked.iter().filter(|mark| **mark).count()
    }

    /// Removes all marks.
    pub fn clear(&mut self)
        ensures { self.new ≡ replicate (length self.old) false }
    {
        self.marked.fill(false);
    }
}

// Marks a class, its metaclass or both.
fn mark_class(marked: &mut [bool], class: u32, own: bool, meta: bool)
    requires { 2 * class + 1 < length marked.old }
    ensures marks { MarksThose (is_of class own meta) marked.old marked.new }
    ensures length { length marked.new ≡ length marked.old }
{
    let place = ClassRef { class, meta: false }.slot();
    marked[place] |= own;
    marked[place + 1] |= meta;
}

// Marks a class and its metaclass.
pub(crate) fn mark_made(marked: &mut [bool], class: u32)
    requires { 2 * class + 1 < length marked.old }
    ensures marks { MarksThose (λ c. c.class == class) marked.old marked.new }
    ensures length { length marked.new ≡ length marked.old }
{
    mark_class(marked, class, true, true);
}

// Marks class references in addition to those that are marked.
fn mark_each(marked: &mut [bool], below: Below<'_>)
    requires { (k : ℕ) → is_in k below.classes ≡ true → 2 * k + 1 < length marked.old }
    ensures marks { MarksThose (covers below.entry) marked.old marked.new }
    ensures length { length marked.new ≡ length marked.old }
{
    let own = below.has_classes();
    let meta = below.has_metaclasses();
    for class in below.classes() {
        mark_class(marked, class, own, meta);
    }
}

impl Tables {
    /// Makes marks for the class references of these tables' image. None is marked.
    pub fn marks(&self, alloc: Global) -> Result<Marks, AllocError>
        ensures { IfOk result (λ marks. marks ≡ replicate (2 * length self.now.supers) false) }
    {
        Ok(Marks {
            marked: vec![in alloc; false; self.lists.len()]?,
        })
    }

    // Marks a class reference and all below it, in addition to those that are marked.
    pub(crate) fn mark_below(&self, class: ClassRef, marked: &mut [bool])
        requires class { class.class < length self.now.supers }
        requires marks { length marked.old ≡ 2 * length self.now.supers }
        ensures marks { MarksDescendants self.now class marked.old marked.new }
        ensures length { length marked.new ≡ length marked.old }
    {
        mark_each(marked, self.below(class));
    }

    /// Marks a class reference and all below it, in addition to those that are marked.
    ///
    /// A root class has its metaclass and all metaclasses of its subclasses below it too. The
    /// search visits the classes that it marks and one more. It takes no memory.
    pub fn descendants(&self, class: ClassRef, marks: &mut Marks)
        requires class { class.class < length self.now.supers }
        requires marks { length marks.old ≡ 2 * length self.now.supers }
        ensures marks { MarksDescendants self.now class marks.old marks.new }
        ensures room { length marks.new ≡ length marks.old }
    {
        self.mark_below(class, &mut marks.marked);
    }
}
