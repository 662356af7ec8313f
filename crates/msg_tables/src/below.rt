//! A class reference and those below it.

ghost use Rattle.std.specs.Prelude.{◌≡◌, ◌<◌, ◌≤◌, ◌||◌, ℕ, drop, is_none, length, true};
ghost use Rattle.msg_tables.specs.Below.{AreBelow};
ghost use Rattle.msg_tables.specs.Contents.{AreBelowClass};
ghost use Rattle.msg_tables.specs.Preorder.{is_in};
ghost use Rattle.msg_tables.specs.Stands.{AtLog};

use crate::presence::Presence;
use crate::tables::Tables;
use crate::walk::Walk;
use msg_names::ClassRef;
use std::marker::Model;

/// A class reference and those below it: a set of classes, which stands for the classes, for their
/// metaclasses or for both. It takes no memory.
#[derive(Drop)]
pub struct Below<'t> {
    walk: Walk<'t>,
    own: bool,
    meta: bool,
}

impl<'t> Model for Below<'t> {
    ghost use Rattle.msg_tables.specs.Below.{BelowView};

    ghost Value = { BelowView };

    ghost use Rattle.msg_tables.specs.Below.{below_of};

    ghost view = { below_of };
}

impl<'t> Below<'t> {
    /// The classes, each once: that of the reference, then those below it in any order.
    #[inline(always)]
    pub fn classes(self) -> Walk<'t>
        ensures { result ≡ self.entry.classes }
    {
        self.walk
    }

    /// Whether the set stands for the classes themselves.
    #[inline(always)]
    pub fn has_classes(&self) -> bool
        ensures { result ≡ self.now.own }
    {
        self.own
    }

    /// Whether the set stands for the metaclasses.
    #[inline(always)]
    pub fn has_metaclasses(&self) -> bool
        ensures { result ≡ self.now.meta }
    {
        self.meta
    }
}

impl Tables {
    /// Finds a class reference and all below it. The class of the reference comes first.
    ///
    /// A root class has its metaclass and all metaclasses of its subclasses below it too. This call
    /// visits none of them: a walk over the set does, and looks at one class more.
    pub fn below(&self, class: ClassRef) -> Below<'_>
        requires class { class.class < length self.now.supers }
        ensures below { AtLog self.now (λ h. AreBelow h class result) }
        ensures under { AtLog self.now (λ h. AreBelowClass h class.class (drop 1 result.classes)) }
        ensures classes { (k : ℕ) → is_in k result.classes ≡ true → k < length self.now.supers }
        ensures few { length result.classes ≤ length self.now.supers }
    {
        let Some(presence) = self.supers[class.class as usize] else {
            return Below {
                walk: Walk::none(&self.preorder),
                own: !class.meta,
                meta: class.meta,
            };
        };
        Below {
            walk: Walk::from(&self.preorder, class.class),
            own: !class.meta,
            meta: has_metaclasses(class, presence),
        }
    }
}

// Whether a class reference that is present has metaclasses at or below it. A root class has.
#[inline(always)]
fn has_metaclasses(class: ClassRef, presence: Presence) -> bool
    ensures { result ≡ (class.meta || is_none presence.superclass) }
{
    class.meta | presence.superclass.is_none()
}
