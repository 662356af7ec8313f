//! The tables, and lookup.

ghost use Rattle.std.specs.Prelude.{◌≡◌, ◌<◌, ◌≤◌, length, option_map, is_some, IfSome, Some};
ghost use Rattle.msg_names.specs.Number.{selector_number, imp_number};
ghost use Rattle.msg_tables.specs.Chain.{HasFewerSteps, super_of, chain_of, steps_of, only_present};
ghost use Rattle.msg_tables.specs.Log.{Log, lookup, holder, superclass};
ghost use Rattle.msg_tables.specs.Stands.{StandsAt};
ghost use Rattle.msg_tables.specs.View.{kept_method, own_of};
ghost use Rattle.msg_tables.specs.Origin.{last_imp};

use crate::counts::Counts;
use crate::limits::Limits;
use crate::preorder::Preorder;
use crate::presence::Presence;
use msg_names::{ClassRef, ImpRef, Selector};
use msg_rows::RowLists;
use std::marker::Model;

/// The class tables at a point of their log.
///
/// A lookup goes up the superclasses. At each it compares the selector with the few methods in the
/// selector's bucket, however many methods the class has.
#[derive(Drop)]
pub struct Tables {
    pub(crate) supers: Vec<Option<Presence>>,
    // The classes that are present, each after its superclass. There is room for all that may be
    // made.
    pub(crate) order: Vec<u32>,
    pub(crate) preorder: Preorder,
    // The number of classes that were listed when the tables were opened; these stay.
    pub(crate) listed: u32,
    pub(crate) lists: RowLists,
    pub(crate) counts: Option<Counts>,
    pub(crate) limits: Limits,
    pub(crate) row_count: u64,
    pub(crate) change_count: u64,
}

impl Model for Tables {
    ghost use Rattle.msg_tables.specs.View.{TablesView};

    ghost Value = { TablesView };

    ghost use Rattle.msg_tables.specs.Inside.{view_of, AreSoundTables};

    ghost view = { view_of };

    ghost invariant = { AreSoundTables };
}

// A method that was found.
#[derive(Clone, Copy)]
pub(crate) struct Method {
    pub(crate) holder: ClassRef,
    pub(crate) imp: ImpRef,
}

impl Tables {
    /// The superclass. For a metaclass that is the superclass's metaclass, and for a root metaclass
    /// the root class itself.
    #[inline]
    pub fn superclass(&self, class: ClassRef) -> Option<ClassRef>
        requires { class.class < length self.now.supers }
        ensures listed { IfSome result (λ above. above.class < length self.now.supers) }
        ensures meaning { (h : Log) → StandsAt self.now h → result ≡ superclass h class }
    {
        self.above(class)
    }

    /// Whether the numbers of arguments that selectors and implementations take are known, as for a
    /// document. For a host they are unknown, and all of them fit one another.
    pub fn counts_arguments(&self) -> bool
        ensures { result ≡ is_some self.now.counts }
    {
        self.counts.is_some()
    }

    // The class reference, if its class is present.
    #[inline(always)]
    pub(crate) fn present(&self, class: ClassRef) -> Option<ClassRef>
        requires { class.class < length self.now.supers }
        ensures value { result ≡ only_present self.now.supers class }
        ensures enough { IfSome result (λ c. steps_of self.now.order c ≤ length self.now.supers) }
    {
        match self.supers[class.class as usize] {
            Some(_) => Some(class),
            None => None,
        }
    }

    #[inline(always)]
    pub(crate) fn above(&self, class: ClassRef) -> Option<ClassRef>
        requires { class.class < length self.now.supers }
        ensures value { result ≡ super_of self.now.supers class }
        ensures listed { IfSome result (λ above. above.class < length self.now.supers) }
        ensures fewer { IfSome result (HasFewerSteps self.now.order class) }
    {
        let presence = self.supers[class.class as usize]?;
        class.above(presence.superclass)
    }

    // The implementation of the method that the class reference itself has.
    #[inline(always)]
    pub(crate) fn own(&self, class: ClassRef, sel: Selector) -> Option<ImpRef>
        requires { class.class < length self.now.supers }
        ensures own { option_map imp_number result ≡ own_of self.now class sel }
        ensures listed { IfSome result (λ i. imp_number i ≤ last_imp self.now.counts) }
    {
        self.lists.find(class.slot(), sel)
    }

    // The method of a class reference and a selector.
    #[inline]
    pub(crate) fn method(&self, class: ClassRef, sel: Selector) -> Option<Method>
        requires { class.class < length self.now.supers }
        ensures method { option_map (λ m. (m.holder, imp_number m.imp)) result
            ≡ kept_method self.now.lists (chain_of self.now.supers class) (selector_number sel) }
        ensures holder { IfSome result (λ m. m.holder.class < length self.now.supers) }
        ensures imp { IfSome result (λ m. imp_number m.imp ≤ last_imp self.now.counts) }
        ensures own { IfSome result (λ m. own_of self.now m.holder sel ≡ Some (imp_number m.imp)) }
    {
        let mut at = self.present(class);
        while let Some(here) = at {
            if let Some(imp) = self.own(here, sel) {
                return Some(Method { holder: here, imp });
            }
            at = self.above(here);
        }
        None
    }

    /// Returns the implementation of the method that the class or its nearest superclass with one
    /// has, or forwarding if there is none.
    ///
    /// Each class on the way costs one bucket, in which a class has a method or two. No memory is
    /// taken.
    pub fn lookup(&self, class: ClassRef, sel: Selector) -> ImpRef
        requires { class.class < length self.now.supers }
        ensures listed { imp_number result ≤ last_imp self.now.counts }
        ensures meaning { (h : Log) → StandsAt self.now h → imp_number result ≡ lookup h class (selector_number sel) }
    {
        match self.method(class, sel) {
            Some(method) => method.imp,
            None => ImpRef::FORWARD,
        }
    }

    /// Returns the class reference that has that method.
    pub fn holder(&self, class: ClassRef, sel: Selector) -> Option<ClassRef>
        requires { class.class < length self.now.supers }
        ensures listed { IfSome result (λ holder. holder.class < length self.now.supers) }
        ensures meaning { (h : Log) → StandsAt self.now h → result ≡ holder h class (selector_number sel) }
    {
        Some(self.method(class, sel)?.holder)
    }
}
