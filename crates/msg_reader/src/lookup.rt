//! Lookups in a list.

use msg_names::{ClassRef, Selector};

/// A lookup of a selector from a class reference.
#[derive(Clone, Copy)]
pub struct Lookup {
    pub class: ClassRef,
    pub sel: Selector,
}
