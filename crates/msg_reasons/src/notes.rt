//! The notes of a send.

use msg_names::{ClassRef, ImpRef, Selector};

/// A lookup: the class reference where it began, its selector, the implementation that it found, or
/// forwarding, and the class reference that has the method.
#[derive(Clone, Copy)]
pub struct Lookup {
    pub class: ClassRef,
    pub sel: Selector,
    pub imp: ImpRef,
    pub holder: Option<ClassRef>,
}
