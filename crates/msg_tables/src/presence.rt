//! Classes that are present.

// A class that is present, with its superclass; a root class has none.
#[derive(Clone, Copy)]
pub(crate) struct Presence {
    pub(crate) superclass: Option<u32>,
}
