//! Places in a document.

use crate::part::Wanted;
use msg_json::Tree;

/// A step from a value to one of its parts.
#[derive(Clone, Copy, Debug, PartialEq, Eq)]
pub enum Step {
    Key(&'static str),
    Place(usize),
}

/// A place whose value doesn't have the form that is expected there.
#[derive(Drop)]
pub struct Place<'t, 'b> {
    /// The steps from the document to the value.
    pub path: Vec<Step>,
    pub wanted: Wanted,
    pub found: Tree<'t, 'b>,
}
