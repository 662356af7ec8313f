//! The items of a document.

use arrayvec::ArrayVec;
use msg_names::{Selector, Value};
use msg_tables::Change;

/// An item of a document.
#[derive(Drop)]
pub enum Item {
    Send {
        receiver: Value,
        sel: Selector,
        args: ArrayVec<Value, 4>,
    },
    Change(Change),
    /// Changes that are made as one change.
    ChangeAll(Vec<Change>),
}
