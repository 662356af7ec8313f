//! JSON texts as trees that borrow their strings from the text.
//!
//! [`read`] makes a [`Tree`] from a JSON text in one pass, with its lists in an arena. The tree
//! keeps all members of an object, in their order. [`has_keys`], [`get`] and [`whole`] look into a
//! tree as JSON data, in which the last member with a key counts.
#![tactic(auto)]

mod look;
mod numbers;
mod reading;
mod stack;
mod tree;

pub use bumpalo::Bump;
pub use json::Scratch;
pub use look::{get, has_keys, whole};
pub use reading::{JsonFault, read};
pub use tree::Tree;
