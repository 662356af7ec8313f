//! Selectors, the values of message sends, the names that number selectors, and interned texts for
//! hosts that name things. Texts are numbered from 1, in the order in which they first came.
#![tactic(auto)]

pub mod laws;
mod name;
mod names;
#[cfg(test)]
mod tests;
mod texts;
mod value;

pub use name::{MAX_ARGUMENTS, MAX_NAME_BYTES, is_identifier, is_selector_name};
pub use names::{MAX_NAMES, NameFault, Names};
pub use texts::{MAX_TEXTS, TextFault, Texts};
pub use value::{ClassRef, ImpRef, ObjectRef, Selector, Value};
