//! What tests of several crates begin with: documents, a process without free memory, and the two
//! readers of a text.
#![tactic(auto)]

mod documents;
mod hog;
mod readers;

pub use documents::{IMAGE, SMALL};
pub use hog::Hog;
pub use readers::{Readings, read_by_both};
