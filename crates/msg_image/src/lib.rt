//! Images: what a document says about classes, categories, objects, implementations and their
//! bodies.
#![tactic(auto)]

mod change;
mod document;
mod expr;
mod image;
pub mod laws;
mod numbers;
mod opened;
mod resolve;

pub use change::Item;
pub use document::{Document, MOST_BYTES, judge_form, one_answer, read_document};
pub use expr::Expr;
pub use image::{Image, Imp};
pub use msg_form::{DocumentFault, MAX_CLASSES, MAX_ENTRIES, MAX_ITEMS};
pub use msg_tables::{Category, Change, MethodList};
pub use opened::{MAX_CHANGES, MAX_ROWS, MAX_SENDERS, MAX_WORDS};
