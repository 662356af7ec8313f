//! The answers to a document: the lines of one thread, and those of workers among whom its sends
//! are distributed.
#![tactic(auto)]

mod deal;
mod gathering;
mod items;
mod outcome;
mod part;
mod text;

pub use deal::Deal;
pub use gathering::gather;
pub use items::{is_one_change, is_send, part_len, sends_in};
pub use outcome::Outcome;
pub use part::{Counts, Part, Share};
pub use text::{class_name, push_method, push_outcome, push_reply};
