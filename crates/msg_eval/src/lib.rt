//! The evaluator of bodies.
#![tactic(auto)]

mod eval;
mod finder;
mod frame;
pub mod laws;
mod lookups;
mod operation;
mod receiver;
mod reply;

pub use eval::{MAX_BODIES, MAX_LOOKUPS, send};
pub use finder::{Finder, Tabled};
pub use frame::Args;
pub use reply::{Reply, SendFault};
