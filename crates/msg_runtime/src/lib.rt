//! The data behind a runtime lock: the keeper of the method caches, and the class tables at its
//! history.
#![tactic(auto)]

mod caching;
mod contents;
mod flushing;
mod flushing_all;
pub mod laws;
mod resting;
mod runtime;
mod several;
mod unmade;

pub use runtime::Runtime;
pub use unmade::Unmade;
