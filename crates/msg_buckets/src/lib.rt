//! The buckets of a method cache, as in objc4: an array of words, each of which holds a selector
//! with its implementation, or 0.
//!
//! Nothing here allocates memory or is shared. A cache that threads read without a lock is built on
//! these definitions.
#![tactic(auto)]

mod array;
mod capacity;
pub mod laws;
mod places;
mod word;

pub use array::{Placed, Probe, find, put};
pub use capacity::{CAPACITIES, MAX_CAPACITY, MIN_CAPACITY, Plan, fill_plan, is_capacity};
pub use places::{first_place, next_place};
pub use word::{Look, look_at, pack, unpack};
