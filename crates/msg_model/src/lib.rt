//! The machine of events. Senders read method caches without a lock, and one keeper changes the
//! caches. The machine models what they do to the words that they share, one load or store at a
//! time.
//!
//! Nothing here is shared. Caches that threads share are built on these definitions.
#![tactic(auto)]

mod awaited;
mod buckets;
mod effects;
mod event;
mod fault;
mod judge;
pub mod laws;
mod machine;
mod open;
mod spoiled;
mod state;
mod step;

pub use event::{Event, Seen};
pub use fault::EventFault;
pub use machine::Machine;
pub use state::{Standing, Whereabouts};
