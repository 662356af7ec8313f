//! What a host program's handles hold: a runtime behind the host's own lock, and senders that share
//! its arena.
//!
//! The calls of `asking`, `changing`, `lookups` and `sending` take and return numbers, as a host in
//! C has them, and refuse numbers that name nothing.
#![tactic(auto)]

mod asking;
mod changing;
mod config;
mod contents;
mod crossing;
mod fault;
pub mod laws;
mod listing;
mod lookups;
mod opening;
mod reaching;
mod resting;
mod runtime;
mod sender;
mod sending;
mod undoing;

pub use changing::MethodRow;
pub use config::{
    DEFAULT_ARRAYS, DEFAULT_CLASSES, DEFAULT_SENDERS, HostConfig, MOST_ARRAYS, MOST_CLASSES,
    MOST_SENDERS,
};
pub use fault::{AskFault, OpenFault, SenderFault};
pub use listing::ChangeRow;
pub use lookups::LookupRow;
pub use runtime::HostedRuntime;
pub use sender::HostedSender;
