//! The runtime's calls for C. Each is modelled on the functions of the Objective-C Runtime
//! Reference that its comment names. `include/msg_runtime.h` declares them.
//!
//! A call returns 0, or the number of a fault, after which nothing has changed. A handle that isn't
//! open is such a fault. Every call is made under the host's lock, except those that take only a
//! sender.
#![tactic(auto)]

mod answer;
mod asking;
mod changing;
#[cfg(test)]
mod config_tests;
mod contents;
#[cfg(test)]
mod contents_tests;
mod crossing;
mod encodings;
#[cfg(test)]
mod encodings_tests;
mod listing;
mod lookups;
#[cfg(test)]
mod lookups_tests;
#[cfg(test)]
mod memory_tests;
mod opening;
mod parts;
#[cfg(test)]
mod report_tests;
mod reporting;
#[cfg(test)]
mod rest_tests;
mod resting;
mod runtime_handle;
#[cfg(test)]
mod same;
mod sender_handle;
#[cfg(test)]
mod sender_tests;
mod sending;
#[cfg(test)]
mod tests;
mod texts;
mod texts_handle;
#[cfg(test)]
mod texts_tests;
#[cfg(test)]
mod undo_tests;
mod version;
