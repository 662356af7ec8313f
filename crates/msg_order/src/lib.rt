//! Puts classes in an order in which each comes after its superclass, however they are listed.
//!
//! Classes are numbers from 0, and each has the number of its superclass.
#![tactic(auto)]

pub mod laws;
mod order;

pub use order::class_order;
