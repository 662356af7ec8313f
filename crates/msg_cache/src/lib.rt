//! Method caches that threads share.
//!
//! The protocol in short. docs/PROTOCOL.md has all of it, with what each wrong order would break.
//!
//! - Threads share one table of words: a *header word* for each class reference, which names its
//!   live array of buckets or none; the *bucket words* of all arrays, each an entry or 0; a *stamp*
//!   for each class reference; a *probe word* for each sender; and the *version word*, which counts
//!   the changes.
//! - A sender that probes stores 1 in its probe word (*enter*), loads the header word, loads
//!   buckets until it finds the selector or an empty one, and stores 0 (*leave*). It takes no lock
//!   and waits for nobody.
//! - All other words are stored by the keeper, which is whoever has the runtime lock. An entry is
//!   stored once, in an empty bucket of a live array, and agrees with the present method lists
//!   (*fill*). An array is made live if it is free and all zero (*install*).
//! - Before a change is published the caches of all that it affects are taken away, by a 0 in their
//!   header words (*flush*). Then the version word is stored (*commit*). A probe that began earlier
//!   may still hit in the old array. The entries of that agree with the method lists at the time
//!   when it was taken away.
//! - Each class reference has a *stamp*, which is never below the number of the last change that
//!   affects it. Before a change that affects the class reference is published, it is *closed* by a
//!   stamp above every count. The next answer under the lock *opens* it, at the number of changes.
//!   A lookup that was noted after at least as many changes as the stamp says finds what was noted.
//!   These loads and stores are no events.
//! - An array that was taken away awaits each sender until its probe word was seen 0 (*look*): a
//!   sender that was out since then no longer holds it. An array that awaits nobody is cleared
//!   (*clear*) and may be given to another class reference.
//!
//! Each of these is one load or store, and one event of the machine of `msg_model`. The steps are
//! the functions of `steps.rt`. The rule that they keep is in `rule.rt` and `specs/Rule.antt`.
//! [`laws`] says that each is its event.
#![tactic(auto)]

mod answer;
mod arena;
mod bit_set;
mod collecting;
mod config;
mod cursors;
mod filling;
mod keeper;
pub mod laws;
mod layered_set;
mod plays;
mod prober;
mod rule;
mod setting;
mod standings;
mod steps;
mod view;

pub use answer::{Filled, Report};
pub use arena::Arena;
pub use config::{ArenaFault, Config};
pub use keeper::{CLOSED, Keeper, Turn};
pub use prober::{Pause, Prober};
