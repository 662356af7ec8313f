//! Why a document has its answers: under each answer the lookups behind it.
//!
//! [`explain_document`] answers the items like one thread that searches the method lists. It notes
//! each lookup of each send, with the class that has the method which the lookup found.
//!
//! [`explain_beside`] answers them like a run that makes the changes while the sends are answered.
//! Each lookup is answered at a version that is given.
//!
//! While the tables stay the same, most lookups are searched for only once, and most lines are
//! written only once.
#![tactic(auto)]

mod beside;
mod changing;
mod explaining;
pub mod laws;
mod lines;
mod moving;
mod notes;
mod noting;
mod slots;
mod text;

pub use beside::explain_beside;
pub use explaining::explain_document;
pub use notes::Lookup;
pub use text::{category_of, push_lookup};
