//! Where the fault of a document is.
//!
//! [`misplaced`] walks down a JSON value by the format's table. It finds the places whose value
//! doesn't have the form that the format expects there, though each of its parts does. [`faulty`]
//! walks down a value that has the form. It finds the places whose value has the fault for which
//! the document is refused.
#![tactic(auto)]

mod explaining;
mod fitting;
mod judging;
mod part;
mod place;
mod position;
mod program;
mod search;
mod superclasses;
mod tables;
mod telling;
mod twice;
mod walk;

pub use explaining::{explain, explain_beside};
pub use fitting::fits;
pub use part::{Edition, Naming, Part, Wanted};
pub use place::{Place, Step};
pub use position::{Position, end_of_json, position_of};
pub use program::explain_program;
pub use search::misplaced;
pub use tables::{Key, at_place, edition, keys};
pub use telling::push_path;
pub use walk::faulty;
