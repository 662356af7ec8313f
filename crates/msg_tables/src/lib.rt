//! The class tables: method lists, lookup along the superclasses, and changes.
#![tactic(auto)]

mod apply;
mod apply_all;
mod below;
mod change;
mod change_list;
mod contents;
mod counts;
mod edit;
mod entry;
mod fault;
mod foresee;
mod judge;
pub mod laws;
mod limits;
pub mod list_laws;
mod marks;
mod methods;
mod noting;
mod opening;
mod origin;
mod preorder;
mod presence;
mod reach;
mod recent;
mod tables;
mod take_back;
mod walk;

pub use apply_all::Refused;
pub use below::Below;
pub use change::{Change, ChangeRef};
pub use change_list::ChangeList;
pub use counts::Counts;
pub use entry::{Entry, WayBack, Written};
pub use fault::ChangeFault;
pub use limits::{Limits, MAX_CLASSES, MOST_CHANGES, MOST_SENDERS, MOST_WORDS};
pub use marks::Marks;
pub use methods::MethodList;
pub use origin::{Category, HasOrigin, ListedClass, Origin};
pub use recent::Recent;
pub use tables::Tables;
pub use take_back::Start;
pub use walk::Walk;
