//! What a sender reads without a lock: first its own notes, then the caches that all senders share.
#![tactic(auto)]

pub mod laws;
mod lookup;
mod lookup_list;
mod note;
mod notes;
mod reader;
mod several;

pub use lookup::Lookup;
pub use lookup_list::LookupList;
pub use notes::Notes;
pub use reader::Reader;
