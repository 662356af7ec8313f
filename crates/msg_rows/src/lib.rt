//! The rows of class references: the methods that each has itself, oldest first.
//!
//! A lookup in one compares the selector with the few methods of its bucket.
#![tactic(auto)]

mod indexed_rows;
mod lists;
mod row_lists;
mod rows;

pub use row_lists::RowLists;
