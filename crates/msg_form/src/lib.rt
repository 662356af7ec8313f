//! The syntax of documents, with names as texts, and the faults of a document.
//!
//! [`Form::read`] reads the form of a document from its JSON value, and [`fault_by`] judges it.
//! [`Form::selector_texts`] lists the texts that get numbers as selectors. A form borrows its texts
//! from the JSON text.
#![tactic(auto)]

mod changes;
mod faults;
mod form;
mod form_names;
mod judge;
pub mod laws;
mod limits;
mod name_set;
mod read;
mod walk;

pub use faults::{DocumentFault, ReadFault};
pub use form::{
    BinaryExpr, Category, Change, Class, Constant, Expr, Form, IfExpr, Imp, Item, MethodName,
    Object, Operator, Pair, SendExpr, SuperExpr, makes_classes,
};
pub use form_names::FormNames;
pub use judge::{
    fault_by, has_many_entries, has_selector_twice, is_miscounted_send, is_other_version,
};
pub use limits::{
    MAX_CATEGORIES, MAX_CLASSES, MAX_DEPTH, MAX_ENTRIES, MAX_EXPRESSIONS, MAX_IMPS, MAX_ITEMS,
    MAX_OBJECTS,
};
pub use name_set::NameSet;
pub use read::{FromValue, change_item, send_item};
pub use walk::FORWARDING;
