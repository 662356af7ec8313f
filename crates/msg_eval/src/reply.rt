//! Replies and faults.

use msg_names::{ClassRef, Selector, Value};

/// How a send ends.
#[derive(Clone, Copy, Debug, PartialEq, Eq)]
pub enum Reply {
    Value(Value),
    Fault(SendFault),
}

/// Why a send gives no value.
#[derive(Clone, Copy, Debug, PartialEq, Eq)]
pub enum SendFault {
    /// Neither the receiver's class nor a forwarding target has the method. The class is the
    /// receiver's, or after forwarding that of the last target.
    Unrecognized { class: ClassRef, sel: Selector },
    NotAnObject,
    NotANumber,
    Overflow,
    TargetNotAnObject,
    Budget,
    Depth,
}
