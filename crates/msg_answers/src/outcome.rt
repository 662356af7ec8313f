//! The outcome of changes.

use msg_tables::{ChangeFault, Refused};

/// The outcome of a change, or of several that are made as one.
#[derive(Clone, Copy)]
pub enum Outcome {
    Made,
    Refused(ChangeFault),
    /// The first of several changes that would be refused. None was made.
    RefusedAt(Refused),
}
