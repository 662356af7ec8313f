//! Why a list of changes was not made.

use msg_tables::Refused;

/// Why a list of changes was not made.
#[derive(Clone, Copy, Debug, PartialEq, Eq)]
pub enum Unmade {
    /// One of the changes was refused.
    Refused(Refused),
    /// Its way back has this number of changes, which is more than it may have.
    TooLong(usize),
}
