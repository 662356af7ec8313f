//! What arrays are for, and where senders are.

use msg_names::ClassRef;
use msg_tables::MOST_SENDERS;

/// What an array is for.
#[derive(Clone, Copy)]
pub enum Standing {
    /// Nobody reads the array. It may be cleared and installed.
    Free,
    /// The array is the cache of this class reference.
    Live(ClassRef),
    /// The array was taken from this class reference when the history had this number of changes.
    /// It awaits each sender whose flag is set.
    Retired(ClassRef, usize, [bool; MOST_SENDERS]),
}

/// Where a sender is.
#[derive(Clone, Copy)]
pub enum Whereabouts {
    /// The sender reads no array.
    Out,
    /// The sender has set its probe word, and may load a header word.
    In,
    /// The sender has seen this array in the header word of this class reference, and may load its
    /// words.
    Holding(ClassRef, u32),
}
