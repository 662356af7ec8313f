//! The limits of tables and of the caches over them.

/// The most classes, present classes and classes that may be made together.
pub const MAX_CLASSES: u32 = 16_777_216;

/// The greatest number of an implementation.
pub const MAX_IMP: u32 = u32::MAX;

/// The largest limit on changes.
pub const MOST_CHANGES: u64 = 281_474_976_710_656;

/// The largest limit on senders.
pub const MOST_SENDERS: usize = 16_384;

/// The largest limit on the words of caches.
pub const MOST_WORDS: u64 = 268_435_456;

/// The limits of a program's tables and caches. Those of a document are fixed, and a host has its
/// own.
#[derive(Clone, Copy, Debug, PartialEq, Eq)]
pub struct Limits {
    /// The most rows that there may be at any time.
    pub rows: u64,
    /// The number of changes that are accepted.
    pub changes: u64,
    /// The most senders that there may be.
    pub senders: u32,
    /// The most words that caches may use: header words, bucket words, probe words and the version
    /// word.
    pub words: u32,
}
