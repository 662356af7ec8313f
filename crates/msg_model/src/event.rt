//! Events, and what each returns.

use msg_names::ClassRef;
use msg_tables::Change;

/// One load or one store of one word that threads share.
///
/// Senders and arrays are given by their numbers, words by their places in an array.
#[derive(Drop)]
pub enum Event {
    /// A sender sets its probe word.
    Enter(u32),
    /// A sender loads the header word of a class reference. From then on it holds the array that
    /// the word names.
    Header(u32, ClassRef),
    /// A sender loads a word of the array that it holds.
    Read(u32, usize),
    /// A sender clears its probe word.
    Leave(u32),
    /// A word is stored in the live array of a class reference.
    Fill(ClassRef, usize, u64),
    /// A free array becomes the live array of a class reference. One that was live is retired.
    Install(ClassRef, u32),
    /// The live array of a class reference is retired.
    Flush(ClassRef),
    /// A sender's probe word is loaded. A sender that is seen out is no longer awaited.
    Look(u32),
    /// 0 is stored in a word of a free array.
    Clear(u32, usize),
    /// The count of changes is stored, after a change of the method lists.
    Commit(Change),
}

/// What an event returns to the one that makes it.
#[derive(Clone, Copy, Debug, PartialEq, Eq)]
pub enum Seen {
    Nothing,
    /// The live array of the class reference, if it has one.
    Array(Option<u32>),
    /// The word that was loaded.
    Word(u64),
    /// Whether the sender is out.
    Out(bool),
}
