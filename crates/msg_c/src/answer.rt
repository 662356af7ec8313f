//! The results of calls, besides the numbers of the faults of changes (1 to 8) and of questions (66
//! and 67).

/// It was done.
pub const DONE: u32 = 0;

/// As many texts have numbers as the limit.
pub const LIMIT: u32 = 6;

/// The handle isn't open.
pub const CLOSED: u32 = 64;

/// The handle is open already.
pub const ALREADY_OPEN: u32 = 65;

/// All sender numbers are out.
pub const NO_SENDER: u32 = 68;

/// An allocation was refused.
pub const NO_MEMORY: u32 = 69;

/// There is none: no superclass, no method.
pub const NONE: u32 = 70;

/// The cache has no such entry: ask under the lock.
pub const MISSED: u32 = 71;

/// A field of the config is above its most, or isn't known.
pub const BAD_CONFIG: u32 = 73;

/// An array has too few places.
pub const NO_ROOM: u32 = 76;

/// Of `msg_recall`: the sender has nothing noted.
pub const NOT_NOTED: usize = 0;

/// Of `msg_recall`: the sender noted that no method is found. It is no implementation's number.
pub const NOTED_NONE: usize = 4_294_967_296;
