//! The devices that a run reads from and writes to.
//!
//! Contracts see the bytes that a device has left or holds, if they are known, as for std's `Read`
//! and `Write`. They also see a mark that says whether a call of it has failed. Each implementation
//! is proved to keep these clauses, so none can claim to have moved more bytes than the buffer has.

ghost use Rattle.std.specs.Prelude.{ℕ, Bool, List, Option, None};
ghost use Rattle.std.specs.Io.{ReadsAtMost, WritesAtMost};
ghost use Rattle.std.specs.Io.KnownBytes.{ReadConsumes, WriteAppends};
ghost use Rattle.msg_io.specs.Device.{Marks, TakesSome};

use thiserror::Error;

/// A call of a device failed, for any reason. A lack of memory of the device's own is one.
#[derive(Clone, Copy, Debug, Default, PartialEq, Eq, Error)]
#[error("the device failed")]
pub struct Failed;

/// A source of bytes.
pub trait Source {
    // The bytes that reads will give from here on, if they are known.
    ghost remaining: { Self → Option (List ℕ) } = { λ _. None };

    // Whether a read has failed.
    ghost mark: { Self → Bool };

    /// Reads bytes into the start of `buf`, and returns their number. It is 0 only at the end, or
    /// if `buf` is empty.
    fn read(&mut self, buf: &mut [u8]) -> Result<usize, Failed>
        ensures bound { ReadsAtMost result buf.new }
        ensures bytes { ReadConsumes (remaining self.old) (remaining self.new) result buf.new }
        ensures marks { Marks (mark self.old) (mark self.new) result };
}

/// A sink of bytes.
pub trait Sink {
    // The bytes that the sink holds, if they are known.
    ghost contents: { Self → Option (List ℕ) } = { λ _. None };

    // Whether a write has failed.
    ghost mark: { Self → Bool };

    /// Writes bytes from the start of `buf`, and returns their number. It is 0 only if `buf` is
    /// empty.
    fn write(&mut self, buf: &[u8]) -> Result<usize, Failed>
        ensures bound { WritesAtMost result buf.now }
        ensures some { TakesSome result buf.now }
        ensures bytes { WriteAppends (contents self.old) (contents self.new) result buf.now }
        ensures marks { Marks (mark self.old) (mark self.new) result };
}
