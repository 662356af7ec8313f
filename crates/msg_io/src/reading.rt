//! Reads a source to its end.
//!
//! Bytes go through one buffer of 8 KiB into a vector that doubles when it has to grow. So time and
//! memory are linear in what is read. Each turn takes at least one byte or is the last. A source
//! that fills the buffer is read to the limit in 2,049 turns.

ghost use Rattle.std.specs.Prelude.{◌≡◌, IfOk, IfSome, IsErrOf, OnOk};
ghost use Rattle.std.specs.Io.KnownBytes.{IsAtEnd};
ghost use Rattle.msg_io.specs.Reading.{FitsLimit, IsTooLong, GivesStart, MarksRead};
ghost use Rattle.msg_io.specs.declared.reading.ReadFault.TheVariants.{Read, Memory};

use crate::device::{Failed, Source};
use msg_image::MOST_BYTES;
use std::alloc::{AllocError, Global};
use thiserror::Error;

const BUFFER_BYTES: usize = 8192;

/// Why a source was not read to its end.
#[derive(Clone, Copy, Debug, PartialEq, Eq, Error)]
pub enum ReadFault {
    #[error("read failed")]
    Read,
    #[error("the input is too long")]
    TooLong,
    #[error("out of memory")]
    Memory,
}

impl From<Failed> for ReadFault {
    ghost from_gives = { λ _ e. e ≡ Read };

    fn from(_failed: Failed) -> ReadFault {
        ReadFault::Read
    }
}

impl From<AllocError> for ReadFault {
    ghost from_gives = { λ _ e. e ≡ Memory };

    fn from(_refused: AllocError) -> ReadFault {
        ReadFault::Memory
    }
}

/// Reads all that a source has to give, if that is at most [`MOST_BYTES`].
///
/// Of a longer source, or one without an end, it reads past that limit by at most one buffer. It
/// ends at the first read that fails.
pub fn read_whole<S: Source>(alloc: Global, source: &mut S) -> Result<Vec<u8>, ReadFault>
    ensures all { IfOk result
        (λ bytes. IfSome (S.remaining source.old) (λ known. bytes.items ≡ known)) }
    ensures within { IfOk result (λ bytes. FitsLimit bytes.items) }
    ensures end { OnOk result (IsAtEnd (S.remaining source.new)) }
    ensures long { IsErrOf result ReadFault.TooLong → IfSome (S.remaining source.old) IsTooLong }
    ensures marks { MarksRead (S.mark source.old) (S.mark source.new) result }
    ensures start { GivesStart (S.remaining source.old) (S.remaining source.new) }
{
    let mut bytes = Vec::new(alloc);
    let mut buffer = [0; BUFFER_BYTES];
    loop {
        let count = source.read(&mut buffer)?;
        if count == 0 {
            return Ok(bytes);
        }
        if count > MOST_BYTES - bytes.len() {
            return Err(ReadFault::TooLong);
        }
        bytes.extend_from_slice(&buffer[..count])?;
    }
}
