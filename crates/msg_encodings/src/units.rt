//! Bits and bytes.

ghost use Rattle.std.specs.Prelude.{◌≡◌, ◌≤◌};
ghost use Rattle.msg_encodings.specs.Units.{bytes};
ghost use Rattle.msg_encodings.specs.declared.letters.TheConstants.{LARGEST};

use crate::letters::LARGEST;

/// The number of bits in a byte.
pub(crate) const BITS: u64 = 8;

/// The bytes that this number of bits takes, at most [`LARGEST`].
pub(crate) fn bytes(bits: u64) -> u64
    ensures value { result ≡ bytes bits }
    ensures most { result ≤ LARGEST }
{
    bits.div_ceil(BITS).min(LARGEST)
}
