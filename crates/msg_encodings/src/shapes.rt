//! The sizes of types, and the positions of members.

ghost use Rattle.std.specs.Prelude.{◌≡◌, ◌≤◌, ◌<◌, ◌^◌};
ghost use Rattle.msg_encodings.specs.Shapes.{Fits, plain, rows, vector, bit_field, whole, place};
ghost use Rattle.msg_encodings.specs.declared.letters.TheConstants.{LARGEST};

use crate::letters::LARGEST;
use crate::units::{BITS, bytes};

/// What is known of a type.
#[derive(Clone, Copy)]
pub(crate) struct Shape {
    /// In bytes.
    pub(crate) size: u64,
    /// In bytes.
    pub(crate) align: u64,
    /// For a bit-field: its first bit in the structure, and the bit after its last.
    pub(crate) bits: Option<(u64, u64)>,
}

impl Shape {
    /// A type with this size in bytes, which is also its alignment.
    pub(crate) fn plain(size: u64) -> Shape
        requires { size ≤ 16 }
        ensures value { result ≡ plain size }
        ensures fits { Fits result }
    {
        Shape {
            size,
            align: size.max(1),
            bits: None,
        }
    }

    /// An array with this number of elements.
    pub(crate) fn rows(self, count: u64) -> Shape
        requires fits { Fits self }
        requires count { count ≤ LARGEST }
        ensures value { result ≡ rows count self }
        ensures fits { Fits result }
    {
        Shape {
            size: (count * self.size).min(LARGEST),
            align: self.align,
            bits: None,
        }
    }

    /// A vector, whose encoding gives its size and its alignment.
    pub(crate) fn vector(size: u64, align: u64) -> Shape
        requires size { size ≤ LARGEST }
        requires align { align ≤ LARGEST }
        ensures value { result ≡ vector size align }
        ensures fits { Fits result }
    {
        Shape {
            size,
            align: align.max(1),
            bits: None,
        }
    }

    /// A bit-field of `count` bits with this declared type, from the bit `first` on.
    pub(crate) fn bit_field(self, first: u64, count: u64) -> Shape
        requires fits { Fits self }
        requires first { first ≤ LARGEST }
        requires count { count ≤ LARGEST }
        ensures value { result ≡ bit_field first count self }
        ensures fits { Fits result }
    {
        Shape {
            size: self.size,
            align: self.align,
            bits: Some((first, first + count)),
        }
    }

    /// A structure whose members end before the bit `end`, with the largest alignment of its
    /// members.
    pub(crate) fn whole(end: u64, align: u64) -> Shape
        requires some { 0 < align }
        requires most { align ≤ LARGEST }
        ensures value { result ≡ whole end align }
        ensures fits { Fits result }
    {
        Shape {
            size: bytes(end).next_multiple_of(align).min(LARGEST),
            align,
            bits: None,
        }
    }

    /// The first bit of this member and the bit after its last, if the members before it end at
    /// `end`.
    pub(crate) fn place(self, end: u64) -> (u64, u64)
        requires { Fits self }
        ensures { result ≡ place end self }
    {
        if let Some(bits) = self.bits {
            return bits;
        }
        let first = BITS * bytes(end).next_multiple_of(self.align);
        (first, first + BITS * self.size)
    }
}
