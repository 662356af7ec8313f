//! A type and a member of a structure, by their positions in a text.

ghost use Rattle.std.specs.Prelude.{◌≡◌, ◌≤◌, ◌<◌, length, IfSome};
ghost use Rattle.msg_encodings.specs.Members.{type_of, member_of, stops};

use crate::letters::DEEPEST;
use crate::reading::first;
use crate::texts::past_name;

/// A type at the beginning of a text.
#[derive(Clone, Copy, Debug, PartialEq, Eq)]
pub struct Extent {
    /// In bytes, at most [`crate::LARGEST`].
    pub size: u64,
    /// In bytes, from 1 to [`crate::LARGEST`].
    pub align: u64,
    /// The position in the text after the type.
    pub end: usize,
}

/// A member at the beginning of a text of members.
#[derive(Clone, Copy, Debug, PartialEq, Eq)]
pub struct Member {
    /// The position in the text of the member's type, which comes after its name.
    pub begin: usize,
    /// The position in the text after the member.
    pub end: usize,
    /// The first bit of the structure that the member takes.
    pub first: u64,
    /// The bit after the last that the member takes.
    pub last: u64,
    /// The alignment of its type, in bytes.
    pub align: u64,
}

/// Reads the first type of a text.
pub fn first_type(text: &[u8]) -> Extent
    ensures value { result ≡ type_of text.now }
    ensures inside { result.end ≤ length text.now }
    ensures goes_on { 0 < length text.now → 0 < result.end }
    ensures some { 0 < result.align }
{
    let (shape, rest) = first(text, DEEPEST);
    Extent {
        size: shape.size,
        align: shape.align,
        end: text.len() - rest.len(),
    }
}

// Whether no member is left.
fn stops(text: &[u8]) -> bool
    ensures { result ≡ stops text.now }
{
    match text {
        [] => true,
        [letter, ..] => *letter == b'}' || *letter == b')',
    }
}

/// Reads the structure member at the beginning of a text. `before` is the bit at which the members
/// before it end, or 0 in a union. There is none if the structure or the text ends.
pub fn next_member(text: &[u8], before: u64) -> Option<Member>
    ensures value { result ≡ member_of text.now before }
    ensures inside { IfSome result (λ m. m.end ≤ length text.now) }
    ensures goes_on { IfSome result (λ m. m.begin < m.end) }
{
    let at = past_name(text);
    if stops(at) {
        return None;
    }
    let (shape, rest) = first(at, DEEPEST);
    let (first, last) = shape.place(before);
    Some(Member {
        begin: text.len() - at.len(),
        end: text.len() - rest.len(),
        first,
        last,
        align: shape.align,
    })
}
