//! Types by their encodings.

ghost use Rattle.std.specs.Prelude.{◌≡◌, ◌≢◌, ◌≤◌, None, Some, length};
ghost use Rattle.msg_encodings.specs.Members.{member_of, type_of};
ghost use Rattle.msg_encodings.specs.declared.types.Member.{Member};

use crate::answer::{DONE, NONE};

/// Writes the size and the alignment of the first type of an encoding, in bytes. Returns the
/// position after the type.
#[unsafe(no_mangle)]
pub extern "C" fn msg_type_first(text: &[u8], size: &mut u64, align: &mut u64) -> usize
    ensures end { result ≡ (type_of text.now).end }
    ensures size { size.new ≡ (type_of text.now).size }
    ensures align { align.new ≡ (type_of text.now).align }
    ensures inside { result ≤ length text.now }
{
    let found = msg_encodings::first_type(text);
    *size = found.size;
    *align = found.align;
    found.end
}

/// Reads the next member of a structure. `before` is the bit at which the members before it end. It
/// writes where the member's type begins, the position after it, its first bit and the bit after
/// its last, and its alignment in bytes.
#[unsafe(no_mangle)]
pub extern "C" fn msg_type_member(
    text: &[u8],
    before: u64,
    begin: &mut usize,
    end: &mut usize,
    first: &mut u64,
    last: &mut u64,
    align: &mut u64,
) -> u32
    ensures none { member_of text.now before ≡ None → result ≡ NONE }
    ensures done { (m : Member) → member_of text.now before ≡ Some m → (result ≡ 0)
        × (begin.new ≡ m.begin) × (end.new ≡ m.end) × (first.new ≡ m.first) × (last.new ≡ m.last)
        × (align.new ≡ m.align) }
    ensures left { result ≢ 0 → (begin.new ≡ begin.old) × (end.new ≡ end.old) × (first.new ≡ first.old)
        × (last.new ≡ last.old) × (align.new ≡ align.old) }
{
    let Some(member) = msg_encodings::next_member(text, before) else {
        return NONE;
    };
    *begin = member.begin;
    *end = member.end;
    *first = member.first;
    *last = member.last;
    *align = member.align;
    DONE
}
