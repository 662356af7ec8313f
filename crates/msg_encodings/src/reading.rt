//! Reading types, and types within types.

ghost use Rattle.std.specs.Prelude.{◌≡◌};
ghost use Rattle.msg_encodings.specs.Reading.{ends, first, front, members, of_kind, past_tag};
ghost use Rattle.msg_encodings.specs.Shapes.{Fits};

use crate::letters::{Kind, kind_of, size_of};
use crate::shapes::Shape;
use crate::texts::{number, past, past_name, past_one, up_to};

/// Whether no member is left: the text ends, or the closing letter comes.
pub(crate) fn ends(text: &[u8], close: u8) -> bool
    ensures { result ≡ ends close text.now }
{
    match text {
        [] => true,
        [letter, ..] => *letter == close,
    }
}

// The bit after which the next member lies: the members of a union lie at its beginning.
fn front(close: u8, end: u64) -> u64
    ensures { result ≡ front close end }
{
    if close == b')' { 0 } else { end }
}

// The members of a structure or union, up to the letter that closes it.
#[cycle(reading)]
fn fields(text: &[u8], close: u8, depth: u32) -> (Shape, &[u8])
    ensures fits { Fits result.0 }
    ensures shape { result.0 ≡ (members (first depth) close text.now).0 }
    ensures rest { result.1.now ≡ (members (first depth) close text.now).1 }
{
    let mut end = 0;
    let mut align = 1;
    let mut rest = text;
    loop {
        let at = past_name(rest);
        if ends(at, close) {
            return (Shape::whole(end, align), past_one(at, close));
        }
        let (shape, behind) = first(at, depth);
        let (_, last) = shape.place(front(close, end));
        end = end.max(last);
        align = align.max(shape.align);
        rest = behind;
    }
}

// What a letter of this kind begins; `rest` is the text after the letter.
#[cycle(reading)]
fn behind(kind: Kind, letter: u8, rest: &[u8], depth: u32) -> (Shape, &[u8])
    ensures fits { Fits result.0 }
    ensures shape { result.0 ≡ (of_kind (first depth) letter rest.now kind).0 }
    ensures rest { result.1.now ≡ (of_kind (first depth) letter rest.now kind).1 }
{
    match kind {
        Kind::Fields(close) => fields(past_tag(rest, close), close, depth),
        Kind::Rows => {
            let (count, rest) = number(rest);
            let (row, rest) = first(rest, depth);
            (row.rows(count), past_one(rest, b']'))
        }
        Kind::Vector => {
            let (size, rest) = number(past_one(rest, b'['));
            let (align, rest) = number(past_one(rest, b','));
            let (_, rest) = first(rest, depth);
            (Shape::vector(size, align), past_one(rest, b']'))
        }
        Kind::Complex => {
            let (part, rest) = first(rest, depth);
            (part.rows(2), rest)
        }
        Kind::Bits => {
            let (place, rest) = number(rest);
            let (declared, rest) = first(rest, depth);
            let (count, rest) = number(rest);
            (declared.bit_field(place, count), rest)
        }
        Kind::Pointer => {
            let (_, rest) = first(past(rest, b"^rnNoORV|"), depth);
            (Shape::plain(8), rest)
        }
        Kind::Object => (Shape::plain(8), past_name(past_one(rest, b'?'))),
        Kind::Plain => (Shape::plain(size_of(letter)), rest),
    }
}

/// Reads the first type of a text, with types nested to `depth` at most, and returns the text after
/// it.
#[cycle(reading)]
pub(crate) fn first(text: &[u8], depth: u32) -> (Shape, &[u8])
    ensures fits { Fits result.0 }
    ensures shape { result.0 ≡ (first depth text.now).0 }
    ensures rest { result.1.now ≡ (first depth text.now).1 }
{
    if depth == 0 {
        return (Shape::plain(0), &[]);
    }
    match past(text, b"rnNoORV|") {
        [] => (Shape::plain(0), &[]),
        [letter, rest @ ..] => behind(kind_of(*letter), *letter, rest, depth - 1),
    }
}

/// The text after the name that comes before the members, which this letter closes.
pub(crate) fn past_tag(text: &[u8], close: u8) -> &[u8]
    ensures { result.now ≡ past_tag close text.now }
{
    past_one(up_to(text, &[b'=', close]), b'=')
}
