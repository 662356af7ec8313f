//! The position in a text at which a value begins.

ghost use Rattle.std.specs.Prelude.{◌≡◌, ◌≤◌, IfSome, count_by, length, not, reverse, take_while};
ghost use Rattle.msg_explain.specs.Positions as spec;

use crate::place::Step;
use crate::search::last;
use json::Reader;
use msg_json::{Scratch, Tree};
use std::str;

// A depth greater than that of any value that is read.
const DEPTH: usize = 128;

/// A line and a column, each from 1. A column is a character.
#[derive(Clone, Copy, Debug, PartialEq, Eq)]
pub struct Position {
    pub line: usize,
    pub column: usize,
}

/// Returns where the value at a path begins, in the text from which the document was read.
pub fn position_of(
    text: &str,
    scratch: &mut Scratch,
    document: &Tree<'_, '_>,
    path: &[Step],
) -> Option<Position>
    ensures { IfSome result (spec.IsPositionIn text.now) }
{
    let mut reader = Reader::new(text, scratch).ok()?;
    seek(&mut reader, document, path)?;
    let bytes = text.as_bytes();
    Some(position_at(bytes, first_other(bytes, reader.offset())))
}

/// Returns where a reader of the text stops: at what is no JSON, or after it if only that shows it.
/// The reader skips a number that is too great.
pub fn end_of_json(bytes: &[u8], scratch: &mut Scratch) -> Option<Position>
    ensures { IfSome result (spec.IsPositionIn bytes.now) }
{
    let text = str::from_utf8(bytes).ok()?;
    let mut reader = Reader::new(text, scratch).ok()?;
    if reader.skip_value(DEPTH).is_ok() && reader.next().is_none() {
        return None;
    }
    Some(position_at(bytes, reader.offset().min(bytes.len())))
}

/// Skips what comes before the value at a path.
fn seek(reader: &mut Reader<'_>, document: &Tree<'_, '_>, path: &[Step]) -> Option<()> {
    let mut value = *document;
    for step in path {
        reader.next()?;
        match (*step, value) {
            (Step::Place(place), Tree::Array(values)) => {
                pass_values(reader, place)?;
                value = value_at(values, place)?;
            }
            (Step::Key(name), Tree::Object(members)) => {
                let index = last(members, name)?;
                pass_members(reader, index)?;
                value = member_at(members, index)?;
            }
            _ => return None,
        }
    }
    Some(())
}

fn value_at<'t, 'b>(values: &[Tree<'t, 'b>], place: usize) -> Option<Tree<'t, 'b>> {
    if place < values.len() {
        Some(values[place])
    } else {
        None
    }
}

fn member_at<'t, 'b>(members: &[(&'t str, Tree<'t, 'b>)], index: usize) -> Option<Tree<'t, 'b>> {
    if index < members.len() {
        Some(members[index].1)
    } else {
        None
    }
}

fn pass_values(reader: &mut Reader<'_>, count: usize) -> Option<()> {
    for _ in 0..count {
        reader.skip_value(DEPTH).ok()?;
    }
    Some(())
}

/// Skips this number of members, and the key of the next.
fn pass_members(reader: &mut Reader<'_>, count: usize) -> Option<()> {
    for _ in 0..count {
        reader.next_key().ok()?;
        reader.skip_value(DEPTH).ok()?;
    }
    reader.next_key().ok()?;
    Some(())
}

/// The first byte from a place on that is neither blank nor a comma or a colon.
fn first_other(bytes: &[u8], from: usize) -> usize
    ensures { result ≤ length bytes.now }
{
    for at in from..bytes.len() {
        if !is_between(bytes[at]) {
            return at;
        }
    }
    bytes.len()
}

fn position_at(bytes: &[u8], at: usize) -> Position
    requires { at ≤ length bytes.now }
    ensures { result ≡ spec.position_at bytes.now at }
{
    let before = &bytes[..at];
    Position {
        line: lines_in(before) + 1,
        column: characters_at_end(before) + 1,
    }
}

/// The number of lines that end in a text.
fn lines_in(text: &[u8]) -> usize
    ensures count { result ≡ count_by spec.ends_line text.now }
    ensures few { result ≤ length text.now }
{
    text.iter().filter(|byte| ends_line(**byte)).count()
}

/// The number of characters that begin after the last line that ends in a text.
fn characters_at_end(text: &[u8]) -> usize
    ensures count { result ≡ count_by spec.begins_character
        (take_while (λ byte. not (spec.ends_line byte)) (reverse text.now)) }
    ensures few { result ≤ length text.now }
{
    text.iter()
        .rev()
        .take_while(|byte| !ends_line(**byte))
        .filter(|byte| begins_character(**byte))
        .count()
}

fn ends_line(byte: u8) -> bool
    ensures { result ≡ spec.ends_line byte }
{
    byte == b'\n'
}

fn is_between(byte: u8) -> bool {
    matches!(byte, b' ' | b'\t' | b'\n' | b'\r' | b',' | b':')
}

fn begins_character(byte: u8) -> bool
    ensures { result ≡ spec.begins_character byte }
{
    byte & 0xC0 != 0x80
}
