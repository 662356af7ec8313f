//! Reading.

ghost use Rattle.std.specs.Prelude.{◌≡◌, ◌≢◌, ◌<◌, length, None, Some, IfOk, IfErr, IsUtf8, MatchResult, OnOk, option_map};
ghost use Rattle.json.specs.Json.{read_key};
ghost use Rattle.serde_json.specs.Read.{read as read_text};
ghost use Rattle.msg_json.specs.Reading.{data_first, items_first, members_first};
ghost use Rattle.msg_json.specs.View.{view, items_view, members_view};
ghost use Rattle.msg_json.specs.declared.reading.JsonFault.TheVariants as JsonFault;

use crate::numbers::number;
use crate::stack::{Stack, kept};
use crate::tree::Tree;
use bumpalo::Bump;
use json::{Reader, Scratch, Token};
use std::alloc::{AllocError, Global};
use thiserror::Error;

/// The deepest nesting of lists and objects, as in serde_json.
const MAX_DEPTH: usize = 127;

/// Why a text was not read.
#[derive(Clone, Copy, Debug, PartialEq, Eq, Error)]
pub enum JsonFault {
    #[error("not json")]
    NotJson,
    #[error("out of memory")]
    Memory,
}

/// Reads a text. Only strings with an escape are copied, into `scratch`. The lists and objects of
/// the tree lie in the arena, each in as much room as it takes.
///
/// `NotJson` comes for bytes that aren't UTF-8 or no JSON text (RFC 8259). It also comes for lists
/// and objects that nest deeper than 127, for a lone surrogate, and for a number too large for a
/// float. `Memory` comes if an allocation is refused, but never for a text without bytes.
pub fn read<'t, 'b>(
    alloc: Global,
    bump: &'b Bump,
    bytes: &'t [u8],
    scratch: &'t mut Scratch,
) -> Result<Tree<'t, 'b>, JsonFault>
    ensures ok { IfOk result (λ v. IsUtf8 bytes.now × (read_text bytes.now ≡ Some (view v))) }
    ensures err { IfErr result (λ e. e ≢ JsonFault.Memory → IsUtf8 bytes.now → read_text bytes.now ≡ None) }
    ensures memory { IfErr result (λ e. e ≡ JsonFault.Memory → 0 < length bytes.now) }
{
    match simdutf8::compat::from_utf8(bytes) {
        Ok(text) => read_str(alloc, bump, text, scratch),
        Err(_) => Err(JsonFault::NotJson),
    }
}

fn read_str<'t, 'b>(
    alloc: Global,
    bump: &'b Bump,
    text: &'t str,
    scratch: &'t mut Scratch,
) -> Result<Tree<'t, 'b>, JsonFault>
    ensures ok { IfOk result (λ v. read_text text.now ≡ Some (view v)) }
    ensures err { IfErr result (λ e. e ≢ JsonFault.Memory → read_text text.now ≡ None) }
    ensures memory { IfErr result (λ e. e ≡ JsonFault.Memory → 0 < length text.now) }
{
    let Ok(mut reader) = Reader::new(text, scratch) else {
        return Err(JsonFault::Memory);
    };
    let mut stack = Stack::new(alloc);
    let value = tree(bump, &mut stack, &mut reader, MAX_DEPTH)?;
    if reader.next().is_some() {
        return Err(JsonFault::NotJson);
    }
    Ok(value)
}

/// Reads the next value. The stack holds what was read of lists that are still open.
#[cycle(tree)]
#[inline(always)]
fn tree<'t, 'b>(
    bump: &'b Bump,
    stack: &mut Stack<'t, 'b>,
    reader: &mut Reader<'t>,
    depth: usize,
) -> Result<Tree<'t, 'b>, JsonFault>
    ensures ok { IfOk result (λ v. data_first depth reader.old ≡ Some (view v, reader.new)) }
    ensures shorter { OnOk result (length reader.new < length reader.old) }
    ensures values { OnOk result (stack.new.values.items ≡ stack.old.values.items) }
    ensures members { OnOk result (stack.new.members.items ≡ stack.old.members.items) }
    ensures err { IfErr result (λ e. e ≢ JsonFault.Memory → data_first depth reader.old ≡ None) }
    ensures memory { IfErr result (λ e. e ≡ JsonFault.Memory → 0 < length reader.old) }
{
    let Some(token) = reader.next() else {
        return Err(JsonFault::NotJson);
    };
    match token {
        Token::String(text) => Ok(Tree::Text(text)),
        Token::Number(text) => match number(text) {
            Some(number) => Ok(Tree::Number(number)),
            None => Err(JsonFault::NotJson),
        },
        Token::Bool(truth) => Ok(Tree::Bool(truth)),
        Token::Null => Ok(Tree::Null),
        Token::EndObject | Token::EndArray | Token::Key(_) | Token::Bad => Err(JsonFault::NotJson),
        Token::BeginArray => {
            if depth == 0 {
                return Err(JsonFault::NotJson);
            }
            Ok(Tree::Array(values(bump, stack, reader, depth - 1)?))
        }
        Token::BeginObject => {
            if depth == 0 {
                return Err(JsonFault::NotJson);
            }
            Ok(Tree::Object(members(bump, stack, reader, depth - 1)?))
        }
    }
}

/// Reads the values of a list, to its end.
#[cycle(tree)]
#[inline(never)]
fn values<'t, 'b>(
    bump: &'b Bump,
    stack: &mut Stack<'t, 'b>,
    reader: &mut Reader<'t>,
    depth: usize,
) -> Result<&'b [Tree<'t, 'b>], JsonFault>
    ensures ok { IfOk result (λ vs. items_first depth reader.old ≡ Some (items_view vs.now, reader.new)) }
    ensures shorter { OnOk result (length reader.new < length reader.old) }
    ensures values { OnOk result (stack.new.values.items ≡ stack.old.values.items) }
    ensures members { OnOk result (stack.new.members.items ≡ stack.old.members.items) }
    ensures err { IfErr result (λ e. e ≢ JsonFault.Memory → items_first depth reader.old ≡ None) }
{
    let from = stack.values.len();
    'items: while !reader.take_end_array() {
        let value = tree(bump, stack, reader, depth)?;
        if stack.values.push(value).is_err() {
            return Err(JsonFault::Memory);
        }
    }
    match kept(bump, &mut stack.values, from) {
        Ok(values) => Ok(values),
        Err(_) => Err(JsonFault::Memory),
    }
}

/// Reads a key, or gives none at the end of an object.
#[inline(always)]
fn next_key<'t>(reader: &mut Reader<'t>) -> Result<Option<&'t str>, JsonFault>
    ensures { MatchResult result
        (λ k. read_key reader.old ≡ Some (option_map (λ s. s.now) k, reader.new))
        (λ _. read_key reader.old ≡ None) }
{
    match reader.next_key() {
        Ok(key) => Ok(key),
        Err(_) => Err(JsonFault::NotJson),
    }
}

/// Reads the members of an object, to its end.
#[cycle(tree)]
#[inline(never)]
fn members<'t, 'b>(
    bump: &'b Bump,
    stack: &mut Stack<'t, 'b>,
    reader: &mut Reader<'t>,
    depth: usize,
) -> Result<&'b [(&'t str, Tree<'t, 'b>)], JsonFault>
    ensures ok { IfOk result (λ ms. members_first depth reader.old ≡ Some (members_view ms.now, reader.new)) }
    ensures shorter { OnOk result (length reader.new < length reader.old) }
    ensures values { OnOk result (stack.new.values.items ≡ stack.old.values.items) }
    ensures members { OnOk result (stack.new.members.items ≡ stack.old.members.items) }
    ensures err { IfErr result (λ e. e ≢ JsonFault.Memory → members_first depth reader.old ≡ None) }
{
    let from = stack.members.len();
    'members: while let Some(key) = next_key(reader)? {
        let value = tree(bump, stack, reader, depth)?;
        if stack.members.push((key, value)).is_err() {
            return Err(JsonFault::Memory);
        }
    }
    match kept(bump, &mut stack.members, from) {
        Ok(members) => Ok(members),
        Err(_) => Err(JsonFault::Memory),
    }
}
