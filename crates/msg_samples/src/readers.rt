//! One text read by `serde_json` and by `msg_json`.

ghost use Rattle.std.specs.Prelude.{◌≡◌, IsUtf8, None, is_some, true};
ghost use Rattle.serde_json.specs.Read.{read as read_text};
ghost use Rattle.msg_samples.specs.declared.readers.Readings.TheVariants as Readings;

use msg_json::{Bump, JsonFault, Scratch, Tree, get, has_keys, read};
use serde_json::{Error, Map, Value};
use std::alloc::Global;

/// The result of reading a text with both readers.
#[derive(Clone, Copy, Debug, PartialEq, Eq, Drop)]
pub enum Readings {
    /// One value.
    Same,
    /// Neither reads it, and memory wasn't lacking.
    Refused,
    /// Anything else.
    Different,
}

/// Reads the text by both.
pub fn read_by_both(alloc: Global, text: &[u8]) -> Readings
    ensures same { result ≡ Readings.Same → IsUtf8 text.now × (is_some (read_text text.now) ≡ true) }
    ensures refused { result ≡ Readings.Refused → IsUtf8 text.now → read_text text.now ≡ None }
{
    let mut scratch = Scratch::new(alloc);
    let bump = Bump::new(alloc);
    beside(
        alloc,
        &bump,
        text,
        &mut scratch,
        &Value::from_slice(alloc, text),
    )
}

// The text read by `msg_json`, beside what `serde_json` has read of it.
fn beside<'t>(
    alloc: Global,
    bump: &'t Bump,
    text: &'t [u8],
    scratch: &'t mut Scratch,
    value: &Result<Value, Error>,
) -> Readings
    ensures same { result ≡ Readings.Same → IsUtf8 text.now × (is_some (read_text text.now) ≡ true) }
    ensures refused { result ≡ Readings.Refused → IsUtf8 text.now → read_text text.now ≡ None }
{
    match (read(alloc, bump, text, scratch), value) {
        (Ok(tree), Ok(value)) if is_value(&tree, value, 128) => Readings::Same,
        (Err(JsonFault::NotJson), Err(error)) if !error.is_memory() => Readings::Refused,
        _ => Readings::Different,
    }
}

// The tree is the value, whose lists and objects nest less deeply than `depth`.
#[cycle(is_value)]
fn is_value(tree: &Tree<'_, '_>, value: &Value, depth: u32) -> bool {
    if depth == 0 {
        return false;
    }
    match (tree, value) {
        (Tree::Null, Value::Null) => true,
        (Tree::Bool(truth), Value::Bool(other)) => truth == other,
        (Tree::Number(number), Value::Number(other)) => number == other,
        (Tree::Text(text), Value::String(other)) => *text == other.as_str(),
        (Tree::Array(values), Value::Array(others)) => are_values(values, others, depth - 1),
        (Tree::Object(_), Value::Object(members)) => has_members(tree, members, depth - 1),
        _ => false,
    }
}

#[cycle(is_value)]
fn are_values(trees: &[Tree<'_, '_>], values: &[Value], depth: u32) -> bool {
    if trees.len() != values.len() {
        return false;
    }
    for (tree, value) in trees.iter().zip(values) {
        if !is_value(tree, value, depth) {
            return false;
        }
    }
    true
}

#[cycle(is_value)]
fn has_members(tree: &Tree<'_, '_>, members: &Map<String, Value>, depth: u32) -> bool {
    if !has_keys(tree, members.len()) {
        return false;
    }
    for (key, value) in members {
        match get(tree, key.as_str()) {
            Some(member) if is_value(member, value, depth) => {}
            _ => return false,
        }
    }
    true
}
