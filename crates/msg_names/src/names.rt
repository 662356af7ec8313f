//! The names of selectors.

ghost use Rattle.std.specs.Prelude.{◌≡◌, ◌+◌, ◌<◌, ◌≤◌, ◌↔◌, [], length, option_map};
ghost use Rattle.std.specs.Prelude.{IfOk, IfSome, IsErrOf, IsTrue, OnErr, OnOk, false};
ghost use Rattle.msg_names.specs.Name as spec;
ghost use Rattle.msg_names.specs.Number.{selector_number};
ghost use Rattle.msg_names.specs.Numbering.{AreNames, IsSelectorOf, LacksName, LacksPlaceFor};
ghost use Rattle.msg_names.specs.Numbering.{number_of, name_of, texts_of, with_name};

use crate::name::{MAX_ARGUMENTS, colon_count, is_selector_name};
use crate::value::Selector;
use indexmap::IndexSet;
use std::alloc::Global;
use std::marker::Model;
use thiserror::Error;

/// The most names that fit.
pub const MAX_NAMES: usize = 4096;

/// Why a text was not interned.
#[derive(Clone, Copy, Debug, PartialEq, Eq, Error)]
pub enum NameFault {
    #[error("not a selector name")]
    BadName,
    #[error("too many selectors")]
    TooMany,
    #[error("out of memory")]
    Memory,
}

/// Interned selector names: a list in which the place of each name, from 1, is its number.
///
/// `find` and `intern` hash the text once; `text` and `colons` index.
#[derive(Drop)]
pub struct Names {
    set: IndexSet<String>,
}

impl Model for Names {
    ghost use Rattle.std.specs.Prelude.{ℕ, List};
    ghost use Rattle.msg_names.specs.Numbering.{AreNames, texts_of};

    ghost Value = { List (List ℕ) };

    ghost view = { λ n. texts_of n.set.keys };

    ghost invariant = { λ n. AreNames (texts_of n.set.keys) };
}

impl Names {
    /// No names yet.
    pub fn new(alloc: Global) -> Names
        ensures { result ≡ [] }
    {
        Names {
            set: IndexSet::new(alloc),
        }
    }

    /// The number of names.
    pub fn len(&self) -> usize
        ensures len { result ≡ length self.now }
        ensures names { AreNames self.now }
    {
        self.set.len()
    }

    pub fn is_empty(&self) -> bool
        ensures { IsTrue result ↔ (self.now ≡ []) }
    {
        self.set.is_empty()
    }

    /// Returns the selector with a name, if the list has the name.
    pub fn find(&self, text: &str) -> Option<Selector>
        ensures { option_map selector_number result ≡ number_of self.now text.now }
    {
        find_in(&self.set, text)
    }

    /// Returns the name of a selector. Only a selector whose number is above [`len`](Self::len) has
    /// none.
    pub fn text(&self, selector: Selector) -> Option<&str>
        ensures text { option_map (λ s. s.now) result ≡ name_of self.now selector }
        ensures numbered { IfSome result (λ s. IsSelectorOf self.now s.now selector) }
    {
        text_in(&self.set, selector)
    }

    /// Returns the number of arguments that a selector takes, which is the number of colons in its
    /// name.
    pub fn colons(&self, selector: Selector) -> Option<u8>
        ensures colons { result ≡ option_map spec.colons_of (name_of self.now selector) }
        ensures few { IfSome result (λ n. n ≤ MAX_ARGUMENTS) }
    {
        let text = text_in(&self.set, selector)?;
        Some(colon_count(text.as_bytes()) as u8)
    }

    /// Returns the selector with a name. A new name gets the next number; only a new name needs
    /// memory.
    pub fn intern(&mut self, text: &str) -> Result<Selector, NameFault>
        ensures ok { IfOk result (IsSelectorOf self.new text.now) }
        ensures names { OnOk result (self.new ≡ with_name self.old text.now) }
        ensures bad { IsErrOf result NameFault.BadName ↔ (spec.is_selector_name text.now ≡ false) }
        ensures many { IsErrOf result NameFault.TooMany ↔ LacksPlaceFor self.old text.now }
        ensures memory { IsErrOf result NameFault.Memory → LacksName self.old text.now }
        ensures err { OnErr result (self.new ≡ self.old) }
    {
        if !is_selector_name(text) {
            return Err(NameFault::BadName);
        }
        intern_in(&mut self.set, text)
    }
}

fn selector_at(index: usize) -> Selector
    requires { index < MAX_NAMES }
    ensures { selector_number result ≡ index + 1 }
{
    Selector::of(index as u32 + 1).unwrap()
}

fn find_in(set: &IndexSet<String>, text: &str) -> Option<Selector>
    requires { length set.now.keys ≤ MAX_NAMES }
    ensures { option_map selector_number result ≡ number_of (texts_of set.now.keys) text.now }
{
    let index = set.get_index_of(text)?;
    Some(selector_at(index))
}

fn text_in(set: &IndexSet<String>, selector: Selector) -> Option<&str>
    ensures { option_map (λ s. s.now) result ≡ name_of (texts_of set.now.keys) selector }
{
    let name = set.get_index(selector.number() as usize - 1)?;
    Some(name.as_str())
}

// Returns the selector with a name, which is valid.
fn intern_in(set: &mut IndexSet<String>, text: &str) -> Result<Selector, NameFault>
    requires few { length set.old.keys ≤ MAX_NAMES }
    ensures ok { IfOk result (IsSelectorOf (texts_of set.new.keys) text.now) }
    ensures names { OnOk result (texts_of set.new.keys ≡ with_name (texts_of set.old.keys) text.now) }
    ensures few { length set.new.keys ≤ MAX_NAMES }
    ensures bad { IsErrOf result NameFault.BadName → ⊥ }
    ensures many { IsErrOf result NameFault.TooMany
        ↔ ((length set.old.keys ≡ MAX_NAMES) × LacksName (texts_of set.old.keys) text.now) }
    ensures memory { IsErrOf result NameFault.Memory → LacksName (texts_of set.old.keys) text.now }
    ensures err { OnErr result (set.new.keys ≡ set.old.keys) }
{
    if let Some(selector) = find_in(set, text) {
        return Ok(selector);
    }
    if set.len() >= MAX_NAMES {
        return Err(NameFault::TooMany);
    }
    let index = set.len();
    let alloc = *set.allocator();
    let Ok(name) = String::from_str(alloc, text) else {
        return Err(NameFault::Memory);
    };
    let Ok(_) = set.insert(name) else {
        return Err(NameFault::Memory);
    };
    Ok(selector_at(index))
}
