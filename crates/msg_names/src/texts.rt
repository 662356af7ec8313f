//! Interned texts, which may have any bytes. No text is ever removed.

ghost use Rattle.std.specs.Prelude.{◌≡◌, ◌≤◌, ◌↔◌, [], length, IfOk, IfSome, IsErrOf, OnErr, OnOk, Some, option_map};
ghost use Rattle.msg_names.specs.Name.{colons_of};
ghost use Rattle.msg_names.specs.Numbering.{AreNumbered, LacksName, number_of, with_name};
ghost use Rattle.msg_names.specs.Texts.{LacksPlaceFor, texts_of, text_at};
ghost use Rattle.msg_names.specs.declared.texts.TheConstants.{MAX_TEXTS};

use indexmap::IndexSet;
use std::alloc::Global;
use std::marker::Model;
use thiserror::Error;

/// The most texts that get numbers.
pub const MAX_TEXTS: usize = 4_294_967_295;

/// Why a text was not interned.
#[derive(Clone, Copy, Debug, PartialEq, Eq, Error)]
pub enum TextFault {
    #[error("too many texts")]
    TooMany,
    #[error("out of memory")]
    Memory,
}

/// Interned texts. `find` and `intern` hash a text once; `text` indexes.
#[derive(Drop)]
pub struct Texts {
    set: IndexSet<Vec<u8>>,
}

impl Model for Texts {
    ghost use Rattle.std.specs.Prelude.{ℕ, List};

    ghost Value = { List (List ℕ) };

    ghost use Rattle.msg_names.specs.TextsInside.{view_of, AreTexts};

    ghost view = { view_of };

    ghost invariant = { AreTexts };
}

impl Texts {
    /// No texts yet.
    pub fn new(alloc: Global) -> Texts
        ensures { result ≡ [] }
    {
        Texts {
            set: IndexSet::new(alloc),
        }
    }

    /// The number of texts.
    pub fn len(&self) -> usize
        ensures { result ≡ length self.now }
    {
        self.set.len()
    }

    /// Returns the number of a text, if it has one.
    pub fn find(&self, text: &[u8]) -> Option<u32>
        ensures { result ≡ number_of self.now text.now }
    {
        find_in(&self.set, text)
    }

    /// Returns the text with a number, if there is one.
    pub fn text(&self, number: u32) -> Option<&[u8]>
        ensures text { option_map (λ t. t.now) result ≡ text_at self.now number }
        ensures numbered { IfSome result (λ t. number_of self.now t.now ≡ Some number) }
    {
        text_in(&self.set, number)
    }

    /// Returns the number of colons in the text with a number. A selector with that name takes as
    /// many arguments.
    pub fn colons(&self, number: u32) -> Option<usize>
        ensures { result ≡ option_map colons_of (text_at self.now number) }
    {
        match self.text(number) {
            Some(text) => Some(colons_in(text)),
            None => None,
        }
    }

    /// Returns the number of a text. A new text gets the next number; only a new text needs memory.
    pub fn intern(&mut self, text: &[u8]) -> Result<u32, TextFault>
        ensures ok { IfOk result (λ n. number_of self.new text.now ≡ Some n) }
        ensures texts { OnOk result (self.new ≡ with_name self.old text.now) }
        ensures many { IsErrOf result TextFault.TooMany ↔ LacksPlaceFor self.old text.now }
        ensures memory { IsErrOf result TextFault.Memory → LacksName self.old text.now }
        ensures err { OnErr result (self.new ≡ self.old) }
    {
        intern_in(&mut self.set, text)
    }
}

fn find_in(set: &IndexSet<Vec<u8>>, text: &[u8]) -> Option<u32>
    requires { length set.now.keys ≤ MAX_TEXTS }
    ensures { result ≡ number_of (texts_of set.now.keys) text.now }
{
    let index = set.get_index_of(text)?;
    Some(index as u32 + 1)
}

fn text_in(set: &IndexSet<Vec<u8>>, number: u32) -> Option<&[u8]>
    requires { AreNumbered (texts_of set.now.keys) }
    ensures text { option_map (λ t. t.now) result ≡ text_at (texts_of set.now.keys) number }
    ensures numbered { IfSome result (λ t. number_of (texts_of set.now.keys) t.now ≡ Some number) }
{
    if number == 0 {
        return None;
    }
    let text = set.get_index(number as usize - 1)?;
    Some(text.as_slice())
}

fn colons_in(text: &[u8]) -> usize
    ensures { result ≡ colons_of text.now }
{
    text.iter().filter(|byte| **byte == b':').count()
}

fn copied(alloc: Global, text: &[u8]) -> Result<Vec<u8>, TextFault>
    ensures ok { IfOk result (λ copy. copy.items ≡ text.now) }
    ensures many { IsErrOf result TextFault.TooMany → ⊥ }
{
    let mut copy = Vec::new(alloc);
    match copy.extend_from_slice(text) {
        Ok(()) => Ok(copy),
        Err(_) => Err(TextFault::Memory),
    }
}

fn intern_in(set: &mut IndexSet<Vec<u8>>, text: &[u8]) -> Result<u32, TextFault>
    requires few { length set.old.keys ≤ MAX_TEXTS }
    requires numbered { AreNumbered (texts_of set.old.keys) }
    ensures ok { IfOk result (λ n. number_of (texts_of set.new.keys) text.now ≡ Some n) }
    ensures texts { OnOk result (texts_of set.new.keys ≡ with_name (texts_of set.old.keys) text.now) }
    ensures few { length set.new.keys ≤ MAX_TEXTS }
    ensures numbered { AreNumbered (texts_of set.new.keys) }
    ensures many { IsErrOf result TextFault.TooMany
        ↔ ((length set.old.keys ≡ MAX_TEXTS) × LacksName (texts_of set.old.keys) text.now) }
    ensures memory { IsErrOf result TextFault.Memory → LacksName (texts_of set.old.keys) text.now }
    ensures err { OnErr result (set.new.keys ≡ set.old.keys) }
{
    if let Some(number) = find_in(set, text) {
        return Ok(number);
    }
    if set.len() >= MAX_TEXTS {
        return Err(TextFault::TooMany);
    }
    let index = set.len();
    let alloc = *set.allocator();
    let copy = copied(alloc, text)?;
    let Ok(_) = set.insert(copy) else {
        return Err(TextFault::Memory);
    };
    Ok(index as u32 + 1)
}
