//! Different names, numbered in the order in which they first came.

ghost use Rattle.std.specs.Prelude.{◌≡◌, [], length, not, IfOk, OnErr, OnOk};
ghost use Rattle.msg_names.specs.Numbering.{number_of, with_name};
ghost use Rattle.msg_form.specs.Text.{is_among, is_unknown, texts_view};

use indexmap::IndexSet;
use std::alloc::{AllocError, Global};
use std::marker::Model;

/// The most names that get numbers.
const MAX_NUMBERED: usize = 4_294_967_295;

/// Different texts of a document, numbered from 1 in the order in which they came. A look-up and an
/// insert each hash the text once.
#[derive(Drop)]
pub struct NameSet<'v> {
    names: IndexSet<&'v str>,
}

impl<'v> Model for NameSet<'v> {
    ghost use Rattle.std.specs.Prelude.{List};
    ghost use Rattle.msg_form.specs.Text.{Text, texts_view};
    ghost use Rattle.msg_form.specs.NameSet.{HasRoom};

    ghost Value = { List Text };

    ghost view = { λ s. texts_view s.names.keys };

    ghost invariant = { HasRoom };
}

impl<'v> NameSet<'v> {
    pub fn new(alloc: Global) -> NameSet<'v>
        ensures { result ≡ [] }
    {
        NameSet {
            names: IndexSet::new(alloc),
        }
    }

    pub(crate) fn len(&self) -> usize
        ensures { result ≡ length self.now }
    {
        self.names.len()
    }

    /// The names, in the order in which they were inserted.
    pub fn as_slice(&self) -> &[&'v str]
        ensures { texts_view result.now ≡ self.now }
    {
        self.names.as_slice()
    }

    pub(crate) fn has(&self, name: &str) -> bool
        ensures { result ≡ is_among name.now self.now }
    {
        self.names.contains(name)
    }

    pub(crate) fn lacks(&self, name: &str) -> bool
        ensures { result ≡ is_unknown self.now name.now }
    {
        !self.has(name)
    }

    /// Returns the number of a name, if the set has it.
    pub fn number(&self, name: &str) -> Option<u32>
        ensures { result ≡ number_of self.now name.now }
    {
        let index = self.names.get_index_of(name)?;
        Some(index as u32 + 1)
    }

    /// Adds a name, and returns whether it is new to the set. The set has no room for more than
    /// 4,294,967,295 names.
    pub fn insert(&mut self, name: &'v str) -> Result<bool, AllocError>
        ensures added { IfOk result (λ b. b ≡ not (is_among name.now self.old)) }
        ensures names { OnOk result (self.new ≡ with_name self.old name.now) }
        ensures err { OnErr result (self.new ≡ self.old) }
    {
        if self.names.len() >= MAX_NUMBERED {
            return Err(AllocError);
        }
        Ok(self.names.insert(name)?)
    }
}
