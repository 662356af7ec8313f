//! What a list of changes wrote.

ghost use Rattle.std.specs.Prelude.{◌≡◌, ◌<◌, ◌≤◌, ℕ, [], IfOk, IfSome, OnErr};
ghost use Rattle.std.specs.Vec.{vec_capacity};
ghost use Rattle.msg_tables.specs.ChangeList.{change_of};
ghost use Rattle.msg_tables.specs.Journal.{NamesListed, place_of, undo_entry, undo_journal};

use crate::change::ChangeRef;
use crate::change_list::ChangeList;
use msg_names::{ClassRef, ImpRef, Selector};
use std::alloc::{AllocError, Global};
use std::marker::Model;

/// One thing that a change of a list wrote: a row, or a class.
#[derive(Clone, Copy, Debug, PartialEq, Eq)]
pub enum Entry {
    /// A row was added at the end of the rows of a class reference.
    Added {
        class: ClassRef,
        sel: Selector,
    },
    /// An own row, which had this implementation, got another.
    Rewrote {
        class: ClassRef,
        sel: Selector,
        imp: ImpRef,
    },
    /// A row was removed from this place of the rows of a class reference.
    Removed {
        class: ClassRef,
        sel: Selector,
        imp: ImpRef,
        place: usize,
    },
    /// A class was made.
    Made {
        class: u32,
    },
    /// A class was removed from this place of the order.
    Disposed {
        class: u32,
        superclass: Option<u32>,
        place: usize,
    },
}

impl Entry {
    /// The class reference at which a row was added, rewritten or removed. Only lookups from it and
    /// from those below it can find something else.
    pub fn place(self) -> Option<ClassRef>
        ensures place { result ≡ place_of self }
        ensures listed { (n : ℕ) → NamesListed n self → IfSome result (λ p. p.class < n) }
    {
        match self {
            Entry::Added { class, .. } => Some(class),
            Entry::Rewrote { class, .. } => Some(class),
            Entry::Removed { class, .. } => Some(class),
            Entry::Made { .. } | Entry::Disposed { .. } => None,
        }
    }

    /// The change that undoes the entry.
    pub fn undo(self) -> ChangeRef<'static>
        ensures { change_of result ≡ undo_entry self }
    {
        match self {
            Entry::Added { class, sel } => ChangeRef::Remove { class, sel },
            Entry::Rewrote { class, sel, imp } => ChangeRef::Replace { class, sel, imp },
            Entry::Removed {
                class,
                sel,
                imp,
                ..
            } => ChangeRef::Cover { class, sel, imp },
            Entry::Made { class } => ChangeRef::DisposeClass { class },
            Entry::Disposed {
                class,
                superclass,
                ..
            } => ChangeRef::AddClass { class, superclass },
        }
    }
}

/// What a list of changes wrote, from the first entry to the last, and room for more.
#[derive(Drop)]
pub struct Written {
    pub(crate) entries: Vec<Entry>,
}

impl Model for Written {
    ghost use Rattle.msg_tables.specs.Noted.{WrittenView, written_of};

    ghost Value = { WrittenView };

    ghost view = { written_of };
}

impl Written {
    /// The record of no changes, without room for entries.
    pub fn none(alloc: Global) -> Written
        ensures { result.entries ≡ [] }
    {
        Written {
            entries: Vec::new(alloc),
        }
    }

    /// The record of no changes, with room for this number of entries.
    pub fn with_room(alloc: Global, entries: usize) -> Result<Written, AllocError>
        ensures none { IfOk result (λ w. w.entries ≡ []) }
        ensures room { IfOk result (λ w. entries ≤ w.room) }
    {
        Ok(Written {
            entries: Vec::with_capacity(alloc, entries)?,
        })
    }

    /// The changes that take the list back if they are made directly after it, the last first. They
    /// are read from the entries, so they need no memory.
    pub fn way_back(&self) -> WayBack<'_>
        ensures { result ≡ undo_journal self.now.entries }
    {
        WayBack {
            entries: &self.entries,
        }
    }

    /// The entries.
    pub fn as_slice(&self) -> &[Entry]
        ensures { result.now ≡ self.now.entries }
    {
        self.entries.as_slice()
    }
}

/// The changes that take a list back if they are made directly after it: one for each entry, the
/// last first.
#[derive(Drop)]
pub struct WayBack<'w> {
    entries: &'w [Entry],
}

impl<'w> Model for WayBack<'w> {
    ghost use Rattle.std.specs.Prelude.{List};
    ghost use Rattle.msg_tables.specs.declared.change.Change.{Change};
    ghost use Rattle.msg_tables.specs.Journal.{undo_journal};

    ghost Value = { List Change };

    ghost view = { λ w. undo_journal w.entries.now };
}

impl<'w> ChangeList for WayBack<'w> {
    ghost changes = { λ way. way };

    fn len(&self) -> usize {
        self.entries.len()
    }

    fn get(&self, place: usize) -> ChangeRef<'_> {
        self.entries[self.entries.len() - 1 - place].undo()
    }
}
