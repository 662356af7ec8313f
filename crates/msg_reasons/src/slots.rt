//! What was found before, and may be found again.

ghost use Rattle.std.specs.Prelude.{◌≡◌, [], IfOk, IfSome};
ghost use Rattle.std.specs.List.{Contains};
ghost use Rattle.msg_reasons.specs.Slots.{Remembers};

use msg_names::{ClassRef, Selector};
use std::alloc::{AllocError, Global};

const SLOTS: usize = 4096;

// Items, each found by its slot until another takes that. If there are too many, all are forgotten.
#[derive(Drop)]
pub(crate) struct Slots<T> {
    pub(crate) kept: Vec<T>,
    // The last place in `kept` of a slot. By now it may have another slot's item, or none.
    places: Vec<usize>,
}

/// The slot of a selector and a class reference. The slots of one class are consecutive.
pub(crate) fn slot(class: ClassRef, sel: Selector) -> usize {
    (class.slot() * 61 + sel.number() as usize) & (SLOTS - 1)
}

impl<T: Drop> Slots<T> {
    pub(crate) fn none(alloc: Global) -> Result<Slots<T>, AllocError>
        ensures { IfOk result (λ slots. slots.kept.items ≡ []) }
    {
        Ok(Slots {
            kept: Vec::new(alloc),
            places: vec![in alloc; 0; SLOTS]?,
        })
    }

    // Forgets all items.
    pub(crate) fn forget(&mut self)
        ensures { self.new.kept.items ≡ [] }
    {
        self.kept.clear();
    }

    // The item that may be the slot's.
    pub(crate) fn get(&self, slot: usize) -> Option<&T>
        ensures { IfSome result (λ item. Contains self.now.kept.items item.now) }
    {
        let place = *self.places.get(slot)?;
        self.kept.get(place)
    }

    // Keeps an item, if there is memory for it.
    pub(crate) fn add(&mut self, slot: usize, item: T)
        ensures { Remembers item self.old.kept.items self.new.kept.items }
    {
        let place = self.kept.len();
        if place == SLOTS {
            self.kept.clear();
            return;
        }
        if self.kept.push(item).is_ok() && slot < self.places.len() {
            self.places[slot] = place;
        }
    }
}
