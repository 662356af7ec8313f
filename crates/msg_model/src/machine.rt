//! The machine.

ghost use Rattle.std.specs.Prelude.{◌≡◌, ◌<◌, nat_le, length, IfSome, None, [], ◌∷◌};
ghost use Rattle.msg_tables.specs.History.{lookup, log};
ghost use Rattle.msg_tables.specs.Several.{refusal_of_all};
ghost use Rattle.msg_names.specs.ClassRef.{slot_of};
ghost use Rattle.msg_model.specs.State.{capacity};
ghost use Rattle.msg_model.specs.Steps.{is_free, has_entry, disagrees, spoils, spoils_array};
ghost use Rattle.msg_model.specs.View.{layout_of, state_of, HasArray, IfHolding, IfLive};

use crate::buckets::Buckets;
use crate::spoiled::has_spoiled_word;
use crate::state::{Standing, Whereabouts};
use msg_buckets::unpack;
use msg_names::ClassRef;
use msg_tables::{Change, ChangeFault, Origin, Tables, Written};
use std::marker::Model;
use std::snapshot::Snapshot;

/// The state of the caches of an origin, on which events happen one at a time.
#[derive(Drop)]
pub struct Machine {
    pub(crate) origin: Snapshot<Origin>,
    pub(crate) changes: Vec<Change>,
    pub(crate) tables: Tables,
    // What the last change wrote. Its room is used again for the next.
    pub(crate) written: Written,
    pub(crate) live: Vec<Option<u32>>,
    pub(crate) arrays: Vec<Buckets>,
    pub(crate) standings: Vec<Standing>,
    pub(crate) whereabouts: Vec<Whereabouts>,
}

impl Model for Machine {
    ghost use Rattle.msg_model.specs.View.{MachineView};

    ghost Value = { MachineView };

    ghost use Rattle.msg_model.specs.Inside.{view_of, IsSoundMachine};

    ghost view = { view_of };

    ghost invariant = { IsSoundMachine };
}

impl Machine {
    pub(crate) fn lacks_sender(&self, sender: u32) -> bool
        ensures { result ≡ nat_le (layout_of self.now).senders sender }
    {
        self.whereabouts.len() <= sender as usize
    }

    pub(crate) fn lacks_class(&self, class: ClassRef) -> bool
        ensures { result ≡ nat_le (layout_of self.now).classes class.class }
    {
        self.live.len() <= 2 * class.class as usize
    }

    pub(crate) fn lacks_array(&self, array: u32) -> bool
        ensures { result ≡ nat_le (length (layout_of self.now).capacities) array }
    {
        self.arrays.len() <= array as usize
    }

    pub(crate) fn whereabouts_of(&self, sender: u32) -> Whereabouts
        requires { sender < (layout_of self.now).senders }
        ensures whereabouts { result ≡ (state_of self.now).whereabouts sender }
        ensures listed { IfHolding result (HasArray self.now) }
    {
        self.whereabouts[sender as usize]
    }

    pub(crate) fn live_array(&self, class: ClassRef) -> Option<u32>
        requires { class.class < (layout_of self.now).classes }
        ensures array { result ≡ (state_of self.now).live class }
        ensures listed { IfSome result (HasArray self.now) }
    {
        self.live[class.slot()]
    }

    pub(crate) fn standing(&self, array: usize) -> Standing
        requires { array < length (layout_of self.now).capacities }
        ensures standing { result ≡ (state_of self.now).standing array }
        ensures listed { IfLive result (λ class. class.class < (layout_of self.now).classes) }
    {
        self.standings[array]
    }

    pub(crate) fn capacity(&self, array: u32) -> usize
        requires { array < length (layout_of self.now).capacities }
        ensures { result ≡ capacity (layout_of self.now) array }
    {
        self.arrays[array as usize].capacity()
    }

    pub(crate) fn word(&self, array: u32, place: usize) -> u64
        requires array { array < length (layout_of self.now).capacities }
        requires place { place < capacity (layout_of self.now) array }
        ensures { result ≡ (state_of self.now).word array place }
    {
        self.arrays[array as usize].word(place)
    }

    pub(crate) fn is_free(&self, array: u32) -> bool
        requires { array < length (layout_of self.now).capacities }
        ensures { result ≡ is_free ((state_of self.now).standing array) }
    {
        matches!(self.standing(array as usize), Standing::Free)
    }

    // Whether some word of the array isn't 0.
    pub(crate) fn has_entry(&self, array: u32) -> bool
        requires { array < length (layout_of self.now).capacities }
        ensures { result ≡ has_entry lookup (layout_of self.now) (state_of self.now) array }
    {
        self.arrays[array as usize].has_entry()
    }

    // The fault for which the tables refuse the change.
    #[tactic(auto, using(crate::proofs::WholeLemmas::refused_alone))]
    pub(crate) fn change_refusal(&self, change: &Change) -> Option<ChangeFault>
        ensures { result ≡ refusal_of_all (log (state_of self.now).history) (change.now ∷ []) }
    {
        self.tables.refusal(change)
    }

    // Whether the word has no selector, or its implementation is not the one that is looked up for
    // it.
    pub(crate) fn disagrees(&self, class: ClassRef, word: u64) -> bool
        requires { class.class < (layout_of self.now).classes }
        ensures { result ≡ disagrees (lookup (state_of self.now).history) class word }
    {
        match unpack(word) {
            Some((sel, imp)) => self.tables.lookup(class, sel) != imp,
            None => true,
        }
    }

    // Whether a live array has a word that would not agree with the method lists after the change.
    pub(crate) fn spoils(&self, change: &Change) -> bool
        requires { refusal_of_all (log (state_of self.now).history) (change.now ∷ []) ≡ None }
        ensures { result ≡ spoils lookup (layout_of self.now) (state_of self.now) (change.now ∷ []) }
    {
        for array in 0..self.arrays.len() {
            if self.is_spoiled(array, change) {
                return true;
            }
        }
        false
    }

    // Whether an array is live and has such a word.
    fn is_spoiled(&self, array: usize, change: &Change) -> bool
        requires array { array < length (layout_of self.now).capacities }
        requires accepted { refusal_of_all (log (state_of self.now).history) (change.now ∷ []) ≡ None }
        ensures { result ≡ spoils_array lookup (layout_of self.now) (state_of self.now) (change.now ∷ []) array }
    {
        match self.standing(array) {
            Standing::Live(class) => {
                has_spoiled_word(&self.tables, change, class, &self.arrays[array])
            }
            Standing::Free | Standing::Retired(_, _, _) => false,
        }
    }
}
