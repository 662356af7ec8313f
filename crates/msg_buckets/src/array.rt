//! Arrays of buckets: how one is probed, and where an entry is put.
//!
//! A selector in its first place is hit after one load and one compare. A step to the next place
//! costs one load and three compares with a branch each: the selector, 0, and whether the probe has
//! gone round. LLVM builds it as eleven instructions of x86-64, with no bounds test and no
//! division.

ghost use Rattle.std.specs.Prelude.{◌≡◌, ◌≢◌, ℕ, ◌+◌, ◌<◌, length, slice_index};
ghost use Rattle.msg_names.specs.Number.{selector_number, imp_number};
ghost use Rattle.msg_buckets.specs.Capacity.{IsCapacity};
ghost use Rattle.msg_buckets.specs.Probing.{hit};
ghost use Rattle.msg_buckets.specs.Array.{find_in, hit_in, found_of, IfEmpty, OnWrapped, OnAt, placed_of, put_in, IsReachable, occupied_in};

use crate::places::{first_place, next_place};
use crate::word::{Look, look_at, pack};
use msg_names::{ImpRef, Selector};

/// What the probe of a selector finds.
#[derive(Clone, Copy, Debug, PartialEq, Eq)]
pub enum Probe {
    Hit(ImpRef),
    /// The empty bucket at this place, where the selector would go.
    Empty(usize),
    /// Neither: the probe went all round the array.
    Wrapped,
}

/// What was done with an entry.
#[derive(Clone, Copy, Debug, PartialEq, Eq)]
pub enum Placed {
    /// The selector was there already, with this implementation or another. Nothing has changed.
    Present,
    /// The entry was put at this place.
    At(usize),
    /// Every bucket belongs to another selector. Nothing has changed.
    Full,
}

/// Probes an array for a selector.
#[inline]
pub fn find(words: &[u64], selector: Selector) -> Probe
    requires { IsCapacity (length words.now) }
    ensures found { found_of result ≡ find_in words.now (selector_number selector) }
    ensures empty { IfEmpty result (λ place. (place < length words.now) × (slice_index words.now place ≡ 0)) }
    ensures full { OnWrapped result (occupied_in words.now ≡ length words.now) }
{
    let capacity = words.len() as u32;
    let mut place = first_place(selector, capacity);
    for _step in 0..words.len() {
        match look_at(words[place], selector) {
            Look::Hit(implementation) => return Probe::Hit(implementation),
            Look::Empty => return Probe::Empty(place),
            Look::Other => place = next_place(place, capacity),
        }
    }
    Probe::Wrapped
}

/// Puts an entry where the probe of its selector finds an empty bucket.
pub fn put(words: &mut [u64], selector: Selector, implementation: ImpRef) -> Placed
    requires { IsCapacity (length words.old) }
    ensures placed { result ≡ placed_of (find_in words.old (selector_number selector)) }
    ensures words { words.new ≡ put_in words.old (selector_number selector) (imp_number implementation) }
    ensures hit { OnAt result (find_in words.new (selector_number selector) ≡ hit (imp_number implementation)) }
    ensures counted { OnAt result (occupied_in words.new ≡ occupied_in words.old + 1) }
    ensures reachable { IsReachable words.old → IsReachable words.new }
    ensures others { IsReachable words.old
        → (sel : ℕ) → sel ≢ selector_number selector → hit_in words.new sel ≡ hit_in words.old sel }
{
    match find(words, selector) {
        Probe::Hit(_) => Placed::Present,
        Probe::Empty(place) => {
            words[place] = pack(selector, implementation);
            Placed::At(place)
        }
        Probe::Wrapped => Placed::Full,
    }
}
