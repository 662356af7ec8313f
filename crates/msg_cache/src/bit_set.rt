//! A set of numbers, as words of bits.

ghost use Rattle.std.specs.Prelude.{◌≡◌, ◌/◌, ◌+◌, ◌*◌, ◌^◌, ◌<◌, ◌≤◌, ℕ, length, replicate, slice_index_or, slice_set, true, false, IfOk, IfSome, IfNone};
ghost use Rattle.msg_cache.specs.BitSet.{HasNone, IsFirst};

use std::alloc::{AllocError, Global};
use std::marker::Model;

/// A set of numbers below a limit.
#[derive(Drop)]
pub(crate) struct BitSet {
    // a bit for each number, 64 numbers to a word
    words: Vec<u64>,
    limit: usize,
}

impl Model for BitSet {
    ghost use Rattle.std.specs.Prelude.{List, Bool};

    ghost Value = { List Bool };

    ghost use Rattle.msg_cache.specs.BitSet.{set_view, IsBitSet};

    ghost view = { set_view };

    ghost invariant = { IsBitSet };
}

impl BitSet {
    // Makes the set of all numbers below the limit.
    pub(crate) fn all(alloc: Global, limit: usize) -> Result<BitSet, AllocError>
        requires { limit < 2 ^ 32 }
        ensures { IfOk result (λ s. s ≡ replicate limit true) }
    {
        let words = vec![in alloc; u64::MAX; limit / 64 + 1]?;
        Ok(BitSet { words, limit })
    }

    // A bound above every number that the set can have.
    pub(crate) fn limit(&self) -> usize
        ensures { result ≡ length self.now }
    {
        self.limit
    }

    // Adds a number.
    pub(crate) fn insert(&mut self, number: usize)
        requires { number < length self.old }
        ensures { self.new ≡ slice_set self.old number true }
    {
        self.words[number / 64] |= 1 << (number % 64);
    }

    // Removes a number.
    pub(crate) fn remove(&mut self, number: usize)
        requires { number < length self.old }
        ensures { self.new ≡ slice_set self.old number false }
    {
        self.words[number / 64] &= !(1 << (number % 64));
    }

    // The lowest number of the set from one on, in the word of that number.
    pub(crate) fn first_in_word(&self, from: usize) -> Option<usize>
        requires { from < length self.now }
        ensures none { IfNone result (HasNone self.now from (64 * (from / 64 + 1))) }
        ensures some { IfSome result (IsFirst self.now from) }
        ensures word { IfSome result (λ found. found / 64 ≡ from / 64) }
        ensures few { length self.now < 2 ^ 32 }
    {
        let rest = self.words[from / 64] >> (from % 64);
        if rest == 0 {
            return None;
        }
        let found = from + rest.trailing_zeros() as usize;
        if found < self.limit {
            Some(found)
        } else {
            None
        }
    }

    // The lowest number of the set from one on. It looks at one word after another.
    pub(crate) fn first_from(&self, from: usize) -> Option<usize>
        ensures none { IfNone result (HasNone self.now from (length self.now)) }
        ensures some { IfSome result (IsFirst self.now from) }
    {
        let mut at = from;
        while at < self.limit {
            if let Some(found) = self.first_in_word(at) {
                return Some(found);
            }
            at = 64 * (at / 64 + 1);
        }
        None
    }
}
