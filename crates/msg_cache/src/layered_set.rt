//! A set of numbers in layers: a second set says which words of the first have some, and a third
//! says the same of the second.

ghost use Rattle.std.specs.Prelude.{◌≡◌, ◌/◌, ◌+◌, ◌*◌, ◌^◌, ◌<◌, ◌≤◌, length, replicate, slice_set, true, false, IsTrue, IfOk, IfSome, IfNone};
ghost use Rattle.msg_cache.specs.BitSet.{HasNone, HasSomeInWord, IsFirst};
ghost use Rattle.msg_cache.specs.LayeredSet.{IsSummary};

use crate::bit_set::BitSet;
use std::alloc::{AllocError, Global};
use std::marker::Model;

/// A set of numbers below a limit. Finding its lowest number from one on takes at most five loads
/// if the limit is at most 262,144, which no arena's number of arrays exceeds. Adding a number
/// writes three words, and removing one at most three.
#[derive(Drop)]
pub(crate) struct LayeredSet {
    numbers: BitSet,
    // which words of the numbers have some
    words: BitSet,
    // which words of those have some
    blocks: BitSet,
}

impl Model for LayeredSet {
    ghost use Rattle.std.specs.Prelude.{List, Bool};

    ghost Value = { List Bool };

    ghost use Rattle.msg_cache.specs.LayeredSet.{layered_view, IsLayered};

    ghost view = { layered_view };

    ghost invariant = { IsLayered };
}

// The number of words for this number of bits.
fn words_of(bits: usize) -> usize
    requires { bits < 2 ^ 32 }
    ensures { (bits ≤ 64 * result) × (64 * result < bits + 64) }
{
    (bits + 63) / 64
}

// Removes a number, and returns whether its word is then empty.
fn take_out(set: &mut BitSet, number: usize) -> bool
    requires { number < length set.old }
    ensures set { set.new ≡ slice_set set.old number false }
    ensures last { IsTrue result → HasNone set.new (64 * (number / 64)) (64 * (number / 64 + 1)) }
    ensures others { result ≡ false → HasSomeInWord set.new (number / 64) }
{
    set.remove(number);
    set.first_in_word(64 * (number / 64)).is_none()
}

// The lowest of the words that have some, from one on.
#[tactic(auto, using(crate::proofs::LayeredLemmas::over_none, crate::proofs::LayeredLemmas::over_first))]
fn first_word(words: &BitSet, blocks: &BitSet, from: usize) -> Option<usize>
    requires summary { IsSummary words.now blocks.now }
    ensures none { IfNone result (HasNone words.now from (length words.now)) }
    ensures some { IfSome result (IsFirst words.now from) }
{
    if from >= words.limit() {
        return None;
    }
    if let Some(found) = words.first_in_word(from) {
        return Some(found);
    }
    let block = blocks.first_from(from / 64 + 1)?;
    words.first_in_word(64 * block)
}

impl LayeredSet {
    // Makes the set of all numbers below the limit.
    #[tactic(auto, using(crate::proofs::LayeredLemmas::summary_all))]
    pub(crate) fn all(alloc: Global, limit: usize) -> Result<LayeredSet, AllocError>
        requires { limit < 2 ^ 32 }
        ensures { IfOk result (λ s. s ≡ replicate limit true) }
    {
        let words = words_of(limit);
        Ok(LayeredSet {
            numbers: BitSet::all(alloc, limit)?,
            words: BitSet::all(alloc, words)?,
            blocks: BitSet::all(alloc, words_of(words))?,
        })
    }

    // Adds a number.
    pub(crate) fn insert(&mut self, number: usize)
        requires { number < length self.old }
        ensures { self.new ≡ slice_set self.old number true }
    {
        self.numbers.insert(number);
        self.words.insert(number / 64);
        self.blocks.insert(number / 64 / 64);
    }

    // Removes a number.
    #[tactic(auto, using(crate::proofs::LayeredLemmas::summary_left, crate::proofs::LayeredLemmas::summary_last))]
    pub(crate) fn remove(&mut self, number: usize)
        requires { number < length self.old }
        ensures { self.new ≡ slice_set self.old number false }
    {
        if take_out(&mut self.numbers, number) && take_out(&mut self.words, number / 64) {
            self.blocks.remove(number / 64 / 64);
        }
    }

    // The lowest number of the set from one on.
    #[tactic(auto, using(crate::proofs::LayeredLemmas::over_none, crate::proofs::LayeredLemmas::over_first))]
    fn first_from(&self, from: usize) -> Option<usize>
        requires { from < length self.now }
        ensures none { IfNone result (HasNone self.now from (length self.now)) }
        ensures some { IfSome result (IsFirst self.now from) }
    {
        if let Some(found) = self.numbers.first_in_word(from) {
            return Some(found);
        }
        let word = first_word(&self.words, &self.blocks, from / 64 + 1)?;
        self.numbers.first_in_word(64 * word)
    }

    // The lowest number of the set from one up to another.
    pub(crate) fn first(&self, from: usize, until: usize) -> Option<usize>
        requires { until ≤ length self.now }
        ensures none { IfNone result (HasNone self.now from until) }
        ensures some { IfSome result (λ found. (found < until) × IsFirst self.now from found) }
    {
        if from >= until {
            return None;
        }
        let found = self.first_from(from)?;
        if found < until { Some(found) } else { None }
    }
}
