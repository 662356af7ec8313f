//! The words of one array.

ghost use Rattle.std.specs.Prelude.{◌≡◌, ◌<◌, length, replicate, slice_index, slice_set, IfOk};
ghost use Rattle.msg_model.specs.Steps.{some_below, is_entry};

use std::alloc::{AllocError, Global};
use std::marker::Model;

#[derive(Drop)]
pub(crate) struct Buckets {
    words: Vec<u64>,
}

impl Model for Buckets {
    ghost use Rattle.std.specs.Prelude.{ℕ, List};

    ghost Value = { List ℕ };

    ghost view = { λ b. b.words.items };
}

impl Buckets {
    // An array of empty buckets.
    pub(crate) fn empty(alloc: Global, capacity: u32) -> Result<Buckets, AllocError>
        ensures { IfOk result (λ words. words ≡ replicate capacity 0) }
    {
        Ok(Buckets {
            words: vec![in alloc; 0; capacity as usize]?,
        })
    }

    pub(crate) fn capacity(&self) -> usize
        ensures { result ≡ length self.now }
    {
        self.words.len()
    }

    pub(crate) fn word(&self, place: usize) -> u64
        requires { place < length self.now }
        ensures { result ≡ slice_index self.now place }
    {
        self.words[place]
    }

    pub(crate) fn store(&mut self, place: usize, word: u64)
        requires { place < length self.old }
        ensures { self.new ≡ slice_set self.old place word }
    {
        self.words[place] = word;
    }

    // Whether some word isn't 0.
    pub(crate) fn has_entry(&self) -> bool
        ensures { result ≡ some_below (length self.now) (λ p. is_entry (slice_index self.now p)) }
    {
        for place in 0..self.words.len() {
            if self.words[place] != 0 {
                return true;
            }
        }
        false
    }
}
