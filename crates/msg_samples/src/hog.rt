//! A process without free memory.

ghost use Rattle.std.specs.Prelude.{◌≡◌, ◌<◌, ◌≤◌, ◌+◌, [], true, false, length, IfOk, OnOk};
ghost use Rattle.msg_samples.specs.declared.hog.TheConstants.{PIECES};

use std::alloc::{AllocError, Global};
use std::env::{self, Env};

// The most blocks that are taken.
const MOST: usize = 1 << 20;

// The number of pieces that can be freed one by one, and the size of each in bytes.
const PIECES: usize = 4096;

const PIECE: usize = 200;

/// Holds all the memory that the process can have.
#[derive(Drop)]
pub struct Hog {
    blocks: Vec<Vec<u8>>,
    pieces: Vec<Vec<u8>>,
}

impl Hog {
    /// Takes all memory that is free.
    ///
    /// If there is no environment nothing is taken: so tests are tried without a proof, over an
    /// allocator that has more memory than there is.
    pub fn new<R: Env + AllocGlobal>(rt: &R) -> Result<Hog, AllocError>
        ensures pieces { IfOk result (λ h. 0 < length h.blocks.items → length h.pieces.items ≡ PIECES) }
    {
        let alloc = rt.alloc();
        let mut hog = Hog {
            blocks: Vec::with_capacity(alloc, MOST)?,
            pieces: Vec::with_capacity(alloc, PIECES)?,
        };
        if env::var(rt, "PATH").is_ok() {
            hog.keep_pieces(alloc)?;
            hog.take_all(alloc);
        }
        Ok(hog)
    }

    fn keep_pieces(&mut self, alloc: Global) -> Result<(), AllocError>
        ensures pieces { OnOk result (length self.new.pieces.items ≡ length self.old.pieces.items + PIECES) }
        ensures blocks { self.new.blocks.items ≡ self.old.blocks.items }
    {
        for _piece in 0..PIECES {
            self.pieces.push(Vec::with_capacity(alloc, PIECE)?)?;
        }
        Ok(())
    }

    // Takes blocks that are only reserved: from more than an address space has down to the
    // smallest.
    fn take_all(&mut self, alloc: Global)
        ensures pieces { self.new.pieces.items ≡ self.old.pieces.items }
        ensures blocks { length self.old.blocks.items ≤ length self.new.blocks.items }
    {
        let mut size = 1 << 46;
        for _halving in 0..35 {
            self.take(alloc, size);
            size /= 2;
        }
        for _step in 0..128 {
            self.take(alloc, size);
            size = size.saturating_sub(16);
        }
    }

    /// Takes what has become free since, if it took all before.
    pub fn fill(&mut self, alloc: Global)
        ensures pieces { self.new.pieces.items ≡ self.old.pieces.items }
        ensures blocks { length self.old.blocks.items ≤ length self.new.blocks.items }
        ensures empty { length self.old.blocks.items ≡ 0 → self.new.blocks.items ≡ [] }
    {
        if self.is_full() {
            self.take_all(alloc);
        }
    }

    // Takes blocks of a size until none is left.
    fn take(&mut self, alloc: Global, size: usize)
        ensures pieces { self.new.pieces.items ≡ self.old.pieces.items }
        ensures blocks { length self.old.blocks.items ≤ length self.new.blocks.items }
    {
        for _block in 0..MOST {
            let Ok(block) = Vec::with_capacity(alloc, size) else {
                return;
            };
            if self.blocks.push(block).is_err() {
                return;
            }
        }
    }

    /// Whether all memory was taken.
    pub fn is_full(&self) -> bool
        ensures full { result ≡ true → 0 < length self.now.blocks.items }
        ensures empty { result ≡ false → length self.now.blocks.items ≡ 0 }
    {
        !self.blocks.is_empty()
    }

    /// Gives a little memory back, and more once it has done so some thousand times. Says whether
    /// there was any.
    pub fn give_back(&mut self) -> bool
        ensures none { result ≡ false → (length self.old.pieces.items ≡ 0) × (length self.old.blocks.items ≡ 0) }
        ensures one { result ≡ true → length self.old.pieces.items + length self.old.blocks.items
            ≡ length self.new.pieces.items + length self.new.blocks.items + 1 }
    {
        self.pieces.pop().is_some() || self.blocks.pop().is_some()
    }
}
