//! A set of small numbers.
ghost use Rattle.std.specs.Prelude.{◌≡◌, ◌/◌, ◌<◌, length, IfOk};
ghost use Rattle.nf_bits.specs.Bits.{has_number, with_number};

use std::alloc::{AllocError, Global};
use std::marker::Model;

/// A set of numbers below a bound, with one bit for each, so that it stays small.
#[derive(Drop)]
pub struct BitSet {
    words: Vec<u64>,
}

impl Model for BitSet {
    ghost use Rattle.std.specs.Prelude.{List, ℕ};

    ghost Value = { List ℕ };

    ghost view = { λ s. s.words.items };
}

impl BitSet {
    /// No numbers, where they are to be below `bound`. `AllocError` if there is no memory for the bits.
    pub fn new(alloc: Global, bound: usize) -> Result<BitSet, AllocError>
        ensures room { IfOk result (λ s. bound / 64 < length s) }
    {
        let len = bound / 64 + 1;
        let mut words: Vec<u64> = Vec::with_capacity(alloc, len)?;
        words.resize(len, 0)?;
        Ok(BitSet { words })
    }

    /// Whether it has a number.
    pub fn has(&self, number: usize) -> bool
        requires room { number / 64 < length self.now }
        ensures { result ≡ has_number self.now number }
    {
        (self.words[number / 64] >> (number % 64)) & 1 == 1
    }

    /// Adds a number.
    pub fn insert(&mut self, number: usize)
        requires room { number / 64 < length self.old }
        ensures { self.new ≡ with_number self.old number }
    {
        self.words[number / 64] |= 1 << (number % 64);
    }
}
