//! The candidate queue.
ghost use Rattle.std.specs.Prelude.{◌≡◌, ◌<◌, ◌≤◌, [], ◌∷◌, ◌++◌, ℕ, length, IfOk};
ghost use Rattle.nf_price.specs.Queue.{AreDistinct, IsAmong};

use arrayvec::ArrayVec;
use std::alloc::{AllocError, Global};
use std::marker::Model;

/// Numbers of columns that are candidates to enter, at most 999 and none twice, in the order in which they are tried.
/// They count columns from 1 as the cursor does. Contracts see the list of the numbers.
///
/// It has room for all of them from the start: no call takes memory later.
#[derive(Drop)]
pub struct Queue {
    items: ArrayVec<u32, 999>,
}

impl Model for Queue {
    ghost use Rattle.std.specs.Prelude.{List, ℕ};
    ghost use Rattle.nf_price.specs.Queue.{AreDistinct};

    ghost Value = { List ℕ };

    ghost view = { λ q. q.items.items };

    ghost invariant = { λ q. AreDistinct q.items.items };
}

impl Queue {
    /// An empty queue. Its room is within the value, so that memory never runs out.
    pub fn new(_alloc: Global) -> Result<Queue, AllocError>
        ensures { IfOk result (λ q. q ≡ []) }
    {
        Ok(Queue::empty())
    }

    // An empty queue.
    pub(crate) fn empty() -> Queue
        ensures { result ≡ [] }
    {
        Queue {
            items: ArrayVec::new(),
        }
    }

    /// Adds a number at the end.
    pub fn push(&mut self, number: u32)
        requires room { length self.old < 999 }
        requires fresh { IsAmong number self.old → ⊥ }
        ensures { self.new ≡ self.old ++ number ∷ [] }
    {
        self.items.push(number);
    }

    /// The numbers, from the front.
    pub fn items(&self) -> &[u32]
        ensures value { result.now ≡ self.now }
        ensures most { length result.now ≤ 999 }
        ensures distinct { AreDistinct result.now }
    {
        self.items.as_slice()
    }

    /// An equal queue.
    pub fn copy(&self, _alloc: Global) -> Result<Queue, AllocError>
        ensures { IfOk result (λ q. q ≡ self.now) }
    {
        let mut made = Queue::empty();
        for k in 0..self.items().len() {
            made.push(self.items()[k]);
        }
        Ok(made)
    }

    /// Removes all numbers.
    pub fn clear(&mut self)
        ensures { self.new ≡ [] }
    {
        self.items.clear();
    }

    // Removes the front.
    pub(crate) fn drop_front(&mut self)
        requires some { 0 < length self.old }
        ensures { (front : ℕ) × (self.old ≡ front ∷ self.new) }
    {
        self.items.remove(0);
    }
}
