// The keys that have a vertex at one of their ends.
ghost use Rattle.std.specs.Prelude.{◌≡◌, ℕ, suc, ◌<◌, ◌≤◌, ◌^◌, length, slice_index, IfOk};
ghost use Rattle.nf_grove.specs.Grove.{AreLinked};
ghost use Rattle.nf_grove.specs.Room.{HasEnds};

use std::alloc::{AllocError, Global};

/// For one end of the keys: for each vertex the last key that has it there, and for each key the last one before it that
/// has the same vertex there. Both count from 1, and 0 is none.
#[derive(Drop)]
pub struct Adjacent {
    pub first: Vec<usize>,
    pub next: Vec<usize>,
}

impl Adjacent {
    /// Room for n keys over the vertices 0 to n. `AllocError` if memory runs out.
    pub fn new(alloc: Global, n: u32) -> Result<Adjacent, AllocError>
        ensures { IfOk result (HasEnds n) }
    {
        Ok(Adjacent {
            first: vec![in alloc; 0; n as usize + 1]?,
            next: vec![in alloc; 0; n as usize]?,
        })
    }
}

/// Links the keys that have the same vertex at this end, for each vertex.
pub(crate) fn link(at: &[usize], first: &mut [usize], next: &mut [usize])
    requires few { length at.now ≤ 2 ^ 30 }
    requires ends { (q : ℕ) → q < length at.now → slice_index at.now q < length first.old }
    requires room { length next.old ≡ length at.now }
    ensures { AreLinked at.now first.new next.new (length at.now) }
{
    for v in 0..first.len() {
        first[v] = 0;
    }
    for q in 0..at.len() {
        let v = at[q];
        next[q] = first[v];
        first[v] = q + 1;
    }
}
