// The tree while it is made.
ghost use Rattle.std.specs.Prelude.{IfOk};
ghost use Rattle.nf_grove.specs.Room.{HasLists};

use nf_links::Links;
use std::alloc::{AllocError, Global};

/// The tree over the root 0 and the nodes 1 to n: its links, the key of each node, the preorder, and the lists of the
/// walk that makes them.
#[derive(Drop)]
pub struct Grove {
    /// 0 for a vertex that was not met, i + 1 for the i-th that was visited, n + 2 + h for one that waits at height h.
    pub seat: Vec<usize>,
    /// The vertices that were visited, in preorder.
    pub order: Vec<usize>,
    pub visited: usize,
    /// The vertices that were met and wait to be visited.
    pub stack: Vec<usize>,
    pub waiting: usize,
    /// For each node the key to its predecessor, by the key's place in its list.
    pub key: Vec<usize>,
    /// The links of the tree.
    pub links: Links,
}

impl Grove {
    /// Room for a tree over the vertices 0 to n. `AllocError` if memory runs out.
    pub fn new(alloc: Global, n: u32) -> Result<Grove, AllocError>
        ensures { IfOk result (HasLists n) }
    {
        let size = n as usize + 1;
        Ok(Grove {
            seat: vec![in alloc; 0; size]?,
            order: vec![in alloc; 0; size]?,
            visited: 0,
            stack: vec![in alloc; 0; size]?,
            waiting: 0,
            key: vec![in alloc; 0; size]?,
            links: Links::new(alloc, n)?,
        })
    }
}
