// The links that begin at a vertex.
ghost use Rattle.std.specs.Prelude.{◌≡◌, ℕ, suc, ◌<◌, ◌≤◌, ◌^◌, length, slice_index, IfOk};
ghost use Rattle.std.specs.List.{All};
ghost use Rattle.nf_view.specs.Parts.{IsBetween};
ghost use Rattle.nf_view.specs.Walk.{IsListing};

use crate::links::Link;
use std::alloc::{AllocError, Global};

// For each vertex the last link that begins there, and for each link the one before that begins at the same vertex. Both
// count from 1, and 0 is none.
#[derive(Drop)]
pub(crate) struct Listing {
    pub first: Vec<usize>,
    pub next: Vec<usize>,
}

// Lists the links by the vertex at which they begin.
pub(crate) fn list_by_vertex(alloc: Global, n: u32, links: &[Link]) -> Result<Listing, AllocError>
    requires few { n < 2 ^ 31 }
    requires between { All (IsBetween n) links.now }
    ensures { IfOk result (λ l. IsListing n links.now l.first.items l.next.items (length links.now)) }
{
    let mut first = vec![in alloc; 0; n as usize + 1]?;
    let mut next = vec![in alloc; 0; links.len()]?;
    for q in 0..links.len() {
        let v = links[q].from as usize;
        let before = first[v];
        next[q] = before;
        first[v] = q + 1;
    }
    Ok(Listing { first, next })
}
