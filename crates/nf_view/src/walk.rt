// The walk from the root over the key columns, which gives each node its predecessor.
ghost use Rattle.std.specs.Prelude.{◌≡◌, ◌≢◌, ℕ, suc, ◌<◌, ◌≤◌, ◌^◌, length, slice_index, IfOk};
ghost use Rattle.std.specs.List.{All};
ghost use Rattle.nf_view.specs.Keys.{AreJoined, link_at};
ghost use Rattle.nf_view.specs.Order.{IsOrder};
ghost use Rattle.nf_view.specs.Parts.{IsBetween};
ghost use Rattle.nf_view.specs.View.{IsRooted};
ghost use Rattle.nf_view.specs.Walk.{HasRoom, IsListing, IsWalk, Keeps, begins};

use crate::links::Link;
use crate::listed::list_by_vertex;
use std::alloc::{AllocError, Global};

// The tree so far, over the root 0 and the nodes 1 to n.
#[derive(Drop)]
pub(crate) struct Walk {
    // 0 for a vertex that was not met, i + 1 for the i-th that was met.
    pub seat: Vec<usize>,
    // The vertices that were met, in this order.
    pub order: Vec<u32>,
    pub pred: Vec<u32>,
    // The arc to the predecessor.
    pub arc: Vec<u32>,
    pub met: usize,
}

// Room for the vertices 0 to n, and only the root met.
fn begin(alloc: Global, n: u32, links: &[Link]) -> Result<Walk, AllocError>
    requires few { n < 2 ^ 31 }
    ensures walk { IfOk result (IsWalk n links.now) }
    ensures alone { IfOk result (λ w. w.met ≡ 1) }
{
    let size = n as usize + 1;
    let mut seat = vec![in alloc; 0; size]?;
    seat[0] = 1;
    Ok(Walk {
        seat,
        order: vec![in alloc; 0; size]?,
        pred: vec![in alloc; 0; size]?,
        arc: vec![in alloc; 0; size]?,
        met: 1,
    })
}

// Meets the end of a link, which was not met before.
fn meet(n: u32, links: &[Link], walk: &mut Walk, q: usize)
    requires walk { IsWalk n links.now walk.old }
    requires between { All (IsBetween n) links.now }
    requires link { q < length links.now }
    requires begins { 0 < slice_index walk.old.seat.items (begins links.now q) }
    requires unmet { slice_index walk.old.seat.items (link_at links.now q).to ≡ 0 }
    ensures walk { IsWalk n links.now walk.new }
    ensures keeps { Keeps walk.old walk.new }
    ensures here { 0 < slice_index walk.new.seat.items (link_at links.now q).to }
{
    let link = links[q];
    let (met, to) = (walk.met, link.to as usize);
    walk.seat[to] = met + 1;
    walk.order[met] = link.to;
    walk.pred[to] = link.from;
    walk.arc[to] = link.arc;
    walk.met = met + 1;
}

// Follows the links that begin at v, which was met.
fn follow(n: u32, links: &[Link], first: &[usize], next: &[usize], walk: &mut Walk, v: u32)
    requires walk { IsWalk n links.now walk.old }
    requires between { All (IsBetween n) links.now }
    requires within { v ≤ n }
    requires met { 0 < slice_index walk.old.seat.items v }
    requires listing { IsListing n links.now first.now next.now (length links.now) }
    ensures walk { IsWalk n links.now walk.new }
    ensures keeps { Keeps walk.old walk.new }
    ensures followed { (q : ℕ) → q < length links.now → begins links.now q ≡ v → 0 < slice_index walk.new.seat.items (link_at links.now q).to }
{
    let mut cursor = first[v as usize];
    while cursor > 0 {
        let q = cursor - 1;
        let to = links[q].to as usize;
        if walk.seat[to] == 0 {
            meet(n, links, walk, q);
        }
        cursor = next[q];
    }
}

// Walks over links that join all vertices.
pub(crate) fn grow(alloc: Global, n: u32, links: &[Link]) -> Result<Walk, AllocError>
    requires few { n < 2 ^ 31 }
    requires between { All (IsBetween n) links.now }
    requires joined { AreJoined n links.now }
    ensures room { IfOk result (HasRoom n) }
    ensures rooted { IfOk result (λ w. IsRooted n links.now (slice_index w.pred.items) (slice_index w.arc.items)) }
    ensures ordered { IfOk result (λ w. IsOrder n (slice_index w.pred.items) (slice_index w.order.items)) }
{
    let listing = list_by_vertex(alloc, n, links)?;
    let mut walk = begin(alloc, n, links)?;
    let mut done = 0;
    while done < walk.met {
        let v = walk.order[done];
        follow(
            n,
            links,
            listing.first.as_slice(),
            listing.next.as_slice(),
            &mut walk,
            v,
        );
        done += 1;
    }
    Ok(walk)
}
