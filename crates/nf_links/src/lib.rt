//! A spanning tree as linked arrays over its vertices, the root 0 and the nodes 1 to n: for each vertex its predecessor,
//! the next one in preorder, its depth, the size of its subtree and the arc to its predecessor (G. H. Bradley,
//! G. G. Brown and G. W. Graves, 1977; J. L. Kennington and R. V. Helgason, Algorithms for Network Programming, 1980,
//! chapter 3). Each access counts one step.
#![tactic(auto)]

ghost use Rattle.std.specs.Prelude.{◌≡◌, ◌+◌, ◌<◌, length, slice_index, IfOk};
ghost use Rattle.nf_links.specs.Map.{HasVertices, of_field, put};

use nf_frac::Steps;
use std::alloc::{AllocError, Global};
use std::marker::Model;
use std::sync::ledger::Ledger;

/// One of the arrays.
#[derive(Clone, Copy, Debug, PartialEq, Eq)]
pub enum Field {
    /// The next vertex on the way to the root.
    Pred,
    /// The next vertex in preorder.
    Thread,
    /// How many arcs are on the way to the root.
    Depth,
    /// How many vertices have this one on their way to the root, itself counted.
    Size,
    /// The arc to the predecessor, by its number.
    Arc,
}

/// The arrays. A contract sees them as a `LinkMap`.
#[derive(Drop)]
pub struct Links {
    pred: Vec<u32>,
    thread: Vec<u32>,
    depth: Vec<u32>,
    size: Vec<u32>,
    arc: Vec<u32>,
}

impl Model for Links {
    ghost use Rattle.nf_links.specs.Map.{LinkMap};

    ghost Value = { LinkMap };

    ghost view = { λ l. record { pred = l.pred.items; thread = l.thread.items; depth = l.depth.items; size = l.size.items; arc = l.arc.items } };
}

// Zeros for the vertices 0 to n.
fn zeros(alloc: Global, n: u32) -> Result<Vec<u32>, AllocError>
    ensures { IfOk result (λ v. length v.items ≡ n + 1) }
{
    let zeros = vec![in alloc; 0; n as usize + 1]?;
    Ok(zeros)
}

impl Links {
    /// Arrays for the vertices 0 to n. `AllocError` if memory runs out; no other call takes memory.
    pub fn new(alloc: Global, n: u32) -> Result<Links, AllocError>
        ensures { IfOk result (HasVertices n) }
    {
        Ok(Links {
            pred: zeros(alloc, n)?,
            thread: zeros(alloc, n)?,
            depth: zeros(alloc, n)?,
            size: zeros(alloc, n)?,
            arc: zeros(alloc, n)?,
        })
    }

    /// The number at a field of a vertex.
    pub fn get<L: Ledger>(&self, field: Field, node: u32, steps: &mut Steps<L>) -> u32
        requires within { node < length (of_field field self.now) }
        ensures value { result ≡ slice_index (of_field field self.now) node }
        ensures cost { steps.new ≡ steps.old + 1 }
    {
        steps.tick();
        match field {
            Field::Pred => self.pred[node as usize],
            Field::Thread => self.thread[node as usize],
            Field::Depth => self.depth[node as usize],
            Field::Size => self.size[node as usize],
            Field::Arc => self.arc[node as usize],
        }
    }

    /// Sets a field of a vertex to a number, and changes nothing else.
    pub fn set<L: Ledger>(&mut self, field: Field, node: u32, to: u32, steps: &mut Steps<L>)
        requires within { node < length (of_field field self.old) }
        ensures value { self.new ≡ put field node to self.old }
        ensures cost { steps.new ≡ steps.old + 1 }
    {
        steps.tick();
        match field {
            Field::Pred => self.pred[node as usize] = to,
            Field::Thread => self.thread[node as usize] = to,
            Field::Depth => self.depth[node as usize] = to,
            Field::Size => self.size[node as usize] = to,
            Field::Arc => self.arc[node as usize] = to,
        }
    }
}
