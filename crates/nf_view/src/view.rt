//! The tree view of a state.
ghost use Rattle.std.specs.Prelude.{◌≡◌, ℕ, ◌<◌, ◌^◌, drop, length, IfOk};
ghost use Rattle.nf_simplex.specs.Standing.{IsBasisOf};
ghost use Rattle.nf_basis.specs.Kept.{IsStateOf};
ghost use Rattle.nf_view.specs.Laws.{SameBasicsSameView};
ghost use Rattle.nf_view.specs.View.{IsTreeView};

use crate::links::list_links;
use crate::parts::keep;
use crate::subtrees::{next_in_preorder, subtree_sizes};
use crate::walk::grow;
use nf_basis::State;
use nf_prob::Problem;
use std::alloc::{AllocError, Global};

/// The place of each vertex in the spanning tree of the key columns of a state. The lists have the root at place 0 and the
/// node with number i at place i; the methods give them without the root.
#[derive(Drop)]
pub struct TreeView {
    /// The predecessor.
    pub pred: Vec<u32>,
    /// The next node in the preorder from the root with children by number, and 0 after the last.
    pub next: Vec<u32>,
    /// How many vertices are in the subtree, itself among them.
    pub size: Vec<u32>,
    /// The number of the arc to the predecessor, and 0 for an artificial.
    pub arc: Vec<u32>,
}

impl TreeView {
    /// The predecessors of the nodes, by number.
    pub fn predecessors(&self) -> &[u32]
        requires some { 0 < length self.now.pred.items }
        ensures { result.now ≡ drop 1 self.now.pred.items }
    {
        &self.pred.as_slice()[1..]
    }

    /// The next nodes in the preorder, by number.
    pub fn next_nodes(&self) -> &[u32]
        requires some { 0 < length self.now.next.items }
        ensures { result.now ≡ drop 1 self.now.next.items }
    {
        &self.next.as_slice()[1..]
    }

    /// The sizes of the subtrees of the nodes, by number.
    pub fn sizes(&self) -> &[u32]
        requires some { 0 < length self.now.size.items }
        ensures { result.now ≡ drop 1 self.now.size.items }
    {
        &self.size.as_slice()[1..]
    }

    /// The arcs to the predecessors of the nodes, by number.
    pub fn arcs(&self) -> &[u32]
        requires some { 0 < length self.now.arc.items }
        ensures { result.now ≡ drop 1 self.now.arc.items }
    {
        &self.arc.as_slice()[1..]
    }
}

// The number of nodes, which are among the rows.
fn node_count(p: &Problem) -> u32
    ensures number { result ≡ p.now.nodes }
    ensures few { result < 2 ^ 31 }
{
    let _rows = p.rows();
    p.nodes()
}

/// The tree view of a state whose basic columns are a basis: the spanning tree of its key columns, which are chosen among the
/// basic arcs by number and then the basic artificials of nodes, each that closes no cycle with those before.
///
/// In time linear in the nodes and arcs, but for a factor that grows like the logarithm of the nodes in the choice of the
/// key columns. `AllocError` if out of memory.
pub fn tree_view(alloc: Global, p: &Problem, state: &State) -> Result<TreeView, AllocError>
    requires state { IsStateOf p.now state.now }
    requires basis { IsBasisOf p.now state.now.standing }
    ensures view { IfOk result (IsTreeView p.now state.now.standing) }
{
    let n = node_count(p);
    let links = list_links(alloc, p, state)?;
    let keys = keep(alloc, n, links.as_slice())?;
    let walk = grow(alloc, n, keys.as_slice())?;
    let size = subtree_sizes(alloc, n, walk.pred.as_slice(), walk.order.as_slice())?;
    let next = next_in_preorder(alloc, n, walk.pred.as_slice(), walk.order.as_slice())?;
    Ok(TreeView {
        pred: walk.pred,
        next,
        size,
        arc: walk.arc,
    })
}

/// States with the same basic columns have the same tree view; so a state has one.
pub fn basics_determine_view()
    ensures law { SameBasicsSameView }
{}
