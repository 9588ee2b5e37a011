//! The numbers that tables show.
ghost use Rattle.std.specs.Prelude.{◌≡◌, get_or};
ghost use Rattle.nf_model.specs.Program.{at};
ghost use Rattle.nf_out.specs.Rows.{no_tree};

use nf_frac::Frac;
use std::marker::Model;

// The number of a list at place k, and 0 if it is shorter.
fn number_at(numbers: &[Frac], k: u32) -> Frac
    ensures { result ≡ at numbers.now k }
{
    match numbers.get(k as usize) {
        Some(number) => *number,
        None => Frac::zero(),
    }
}

// The same for a list of whole numbers.
fn count_at(numbers: &[u32], k: u32) -> u32
    ensures { result ≡ get_or numbers.now k 0 }
{
    match numbers.get(k as usize) {
        Some(number) => *number,
        None => 0,
    }
}

/// Numbers by given column: the flows of a state, what these cost in the program's own sense, and the reduced costs. A
/// column for which a list has no number has 0.
#[derive(Drop)]
pub struct ArcFigures<'a> {
    flows: &'a [Frac],
    costs: &'a [Frac],
    reduced: &'a [Frac],
}

impl<'a> Model for ArcFigures<'a> {
    ghost use Rattle.std.specs.Coded.{codes};
    ghost use Rattle.nf_num.proofs.Coding.{ℚ_code};
    ghost use Rattle.nf_out.specs.Arcs.{ArcLists};

    ghost Value = { ArcLists };

    ghost coded = { Prim.hlevel (codes, ℚ_code) };

    ghost view = { λ f. record { flows = f.flows.now; costs = f.costs.now; reduced = f.reduced.now } };
}

impl<'a> ArcFigures<'a> {
    /// These numbers, each list by column.
    pub fn new(flows: &'a [Frac], costs: &'a [Frac], reduced: &'a [Frac]) -> ArcFigures<'a>
        ensures lists { result ≡ record { flows = flows.now; costs = costs.now; reduced = reduced.now } }
    {
        ArcFigures {
            flows,
            costs,
            reduced,
        }
    }

    pub(crate) fn flow(&self, k: u32) -> Frac
        ensures { result ≡ at self.now.flows k }
    {
        number_at(self.flows, k)
    }

    pub(crate) fn flow_cost(&self, k: u32) -> Frac
        ensures { result ≡ at self.now.costs k }
    {
        number_at(self.costs, k)
    }

    pub(crate) fn reduced_cost(&self, k: u32) -> Frac
        ensures { result ≡ at self.now.reduced k }
    {
        number_at(self.reduced, k)
    }
}

/// Numbers by row of the stage: the sums of the rows over the given columns, and the printed duals. A row for which a list
/// has no number has 0.
#[derive(Drop)]
pub struct RowFigures<'a> {
    sums: &'a [Frac],
    duals: &'a [Frac],
}

impl<'a> Model for RowFigures<'a> {
    ghost use Rattle.std.specs.Coded.{codes};
    ghost use Rattle.nf_num.proofs.Coding.{ℚ_code};
    ghost use Rattle.nf_out.specs.Rows.{RowLists};

    ghost Value = { RowLists };

    ghost coded = { Prim.hlevel (codes, ℚ_code) };

    ghost view = { λ f. record { sums = f.sums.now; duals = f.duals.now } };
}

impl<'a> RowFigures<'a> {
    /// These numbers, each list by row.
    pub fn new(sums: &'a [Frac], duals: &'a [Frac]) -> RowFigures<'a>
        ensures lists { result ≡ record { sums = sums.now; duals = duals.now } }
    {
        RowFigures { sums, duals }
    }

    pub(crate) fn sum(&self, i: u32) -> Frac
        ensures { result ≡ at self.now.sums i }
    {
        number_at(self.sums, i)
    }

    pub(crate) fn dual(&self, i: u32) -> Frac
        ensures { result ≡ at self.now.duals i }
    {
        number_at(self.duals, i)
    }
}

/// The place of each node in a spanning tree: its predecessor, the next node in the preorder, the size of its subtree, and
/// the arc to its predecessor. A node for which a list has no number has 0.
#[derive(Drop)]
pub struct TreeFigures<'a> {
    predecessors: &'a [u32],
    next: &'a [u32],
    sizes: &'a [u32],
    arcs: &'a [u32],
}

impl<'a> Model for TreeFigures<'a> {
    ghost use Rattle.nf_out.specs.Rows.{TreeLists};

    ghost Value = { TreeLists };

    ghost view = { λ f. record { predecessors = f.predecessors.now; next = f.next.now; sizes = f.sizes.now; arcs = f.arcs.now } };
}

impl<'a> TreeFigures<'a> {
    /// These numbers, each list by node.
    pub fn new(
        predecessors: &'a [u32],
        next: &'a [u32],
        sizes: &'a [u32],
        arcs: &'a [u32],
    ) -> TreeFigures<'a>
        ensures lists { result ≡ record { predecessors = predecessors.now; next = next.now; sizes = sizes.now; arcs = arcs.now } }
    {
        TreeFigures {
            predecessors,
            next,
            sizes,
            arcs,
        }
    }

    /// No numbers, for tables without the columns of the tree.
    pub fn none() -> TreeFigures<'a>
        ensures lists { result ≡ no_tree }
    {
        TreeFigures {
            predecessors: &[],
            next: &[],
            sizes: &[],
            arcs: &[],
        }
    }

    pub(crate) fn predecessor(&self, i: u32) -> u32
        ensures { result ≡ get_or self.now.predecessors i 0 }
    {
        count_at(self.predecessors, i)
    }

    pub(crate) fn next_node(&self, i: u32) -> u32
        ensures { result ≡ get_or self.now.next i 0 }
    {
        count_at(self.next, i)
    }

    pub(crate) fn size(&self, i: u32) -> u32
        ensures { result ≡ get_or self.now.sizes i 0 }
    {
        count_at(self.sizes, i)
    }

    pub(crate) fn arc(&self, i: u32) -> u32
        ensures { result ≡ get_or self.now.arcs i 0 }
    {
        count_at(self.arcs, i)
    }
}
