//! The numbers of a state, and its tree view.
ghost use Rattle.std.specs.Prelude.{true, ◌≡◌, ◌<◌, IfOk, IfErr, is_some};
ghost use Rattle.nf_model.specs.Program.{LinearProgram};
ghost use Rattle.nf_simplex.specs.Moves.{HasEndedOptimalIn};
ghost use Rattle.nf_simplex.specs.Standing.{IsBasisOf, Standing};
ghost use Rattle.nf_basis.specs.Kept.{IsStateOf};
ghost use Rattle.nf_figures.specs.Figures.{IsFigureFault};
ghost use Rattle.nf_results.specs.Results.{AreResults, HasView, arc_lists, places_shown, row_lists};

use nf_basis::{Basis, State};
use nf_figures::{FigureFault, Figures, list_figures};
use nf_frac::Steps;
use nf_out::{ArcFigures, RowFigures, TreeFigures};
use nf_prob::Problem;
use nf_view::{TreeView, tree_view};
use std::alloc::{AllocError, Global};
use std::sync::ledger::Ledger;

/// What tables show of a state: its numbers, and its tree view if that was asked for.
#[derive(Drop)]
pub struct Results {
    /// Whether the state has ended optimal.
    pub best: bool,
    /// The numbers by column and by row.
    pub figures: Figures,
    /// The place of each node in the tree of the key columns.
    pub tree: Option<TreeView>,
}

impl Results {
    /// The results of the state of a basis. `best` says whether it has ended optimal, and `with_tree` whether its tree
    /// view is wanted, which the FUTURE columns of NODEOUT and DUALOUT show.
    ///
    /// `Passed` only where an operation overflows 128 bits that arises from the state; the basis is not used again.
    /// `NoMemory` if out of memory.
    pub fn of<B: Basis, L: Ledger>(
        alloc: Global,
        p: &Problem,
        basis: &mut B,
        best: bool,
        with_tree: bool,
        steps: &mut Steps<L>,
    ) -> Result<Results, FigureFault>
        requires numbers { B.HasNumbers p.now basis.old }
        requires ended { best ≡ true → HasEndedOptimalIn p.now (B.standing basis.old) }
        ensures numbers { IfOk result (λ _. B.HasNumbers p.now basis.new) }
        ensures standing { IfOk result (λ _. B.standing basis.new ≡ B.standing basis.old) }
        ensures slots { IfOk result (λ _. B.slots basis.new ≡ B.slots basis.old) }
        ensures values { IfOk result (λ _. B.values p.now basis.new ≡ B.values p.now basis.old) }
        ensures results { IfOk result (AreResults p.now (B.standing basis.old)) }
        ensures best { IfOk result (λ r. r.best ≡ best) }
        ensures tree { IfOk result (λ r. is_some r.tree ≡ with_tree) }
        ensures fault { IfErr result (IsFigureFault p.now (B.standing basis.old)) }
    {
        let figures = list_figures(alloc, p, basis, best, steps)?;
        let tree = view_if(alloc, p, basis.state(), with_tree)?;
        Ok(Results {
            best,
            figures,
            tree,
        })
    }

    /// The numbers that tables of arcs and nonarc variables show.
    pub fn by_arc(&self) -> ArcFigures<'_>
        ensures lists { result ≡ arc_lists self.now.figures }
    {
        ArcFigures::new(
            self.figures.flows.items(),
            self.figures.costs.items(),
            self.figures.reduced.items(),
        )
    }

    /// The numbers that tables of nodes and constraints show.
    pub fn by_row(&self) -> RowFigures<'_>
        ensures lists { result ≡ row_lists self.now.figures }
    {
        RowFigures::new(self.figures.sums.items(), self.figures.duals.items())
    }

    // The places of the nodes that a table shows, as `future` says.
    pub(crate) fn places(&self, future: bool) -> TreeFigures<'_>
        requires results { (p : LinearProgram) × (s : Standing) × AreResults p s self.now }
        ensures places { result ≡ places_shown self.now.tree future }
    {
        match &self.tree {
            Some(view) if future => TreeFigures::new(
                view.predecessors(),
                view.next_nodes(),
                view.sizes(),
                view.arcs(),
            ),
            _ => TreeFigures::none(),
        }
    }
}

// The tree view of a state if it is wanted.
fn view_if(
    alloc: Global,
    p: &Problem,
    state: &State,
    wanted: bool,
) -> Result<Option<TreeView>, AllocError>
    requires state { IsStateOf p.now state.now }
    requires basis { IsBasisOf p.now state.now.standing }
    ensures view { IfOk result (HasView p.now state.now.standing) }
    ensures there { IfOk result (λ view. is_some view ≡ wanted) }
{
    if !wanted {
        return Ok(None);
    }
    let view = tree_view(alloc, p, state)?;
    Ok(Some(view))
}
