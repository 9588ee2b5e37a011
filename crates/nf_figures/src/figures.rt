//! All numbers of a state that its tables show.
ghost use Rattle.std.specs.Prelude.{true, ◌≡◌, IfOk, IfErr};
ghost use Rattle.nf_simplex.specs.Moves.{HasEndedOptimalIn};
ghost use Rattle.nf_figures.specs.Figures.{AreFigures, IsFigureFault};

use crate::columns::{flow_costs, flows, reduced_costs};
use crate::fault::FigureFault;
use crate::rows::{row_sums, shown_duals};
use nf_basis::Basis;
use nf_frac::Steps;
use nf_prob::{Fracs, Problem};
use std::alloc::Global;
use std::sync::ledger::Ledger;

/// The numbers of a state that its tables show: by given column the flows, what they cost in the program's own sense and
/// the reduced costs, and by row of the stage the sums and the printed duals.
#[derive(Drop)]
pub struct Figures {
    pub flows: Fracs,
    pub costs: Fracs,
    pub reduced: Fracs,
    pub sums: Fracs,
    pub duals: Fracs,
}

/// The numbers of a state. `best` says whether it has ended optimal.
///
/// `Passed` only where an operation overflows 128 bits that arises from the state; the basis is not used again.
/// `NoMemory` if out of memory.
pub fn list_figures<B: Basis, L: Ledger>(
    alloc: Global,
    p: &Problem,
    basis: &mut B,
    best: bool,
    steps: &mut Steps<L>,
) -> Result<Figures, FigureFault>
    requires numbers { B.HasNumbers p.now basis.old }
    requires ended { best ≡ true → HasEndedOptimalIn p.now (B.standing basis.old) }
    ensures numbers { IfOk result (λ _. B.HasNumbers p.now basis.new) }
    ensures standing { IfOk result (λ _. B.standing basis.new ≡ B.standing basis.old) }
    ensures slots { IfOk result (λ _. B.slots basis.new ≡ B.slots basis.old) }
    ensures values { IfOk result (λ _. B.values p.now basis.new ≡ B.values p.now basis.old) }
    ensures figures { IfOk result (AreFigures p.now (B.standing basis.old) best) }
    ensures fault { IfErr result (IsFigureFault p.now (B.standing basis.old)) }
{
    let duals = shown_duals(alloc, p, basis, best, steps)?;
    let flows = flows(alloc, p, basis)?;
    let costs = flow_costs(alloc, p, flows.items(), steps)?;
    let reduced = reduced_costs(alloc, p, basis.state(), duals.items(), steps)?;
    let sums = row_sums(alloc, p, basis.state(), flows.items(), steps)?;
    Ok(Figures {
        flows,
        costs,
        reduced,
        sums,
        duals,
    })
}
