// The basis of the first state, and what of a state decides which calls of it are allowed.
ghost use Rattle.std.specs.Prelude.{◌≡◌, IfOk, IsTrue};
ghost use Rattle.nf_simplex.specs.StageOf.{StageOne};
ghost use Rattle.nf_simplex.specs.Standing.{IsFeasibleState, rows_of};
ghost use Rattle.nf_basis.specs.Kept.{IsPresent, IsStateOf};

use nf_basis::{Basis, Col, Place, State, start_one};
use nf_frac::Steps;
use nf_prob::Problem;
use std::alloc::Global;
use std::sync::ledger::Ledger;
use std::test::Fail;

/// The basis of the first state.
pub(crate) fn open<B: Basis, L: Ledger>(
    alloc: Global,
    p: &Problem,
    steps: &mut Steps<L>,
) -> Result<B, Fail>
    requires takes { B.Takes p.now StageOne }
    ensures numbers { IfOk result (B.HasNumbers p.now) }
    ensures feasible { IfOk result (λ b. IsFeasibleState p.now (B.standing b)) }
{
    let state = start_one(alloc, p, steps)?;
    let basis = B::restore(alloc, p, state, steps)?;
    Ok(basis)
}

/// How many rows the stage of a state has.
pub(crate) fn rows_in(p: &Problem, state: &State) -> u32
    requires state { IsStateOf p.now state.now }
    ensures { result ≡ rows_of p.now state.now.standing }
{
    if state.stage() == 1 {
        p.nodes()
    } else {
        p.rows()
    }
}

/// Whether a column is of the state's stage.
pub(crate) fn is_present(p: &Problem, state: &State, col: Col) -> bool
    requires state { IsStateOf p.now state.now }
    ensures { IsTrue result → IsPresent p.now state.now.standing col }
{
    match state.place(col) {
        Place::Absent => false,
        _ => true,
    }
}
