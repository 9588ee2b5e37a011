//! The opening of a run: the basis of the first state.
ghost use Rattle.std.specs.Prelude.{◌≡◌, List, IfOk, IfErr};
ghost use Rattle.nf_num.specs.Rational.{ℚ};
ghost use Rattle.nf_simplex.specs.StageOf.{StageOne};
ghost use Rattle.nf_simplex.specs.Moves.{IsFirstState};
ghost use Rattle.nf_simplex.specs.Standing.{IsFeasibleState};
ghost use Rattle.nf_basis.specs.declared.col.Col.{Col as Column};
ghost use Rattle.nf_basis.specs.declared.basis.RestoreFault.TheVariants as Restoring;
ghost use Rattle.nf_run.specs.Steps.{IsOpeningFault, opening_fault};

use crate::event::RunFault;
use nf_basis::{Basis, RestoreFault, StartFault, start_one};
use nf_frac::{Passed, Steps};
use nf_prob::Problem;
use std::alloc::Global;
use std::sync::ledger::Ledger;

// An operation passes before any pivot.
fn at_start(passed: Passed) -> RunFault
    ensures { result ≡ RunFault.Range 1 0 passed }
{
    RunFault::Range {
        stage: 1,
        pivots: 0,
        passed,
    }
}

// Why the first state gives no basis. Its basic columns are the artificials, which are independent.
fn fault_of(fault: &RestoreFault) -> RunFault
    requires independent { (column : Column) (weights : List (Column × ℚ)) → fault.now ≡ Restoring.Dependent column weights → ⊥ }
    ensures { result ≡ opening_fault fault.now }
{
    match fault {
        RestoreFault::Passed(passed) => at_start(*passed),
        RestoreFault::NoMemory => RunFault::NoMemory,
        RestoreFault::Dependent { .. } => unreachable!(),
    }
}

/// The basis of the first state of stage one.
///
/// The basic columns of that state are the artificials, which are independent, so no other fault comes than want of
/// memory or an operation that passes 128 bits, which then arises from that state.
pub(crate) fn open<B: Basis, L: Ledger>(
    alloc: Global,
    p: &Problem,
    steps: &mut Steps<L>,
) -> Result<B, RunFault>
    requires takes { B.Takes p.now StageOne }
    ensures numbers { IfOk result (B.HasNumbers p.now) }
    ensures first { IfOk result (λ b. IsFirstState p.now (B.standing b)) }
    ensures feasible { IfOk result (λ b. IsFeasibleState p.now (B.standing b)) }
    ensures fault { IfErr result (IsOpeningFault p.now) }
{
    // a problem of nodes and side rows has a first state
    let _rows = p.rows();
    let state = match start_one(alloc, p, steps) {
        Ok(state) => state,
        Err(StartFault::Passed(passed)) => return Err(at_start(passed)),
        Err(StartFault::NoMemory) => return Err(RunFault::NoMemory),
    };
    match B::restore(alloc, p, state, steps) {
        Ok(basis) => Ok(basis),
        Err(fault) => Err(fault_of(&fault)),
    }
}
