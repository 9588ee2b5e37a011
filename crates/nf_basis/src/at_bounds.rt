//! The rests of the rows of a state's stage, where each nonbasic column stands at its bound.
ghost use Rattle.std.specs.Prelude.{◌≡◌, ℕ, ◌+◌, ◌-◌, ◌<◌, ◌≤◌, length, IfOk, IfErr};
ghost use Rattle.nf_model.specs.Program.{at};
ghost use Rattle.nf_prob.specs.Numbers.{IsNumber};
ghost use Rattle.nf_sums.specs.Terms.{PassesIn};
ghost use Rattle.nf_simplex.specs.Standing.{rows_of};
ghost use Rattle.nf_basis.specs.Kept.{IsStateOf};
ghost use Rattle.nf_basis.specs.Arising.{rest_at};
ghost use Rattle.nf_basis.specs.Dense.{bound_at};
ghost use Rattle.nf_basis.specs.AtBounds.{BoundTerms, rests_cost};

use crate::restore::{number_at, stage_rows};
use crate::row_rest::rest;
use crate::state::State;
use nf_frac::{Frac, Passed, Steps};
use nf_prob::Problem;
use std::sync::ledger::Ledger;

/// The rests by row, where each nonbasic column stands at its bound and each basic one at 0.
///
/// `Passed` only at an operation of one of these rests.
pub fn rests_at_bounds<L: Ledger>(
    p: &Problem,
    state: &State,
    out: &mut Vec<Frac>,
    steps: &mut Steps<L>,
) -> Result<(), Passed>
    requires state { IsStateOf p.now state.now }
    requires places { length out.old.items ≡ rows_of p.now state.now.standing }
    ensures long { length out.new.items ≡ length out.old.items }
    ensures value { IfOk result (λ _. (i : ℕ) → i < rows_of p.now state.now.standing → at out.new.items i ≡ rest_at p.now (bound_at p.now state.now.standing) i) }
    ensures passed { IfErr result (PassesIn (BoundTerms p.now state.now.standing)) }
    ensures cost { steps.new ≤ steps.old + rests_cost p.now (rows_of p.now state.now.standing) }
{
    let number = |j: u32| -> Frac
        requires state { IsStateOf p.now state.now }
        requires column { IsNumber j (length p.now.columns) }
        ensures { result ≡ bound_at p.entry.now state.entry.now.standing (j - 1) }
    { number_at(p, state, j) };
    let rows = stage_rows(p, state);
    for row in 0..rows {
        out[row as usize] = rest(p, row + 1, number, steps)?;
    }
    Ok(())
}
