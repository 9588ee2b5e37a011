// Whether the artificials sum to more than 0.
ghost use Rattle.std.specs.Prelude.{◌≡◌, true, false};
ghost use Rattle.nf_simplex.specs.Standing.{IsFeasibleState, rows_of};
ghost use Rattle.nf_basis.specs.Kept.{IsStateOf};
ghost use Rattle.nf_price.specs.Choice.{TellsShort};

use nf_basis::{Basis, Col, State};
use nf_prob::Problem;
use nf_sums::is_zero;

// How many rows the stage of a state has.
pub(crate) fn rows_in(p: &Problem, state: &State) -> u32
    requires state { IsStateOf p.now state.now }
    ensures { result ≡ rows_of p.now state.now.standing }
{
    if state.stage() == 1 {
        p.nodes()
    } else {
        p.rows()
    }
}

// Whether the artificials sum to more than 0. In a feasible state none is negative, so one that is not 0 shows it; and
// they stay at 0 once they are `met`.
pub(crate) fn is_short<B: Basis>(p: &Problem, basis: &B, met: bool) -> bool
    requires numbers { B.HasNumbers p.now basis.now }
    requires feasible { IsFeasibleState p.now (B.standing basis.now) }
    requires met { met ≡ true → TellsShort p.now (B.standing basis.now) false }
    ensures short { TellsShort p.now (B.standing basis.now) result }
{
    if met {
        return false;
    }
    let rows = rows_in(p, basis.state());
    for i in 0..rows {
        if !is_zero(basis.value(p, Col::Artificial(i + 1))) {
            return true;
        }
    }
    false
}
