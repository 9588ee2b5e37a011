// The reduced cost of a column by duals that are handed in: only those of its two ends count.
ghost use Rattle.std.specs.Prelude.{◌≡◌, ◌+◌, ◌<◌, ◌≤◌, length, IfOk, IfErr};
ghost use Rattle.nf_sums.specs.Terms.{PassesIn};
ghost use Rattle.nf_simplex.specs.StageOf.{StageOne};
ghost use Rattle.nf_simplex.specs.Standing.{stage_of};
ghost use Rattle.nf_basis.specs.Duals.{PriceTerms, less_paid};
ghost use Rattle.nf_basis.specs.Kept.{IsPresent, IsStateOf, number};
ghost use Rattle.nf_tree.specs.Duals.{dual_of};

use crate::ends::{head_of, number_in, tail_of};
use nf_basis::{Col, State};
use nf_frac::{Frac, Passed, Steps};
use nf_prob::Problem;
use std::sync::ledger::Ledger;

// The dual of a vertex.
fn dual_at(duals: &[Frac], vertex: u32) -> Frac
    requires within { vertex ≤ length duals.now }
    ensures { result ≡ dual_of duals.now vertex }
{
    if vertex == 0 {
        return Frac::zero();
    }
    number_in(duals, vertex as usize - 1)
}

/// The reduced cost of a column that costs so much: the cost, less the dual of its tail, and the dual of its head.
///
/// `Passed` only if an operation of this sum overflows 128 bits. At most two steps.
pub(crate) fn reduced_cost<L: Ledger>(
    p: &Problem,
    state: &State,
    col: Col,
    cost: Frac,
    duals: &[Frac],
    steps: &mut Steps<L>,
) -> Result<Frac, Passed>
    requires state { IsStateOf p.now state.now }
    requires stage { state.now.standing.stage ≡ StageOne }
    requires present { IsPresent p.now state.now.standing col }
    requires places { length duals.now ≡ p.now.nodes }
    ensures value { IfOk result (λ d. d ≡ less_paid cost duals.now ((stage_of p.now state.now.standing).entry (number p.now col))) }
    ensures passed { IfErr result (PassesIn (PriceTerms cost duals.now ((stage_of p.now state.now.standing).entry (number p.now col)))) }
    ensures cost { steps.new ≤ steps.old + 2 }
{
    let tail = tail_of(p, state, col);
    let head = head_of(p, state, col);
    if tail == head {
        return Ok(cost);
    }
    let rest = cost.sub(dual_at(duals, tail), steps)?;
    let d = rest.add(dual_at(duals, head), steps)?;
    Ok(d)
}
