//! The reduced cost of a column by its name.
ghost use Rattle.std.specs.Prelude.{◌≡◌, ◌+◌, ◌-◌, ◌*◌, ◌<◌, ◌≤◌, length, IfOk, IfErr};
ghost use Rattle.nf_num.specs.Rational.{◌*ℚ◌};
ghost use Rattle.nf_num.specs.Sum.{delta};
ghost use Rattle.nf_model.specs.Program.{at, column, entry_at};
ghost use Rattle.nf_prob.specs.Numbers.{IsNumber};
ghost use Rattle.nf_prob.specs.Stored.{stored_entry};
ghost use Rattle.nf_sums.specs.Terms.{PassesIn};
ghost use Rattle.nf_simplex.specs.Standing.{rows_of, stage_of};
ghost use Rattle.nf_basis.specs.Duals.{PriceTerms, less_paid};
ghost use Rattle.nf_basis.specs.Kept.{IsPresent, IsStateOf, number};

use crate::col::Col;
use crate::columns::{count_within, sign, slack_sign};
use crate::state::State;
use nf_frac::{Frac, Passed, Steps};
use nf_prob::Problem;
use nf_sums::sub_products;
use std::sync::ledger::Ledger;

/// What a column of the stage that costs so much has as its reduced cost by these duals.
///
/// `Passed` only where an operation of this sum passes 128 bits.
pub(crate) fn reduced_cost<L: Ledger>(
    p: &Problem,
    state: &State,
    col: Col,
    cost: Frac,
    duals: &[Frac],
    steps: &mut Steps<L>,
) -> Result<Frac, Passed>
    requires state { IsStateOf p.now state.now }
    requires present { IsPresent p.now state.now.standing col }
    requires places { length duals.now ≡ rows_of p.now state.now.standing }
    ensures value { IfOk result (λ d. d ≡ less_paid cost duals.now ((stage_of p.now state.now.standing).entry (number p.now col))) }
    ensures passed { IfErr result (PassesIn (PriceTerms cost duals.now ((stage_of p.now state.now.standing).entry (number p.now col)))) }
    ensures cost { steps.new ≤ steps.old + 2 * length duals.now + 1 }
{
    match col {
        Col::Given(j) => given_cost(p, j, cost, duals, steps),
        Col::Slack(i) => unit_cost(i as usize - 1, slack_sign(p.kind(i)), cost, duals, steps),
        Col::Artificial(i) => {
            unit_cost(i as usize - 1, sign(state.negative(i)), cost, duals, steps)
        }
    }
}

// The reduced cost of a column with one entry.
fn unit_cost<L: Ledger>(
    row: usize,
    value: Frac,
    cost: Frac,
    duals: &[Frac],
    steps: &mut Steps<L>,
) -> Result<Frac, Passed>
    requires within { row < length duals.now }
    ensures value { IfOk result (λ d. d ≡ less_paid cost duals.now (λ i. value *ℚ delta row i)) }
    ensures passed { IfErr result (PassesIn (PriceTerms cost duals.now (λ i. value *ℚ delta row i))) }
    ensures cost { steps.new ≤ steps.old + 2 * length duals.now + 1 }
{
    let factors = |_: usize| -> (Frac, Frac)
        requires { row < length duals.now }
        ensures { (result.0 ≡ at duals.entry.now row) × (result.1 ≡ value) }
    { (duals[row], value) };
    let d = sub_products(cost, 1, factors, steps)?;
    Ok(d)
}

// The reduced cost of a given column: stage one has the first of its entries alone.
fn given_cost<L: Ledger>(
    p: &Problem,
    j: u32,
    cost: Frac,
    duals: &[Frac],
    steps: &mut Steps<L>,
) -> Result<Frac, Passed>
    requires column { IsNumber j (length p.now.columns) }
    ensures value { IfOk result (λ d. d ≡ less_paid cost duals.now (entry_at (column p.now (j - 1)).entries)) }
    ensures passed { IfErr result (PassesIn (PriceTerms cost duals.now (entry_at (column p.now (j - 1)).entries))) }
    ensures cost { steps.new ≤ steps.old + 2 * length duals.now + 1 }
{
    let entries = p.entries(j);
    let count = count_within(entries, duals.len());
    let factors = |k: usize| -> (Frac, Frac)
        requires place { k < length entries.now }
        requires numbered { 0 < (stored_entry entries.now k).row }
        requires within { (stored_entry entries.now k).row ≤ length duals.now }
        ensures { (result.0 ≡ at duals.entry.now ((stored_entry entries.entry.now k).row - 1)) × (result.1 ≡ (stored_entry entries.entry.now k).value) }
    { (duals[entries[k].row as usize - 1], entries[k].value) };
    let d = sub_products(cost, count, factors, steps)?;
    Ok(d)
}
