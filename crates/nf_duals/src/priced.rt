//! The columns that are priced, by number from 0: given columns, and then slacks by side row.
ghost use Rattle.std.specs.Prelude.{◌≡◌, ◌+◌, ◌-◌, ◌<◌, ◌≤◌, IfOk, IfErr, length};
ghost use Rattle.nf_num.specs.Rational.{ℚ, neg_ℚ, ◌*ℚ◌};
ghost use Rattle.nf_model.specs.Program.{at};
ghost use Rattle.nf_prob.specs.Numbers.{IsNumber};
ghost use Rattle.nf_sums.specs.Terms.{PassesIn};
ghost use Rattle.nf_simplex.specs.Columns.{col_at, slack_sign};
ghost use Rattle.nf_simplex.specs.Layout.{layout_of};
ghost use Rattle.nf_simplex.specs.Numbers.{reduced};
ghost use Rattle.nf_simplex.specs.Place as model;
ghost use Rattle.nf_simplex.specs.Standing.{Standing, costs_of, place_at, rows_of, stage_of};
ghost use Rattle.nf_basis.specs.Arising.{StateTerms};
ghost use Rattle.nf_basis.specs.Kept.{IsStateOf, number};
ghost use Rattle.nf_basis.specs.Names.{col_of, named, phase_of, place_of};
ghost use Rattle.nf_duals.specs.Priced.{HasDuals, count_priced, price};

use nf_basis::{Col, Phase, Place, State};
use nf_frac::{Frac, Passed, Steps};
use nf_prob::{Problem, RowKind, reduced_by};
use std::sync::ledger::Ledger;

/// How many columns are priced: the given ones, and a slack for each side row.
pub fn priced_columns(p: &Problem) -> u32
    ensures { result ≡ count_priced p.now }
{
    p.columns() + (p.rows() - p.nodes())
}

/// The column with a number.
pub fn priced_column(p: &Problem, k: u32) -> Col
    requires within { k < count_priced p.now }
    ensures number { number p.now result ≡ k }
    ensures column { col_of result ≡ col_at (layout_of p.now) k }
    ensures named { 0 < named result }
{
    if k < p.columns() {
        Col::Given(k + 1)
    } else {
        Col::Slack(slack_row(p, k))
    }
}

// The row of the slack with a number, from 1. Slacks go by row, and the last one is that of the last row.
fn slack_row(p: &Problem, k: u32) -> u32
    requires slack { length p.now.columns ≤ k }
    requires within { k < count_priced p.now }
    ensures row { result ≡ p.now.nodes + (k - length p.now.columns) + 1 }
    ensures side_row { IsNumber result (length p.now.rows) }
{
    p.rows() + 1 - (priced_columns(p) - k)
}

/// Where the column with a number stands in a state.
pub fn priced_place(p: &Problem, state: &State, k: u32) -> Place
    requires state { IsStateOf p.now state.now }
    requires within { k < count_priced p.now }
    ensures { place_of result ≡ place_at state.now.standing k }
{
    state.place(priced_column(p, k))
}

/// The reduced cost of the column with a number in a phase, by the duals of a state's phase. A slack's takes no step.
///
/// `Passed` only where an operation of this sum passes 128 bits.
pub fn phase_cost<L: Ledger>(
    p: &Problem,
    phase: Phase,
    k: u32,
    duals: &[Frac],
    steps: &mut Steps<L>,
) -> Result<Frac, Passed>
    requires within { k < count_priced p.now }
    ensures value { (s : Standing) → length duals.now ≡ rows_of p.now s → IfOk result (λ d. d ≡ reduced (stage_of p.now s) (costs_of p.now (phase_of phase)) (at duals.now) k) }
    ensures passed { (s : Standing) → HasDuals p.now s phase duals.now → IfErr result (PassesIn (StateTerms p.now s)) }
    ensures cost { steps.new ≤ steps.old + price p.now k }
{
    if k < p.columns() {
        let j = k + 1;
        let d = reduced_by(p, given_cost(p, phase, j), j, duals, steps)?;
        return Ok(d);
    }
    let row = slack_row(p, k);
    Ok(slack_cost(p.kind(row), dual_at(duals, row)))
}

// What a given column costs in a phase: phase one costs artificials alone.
fn given_cost(p: &Problem, phase: Phase, j: u32) -> Frac
    requires number { IsNumber j (length p.now.columns) }
    ensures { result ≡ costs_of p.now (phase_of phase) (j - 1) }
{
    match phase {
        Phase::One => Frac::zero(),
        Phase::Two => p.cost(j),
    }
}

// The dual of a row, and 0 where it has no place.
fn dual_at(duals: &[Frac], row: u32) -> Frac
    requires { 0 < row }
    ensures { result ≡ at duals.now (row - 1) }
{
    match duals.get(row as usize - 1) {
        Some(y) => *y,
        None => Frac::zero(),
    }
}

// The reduced cost of the slack of a row with this dual.
fn slack_cost(kind: RowKind, dual: Frac) -> Frac
    ensures { result ≡ neg_ℚ (dual *ℚ slack_sign kind) }
{
    match kind {
        RowKind::Eq => Frac::zero(),
        RowKind::Le => dual.neg(),
        RowKind::Ge => dual,
    }
}
