//! What a problem says of a column by its name: its bounds, its costs, and its weights in a basis.
ghost use Rattle.std.specs.Prelude.{◌≡◌, ℕ, ◌+◌, ◌-◌, ◌*◌, ◌<◌, ◌≤◌, length, IfOk, IfErr};
ghost use Rattle.nf_num.specs.Rational.{ℚ, ◌*ℚ◌};
ghost use Rattle.nf_num.specs.Sum.{delta};
ghost use Rattle.nf_model.specs.Program.{column, entry_at};
ghost use Rattle.nf_prob.specs.Numbers.{IsNumber};
ghost use Rattle.nf_prob.specs.Stored.{stored_entry};
ghost use Rattle.nf_sums.specs.Terms.{PassesIn};
ghost use Rattle.nf_inverse.specs.Causes.{EntryTerms};
ghost use Rattle.nf_simplex.specs.Layout.{layout_of};
ghost use Rattle.nf_simplex.specs.Columns.{col_lower, col_upper};
ghost use Rattle.nf_simplex.specs.Columns as columns;
ghost use Rattle.nf_simplex.specs.Numbers.{StandsAt};
ghost use Rattle.nf_simplex.specs.Standing.{costs_of, rows_of, stage_of};
ghost use Rattle.nf_simplex.specs.Starts as starts;
ghost use Rattle.nf_basis.specs.Names.{col_of, phase_of, place_of};
ghost use Rattle.nf_basis.specs.Products.{AreProducts};
ghost use Rattle.nf_basis.specs.Kept.{IsBoundOf, IsPresent, IsStateOf, MayRest, number};

use crate::col::{Col, Phase, Place};
use crate::state::State;
use nf_frac::{Frac, Passed, Steps};
use nf_inverse::Inverse;
use nf_prob::{Entry, Problem, RowKind};
use std::sync::ledger::Ledger;

/// A bound as a number: 0 if there is none.
pub fn or_zero(bound: Option<Frac>) -> Frac
    ensures { result ≡ starts.or_zero bound }
{
    match bound {
        Some(bound) => bound,
        None => Frac::zero(),
    }
}

/// The number at which a column stands at a bound.
pub fn bound(p: &Problem, state: &State, col: Col, place: Place) -> Frac
    requires state { IsStateOf p.now state.now }
    requires present { IsPresent p.now state.now.standing col }
    requires bound { IsBoundOf p.now col (place_of place) }
    ensures { StandsAt (place_of place) (col_lower (layout_of p.now) (col_of col)) (col_upper (layout_of p.now) (col_of col)) result }
{
    let Col::Given(j) = col else {
        return Frac::zero();
    };
    if place == Place::Lower {
        return or_zero(p.lower(j));
    }
    or_zero(p.upper(j))
}

/// The number of a column in a place where it is not basic: a bound that it has, or 0 if it has neither.
pub fn resting_number(p: &Problem, state: &State, col: Col, place: Place) -> Frac
    requires state { IsStateOf p.now state.now }
    requires present { IsPresent p.now state.now.standing col }
    requires place { MayRest p.now col (place_of place) }
    ensures { StandsAt (place_of place) (col_lower (layout_of p.now) (col_of col)) (col_upper (layout_of p.now) (col_of col)) result }
{
    if place == Place::Zero {
        return Frac::zero();
    }
    bound(p, state, col, place)
}

/// The cost of a column in a phase.
pub fn cost(p: &Problem, state: &State, col: Col, phase: Phase) -> Frac
    requires state { IsStateOf p.now state.now }
    requires present { IsPresent p.now state.now.standing col }
    ensures { result ≡ costs_of p.now (phase_of phase) (number p.now col) }
{
    match (col, phase) {
        (Col::Given(j), Phase::Two) => p.cost(j),
        (Col::Artificial(_), Phase::One) => Frac::from_whole(1),
        _ => Frac::zero(),
    }
}

/// The entries of a column: its weights in the basis that `inverse` is of, by slot.
pub(crate) fn weights_of<L: Ledger>(
    inverse: &Inverse,
    p: &Problem,
    state: &State,
    col: Col,
    out: &mut [Frac],
    steps: &mut Steps<L>,
) -> Result<(), Passed>
    requires state { IsStateOf p.now state.now }
    requires present { IsPresent p.now state.now.standing col }
    requires size { length inverse.now ≡ rows_of p.now state.now.standing }
    requires places { length out.old ≡ length inverse.now }
    ensures value { IfOk result (λ _. AreProducts inverse.now ((stage_of p.now state.now.standing).entry (number p.now col)) out.new) }
    ensures passed { IfErr result (PassesIn (EntryTerms inverse.now ((stage_of p.now state.now.standing).entry (number p.now col)))) }
    ensures cost { steps.new ≤ steps.old + length inverse.now * (2 * length inverse.now) }
{
    match col {
        Col::Given(j) => given_weights(inverse, p, j, out, steps),
        Col::Slack(i) => unit_weights(inverse, i as usize - 1, slack_sign(p.kind(i)), out, steps),
        Col::Artificial(i) => unit_weights(
            inverse,
            i as usize - 1,
            sign(state.negative(i)),
            out,
            steps,
        ),
    }
}

/// The entry of a slack in a row of this kind.
pub(crate) fn slack_sign(kind: RowKind) -> Frac
    ensures { result ≡ columns.slack_sign kind }
{
    match kind {
        RowKind::Eq => Frac::zero(),
        RowKind::Le => Frac::from_whole(1),
        RowKind::Ge => Frac::from_whole(1).neg(),
    }
}

/// The entry of an artificial.
pub(crate) fn sign(negative: bool) -> Frac
    ensures { result ≡ columns.sign negative }
{
    let one = Frac::from_whole(1);
    if negative {
        return one.neg();
    }
    one
}

// The weights of a column with one entry.
fn unit_weights<L: Ledger>(
    inverse: &Inverse,
    row: usize,
    value: Frac,
    out: &mut [Frac],
    steps: &mut Steps<L>,
) -> Result<(), Passed>
    requires within { row < length inverse.now }
    requires places { length out.old ≡ length inverse.now }
    ensures value { IfOk result (λ _. AreProducts inverse.now (λ i. value *ℚ delta row i) out.new) }
    ensures passed { IfErr result (PassesIn (EntryTerms inverse.now (λ i. value *ℚ delta row i))) }
    ensures cost { steps.new ≤ steps.old + length inverse.now * (2 * length inverse.now) }
{
    let entry = |_: usize| -> (usize, Frac)
        ensures { (result.0 ≡ row) × (result.1 ≡ value) }
    { (row, value) };
    inverse.column(1, entry, out, steps)?;
    Ok(())
}

/// How many entries, which stand by row number, are in the first rows.
pub(crate) fn count_within(entries: &[Entry], rows: usize) -> usize
    ensures most { result ≤ length entries.now }
    ensures within { (k : ℕ) → k < result → (stored_entry entries.now k).row ≤ rows }
    ensures next { result < length entries.now → rows < (stored_entry entries.now result).row }
{
    for (k, entry) in entries.iter().enumerate() {
        if entry.row as usize > rows {
            return k;
        }
    }
    entries.len()
}

// The weights of a given column: stage one has the first of its entries alone.
fn given_weights<L: Ledger>(
    inverse: &Inverse,
    p: &Problem,
    j: u32,
    out: &mut [Frac],
    steps: &mut Steps<L>,
) -> Result<(), Passed>
    requires column { IsNumber j (length p.now.columns) }
    requires places { length out.old ≡ length inverse.now }
    ensures value { IfOk result (λ _. AreProducts inverse.now (entry_at (column p.now (j - 1)).entries) out.new) }
    ensures passed { IfErr result (PassesIn (EntryTerms inverse.now (entry_at (column p.now (j - 1)).entries))) }
    ensures cost { steps.new ≤ steps.old + length inverse.now * (2 * length inverse.now) }
{
    let entries = p.entries(j);
    let count = count_within(entries, inverse.size());
    let entry = |k: usize| -> (usize, Frac)
        requires place { k < length entries.now }
        requires numbered { 0 < (stored_entry entries.now k).row }
        ensures { (result.0 ≡ (stored_entry entries.entry.now k).row - 1) × (result.1 ≡ (stored_entry entries.entry.now k).value) }
    { (entries[k].row as usize - 1, entries[k].value) };
    inverse.column(count, entry, out, steps)?;
    Ok(())
}
