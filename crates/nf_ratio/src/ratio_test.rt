//! The ratio test.
ghost use Rattle.std.specs.Prelude.{◌≡◌, ◌≢◌, ℕ, suc, ◌+◌, ◌*◌, ◌-◌, ◌^◌, ◌<◌, ◌≤◌, length, IfOk, IfErr, IfSome};
ghost use Rattle.nf_sums.specs.Terms.{PassesIn};
ghost use Rattle.nf_simplex.specs.Moves.{CanEnterIn};
ghost use Rattle.nf_simplex.specs.Size.{size};
ghost use Rattle.nf_simplex.specs.Stage.{side_first};
ghost use Rattle.nf_simplex.specs.Standing.{IsFeasibleState, rows_of};
ghost use Rattle.nf_basis.specs.Arising.{StateTerms};
ghost use Rattle.nf_basis.specs.Kept.{IsPresent};
ghost use Rattle.nf_basis.specs.Names.{col_of};
ghost use Rattle.nf_basis.specs.Numbers.{AreEntriesBySlot};
ghost use Rattle.nf_ratio.specs.Answer.{CanMove, IsLimitOf};
ghost use Rattle.nf_ratio.specs.Loops.{AreTiedWeights, IsAnswer, IsWinner};
ghost use Rattle.nf_ratio.specs.Ratios.{StandsAloneAfter};
ghost use Rattle.nf_ratio.specs.Ties.{AreInOrder, AreSlotsFirst, tie};

use crate::answer::Limit;
use crate::ratios::{first_ties, place_ahead, weight_ties};
use crate::work::Work3;
use nf_basis::{Basis, Col};
use nf_frac::{Frac, Passed, Steps};
use nf_prob::Problem;
use std::sync::ledger::Ledger;

/// The lexicographic ratio test (G. B. Dantzig, A. Orden and P. Wolfe, The generalized simplex method, 1955): which
/// column limits the move of the one that enters. It moves up from its lower bound and down from its upper bound;
/// from zero, in the direction `down`.
///
/// For `Leave` a `pivot` of the basis, and for `Flip` a `flip`, gives the next state, which is the only
/// lexicographically feasible one that differs so; `Ray` comes exactly where there is none. Ratios of values are compared
/// first, then those of the weights in the inverse columns, side rows first and then node rows, as long as several tie:
/// with t inverse columns at most `(1 + t) (u + 4 w)` steps, u the basis's unit and w the size of the problem in the
/// stage.
///
/// `Passed` only where an operation of a ratio, or one by the inverse, passes 128 bits. It takes no memory.
pub fn limit<B: Basis, L: Ledger>(
    p: &Problem,
    basis: &mut B,
    entering: Col,
    down: bool,
    work: &mut Work3,
    steps: &mut Steps<L>,
) -> Result<Limit, Passed>
    requires numbers { B.HasNumbers p.now basis.old }
    requires feasible { IsFeasibleState p.now (B.standing basis.old) }
    requires enters { CanMove p.now (B.standing basis.old) entering down }
    requires places { work.old ≡ rows_of p.now (B.standing basis.old) }
    ensures numbers { IfOk result (λ _. B.HasNumbers p.now basis.new) }
    ensures standing { IfOk result (λ _. B.standing basis.new ≡ B.standing basis.old) }
    ensures slots { IfOk result (λ _. B.slots basis.new ≡ B.slots basis.old) }
    ensures values { IfOk result (λ _. B.values p.now basis.new ≡ B.values p.now basis.old) }
    ensures places { work.new ≡ work.old }
    ensures answer { IfOk result (IsLimitOf p.now (B.standing basis.old) (B.slots basis.old) entering down) }
    ensures passed { IfErr result (PassesIn (StateTerms p.now (B.standing basis.old))) }
    ensures cost { (t : ℕ) → StandsAloneAfter p.now (B.standing basis.old) (col_of entering) down t → steps.new ≤ steps.old + (1 + t) * (B.unit p.now (B.standing basis.old).stage + 4 * size p.now (B.standing basis.old).stage) }
{
    limit_in(
        p,
        basis,
        entering,
        down,
        work.entries.as_mut_slice(),
        work.weights.as_mut_slice(),
        work.ties.as_mut_slice(),
        steps,
    )
}

// The same, in these lists.
fn limit_in<B: Basis, L: Ledger>(
    p: &Problem,
    basis: &mut B,
    entering: Col,
    down: bool,
    entries: &mut [Frac],
    weights: &mut [Frac],
    ties: &mut [u32],
    steps: &mut Steps<L>,
) -> Result<Limit, Passed>
    requires numbers { B.HasNumbers p.now basis.old }
    requires feasible { IsFeasibleState p.now (B.standing basis.old) }
    requires enters { CanMove p.now (B.standing basis.old) entering down }
    requires places { length entries.old ≡ rows_of p.now (B.standing basis.old) }
    requires weights { length weights.old ≡ length entries.old }
    requires room { length ties.old ≡ suc (length entries.old) }
    ensures numbers { IfOk result (λ _. B.HasNumbers p.now basis.new) }
    ensures standing { IfOk result (λ _. B.standing basis.new ≡ B.standing basis.old) }
    ensures slots { IfOk result (λ _. B.slots basis.new ≡ B.slots basis.old) }
    ensures values { IfOk result (λ _. B.values p.now basis.new ≡ B.values p.now basis.old) }
    ensures answer { IfOk result (IsLimitOf p.now (B.standing basis.old) (B.slots basis.old) entering down) }
    ensures passed { IfErr result (PassesIn (StateTerms p.now (B.standing basis.old))) }
    ensures cost { (t : ℕ) → StandsAloneAfter p.now (B.standing basis.old) (col_of entering) down t → steps.new ≤ steps.old + (1 + t) * (B.unit p.now (B.standing basis.old).stage + 4 * size p.now (B.standing basis.old).stage) }
{
    // There are fewer rows than 2^31, so slots fit.
    let _rows = p.rows();
    basis.column(p, entering, entries, steps)?;
    let winner = winner(p, basis, entering, down, entries, weights, ties, steps)?;
    Ok(answer(winner, entries, down))
}

// The row of the stage, from 1, whose weights stand in this place of a vector: side rows come first.
fn row_at(p: &Problem, rows: usize, place: usize) -> u32
    requires rows { (p.now.nodes ≤ rows) × (rows ≤ length p.now.rows) }
    requires within { place < rows }
    ensures { result ≡ suc (side_first p.now.nodes (rows - p.now.nodes) place) }
{
    let _rows = p.rows();
    let nodes = p.nodes() as usize;
    let sides = rows - nodes;
    if place < sides {
        (nodes + place) as u32 + 1
    } else {
        (place - sides) as u32 + 1
    }
}

// How many of the first places are slots. The places rise, so the one behind the slots, that of the column that enters, is
// the last of them if it is there.
fn count_slots(ties: &[u32], count: usize, rows: usize) -> usize
    requires some { 0 < count }
    requires few { count ≤ length ties.now }
    requires in_order { AreInOrder ties.now count }
    requires within { (k : ℕ) → k < count → tie ties.now k ≤ rows }
    ensures { AreSlotsFirst rows ties.now count result }
{
    let last = count - 1;
    if ties[last] as usize == rows {
        last
    } else {
        count
    }
}

// Finds the weights of those of the first places that are slots, in the inverse column of a row: that of the k-th in place k.
fn tied_weights<B: Basis, L: Ledger>(
    p: &Problem,
    basis: &mut B,
    row: u32,
    ties: &[u32],
    count: usize,
    weights: &mut [Frac],
    steps: &mut Steps<L>,
) -> Result<(), Passed>
    requires numbers { B.HasNumbers p.now basis.old }
    requires present { (0 < row) × (row ≤ rows_of p.now (B.standing basis.old)) }
    requires some { 0 < count }
    requires few { count ≤ length ties.now }
    requires in_order { AreInOrder ties.now count }
    requires within { (k : ℕ) → k < count → tie ties.now k ≤ rows_of p.now (B.standing basis.old) }
    requires weights { length weights.old ≡ rows_of p.now (B.standing basis.old) }
    ensures numbers { IfOk result (λ _. B.HasNumbers p.now basis.new) }
    ensures standing { IfOk result (λ _. B.standing basis.new ≡ B.standing basis.old) }
    ensures slots { IfOk result (λ _. B.slots basis.new ≡ B.slots basis.old) }
    ensures values { IfOk result (λ _. B.values p.now basis.new ≡ B.values p.now basis.old) }
    ensures size { length weights.new ≡ length weights.old }
    ensures weights { IfOk result (λ _. AreTiedWeights p.now (B.standing basis.old) (B.slots basis.old) row ties.now count weights.new) }
    ensures passed { IfErr result (PassesIn (StateTerms p.now (B.standing basis.old))) }
    ensures cost { steps.new ≤ steps.old + B.unit p.now (B.standing basis.old).stage }
{
    let slots = count_slots(ties, count, weights.len());
    basis.inverse_weights(p, row, &ties[..slots], &mut weights[..slots], steps)?;
    Ok(())
}

// The place of the least ratio, if there is one: a slot, or after them the column that enters itself. As long as several
// tie, the next inverse column tells them apart.
fn winner<B: Basis, L: Ledger>(
    p: &Problem,
    basis: &mut B,
    entering: Col,
    down: bool,
    entries: &[Frac],
    weights: &mut [Frac],
    ties: &mut [u32],
    steps: &mut Steps<L>,
) -> Result<Option<usize>, Passed>
    requires numbers { B.HasNumbers p.now basis.old }
    requires feasible { IsFeasibleState p.now (B.standing basis.old) }
    requires present { IsPresent p.now (B.standing basis.old) entering }
    requires enters { CanEnterIn p.now (B.standing basis.old) (col_of entering) down }
    requires places { length entries.now ≡ rows_of p.now (B.standing basis.old) }
    requires entries { AreEntriesBySlot p.now (B.standing basis.old) (B.slots basis.old) entering entries.now }
    requires weights { length weights.old ≡ rows_of p.now (B.standing basis.old) }
    requires room { length ties.old ≡ suc (length entries.now) }
    ensures numbers { IfOk result (λ _. B.HasNumbers p.now basis.new) }
    ensures standing { IfOk result (λ _. B.standing basis.new ≡ B.standing basis.old) }
    ensures slots { IfOk result (λ _. B.slots basis.new ≡ B.slots basis.old) }
    ensures values { IfOk result (λ _. B.values p.now basis.new ≡ B.values p.now basis.old) }
    ensures winner { IfOk result (IsWinner p.now (B.standing basis.old) (B.slots basis.old) entering down) }
    ensures passed { IfErr result (PassesIn (StateTerms p.now (B.standing basis.old))) }
    ensures cost { (t : ℕ) → StandsAloneAfter p.now (B.standing basis.old) (col_of entering) down t → steps.new ≤ steps.old + (1 + 2 * length entries.now + t * (B.unit p.now (B.standing basis.old).stage + suc (length entries.now))) }
{
    let first = first_ties(p, basis, entering, entries, down, ties, steps)?;
    let mut count = first.count;
    let mut looked = 0;
    'inverse: loop {
        if count == 0 {
            return Ok(None);
        }
        if count == 1 {
            return Ok(Some(ties[0] as usize));
        }
        let row = row_at(p, entries.len(), looked);
        tied_weights(p, basis, row, ties, count, weights, steps)?;
        let next = weight_ties(entries, weights, down, count, ties, steps)?;
        count = next.count;
        looked += 1;
    }
}

// What the place of the least ratio says.
fn answer(winner: Option<usize>, entries: &[Frac], down: bool) -> Limit
    requires within { IfSome winner (λ i. i ≤ length entries.now) }
    requires few { length entries.now < 2 ^ 32 }
    ensures { IsAnswer down entries.now winner result }
{
    match winner {
        None => Limit::Ray,
        Some(i) if i == entries.len() => Limit::Flip,
        Some(i) => match place_ahead(entries[i], down) {
            Some(to) => Limit::Leave { slot: i as u32, to },
            None => Limit::Ray,
        },
    }
}
