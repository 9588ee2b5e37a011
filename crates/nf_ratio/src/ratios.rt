// The ratios of the columns that limit a move.
ghost use Rattle.std.specs.Prelude.{◌≡◌, ◌≢◌, ℕ, suc, ◌+◌, ◌*◌, ◌<◌, ◌≤◌, length, Some, None, IfOk, IfErr};
ghost use Rattle.nf_num.specs.Rational.{ℚ, zero_ℚ, ◌-ℚ◌, ◌*ℚ◌, neg_ℚ, inv_ℚ};
ghost use Rattle.nf_model.specs.Program.{at};
ghost use Rattle.nf_sums.specs.Rows.{difference_terms, quotient_terms};
ghost use Rattle.nf_sums.specs.Terms.{Is, PassesIn};
ghost use Rattle.nf_simplex.specs.Standing.{rows_of};
ghost use Rattle.nf_basis.specs.Arising.{StateTerms};
ghost use Rattle.nf_basis.specs.declared.col.Col.{Col as Column};
ghost use Rattle.nf_basis.specs.Kept.{IsPresent};
ghost use Rattle.nf_basis.specs.Numbers.{AreEntriesBySlot};
ghost use Rattle.nf_ratio.specs.Loops.{IsColumnOf, WeightTerms, bound_at, first_ratio, place_ahead, span_of, turned, value_ratio_at, weight_ratio_at};
ghost use Rattle.nf_ratio.specs.Ties.{AreInOrder, AreLeast, tie};

use crate::tie::Found;
use nf_basis::{Basis, Col, Place};
use nf_frac::{Frac, Passed, Steps};
use nf_prob::Problem;
use std::sync::ledger::Ledger;

// The bound to which a basic column with this entry moves.
pub(crate) fn place_ahead(entry: Frac, down: bool) -> Option<Place>
    ensures { result ≡ place_ahead down entry }
{
    let sign = entry.num();
    if sign == 0 {
        None
    } else if (sign > 0) == down {
        Some(Place::Upper)
    } else {
        Some(Place::Lower)
    }
}

// A bound of a column.
fn bound_at(p: &Problem, col: Col, place: Place) -> Option<Frac>
    requires column { IsColumnOf p.now col }
    ensures { result ≡ bound_at p.now col place }
{
    match (col, place) {
        (Col::Given(j), Place::Lower) => p.lower(j),
        (Col::Given(j), Place::Upper) => p.upper(j),
        (_, Place::Lower) => Some(Frac::zero()),
        _ => None,
    }
}

// A way divided by an entry, with the sign of the direction.
fn ratio<L: Ledger>(
    way: Frac,
    entry: Frac,
    down: bool,
    steps: &mut Steps<L>,
) -> Result<Frac, Passed>
    requires entry { entry ≢ zero_ℚ }
    ensures value { IfOk result (λ r. r ≡ turned down way entry) }
    ensures passed { IfErr result (PassesIn (Is (quotient_terms way entry))) }
    ensures cost { steps.new ≤ steps.old + 1 }
{
    let ratio = way.div(entry, steps)?;
    Ok(if down { ratio.neg() } else { ratio })
}

// The ratio of the value of the column in a slot, where it meets a bound.
fn value_ratio<B: Basis, L: Ledger>(
    p: &Problem,
    basis: &B,
    slot: u32,
    entries: &[Frac],
    down: bool,
    steps: &mut Steps<L>,
) -> Result<Option<Frac>, Passed>
    requires numbers { B.HasNumbers p.now basis.now }
    requires slot { slot < rows_of p.now (B.standing basis.now) }
    requires places { length entries.now ≡ rows_of p.now (B.standing basis.now) }
    requires entries { (c : Column) × IsPresent p.now (B.standing basis.now) c × AreEntriesBySlot p.now (B.standing basis.now) (B.slots basis.now) c entries.now }
    ensures value { IfOk result (λ r. r ≡ first_ratio p.now (B.slots basis.now) (B.values p.now basis.now) down entries.now slot) }
    ensures passed { IfErr result (PassesIn (StateTerms p.now (B.standing basis.now))) }
    ensures cost { steps.new ≤ steps.old + 2 }
{
    let entry = entries[slot as usize];
    let col = basis.basic_at(slot);
    let Some(place) = place_ahead(entry, down) else {
        return Ok(None);
    };
    let Some(bound) = bound_at(p, col, place) else {
        return Ok(None);
    };
    let value = basis.value(p, col);
    let way = value.sub(bound, steps)?;
    let ratio = ratio(way, entry, down, steps)?;
    Ok(Some(ratio))
}

// The slots whose ratio of the value is the least.
fn value_ties<B: Basis, L: Ledger>(
    p: &Problem,
    basis: &B,
    entries: &[Frac],
    down: bool,
    ties: &mut [u32],
    steps: &mut Steps<L>,
) -> Result<Found, Passed>
    requires numbers { B.HasNumbers p.now basis.now }
    requires places { length entries.now ≡ rows_of p.now (B.standing basis.now) }
    requires entries { (c : Column) × IsPresent p.now (B.standing basis.now) c × AreEntriesBySlot p.now (B.standing basis.now) (B.slots basis.now) c entries.now }
    requires room { length ties.old ≡ suc (length entries.now) }
    ensures size { length ties.new ≡ length ties.old }
    ensures ties { IfOk result (AreLeast (λ i. i) (first_ratio p.now (B.slots basis.now) (B.values p.now basis.now) down entries.now) (length entries.now) ties.new) }
    ensures passed { IfErr result (PassesIn (StateTerms p.now (B.standing basis.now))) }
    ensures cost { steps.new ≤ steps.old + 2 * length entries.now }
{
    let _rows = p.rows();
    let mut found = Found::none();
    for slot in 0..entries.len() {
        let ratio = value_ratio(p, basis, slot as u32, entries, down, steps)?;
        found = found.offer_if(slot as u32, ratio, ties);
    }
    Ok(found)
}

// The places whose ratio of the value is the least: slots, and after them the column that enters, whose ratio is the
// distance of its bounds.
pub(crate) fn first_ties<B: Basis, L: Ledger>(
    p: &Problem,
    basis: &B,
    entering: Col,
    entries: &[Frac],
    down: bool,
    ties: &mut [u32],
    steps: &mut Steps<L>,
) -> Result<Found, Passed>
    requires numbers { B.HasNumbers p.now basis.now }
    requires present { IsPresent p.now (B.standing basis.now) entering }
    requires places { length entries.now ≡ rows_of p.now (B.standing basis.now) }
    requires entries { AreEntriesBySlot p.now (B.standing basis.now) (B.slots basis.now) entering entries.now }
    requires room { length ties.old ≡ suc (length entries.now) }
    ensures size { length ties.new ≡ length ties.old }
    ensures ties { IfOk result (AreLeast (λ i. i) (value_ratio_at p.now (B.slots basis.now) (B.values p.now basis.now) entering down entries.now) (suc (length entries.now)) ties.new) }
    ensures passed { IfErr result (PassesIn (StateTerms p.now (B.standing basis.now))) }
    ensures cost { steps.new ≤ steps.old + (1 + 2 * length entries.now) }
{
    let _rows = p.rows();
    let slots = value_ties(p, basis, entries, down, ties, steps)?;
    let own = span(p, entering, steps)?;
    Ok(slots.offer_if(entries.len() as u32, own, ties))
}

// How far a column's bounds are apart, where it has both.
fn span<L: Ledger>(p: &Problem, col: Col, steps: &mut Steps<L>) -> Result<Option<Frac>, Passed>
    requires column { IsColumnOf p.now col }
    ensures value { IfOk result (λ r. r ≡ span_of p.now col) }
    ensures passed { IfErr result (λ e. (l : ℚ) × (u : ℚ) × (bound_at p.now col Place.Lower ≡ Some l) × (bound_at p.now col Place.Upper ≡ Some u) × PassesIn (Is (difference_terms u l)) e) }
    ensures cost { steps.new ≤ steps.old + 1 }
{
    match (
        bound_at(p, col, Place::Lower),
        bound_at(p, col, Place::Upper),
    ) {
        (Some(lower), Some(upper)) => {
            let distance = upper.sub(lower, steps)?;
            Ok(Some(distance))
        }
        _ => Ok(None),
    }
}

// The ratio of the weight in a place, the k-th that ties: 0 for the column that enters.
fn weight_ratio<L: Ledger>(
    entries: &[Frac],
    weights: &[Frac],
    down: bool,
    place: u32,
    k: usize,
    steps: &mut Steps<L>,
) -> Result<Frac, Passed>
    requires within { place ≤ length entries.now }
    requires weight { place < length entries.now → k < length weights.now }
    requires entry { place < length entries.now → at entries.now place ≢ zero_ℚ }
    ensures value { IfOk result (λ r. r ≡ weight_ratio_at down entries.now (at weights.now k) place) }
    ensures passed { IfErr result (λ e. (place < length entries.now) × PassesIn (Is (quotient_terms (at weights.now k) (at entries.now place))) e) }
    ensures cost { steps.new ≤ steps.old + 1 }
{
    let place = place as usize;
    if place == entries.len() {
        return Ok(Frac::zero());
    }
    let ratio = ratio(weights[k], entries[place], down, steps)?;
    Ok(ratio)
}

// Of the first places of a list, those whose ratio of the weight in an inverse column is the least. The weight of the k-th
// place stands in place k.
pub(crate) fn weight_ties<L: Ledger>(
    entries: &[Frac],
    weights: &[Frac],
    down: bool,
    count: usize,
    ties: &mut [u32],
    steps: &mut Steps<L>,
) -> Result<Found, Passed>
    requires weights { length weights.now ≡ length entries.now }
    requires few { count ≤ length ties.old }
    requires in_order { AreInOrder ties.old count }
    requires within { (k : ℕ) → k < count → tie ties.old k ≤ length entries.now }
    requires entries { (k : ℕ) → k < count → tie ties.old k < length entries.now → at entries.now (tie ties.old k) ≢ zero_ℚ }
    ensures size { length ties.new ≡ length ties.old }
    ensures ties { IfOk result (AreLeast (tie ties.old) (λ k. Some (weight_ratio_at down entries.now (at weights.now k) (tie ties.old k))) count ties.new) }
    ensures passed { IfErr result (PassesIn (WeightTerms entries.now weights.now ties.old count)) }
    ensures cost { steps.new ≤ steps.old + count }
{
    let mut found = Found::none();
    for k in 0..count {
        let place = ties[k];
        let ratio = weight_ratio(entries, weights, down, place, k, steps)?;
        found = found.offer(place, ratio, ties);
    }
    Ok(found)
}
