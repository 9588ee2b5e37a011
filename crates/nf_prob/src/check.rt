// The check of a certificate.
ghost use Rattle.std.specs.Prelude.{◌≡◌, ◌<◌, ◌-◌, ◌↔◌, ℕ, length, IfOk, IfErr, IsTrue, MatchOption};
ghost use Rattle.nf_num.specs.Rational.{ℚ};
ghost use Rattle.nf_model.specs.Certificate.{CostFits, DualFits, combined, reduced_cost};
ghost use Rattle.nf_model.specs.Program.{HoldsBelow, IsFeasible, IsInBounds, RowHolds, at, column, cost_of, row_sum};
ghost use Rattle.nf_prob.specs.Arising.{BestTerms, CheckTerms, CombinedTerms, CostTerms, RowTerms, TotalTerms};
ghost use Rattle.nf_prob.specs.Numbers.{IsNumber};
ghost use Rattle.nf_prob.specs.Stored.{row_entry, stored_entry};
ghost use Rattle.nf_sums.specs.Terms.{PassesIn};
ghost use Rattle.nf_prob.specs.Verdict.{FailsFeasible, HasLengths, IsAnswer, IsBestAnswer, IsFirst};

use crate::cert::{Cert, Checked, Why};
use crate::farkas::verify_farkas;
use crate::fits::{cost_fits, dual_fits, is_at_least, is_at_most, stands};
use crate::problem::Problem;
use crate::ray::verify_ray;
use nf_frac::{Frac, Passed, Steps};
use nf_model::RowKind;
use nf_sums::sum_products;
use std::sync::ledger::Ledger;

/// Checks a certificate, exactly and in linear time.
///
/// `Yes` exactly where the certificate is valid: with the cost of the values, which are then feasible and none cost
/// less; with the gap of the duals, and then nothing is feasible; with the rate of the ray, and then feasible costs
/// have no least. `No` with the first thing that fails. `Passed` only where an operation passes 128 bits that arises
/// from the certificate's numbers: in the rest of a row, in a reduced cost, in the sum of a row or in a total. It takes
/// no memory.
pub fn verify<L: Ledger>(p: &Problem, cert: &Cert, steps: &mut Steps<L>) -> Result<Checked, Passed>
    requires lengths { HasLengths p.now cert.now }
    ensures answer { IfOk result (IsAnswer p.now cert.now) }
    ensures passed { IfErr result (PassesIn (CheckTerms p.now cert.now)) }
{
    match cert {
        Cert::Best { values, duals } => verify_best(p, values.items(), duals.items(), steps),
        Cert::Farkas { duals } => verify_farkas(p, duals.items(), steps),
        Cert::Ray { values, ray } => verify_ray(p, values.items(), ray.items(), steps),
    }
}

fn verify_best<L: Ledger>(
    p: &Problem,
    x: &[Frac],
    y: &[Frac],
    steps: &mut Steps<L>,
) -> Result<Checked, Passed>
    requires values { length x.now ≡ length p.now.columns }
    requires duals { length y.now ≡ length p.now.rows }
    ensures value { IfOk result (IsBestAnswer p.now x.now y.now) }
    ensures passed { IfErr result (PassesIn (BestTerms p.now x.now y.now)) }
{
    if let Some(why) = first_infeasible(p, x, steps)? {
        return Ok(Checked::No(why));
    }
    if let Some(j) = first_unfit_cost(p, x, y, steps)? {
        return Ok(Checked::No(Why::ReducedCost(j)));
    }
    if let Some(i) = first_unfit_dual(p, x, y, steps)? {
        return Ok(Checked::No(Why::Dual(i)));
    }
    let cost = total_cost(p, x, steps)?;
    Ok(Checked::Yes(cost))
}

// What makes values infeasible, if anything does.
pub(crate) fn first_infeasible<L: Ledger>(
    p: &Problem,
    x: &[Frac],
    steps: &mut Steps<L>,
) -> Result<Option<Why>, Passed>
    requires values { length x.now ≡ length p.now.columns }
    ensures value { IfOk result (λ r. MatchOption r (IsFeasible p.now x.now) (FailsFeasible p.now x.now)) }
    ensures passed { IfErr result (PassesIn (RowTerms p.now x.now)) }
{
    if let Some(j) = first_out_of_bounds(p, x) {
        return Ok(Some(Why::Bound(j)));
    }
    if let Some(i) = first_broken_row(p, x, steps)? {
        return Ok(Some(Why::Row(i)));
    }
    Ok(None)
}

fn first_out_of_bounds(p: &Problem, x: &[Frac]) -> Option<u32>
    requires values { length x.now ≡ length p.now.columns }
    ensures { MatchOption result (HoldsBelow (length p.now.columns) (IsInBounds p.now x.now)) (IsFirst (length p.now.columns) (IsInBounds p.now x.now)) }
{
    for j in 0..p.columns() {
        if !is_in_bounds(p, j as usize, x) {
            return Some(j + 1);
        }
    }
    None
}

fn is_in_bounds(p: &Problem, j: usize, x: &[Frac]) -> bool
    requires values { length x.now ≡ length p.now.columns }
    requires within { j < length p.now.columns }
    ensures { IsTrue result ↔ IsInBounds p.now x.now j }
{
    is_at_least(p.lower_at(j), x[j]) && is_at_most(p.upper_at(j), x[j])
}

fn first_broken_row<L: Ledger>(
    p: &Problem,
    x: &[Frac],
    steps: &mut Steps<L>,
) -> Result<Option<u32>, Passed>
    requires values { length x.now ≡ length p.now.columns }
    ensures value { IfOk result (λ r. MatchOption r (HoldsBelow (length p.now.rows) (RowHolds p.now x.now)) (IsFirst (length p.now.rows) (RowHolds p.now x.now))) }
    ensures passed { IfErr result (PassesIn (RowTerms p.now x.now)) }
{
    let rows = p.rows();
    for i in 0..rows {
        let holds = row_holds(p, i as usize, x, steps)?;
        if !holds {
            return Ok(Some(i + 1));
        }
    }
    Ok(None)
}

fn row_holds<L: Ledger>(
    p: &Problem,
    i: usize,
    x: &[Frac],
    steps: &mut Steps<L>,
) -> Result<bool, Passed>
    requires values { length x.now ≡ length p.now.columns }
    requires within { i < length p.now.rows }
    ensures value { IfOk result (λ b. IsTrue b ↔ RowHolds p.now x.now i) }
    ensures passed { IfErr result (PassesIn (RowTerms p.now x.now)) }
{
    let sum = sum_of_row(p, i, x, steps)?;
    Ok(stands(p.kind_at(i), sum, p.right_at(i)))
}

pub(crate) fn sum_of_row<L: Ledger>(
    p: &Problem,
    i: usize,
    x: &[Frac],
    steps: &mut Steps<L>,
) -> Result<Frac, Passed>
    requires values { length x.now ≡ length p.now.columns }
    requires within { i < length p.now.rows }
    ensures value { IfOk result (λ s. s ≡ row_sum p.now x.now i) }
    ensures passed { IfErr result (PassesIn (RowTerms p.now x.now)) }
{
    let entries = p.row_entries_at(i);
    let factors = |k: usize| -> (Frac, Frac)
        requires place { k < length entries.now }
        requires column { IsNumber (row_entry entries.now k).column (length x.now) }
        ensures { (result.0 ≡ (row_entry entries.entry.now k).value) × (result.1 ≡ at x.entry.now ((row_entry entries.entry.now k).column - 1)) }
    { (entries[k].value, x[entries[k].column as usize - 1]) };
    let total = sum_products(entries.len(), factors, steps)?;
    Ok(total)
}

fn first_unfit_cost<L: Ledger>(
    p: &Problem,
    x: &[Frac],
    y: &[Frac],
    steps: &mut Steps<L>,
) -> Result<Option<u32>, Passed>
    requires values { length x.now ≡ length p.now.columns }
    requires duals { length y.now ≡ length p.now.rows }
    ensures value { IfOk result (λ r. MatchOption r (HoldsBelow (length p.now.columns) (CostFits p.now x.now y.now)) (IsFirst (length p.now.columns) (CostFits p.now x.now y.now))) }
    ensures passed { IfErr result (PassesIn (CostTerms p.now y.now)) }
{
    for j in 0..p.columns() {
        let fits = cost_fits_at(p, j as usize, x, y, steps)?;
        if !fits {
            return Ok(Some(j + 1));
        }
    }
    Ok(None)
}

fn cost_fits_at<L: Ledger>(
    p: &Problem,
    j: usize,
    x: &[Frac],
    y: &[Frac],
    steps: &mut Steps<L>,
) -> Result<bool, Passed>
    requires values { length x.now ≡ length p.now.columns }
    requires duals { length y.now ≡ length p.now.rows }
    requires within { j < length p.now.columns }
    ensures value { IfOk result (λ b. IsTrue b ↔ CostFits p.now x.now y.now j) }
    ensures passed { IfErr result (PassesIn (CostTerms p.now y.now)) }
{
    let d = reduced_cost_at(p, j, y, steps)?;
    Ok(cost_fits(d, p.lower_at(j), p.upper_at(j), x[j]))
}

fn reduced_cost_at<L: Ledger>(
    p: &Problem,
    j: usize,
    y: &[Frac],
    steps: &mut Steps<L>,
) -> Result<Frac, Passed>
    requires duals { length y.now ≡ length p.now.rows }
    requires within { j < length p.now.columns }
    ensures value { IfOk result (λ d. d ≡ reduced_cost p.now y.now j) }
    ensures passed { IfErr result (PassesIn (CostTerms p.now y.now)) }
{
    let combination = combined_at(p, j, y, steps)?;
    let d = p.cost_at(j).sub(combination, steps)?;
    Ok(d)
}

pub(crate) fn combined_at<L: Ledger>(
    p: &Problem,
    j: usize,
    y: &[Frac],
    steps: &mut Steps<L>,
) -> Result<Frac, Passed>
    requires duals { length y.now ≡ length p.now.rows }
    requires within { j < length p.now.columns }
    ensures value { IfOk result (λ s. s ≡ combined p.now y.now j) }
    ensures passed { IfErr result (PassesIn (CombinedTerms p.now y.now)) }
{
    let entries = p.entries_at(j);
    let factors = |k: usize| -> (Frac, Frac)
        requires place { k < length entries.now }
        requires row { IsNumber (stored_entry entries.now k).row (length y.now) }
        ensures { (result.0 ≡ at y.entry.now ((stored_entry entries.entry.now k).row - 1)) × (result.1 ≡ (stored_entry entries.entry.now k).value) }
    { (y[entries[k].row as usize - 1], entries[k].value) };
    let total = sum_products(entries.len(), factors, steps)?;
    Ok(total)
}

fn first_unfit_dual<L: Ledger>(
    p: &Problem,
    x: &[Frac],
    y: &[Frac],
    steps: &mut Steps<L>,
) -> Result<Option<u32>, Passed>
    requires values { length x.now ≡ length p.now.columns }
    requires duals { length y.now ≡ length p.now.rows }
    ensures value { IfOk result (λ r. MatchOption r (HoldsBelow (length p.now.rows) (DualFits p.now x.now y.now)) (IsFirst (length p.now.rows) (DualFits p.now x.now y.now))) }
    ensures passed { IfErr result (PassesIn (RowTerms p.now x.now)) }
{
    for i in 0..p.rows() {
        let fits = dual_fits_at(p, i as usize, x, y, steps)?;
        if !fits {
            return Ok(Some(i + 1));
        }
    }
    Ok(None)
}

fn dual_fits_at<L: Ledger>(
    p: &Problem,
    i: usize,
    x: &[Frac],
    y: &[Frac],
    steps: &mut Steps<L>,
) -> Result<bool, Passed>
    requires values { length x.now ≡ length p.now.columns }
    requires duals { length y.now ≡ length p.now.rows }
    requires within { i < length p.now.rows }
    ensures value { IfOk result (λ b. IsTrue b ↔ DualFits p.now x.now y.now i) }
    ensures passed { IfErr result (PassesIn (RowTerms p.now x.now)) }
{
    // Any dual fits an equation, so its sum is not needed again.
    match p.kind_at(i) {
        RowKind::Eq => Ok(true),
        kind => {
            let sum = sum_of_row(p, i, x, steps)?;
            Ok(dual_fits(kind, sum, p.right_at(i), y[i]))
        }
    }
}

pub(crate) fn total_cost<L: Ledger>(
    p: &Problem,
    x: &[Frac],
    steps: &mut Steps<L>,
) -> Result<Frac, Passed>
    requires values { length x.now ≡ length p.now.columns }
    ensures value { IfOk result (λ s. s ≡ cost_of p.now x.now) }
    ensures passed { IfErr result (PassesIn (TotalTerms p.now x.now)) }
{
    let factors = |k: usize| -> (Frac, Frac)
        requires column { k < length p.now.columns }
        requires place { k < length x.now }
        ensures { (result.0 ≡ (column p.entry.now k).cost) × (result.1 ≡ at x.entry.now k) }
    { (p.cost_at(k), x[k]) };
    let total = sum_products(p.columns() as usize, factors, steps)?;
    Ok(total)
}
