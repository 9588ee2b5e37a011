// The check of a Farkas certificate.
ghost use Rattle.std.specs.Prelude.{◌≡◌, ◌<◌, ◌↔◌, ℕ, length, IfOk, IfErr, IsTrue, MatchOption};
ghost use Rattle.nf_num.specs.Rational.{ℚ};
ghost use Rattle.nf_model.specs.Certificate.{combined};
ghost use Rattle.nf_model.specs.Farkas.{ColumnIsBounded, DualIsSigned, IsGap, IsGreatest, combined_right};
ghost use Rattle.nf_model.specs.Program.{HoldsBelow, at, row};
ghost use Rattle.nf_prob.specs.Arising.{CombinedTerms, FarkasTerms, RightTerms};
ghost use Rattle.nf_prob.specs.Greatest.{IsGreatestAnswer, IsShare};
ghost use Rattle.nf_prob.specs.Highest.{highest_sum};
ghost use Rattle.nf_prob.specs.Verdict.{IsFarkasAnswer, IsFirst};
ghost use Rattle.nf_sums.specs.Terms.{PassesIn};

use crate::cert::{Checked, Why};
use crate::check::combined_at;
use crate::fits::{is_less, is_signed, place_of_greatest};
use crate::problem::Problem;
use nf_frac::{Frac, Passed, Steps};
use nf_sums::{add_product, sum_products};
use std::sync::ledger::Ledger;

// The combined right sides must be greater than the greatest value of the combined rows.
pub(crate) fn verify_farkas<L: Ledger>(
    p: &Problem,
    y: &[Frac],
    steps: &mut Steps<L>,
) -> Result<Checked, Passed>
    requires duals { length y.now ≡ length p.now.rows }
    ensures value { IfOk result (IsFarkasAnswer p.now y.now) }
    ensures passed { IfErr result (PassesIn (FarkasTerms p.now y.now)) }
{
    if let Some(i) = first_wrong_sign(p, y) {
        return Ok(Checked::No(Why::Dual(i)));
    }
    match greatest_value(p, y, steps)? {
        Greatest::Missing(j) => Ok(Checked::No(Why::Column(j))),
        Greatest::Value(value) => {
            let gap = gap_above(p, y, value, steps)?;
            if is_less(Frac::zero(), gap) {
                Ok(Checked::Yes(gap))
            } else {
                Ok(Checked::No(Why::Gap(gap)))
            }
        }
    }
}

fn first_wrong_sign(p: &Problem, y: &[Frac]) -> Option<u32>
    requires duals { length y.now ≡ length p.now.rows }
    ensures { MatchOption result (HoldsBelow (length p.now.rows) (DualIsSigned p.now y.now)) (IsFirst (length p.now.rows) (DualIsSigned p.now y.now)) }
{
    for i in 0..p.rows() {
        if !is_signed_at(p, i as usize, y) {
            return Some(i + 1);
        }
    }
    None
}

fn is_signed_at(p: &Problem, i: usize, y: &[Frac]) -> bool
    requires duals { length y.now ≡ length p.now.rows }
    requires within { i < length p.now.rows }
    ensures { IsTrue result ↔ DualIsSigned p.now y.now i }
{
    is_signed(p.kind_at(i), y[i])
}

// The greatest value of the combined rows within the bounds.
enum Greatest {
    Value(Frac),
    // There is none, since of this column, counted from 1, it grows without end.
    Missing(u32),
}

fn greatest_value<L: Ledger>(
    p: &Problem,
    y: &[Frac],
    steps: &mut Steps<L>,
) -> Result<Greatest, Passed>
    requires duals { length y.now ≡ length p.now.rows }
    ensures value { IfOk result (IsGreatestAnswer p.now y.now) }
    ensures passed { IfErr result (PassesIn (FarkasTerms p.now y.now)) }
{
    let mut total = Frac::zero();
    for j in 0..p.columns() {
        let Some(share) = share_at(p, j as usize, y, steps)? else {
            return Ok(Greatest::Missing(j + 1));
        };
        total = add_product(total, share.weight, share.place, steps)?;
    }
    Ok(Greatest::Value(total))
}

// A column's share of the greatest value: the combination at the column, times the place within its bounds at which
// the product is greatest.
#[derive(Clone, Copy)]
struct Share {
    weight: Frac,
    place: Frac,
}

// None where the product has no greatest value.
fn share_at<L: Ledger>(
    p: &Problem,
    j: usize,
    y: &[Frac],
    steps: &mut Steps<L>,
) -> Result<Option<Share>, Passed>
    requires duals { length y.now ≡ length p.now.rows }
    requires within { j < length p.now.columns }
    ensures value { IfOk result (λ r. MatchOption r (ColumnIsBounded p.now (combined p.now y.now) j → ⊥) (IsShare p.now (combined p.now y.now) j)) }
    ensures passed { IfErr result (PassesIn (CombinedTerms p.now y.now)) }
{
    let weight = combined_at(p, j, y, steps)?;
    match place_of_greatest(p.lower_at(j), p.upper_at(j), weight) {
        Some(place) => Ok(Some(Share { weight, place })),
        None => Ok(None),
    }
}

// By how much the combined right sides are above the greatest value.
fn gap_above<L: Ledger>(
    p: &Problem,
    y: &[Frac],
    greatest: Frac,
    steps: &mut Steps<L>,
) -> Result<Frac, Passed>
    requires duals { length y.now ≡ length p.now.rows }
    requires greatest { IsGreatest p.now (combined p.now y.now) greatest }
    requires by_columns { greatest ≡ highest_sum p.now (combined p.now y.now) }
    ensures value { IfOk result (IsGap p.now y.now) }
    ensures passed { IfErr result (PassesIn (FarkasTerms p.now y.now)) }
{
    let right = right_sum(p, y, steps)?;
    let gap = right.sub(greatest, steps)?;
    Ok(gap)
}

fn right_sum<L: Ledger>(p: &Problem, y: &[Frac], steps: &mut Steps<L>) -> Result<Frac, Passed>
    requires duals { length y.now ≡ length p.now.rows }
    ensures value { IfOk result (λ s. s ≡ combined_right p.now y.now) }
    ensures passed { IfErr result (PassesIn (RightTerms p.now y.now)) }
{
    let factors = |k: usize| -> (Frac, Frac)
        requires row { k < length p.now.rows }
        requires place { k < length y.now }
        ensures { (result.0 ≡ at y.entry.now k) × (result.1 ≡ (row p.entry.now k).right) }
    { (y[k], p.right_at(k)) };
    let total = sum_products(p.rows() as usize, factors, steps)?;
    Ok(total)
}
