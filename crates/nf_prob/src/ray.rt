// The check of a Ray certificate.
ghost use Rattle.std.specs.Prelude.{◌≡◌, ◌<◌, ◌↔◌, ℕ, length, IfOk, IfErr, IsTrue, MatchOption};
ghost use Rattle.nf_model.specs.Program.{HoldsBelow};
ghost use Rattle.nf_model.specs.Ray.{IsFree, RowKeeps};
ghost use Rattle.nf_prob.specs.Arising.{RayTerms, RowTerms};
ghost use Rattle.nf_prob.specs.Verdict.{IsFirst, IsRayAnswer};
ghost use Rattle.nf_sums.specs.Terms.{PassesIn};

use crate::cert::{Checked, Why};
use crate::check::{first_infeasible, sum_of_row, total_cost};
use crate::fits::{is_less, is_unstopped, stands};
use crate::problem::Problem;
use nf_frac::{Frac, Passed, Steps};
use std::sync::ledger::Ledger;

// The values must be feasible, and the ray such that no bound stops it, that it keeps every row, and that it lowers the
// cost.
pub(crate) fn verify_ray<L: Ledger>(
    p: &Problem,
    x: &[Frac],
    r: &[Frac],
    steps: &mut Steps<L>,
) -> Result<Checked, Passed>
    requires values { length x.now ≡ length p.now.columns }
    requires ray { length r.now ≡ length p.now.columns }
    ensures value { IfOk result (IsRayAnswer p.now x.now r.now) }
    ensures passed { IfErr result (PassesIn (RayTerms p.now x.now r.now)) }
{
    if let Some(why) = first_infeasible(p, x, steps)? {
        return Ok(Checked::No(why));
    }
    if let Some(j) = first_stopped(p, r) {
        return Ok(Checked::No(Why::RayColumn(j)));
    }
    if let Some(i) = first_left_row(p, r, steps)? {
        return Ok(Checked::No(Why::RayRow(i)));
    }
    let rate = total_cost(p, r, steps)?;
    if is_less(rate, Frac::zero()) {
        Ok(Checked::Yes(rate))
    } else {
        Ok(Checked::No(Why::Rate(rate)))
    }
}

fn first_stopped(p: &Problem, r: &[Frac]) -> Option<u32>
    requires ray { length r.now ≡ length p.now.columns }
    ensures { MatchOption result (HoldsBelow (length p.now.columns) (IsFree p.now r.now)) (IsFirst (length p.now.columns) (IsFree p.now r.now)) }
{
    for j in 0..p.columns() {
        if !is_free(p, j as usize, r) {
            return Some(j + 1);
        }
    }
    None
}

fn is_free(p: &Problem, j: usize, r: &[Frac]) -> bool
    requires ray { length r.now ≡ length p.now.columns }
    requires within { j < length p.now.columns }
    ensures { IsTrue result ↔ IsFree p.now r.now j }
{
    is_unstopped(r[j], p.lower_at(j), p.upper_at(j))
}

fn first_left_row<L: Ledger>(
    p: &Problem,
    r: &[Frac],
    steps: &mut Steps<L>,
) -> Result<Option<u32>, Passed>
    requires ray { length r.now ≡ length p.now.columns }
    ensures value { IfOk result (λ o. MatchOption o (HoldsBelow (length p.now.rows) (RowKeeps p.now r.now)) (IsFirst (length p.now.rows) (RowKeeps p.now r.now))) }
    ensures passed { IfErr result (PassesIn (RowTerms p.now r.now)) }
{
    for i in 0..p.rows() {
        let keeps = row_keeps(p, i as usize, r, steps)?;
        if !keeps {
            return Ok(Some(i + 1));
        }
    }
    Ok(None)
}

fn row_keeps<L: Ledger>(
    p: &Problem,
    i: usize,
    r: &[Frac],
    steps: &mut Steps<L>,
) -> Result<bool, Passed>
    requires ray { length r.now ≡ length p.now.columns }
    requires within { i < length p.now.rows }
    ensures value { IfOk result (λ b. IsTrue b ↔ RowKeeps p.now r.now i) }
    ensures passed { IfErr result (PassesIn (RowTerms p.now r.now)) }
{
    let sum = sum_of_row(p, i, r, steps)?;
    Ok(stands(p.kind_at(i), sum, Frac::zero()))
}
