//! The reduced cost of a column by duals that are handed in.
ghost use Rattle.std.specs.Prelude.{◌≡◌, ◌+◌, ◌*◌, ◌-◌, ◌≤◌, length, IfOk, IfErr};
ghost use Rattle.nf_model.specs.Certificate as certificate;
ghost use Rattle.nf_model.specs.Program.{column};
ghost use Rattle.nf_prob.specs.Numbers.{IsNumber};
ghost use Rattle.nf_prob.specs.Reduced.{ReducedTerms};
ghost use Rattle.nf_sums.specs.Terms.{PassesIn};

use nf_frac::{Frac, Passed, Steps};
use nf_prob::{Problem, reduced_by};
use std::sync::ledger::Ledger;

/// The reduced cost of column j by these duals: its cost less its column of the rows' combination. A row without a
/// place in `duals` counts as 0.
///
/// `Passed` only where an operation of this sum passes 128 bits. At most `2 n + 1` steps for the n entries of the
/// column.
pub fn reduced_cost<L: Ledger>(
    p: &Problem,
    j: u32,
    duals: &[Frac],
    steps: &mut Steps<L>,
) -> Result<Frac, Passed>
    requires number { IsNumber j (length p.now.columns) }
    ensures value { IfOk result (λ d. d ≡ certificate.reduced_cost p.now duals.now (j - 1)) }
    ensures passed { IfErr result (PassesIn (ReducedTerms p.now (column p.now (j - 1)).cost duals.now (j - 1))) }
    ensures cost { steps.new ≤ steps.old + 2 * length (column p.now (j - 1)).entries + 1 }
{
    let d = reduced_by(p, p.cost(j), j, duals, steps)?;
    Ok(d)
}
