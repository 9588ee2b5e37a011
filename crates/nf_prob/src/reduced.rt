// The reduced cost of a column by duals.
ghost use Rattle.std.specs.Prelude.{◌≡◌, ◌+◌, ◌*◌, ◌-◌, ◌<◌, ◌≤◌, length, IfOk, IfErr};
ghost use Rattle.nf_num.specs.Rational.{◌-ℚ◌};
ghost use Rattle.nf_model.specs.Certificate.{combined};
ghost use Rattle.nf_model.specs.Program.{at, column};
ghost use Rattle.nf_prob.specs.Numbers.{IsNumber};
ghost use Rattle.nf_prob.specs.Reduced.{ReducedTerms};
ghost use Rattle.nf_prob.specs.Stored.{stored_entry};
ghost use Rattle.nf_sums.specs.Terms.{PassesIn};

use crate::problem::Problem;
use nf_frac::{Frac, Passed, Steps};
use nf_sums::sub_products;
use std::sync::ledger::Ledger;

/// A cost of column j less the combination of the column by the duals: its reduced cost where it costs so much. A row
/// without a place in `duals` counts as 0.
///
/// `Passed` only where an operation of this sum passes 128 bits. At most `2 n + 1` steps for the n entries of the
/// column.
pub fn reduced_by<L: Ledger>(
    p: &Problem,
    cost: Frac,
    j: u32,
    duals: &[Frac],
    steps: &mut Steps<L>,
) -> Result<Frac, Passed>
    requires number { IsNumber j (length p.now.columns) }
    ensures value { IfOk result (λ d. d ≡ cost -ℚ combined p.now duals.now (j - 1)) }
    ensures passed { IfErr result (PassesIn (ReducedTerms p.now cost duals.now (j - 1))) }
    ensures cost { steps.new ≤ steps.old + 2 * length (column p.now (j - 1)).entries + 1 }
{
    let entries = p.entries(j);
    let factors = |k: usize| -> (Frac, Frac)
        requires place { k < length entries.now }
        requires numbered { 0 < (stored_entry entries.now k).row }
        ensures { (result.0 ≡ at duals.entry.now ((stored_entry entries.entry.now k).row - 1)) × (result.1 ≡ (stored_entry entries.entry.now k).value) }
    { (dual_of(duals, entries[k].row), entries[k].value) };
    let d = sub_products(cost, entries.len(), factors, steps)?;
    Ok(d)
}

// The dual of a row, and 0 where it has no place.
fn dual_of(duals: &[Frac], row: u32) -> Frac
    requires { 0 < row }
    ensures { result ≡ at duals.now (row - 1) }
{
    match duals.get(row as usize - 1) {
        Some(y) => *y,
        None => Frac::zero(),
    }
}
