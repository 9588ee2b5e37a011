//! The values of the basic columns, by slot, after an exchange and after a flip.
ghost use Rattle.std.specs.Prelude.{◌≡◌, ◌≢◌, ℕ, ◌+◌, ◌*◌, ◌<◌, ◌≤◌, length, IfOk, IfErr};
ghost use Rattle.nf_num.specs.Rational.{zero_ℚ, ◌-ℚ◌, ◌*ℚ◌, inv_ℚ};
ghost use Rattle.nf_sums.specs.Terms.{PassesIn, with_sign};
ghost use Rattle.nf_inverse.specs.Causes.{FlipTerms, RatioTerms, ValueTerms};
ghost use Rattle.nf_inverse.specs.Exchanged.{AreExchanged};
ghost use Rattle.nf_inverse.specs.Weights.{at};

use crate::rows::{signed, sub_multiple};
use nf_frac::{Frac, Passed, Steps};
use std::sync::ledger::Ledger;

/// How far the entering column moves until a basic one stands at a bound: its value less the bound, divided by the
/// entering column's entry there. It takes two steps.
///
/// `Passed` only where the difference or the quotient passes 128 bits.
pub fn ratio<L: Ledger>(
    value: Frac,
    bound: Frac,
    entry: Frac,
    steps: &mut Steps<L>,
) -> Result<Frac, Passed>
    requires pivot { entry ≢ zero_ℚ }
    ensures value { IfOk result (λ r. r ≡ (value -ℚ bound) *ℚ inv_ℚ entry) }
    ensures passed { IfErr result (PassesIn (RatioTerms value bound entry)) }
    ensures cost { steps.new ≤ steps.old + 2 }
{
    let distance = value.sub(bound, steps)?;
    let change = distance.div(entry, steps)?;
    Ok(change)
}

/// The values after an exchange, in place: the entering column has moved from `start` until the leaving slot's column
/// stood at `bound`, and has its slot. `entries` are the entering column's, by slot.
///
/// `Passed` only where an operation passes 128 bits that arises from the values handed in: in the leaving slot's ratio,
/// or where a value is updated. The values are then of no use.
pub fn exchange_values<L: Ledger>(
    values: &mut [Frac],
    entries: &[Frac],
    leaving: usize,
    bound: Frac,
    start: Frac,
    steps: &mut Steps<L>,
) -> Result<(), Passed>
    requires places { length values.old ≡ length entries.now }
    requires slot { leaving < length values.old }
    requires pivot { at entries.now leaving ≢ zero_ℚ }
    ensures value { IfOk result (λ _. AreExchanged values.old values.new (at entries.now) leaving bound start) }
    ensures passed { IfErr result (PassesIn (ValueTerms values.old (at entries.now) leaving bound start)) }
    ensures cost { steps.new ≤ steps.old + 2 * length values.old + 3 }
{
    let change = ratio(values[leaving], bound, entries[leaving], steps)?;
    let entered = start.add(change, steps)?;
    sub_multiple(values, entries, change, steps)?;
    values[leaving] = entered;
    Ok(())
}

/// The values after a flip, in place: the entering column has moved from one of its bounds to the other, by their
/// distance, and falls where it comes from the upper one. `entries` are its entries, by slot.
///
/// `Passed` only where an entry times the distance, or a value less that, passes 128 bits.
pub fn flip_values<L: Ledger>(
    values: &mut [Frac],
    entries: &[Frac],
    distance: Frac,
    falls: bool,
    steps: &mut Steps<L>,
) -> Result<(), Passed>
    requires places { length values.old ≡ length entries.now }
    ensures value { IfOk result (λ _. (s : ℕ) → s < length values.old → at values.new s ≡ at values.old s -ℚ at entries.now s *ℚ with_sign falls distance) }
    ensures passed { IfErr result (PassesIn (FlipTerms values.old (at entries.now) falls distance)) }
    ensures cost { steps.new ≤ steps.old + 2 * length values.old }
{
    let change = signed(falls, distance);
    sub_multiple(values, entries, change, steps)?;
    Ok(())
}
