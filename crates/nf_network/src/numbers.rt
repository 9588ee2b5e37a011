//! The numbers of data as numbers of the problem, and what PROC gives where the data say nothing.
ghost use Rattle.std.specs.Prelude.{◌≡◌};
ghost use Rattle.nf_frac.specs.Amounts.{amount_value};
ghost use Rattle.nf_network.specs.Network.{bound_or_infinite, defaults_of, in_sense, upper_of};

use crate::rows::Defaults;
use nf_cells::Bound;
use nf_frac::{Amount, Frac};
use nf_program::{Bound as OptionBound, ProcOptions};

/// The number that an amount is.
pub fn amount_value(amount: Amount) -> Frac
    ensures { result ≡ amount_value amount }
{
    Frac::from_thousandths(i128::from(amount.thousandths))
}

/// A cost of the program in the minimised problem: MAXIMIZE negates it.
pub fn in_sense(maximize: bool, cost: Amount) -> Frac
    ensures { result ≡ in_sense maximize cost }
{
    if maximize {
        amount_value(cost).neg()
    } else {
        amount_value(cost)
    }
}

/// The upper bound that a bound is, if it is one.
pub fn upper_of(bound: Bound) -> Option<Frac>
    ensures { result ≡ upper_of bound }
{
    match bound {
        Bound::Finite(amount) => Some(amount_value(amount)),
        Bound::Infinite => None,
    }
}

/// What an arc has if its row does not say it: DEFCOST or 0, DEFMINFLOW or 0, DEFCAPACITY or no bound.
pub fn defaults_of(options: &ProcOptions) -> Defaults
    ensures { result ≡ defaults_of options.now }
{
    let zero = Amount { thousandths: 0 };
    Defaults {
        cost: options.defcost.unwrap_or(zero),
        lower: options.defminflow.unwrap_or(zero),
        upper: bound_or_infinite(options.defcapacity),
    }
}

// The bound of an option as a bound of data.
fn bound_or_infinite(bound: Option<OptionBound>) -> Bound
    ensures { result ≡ bound_or_infinite bound }
{
    match bound {
        Some(OptionBound::Finite(amount)) => Bound::Finite(amount),
        Some(OptionBound::Infinite) | None => Bound::Infinite,
    }
}
