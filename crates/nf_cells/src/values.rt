//! What cells say: names, amounts, bounds and supplies.
ghost use Rattle.std.specs.Prelude.{◌≡◌};
ghost use Rattle.nf_frac.specs.Amounts.{IsAmount};
ghost use Rattle.nf_cells.specs.Values.{amount_in, as_supply, bound_in, cell_now, may_demand, may_supply, name_in, supply_in};

use crate::cell::{is_missing, trimmed};
use crate::name_bytes::is_name;
use nf_frac::{Amount, read_amount};

/// What a cell says.
#[derive(Clone, Copy, Debug, PartialEq, Eq)]
pub enum Cell<T> {
    /// Nothing: its value is empty or a point.
    Missing,
    /// Its value is not of the kind that is asked for.
    Bad,
    /// Its value.
    Is(T),
}

/// An upper bound.
#[derive(Clone, Copy, Debug, PartialEq, Eq)]
pub enum Bound {
    /// An amount.
    Finite(Amount),
    /// INF: no bound.
    Infinite,
}

/// What a node is given. A demand is a supply of the opposite sign.
#[derive(Clone, Copy, Debug, PartialEq, Eq)]
pub enum Supply {
    /// An amount.
    Amount(Amount),
    /// `.S` or `S`: as much supply as is needed.
    OpenSupply,
    /// `.D` or `D`: as much demand as is needed.
    OpenDemand,
}

/// What a cell gives a node.
#[derive(Clone, Copy, Debug, PartialEq, Eq)]
pub enum Gives {
    /// A supply: an amount, `.S` or `S`.
    Supply,
    /// A demand: an amount, which is a supply of the opposite sign, `.D` or `D`.
    Demand,
    /// Either: an amount, which is a supply, or one of the four words.
    Either,
}

/// The name in a cell: 1 to 32 ASCII letters, digits, `_`, spaces, points and `-`.
pub fn name_cell(cell: &[u8]) -> Cell<&[u8]>
    ensures said { cell_now result ≡ name_in cell.now }
{
    let value = trimmed(cell);
    if is_missing(value) {
        Cell::Missing
    } else if is_name(value) {
        Cell::Is(value)
    } else {
        Cell::Bad
    }
}

/// The amount in a cell.
pub fn amount_cell(cell: &[u8]) -> Cell<Amount>
    ensures said { result ≡ amount_in cell.now }
{
    let value = trimmed(cell);
    if is_missing(value) {
        return Cell::Missing;
    }
    match read_amount(value) {
        Ok(amount) => Cell::Is(amount),
        Err(_) => Cell::Bad,
    }
}

/// The bound in a cell: an amount, or INF in any case.
pub fn bound_cell(cell: &[u8]) -> Cell<Bound>
    ensures said { result ≡ bound_in cell.now }
{
    let value = trimmed(cell);
    if is_missing(value) {
        return Cell::Missing;
    }
    if value.eq_ignore_ascii_case(b"INF") {
        return Cell::Is(Bound::Infinite);
    }
    match read_amount(value) {
        Ok(amount) => Cell::Is(Bound::Finite(amount)),
        Err(_) => Cell::Bad,
    }
}

/// The supply in a cell: an amount, or an open supply or demand where the cell may give it. The words `S` and `D` are in
/// upper case.
pub fn supply_cell(gives: Gives, cell: &[u8]) -> Cell<Supply>
    ensures said { result ≡ supply_in gives cell.now }
{
    let value = trimmed(cell);
    if is_missing(value) {
        return Cell::Missing;
    }
    if gives.may_supply() && (value == b".S".as_slice() || value == b"S".as_slice()) {
        return Cell::Is(Supply::OpenSupply);
    }
    if gives.may_demand() && (value == b".D".as_slice() || value == b"D".as_slice()) {
        return Cell::Is(Supply::OpenDemand);
    }
    match read_amount(value) {
        Ok(amount) => Cell::Is(Supply::Amount(gives.as_supply(amount))),
        Err(_) => Cell::Bad,
    }
}

impl Gives {
    fn may_supply(self) -> bool
        ensures { result ≡ may_supply self }
    {
        match self {
            Gives::Supply | Gives::Either => true,
            Gives::Demand => false,
        }
    }

    fn may_demand(self) -> bool
        ensures { result ≡ may_demand self }
    {
        match self {
            Gives::Demand | Gives::Either => true,
            Gives::Supply => false,
        }
    }

    // An amount of such a cell as a supply.
    fn as_supply(self, amount: Amount) -> Amount
        requires { IsAmount amount }
        ensures { result ≡ as_supply self amount }
    {
        match self {
            Gives::Supply | Gives::Either => amount,
            Gives::Demand => Amount {
                thousandths: -amount.thousandths,
            },
        }
    }
}
