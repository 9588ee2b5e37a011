//! What the cell of a variable says.
ghost use Rattle.std.specs.Prelude.{◌≡◌};
ghost use Rattle.nf_cons.specs.Values.{may_be, value_in};

use crate::row_type::{RowType, is_same_type};
use nf_cells::{Cell, is_missing, trimmed};
use nf_frac::{Amount, read_amount};

/// What the cell of a variable says: a coefficient, a cost or a bound.
#[derive(Clone, Copy, Debug, PartialEq, Eq)]
pub enum Value {
    /// An amount.
    Finite(Amount),
    /// INF: no upper bound.
    NoUpper,
    /// -INF: no lower bound.
    NoLower,
}

/// The value in a cell: an amount, or INF or -INF in any case.
pub fn value_cell(cell: &[u8]) -> Cell<Value>
    ensures { result ≡ value_in cell.now }
{
    let value = trimmed(cell);
    if is_missing(value) {
        return Cell::Missing;
    }
    if value.eq_ignore_ascii_case(b"INF") {
        return Cell::Is(Value::NoUpper);
    }
    if value.eq_ignore_ascii_case(b"-INF") {
        return Cell::Is(Value::NoLower);
    }
    match read_amount(value) {
        Ok(amount) => Cell::Is(Value::Finite(amount)),
        Err(_) => Cell::Bad,
    }
}

/// Whether a row of this type may give this value: INF is only an upper bound, and -INF only a lower bound.
pub fn may_be(row_type: RowType, value: Value) -> bool
    ensures { result ≡ may_be row_type value }
{
    match value {
        Value::Finite(_) => true,
        Value::NoUpper => is_same_type(row_type, RowType::Upper),
        Value::NoLower => is_same_type(row_type, RowType::Lower),
    }
}
