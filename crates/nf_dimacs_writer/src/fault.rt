//! Why a problem has no DIMACS text.
ghost use Rattle.std.specs.Prelude.{◌≡◌};

use std::alloc::AllocError;

/// Why a problem has no DIMACS text. Rows and columns count from 1.
#[derive(Clone, Copy, Debug, PartialEq, Eq)]
pub enum ExportFault {
    /// There is a constraint or a nonarc variable.
    Constraints,
    /// The right side of this row is no whole number of at most nine digits.
    RowNumber(u32),
    /// The cost of this column, or a bound that it has, is no whole number of at most nine digits.
    ColumnNumber(u32),
    /// This column has no upper bound.
    NoCapacity(u32),
    /// The upper bound of this column is below 0.
    Negative(u32),
    /// There is not enough memory.
    NoMemory,
}

impl From<AllocError> for ExportFault {
    ghost use Rattle.nf_dimacs_writer.specs.declared.fault.ExportFault.TheVariants as fault;

    ghost from_gives = { λ _ e. e ≡ fault.NoMemory };

    fn from(_: AllocError) -> Self {
        ExportFault::NoMemory
    }
}
