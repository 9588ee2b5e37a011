//! What lines give constraints, and what a line says by numbers.
use nf_cons::{RowType, Value};
use nf_frac::Amount;

/// What lines give a constraint.
#[derive(Clone, Copy, Debug)]
pub struct GivenRow {
    pub row_type: Option<RowType>,
    pub right: Option<Amount>,
}

/// What a line says by numbers: its constraint, and the variable and the coefficient that it has.
#[derive(Clone, Copy, Debug)]
pub struct TakenLine {
    pub row: usize,
    pub variable: Option<usize>,
    pub coef: Option<Value>,
}
