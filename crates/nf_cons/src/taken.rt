//! What is read of CONDATA.
use crate::places::DataColumn;
use crate::value::Value;
use nf_cells::Bound;
use nf_frac::Amount;
use nf_prob::RowKind;

/// The most constraints that are rows of the problem.
pub const MOST_CONSTRAINTS: usize = 500;

/// The most coefficients of CONDATA, those of costs and bounds among them.
pub const MOST_COEFFICIENTS: usize = 400_000;

/// A coefficient of a constraint. Variables and constraints count from 0.
#[derive(Clone, Copy, Debug)]
pub struct Coefficient {
    pub variable: usize,
    pub constraint: usize,
    pub value: Amount,
}

/// A constraint that is a row of the problem. Its name is that of a number.
#[derive(Clone, Copy, Debug)]
pub struct SideRow {
    pub name: usize,
    pub kind: RowKind,
    pub right: Amount,
}

/// A value that a row gives a variable, and where both stand.
#[derive(Clone, Copy, Debug)]
pub struct Term {
    pub variable: usize,
    pub is_arc: bool,
    pub value: Value,
    pub named_at: DataColumn,
    pub given_at: DataColumn,
}

/// The cost of a nonarc variable, and its bounds, where there are such.
#[derive(Clone, Copy, Debug)]
pub struct Figures {
    pub cost: Amount,
    pub lower: Option<Amount>,
    pub upper: Bound,
}
