//! The output tables of a state, from its problem, its labels and numbers that are handed in.
#![tactic(auto)]

mod arcs;
mod cells;
mod fields;
mod figures;
mod output;
mod rows;

pub use arcs::arc_table;
pub use fields::{ArcField, RowField};
pub use figures::{ArcFigures, RowFigures, TreeFigures};
pub use output::{arcout, conout, dualout, nodeout};
pub use rows::row_table;
