//! The inverse of a square matrix by the product form: entries of a column, duals, and the exchange of one column.
#![tactic(auto)]

mod inverse;
mod rows;
mod values;

pub use inverse::Inverse;
pub use rows::add_multiple;
pub use values::{exchange_values, flip_values, ratio};
