//! The tables of a DIMACS text as the data of a network. It computes nothing.
#![tactic(auto)]

mod figures;
mod problem;
mod rows;

pub use figures::tables_give;
pub use problem::tables_are_the_problem;
pub use rows::tables_say;
