//! DIMACS text of a minimum cost flow problem: the tables of a text, or its first fault.
#![tactic(auto)]

mod arcs;
mod fault;
mod line;
mod lines;
mod nodes;
mod number;
mod reading;
mod tables;

pub use fault::{DimacsFault, DimacsKind};
pub use line::{Arc, Line, Size, Supply};
pub use tables::{DimacsTables, read_dimacs};

#[cfg(test)]
mod tests;
