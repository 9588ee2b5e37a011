//! Writing DIMACS text of a minimum cost flow problem.
#![tactic(auto)]

mod fault;
mod refusal;
mod writing;

pub use fault::ExportFault;
pub use writing::write_dimacs;
