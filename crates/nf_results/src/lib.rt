//! What tables show of a state, and its output tables: the numbers of a basis and the tree view of its basic columns, and
//! ARCOUT, NODEOUT, CONOUT and DUALOUT of them.
#![tactic(auto)]

mod results;
mod tables;

pub use results::Results;
