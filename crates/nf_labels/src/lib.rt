//! The names of the parts of a problem.
#![tactic(auto)]

mod labels;
mod texts;

pub use labels::Labels;
