//! The canonical text of a program.
#![tactic(auto)]

mod options;
mod writing;

pub use writing::write_program;
