//! The words after the program's name: the command that they are, or the sample that they ask for, which is read with `clap`.
#![tactic(auto)]

mod line;
mod plain;
mod size;
mod words;

pub use plain::{PlainCommand, command_asked};
pub use size::SampleSize;
pub use words::sample_asked;
