//! The reader of programs: the program of a text, or the text's first fault.
#![tactic(auto)]

mod given;
mod places;
mod reading;
mod turns;

pub use reading::{one_answer, read_program};
