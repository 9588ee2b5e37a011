//! Sparse CONDATA: the constraints of its lines after a network, or the first fault.
#![tactic(auto)]

mod first_round;
mod given;
mod pairs;
mod second_round;
mod sparse_data;
mod sparse_line;

pub use sparse_data::sparse;
