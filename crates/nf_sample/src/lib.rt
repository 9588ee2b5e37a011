//! The sample generator: the tables of a network with constraints, as a function of a seed and three sizes.
#![tactic(auto)]

mod arcs;
mod constraints;
mod draws;
mod nodes;
mod rows;
mod tables;

pub use tables::{SampleTables, sample_tables};
