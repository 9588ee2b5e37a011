//! Cases worked by hand for the lowest crates: cells, tables and fractions with what is due for each, and what no clause
//! says of the outside.
//!
//! Nothing stands on this crate, which has no code but its tests.
#![tactic(auto)]

#[cfg(test)]
mod cells;
#[cfg(test)]
mod fractions;
#[cfg(test)]
mod outside;
#[cfg(test)]
mod tables;
