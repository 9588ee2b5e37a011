//! Trials of the simplex method on random networks.
//!
//! After each step every number of the basis is computed again plainly. Bases are restored from places set by hand, and
//! the start of stage two is tried on one problem worked by hand. Nothing depends on this crate, which has only tests.
#![tactic(auto)]

#[cfg(test)]
mod networks;
#[cfg(test)]
mod plain;
#[cfg(test)]
mod restored;
#[cfg(test)]
mod start;
#[cfg(test)]
mod trees;
#[cfg(test)]
mod walks;
#[cfg(test)]
mod widened;
