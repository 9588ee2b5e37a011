//! Trials of the working inverse: cases worked by hand, and random replacements, each compared with a plain inverse.
//!
//! Nothing depends on this crate, which has only tests.
#![tactic(auto)]

#[cfg(test)]
mod by_hand;
#[cfg(test)]
mod plain;
#[cfg(test)]
mod trials;
