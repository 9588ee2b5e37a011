//! Sets of small numbers, with one bit for each.
#![tactic(auto)]

mod bit_set;

pub use bit_set::BitSet;
