//! No operation of a run overflows 128 bits in stage one, so a run without constraints never ends for its numbers. It
//! computes nothing.
#![tactic(auto)]

mod runs;

pub use runs::range_never_in_stage_one;
