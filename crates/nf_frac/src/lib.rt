//! Exact fractions of 128 bits, amounts of data, and the texts of both. No call takes memory.
#![tactic(auto)]

mod amount;
mod digits;
mod euclid;
mod frac;
mod passed;
mod read;
mod steps;
mod text;
mod whole;

pub use amount::{Amount, AmountFault, read_amount};
pub use frac::Frac;
pub use passed::{Op, Passed};
pub use read::{NumberFault, read_frac};
pub use steps::Steps;
pub use text::FracText;
