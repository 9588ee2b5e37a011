//! The lexicographic ratio test: which basic column leaves.
#![tactic(auto)]

mod answer;
mod ratio_test;
mod ratios;
mod tie;
mod work;

pub use answer::Limit;
pub use ratio_test::limit;
pub use work::Work3;
