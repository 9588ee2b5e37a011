//! The working inverse: the inverse of a square matrix, kept right while columns are replaced one by one, alone or after
//! a change by a row; and the rank of columns.
#![tactic(auto)]

mod fault;
mod places;
mod rank;
mod work;

pub use fault::{RankFault, WorkFault};
pub use rank::{Rank, rank_check};
pub use work::Work;
