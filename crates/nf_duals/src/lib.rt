//! Duals as they are printed, reduced costs and totals of a state.
#![tactic(auto)]

mod priced;
mod printed;
mod reduced;
mod totals;

pub use priced::{phase_cost, priced_column, priced_columns, priced_place};
pub use printed::printed_duals;
pub use reduced::reduced_cost;
pub use totals::total;
