//! The numbers of a state that its tables show.
#![tactic(auto)]

mod columns;
mod fault;
mod figures;
mod rows;

pub use columns::{flow_costs, flows, reduced_costs};
pub use fault::FigureFault;
pub use figures::{Figures, list_figures};
pub use rows::{row_sums, shown_duals};
