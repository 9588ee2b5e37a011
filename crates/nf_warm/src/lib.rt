//! Saved sessions, read from their three tables.
#![tactic(auto)]

mod columns;
mod fault;
mod head;
mod line;
mod options;
mod places;
mod queue;
mod recorded;
mod rows;
mod saved;
mod standing;
mod state;
mod values;

pub use fault::WarmFault;
pub use line::refusal_line;
pub use saved::{Saved, read_saved};
