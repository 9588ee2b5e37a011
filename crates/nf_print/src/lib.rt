//! The texts of a session: what PRINT and SHOW print, and the lines of a halt.
#![tactic(auto)]

mod halt;
mod options;
mod parts;
mod print;
mod problem;
mod status;

pub use halt::{Counts, HaltLine, halt_text};
pub use options::show_options;
pub use parts::Part;
pub use print::{print_problem, print_results};
pub use problem::show_problem;
pub use status::{Last, Status, show_status};
