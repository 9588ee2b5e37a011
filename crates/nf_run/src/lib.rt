//! The statements of a program on a problem: each RUN goes on to the halt that is due, and the listing tells it. A
//! verdict is told with a certificate that was checked, and at the end of the program the last one is stored.
#![tactic(auto)]

mod ending;
mod event;
mod line;
mod opening;
mod run;
mod session;
mod setting;
mod stage;
mod statements;
mod verdict;

pub use event::RunFault;
pub use line::{Counts, HaltLine};
pub use statements::{are_standing, run_program};
pub use verdict::in_own_sense;
