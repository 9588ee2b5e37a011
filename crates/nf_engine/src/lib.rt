//! Steps of the simplex method, one or many, up to a halt.
#![tactic(auto)]

mod artificials;
mod engine;
mod halt;
mod laws;
mod room;
mod turn;

pub use engine::Engine;
pub use halt::{Halt, Moved, Pauses};
pub use laws::runs_are_determined;
