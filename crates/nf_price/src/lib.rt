//! Pricing: which column enters, and in which direction.
#![tactic(auto)]

mod candidate;
mod choice;
mod front;
mod level;
mod next_queue;
mod pick;
mod queue;
mod rule;
mod scan;
mod wanted;

pub use choice::choose;
pub use next_queue::advance;
pub use pick::Pick;
pub use queue::Queue;
pub use rule::Rule;
