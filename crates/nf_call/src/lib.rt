//! The whole call: the words, and then `run`, `check`, `sample`, `import` or `export`.
//!
//! `netflow` is generic over its source, its library and its listing. The program is `main` over the real ones; tests call
//! it over those in memory.
#![tactic(auto)]

mod call;
mod lines;
mod sample;
mod trial;
mod usage;

pub use call::netflow;
pub use nf_top::Status;
