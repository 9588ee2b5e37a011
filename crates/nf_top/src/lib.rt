//! The whole call: a program and its data sets in, a listing, a store and a status out.
//!
//! `netflow` is generic over its source, its library and its listing. The program is `main` over the real ones; tests call
//! it over those in memory.
#![tactic(auto)]

mod check;
mod lines;
mod problem;
mod program;
mod refusal;
mod run;
mod set_words;
mod sets;
mod status;
mod top;
mod words;

pub use status::Status;
pub use top::netflow;
