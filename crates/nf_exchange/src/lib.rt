//! DIMACS text in and out: `import` stores the tables of a text, and `export` lists the text of a program's problem.
//!
//! Both are generic over the source, the library and the listing, as the whole call is.
#![tactic(auto)]

mod ending;
mod from_text;
mod lines;
mod problem;
mod program;
mod refusal;
mod set_words;
mod sets;
mod to_text;

pub use from_text::import;
pub use to_text::export;
