//! The words of the statement language: statements, options, items, types, rules, statuses and last halts.
//!
//! Each list is a table of spellings, which are compared without regard to ASCII case.
#![tactic(auto)]

mod lists;
mod table;

pub use lists::{
    last_words, option_words, price_words, print_words, show_words, statement_words, status_words,
    type_words,
};
pub use table::{Kind, WordTable};
