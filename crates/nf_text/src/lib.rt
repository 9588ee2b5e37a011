//! The tokens of a program's text: words, numbers, quoted texts, `=` and `;`.
#![tactic(auto)]

mod bytes;
mod reading;
mod token;

pub use reading::{one_reading, tokens};
pub use token::{TextFault, Token, TokenKind};
