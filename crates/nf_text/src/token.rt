//! Tokens, and why a text has none.

ghost use Rattle.std.specs.Prelude.{◌≡◌};
ghost use Rattle.nf_text.specs.declared.token.TextFault.TheVariants.{NoMemory};

use std::alloc::{AllocError, AllocFailed};

/// What a token is.
#[derive(Clone, Copy, Debug, PartialEq, Eq)]
pub enum TokenKind {
    /// A letter or `_`, and then letters, digits and `_`.
    Word,
    /// A digit, perhaps behind a `-`, and then digits and points.
    Number,
    /// A text in single or double quotes, the quotes included.
    Quoted,
    /// `=`.
    Equals,
    /// `;`.
    Semicolon,
}

/// A token: the bytes of the text from `start` up to before `end`, counted from 0.
#[derive(Clone, Copy, Debug, PartialEq, Eq)]
pub struct Token {
    pub kind: TokenKind,
    pub start: u32,
    pub end: u32,
}

/// The first fault of a text, with its place in bytes from 0.
#[derive(Clone, Copy, Debug, PartialEq, Eq)]
pub enum TextFault {
    /// Here is a byte that begins no token, or one that may not stand in quotes.
    BadByte(u32),
    /// A comment that is not closed begins here.
    OpenComment(u32),
    /// A quoted text whose mark does not come again begins here.
    OpenQuote(u32),
    /// There was no memory for the tokens.
    NoMemory,
}

impl<T: Drop> From<AllocFailed<T>> for TextFault {
    ghost from_gives = { λ _ e. e ≡ NoMemory };

    fn from(_e: AllocFailed<T>) -> TextFault {
        TextFault::NoMemory
    }
}
