//! Saved sessions worked by hand: their tables read and written again, and each fault of a row in its place. Nothing
//! depends on this crate, which has only tests.
#![tactic(auto)]

#[cfg(test)]
mod by_hand;
