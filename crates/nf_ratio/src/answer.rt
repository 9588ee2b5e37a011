//! What the ratio test answers.
use nf_basis::Place;

/// What limits the move of the column that enters.
#[derive(Clone, Copy, Debug, PartialEq, Eq)]
pub enum Limit {
    /// The basic column in a slot, which leaves to a bound.
    Leave { slot: u32, to: Place },
    /// The column's own other bound.
    Flip,
    /// Nothing: there is no next state.
    Ray,
}
