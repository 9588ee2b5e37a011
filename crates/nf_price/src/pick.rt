//! What pricing picks.
use nf_basis::Col;

/// The column that enters, and its direction.
#[derive(Clone, Copy, Debug, PartialEq, Eq)]
pub struct Pick {
    pub col: Col,
    /// It moves down: its reduced cost of the phase that decides about it is positive.
    pub down: bool,
}
