//! What a step did, and what halts a run.
use nf_basis::Col;

/// What a step did, or how the state has ended.
#[derive(Clone, Copy, Debug, PartialEq, Eq)]
pub enum Moved {
    /// The entering column became basic, and the leaving one went to a bound.
    Pivoted { entering: Col, leaving: Col },
    /// The column went to its other bound.
    Flipped(Col),
    /// Nothing moves: the state has ended optimal.
    Best,
    /// Nothing moves: the state has ended infeasible.
    NoFlow,
    /// Nothing moves: the state has ended unbounded at the column that the rule picks.
    NoBound(Col),
}

/// When a run pauses.
#[derive(Clone, Copy, Debug, PartialEq, Eq)]
pub struct Pauses {
    /// At each multiple of so many pivots; 0 for never.
    pub every: u64,
    /// At the step that brings the sum of the artificials to 0.
    pub feasible: bool,
}

/// What halted a run.
#[derive(Clone, Copy, Debug, PartialEq, Eq)]
pub enum Halt {
    /// The state has ended: `Best`, `NoFlow` or `NoBound`.
    Ended(Moved),
    /// The stage has as many pivots as it may have.
    Limit,
    /// So many more pivots were made.
    Pause,
    /// The artificials have just come to 0.
    Feasible,
}
