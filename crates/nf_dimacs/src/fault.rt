//! Why a text has no problem.
ghost use Rattle.std.specs.Prelude.{◌≡◌, Some};
ghost use Rattle.nf_dimacs.specs.Kinds.{kind_word, no_memory};

use std::alloc::AllocError;
use std::fmt;

/// The first fault of a text, with its line from 1. `TooLong` is at line 0, and what is wrong with the whole text at the
/// line after the last. With `NoMemory` the line is 0 and says nothing.
#[derive(Clone, Copy, Debug, PartialEq, Eq)]
pub struct DimacsFault {
    pub line: u32,
    pub kind: DimacsKind,
}

/// What is wrong. If two kinds come at one line, the one that stands higher here is reported.
#[derive(Clone, Copy, Debug, PartialEq, Eq)]
pub enum DimacsKind {
    /// More than 67,108,864 bytes. It comes before all else.
    TooLong,
    /// The line begins with another word than `p`, `n`, `a` or one with `c`, has too many or too few fields, is a second
    /// `p` line or one that is not `min`, or is an `n` or `a` line before it.
    BadLine,
    /// A field is no whole number of at most nine digits, or a count is negative.
    Number,
    /// More than 20,000 nodes or 200,000 arcs.
    LimitPassed,
    /// A node that is not one of those from 1 to the number of nodes.
    Node,
    /// An earlier `n` line has this node.
    RepeatedNode,
    /// A capacity below 0.
    Negative,
    /// A capacity below the lower bound.
    Crossed,
    /// There is no `p` line.
    NoProblem,
    /// The `a` lines are not as many as the `p` line says.
    WrongCount,
    /// The supplies do not add up to 0.
    Unbalanced,
    /// There is not enough memory.
    NoMemory,
}

impl fmt::Display for DimacsKind {
    ghost output = { λ k. Some (kind_word k) };

    fn fmt<W: fmt::Write>(&self, f: &mut fmt::Formatter<W>) -> fmt::Result {
        match self {
            DimacsKind::TooLong => write!(f, "TooLong"),
            DimacsKind::BadLine => write!(f, "BadLine"),
            DimacsKind::Number => write!(f, "Number"),
            DimacsKind::LimitPassed => write!(f, "LimitPassed"),
            DimacsKind::Node => write!(f, "Node"),
            DimacsKind::RepeatedNode => write!(f, "RepeatedNode"),
            DimacsKind::Negative => write!(f, "Negative"),
            DimacsKind::Crossed => write!(f, "Crossed"),
            DimacsKind::NoProblem => write!(f, "NoProblem"),
            DimacsKind::WrongCount => write!(f, "WrongCount"),
            DimacsKind::Unbalanced => write!(f, "Unbalanced"),
            DimacsKind::NoMemory => write!(f, "NoMemory"),
        }
    }
}

impl From<AllocError> for DimacsFault {
    ghost from_gives = { λ _ e. e ≡ no_memory };

    fn from(_: AllocError) -> Self {
        DimacsFault {
            line: 0,
            kind: DimacsKind::NoMemory,
        }
    }
}
