//! Operations, and what an operation that leaves the range tells.
ghost use Rattle.std.specs.Prelude.{Some};
ghost use Rattle.nf_frac.specs.Texts.{op_text};

use crate::frac::Frac;
use std::fmt;

/// An operation of two fractions.
#[derive(Clone, Copy, Debug, PartialEq, Eq)]
pub enum Op {
    Add,
    Sub,
    Mul,
    Div,
}

/// It prints as `+`, `-`, `*` or `/`.
impl fmt::Display for Op {
    ghost output = { λ op. Some (op_text op) };

    fn fmt<W: fmt::Write>(&self, f: &mut fmt::Formatter<W>) -> fmt::Result {
        match self {
            Op::Add => write!(f, "+"),
            Op::Sub => write!(f, "-"),
            Op::Mul => write!(f, "*"),
            Op::Div => write!(f, "/"),
        }
    }
}

/// An operation that left the range of 128 bits, with its two operands.
#[derive(Clone, Copy, Debug, PartialEq, Eq)]
pub struct Passed {
    pub op: Op,
    pub left: Frac,
    pub right: Frac,
}
