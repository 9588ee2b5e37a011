//! The lines of a halt.
ghost use Rattle.std.specs.Prelude.{◌≡◌, ◌++◌, IfOk, Some};
ghost use Rattle.nf_print.specs.Lines.{count_lines, halt_lines};

use nf_frac::Frac;
use nf_io::Text;
use std::alloc::{AllocError, Global};
use std::fmt;

/// How a RUN has halted. Stages are 1 or 2.
#[derive(Clone, Copy, Debug, PartialEq, Eq)]
pub enum HaltLine {
    /// The flows are optimal; what they cost, in the program's own sense.
    Optimal(Frac),
    /// Nothing is feasible; the sum of the artificials.
    Infeasible(Frac),
    /// Costs have no least; what they change by for each unit of the picked column's move.
    Unbounded(Frac),
    /// The stage has had as many pivots as the program allows.
    Limit { stage: u8, most: u32 },
    /// The stage has had so many more pivots that the program pauses.
    Pause(u8),
    /// The artificials have just come to 0.
    Feasible,
    /// Stage one has ended and stage two is to come.
    StageOneEnd,
}

/// The pivots of both stages, which are printed after each halt.
#[derive(Clone, Copy, Debug, PartialEq, Eq)]
pub struct Counts {
    /// The pivots of stage one.
    pub one: u64,
    /// The pivots of stage two.
    pub two: u64,
}

impl fmt::Display for HaltLine {
    ghost output = { λ h. Some (halt_lines h) };

    fn fmt<W: fmt::Write>(&self, f: &mut fmt::Formatter<W>) -> fmt::Result {
        match self {
            HaltLine::Optimal(cost) => write!(f, "OPTIMAL\nTOTAL COST {cost}\n"),
            HaltLine::Infeasible(gap) => write!(f, "INFEASIBLE\nGAP {gap}\n"),
            HaltLine::Unbounded(rate) => write!(f, "UNBOUNDED\nRATE {rate}\n"),
            HaltLine::Limit { stage, most } => write!(f, "HALTED MAXIT{stage} {most}\n"),
            HaltLine::Pause(stage) => write!(f, "HALTED PAUSE{stage}\n"),
            HaltLine::Feasible => write!(f, "HALTED FEASIBLE\n"),
            HaltLine::StageOneEnd => write!(f, "HALTED STAGE 1 END\n"),
        }
    }
}

impl fmt::Display for Counts {
    ghost output = { λ c. Some (count_lines c) };

    fn fmt<W: fmt::Write>(&self, f: &mut fmt::Formatter<W>) -> fmt::Result {
        let Counts { one, two } = *self;
        write!(f, "STAGE 1 PIVOTS {one}\nSTAGE 2 PIVOTS {two}\n")
    }
}

/// The lines of a halt, and of the pivots after it.
///
/// `AllocError` if out of memory.
pub fn halt_text(alloc: Global, halt: HaltLine, counts: Counts) -> Result<Text, AllocError>
    ensures text { IfOk result (λ t. t ≡ halt_lines halt ++ count_lines counts) }
{
    Text::from_slice(alloc, format!(in alloc; "{halt}{counts}")?.as_bytes())
}
