//! What SHOW STATUS prints.
ghost use Rattle.std.specs.Prelude.{◌≡◌, ◌++◌, IfOk, OnOk, Some};
ghost use Rattle.nf_print.specs.Lines.{last_word, number_lines, place_lines, status_lines};

use crate::halt::Counts;
use nf_frac::Frac;
use nf_io::Text;
use std::alloc::{AllocError, Global};
use std::fmt;

/// The last halt of a session.
#[derive(Clone, Copy, Debug, PartialEq, Eq)]
pub enum Last {
    /// There was none.
    Unset,
    Optimal,
    Infeasible,
    Unbounded,
    Limit,
    Pause,
    Feasible,
    StageOne,
    Pivot,
}

/// What SHOW STATUS prints of a session.
#[derive(Clone, Copy, Debug, PartialEq, Eq)]
pub struct Status {
    /// The stage, 1 or 2.
    pub stage: u8,
    /// The pivots of both stages.
    pub counts: Counts,
    /// The last halt.
    pub last: Last,
    /// The number of the column that was picked last, and 0 if none was.
    pub cursor: u32,
    /// What the flows cost, in the program's own sense.
    pub cost: Frac,
    /// The sum of the artificials.
    pub artificials: Frac,
}

impl fmt::Display for Last {
    ghost output = { λ l. Some (last_word l) };

    fn fmt<W: fmt::Write>(&self, f: &mut fmt::Formatter<W>) -> fmt::Result {
        match self {
            Last::Unset => write!(f, "NONE"),
            Last::Optimal => write!(f, "OPTIMAL"),
            Last::Infeasible => write!(f, "INFEASIBLE"),
            Last::Unbounded => write!(f, "UNBOUNDED"),
            Last::Limit => write!(f, "LIMIT"),
            Last::Pause => write!(f, "PAUSE"),
            Last::Feasible => write!(f, "FEASIBLE"),
            Last::StageOne => write!(f, "STAGEONE"),
            Last::Pivot => write!(f, "PIVOT"),
        }
    }
}

// The stage, the pivots and the last halt.
fn add_place(text: &mut Vec<u8>, alloc: Global, status: &Status) -> Result<(), AllocError>
    ensures { OnOk result (text.new.items ≡ text.old.items ++ place_lines status.now) }
{
    let (stage, counts, last) = (status.stage, status.counts, status.last);
    text.extend_from_slice(format!(in alloc; "STAGE {stage}\n{counts}LAST {last}\n")?.as_bytes())?;
    Ok(())
}

// The cursor, what the flows cost and the sum of the artificials.
fn add_numbers(text: &mut Vec<u8>, alloc: Global, status: &Status) -> Result<(), AllocError>
    ensures { OnOk result (text.new.items ≡ text.old.items ++ number_lines status.now) }
{
    let (cursor, cost, sum) = (status.cursor, status.cost, status.artificials);
    text.extend_from_slice(format!(in alloc;
        "CURSOR {cursor}\nCOST {cost}\nARTIFICIALS {sum}\n"
    )?.as_bytes())?;
    Ok(())
}

/// SHOW STATUS: the stage, the pivots, the last halt, the cursor, what the flows cost and the sum of the artificials.
///
/// `AllocError` if out of memory.
#[tactic(auto, unfolding(crate::specs::Lines::status_lines))]
pub fn show_status(alloc: Global, status: &Status) -> Result<Text, AllocError>
    ensures text { IfOk result (λ t. t ≡ status_lines status.now) }
{
    let mut text = Vec::new(alloc);
    add_place(&mut text, alloc, status)?;
    add_numbers(&mut text, alloc, status)?;
    Ok(Text::from_vec(text))
}
