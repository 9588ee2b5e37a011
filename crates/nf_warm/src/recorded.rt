//! What the rows of SESSIONDATA record.
ghost use Rattle.std.specs.Prelude.{◌≡◌, ◌≤◌, ◌^◌, length, MatchResult, Ok};
ghost use Rattle.nf_simplex.specs.Layout.{layout_of};
ghost use Rattle.nf_simplex.specs.StageOf.{rows_in as rows_of_stage};
ghost use Rattle.nf_basis.specs.Names.{stage_by};
ghost use Rattle.nf_saved.specs.Rows.{first_artificial, recorded};
ghost use Rattle.nf_warm.specs.Head.{head_of};
ghost use Rattle.nf_warm.specs.Faults.{IsFaultOf};
ghost use Rattle.nf_warm.specs.Inside.{HasRows, rows_in};
ghost use Rattle.nf_warm.specs.Recorded.{recorded_of, tail_read};

use crate::fault::WarmFault;
use crate::head::{Head, read_head};
use crate::options::read_options;
use crate::queue::{read_artificials, read_queue};
use crate::rows::version_row;
use nf_price::Queue;
use nf_prob::Problem;
use nf_program::SessionOptions;
use nf_saved::{SavedArtificial, SavedColumns};
use nf_session_table::Carried;
use nf_table::Table;
use std::alloc::Global;

/// What the rows of SESSIONDATA record: the stage, what is carried, and the artificials by row.
#[derive(Drop)]
pub(crate) struct Recorded {
    // Whether the stage is stage two.
    pub(crate) two: bool,
    pub(crate) carried: Carried,
    pub(crate) artificials: Vec<SavedArtificial>,
}

// How many rows a stage has.
pub(crate) fn stage_rows(p: &Problem, two: bool) -> u32
    ensures rows { result ≡ rows_of_stage (layout_of p.now) (stage_by two) }
    ensures few { result ≤ 2 ^ 30 }
{
    let rows = p.rows();
    if two { rows } else { p.nodes() }
}

// The row of the first artificial, from 0.
fn first_artificial(queued: bool, queue: &[u32]) -> u32
    requires few { length queue.now ≤ 999 }
    ensures first { result ≡ first_artificial queued queue.now }
    ensures few { result ≤ 1019 }
{
    if queued { 20 + queue.len() as u32 } else { 17 }
}

// What is carried and the artificials, after the head and the options.
#[tactic(auto, unfolding(nf_saved::specs::Rows::and_then))]
fn read_tail(
    alloc: Global,
    p: &Problem,
    table: &Table,
    at: &SavedColumns,
    queued: bool,
    head: Head,
    options: SessionOptions,
) -> Result<Recorded, WarmFault>
    requires inside { HasRows table.now at.now }
    ensures { MatchResult result
        (λ r. tail_read p.now queued (rows_in table.now at.now) (head_of head) options ≡ Ok (recorded_of r))
        (IsFaultOf (tail_read p.now queued (rows_in table.now at.now) (head_of head) options)) }
{
    let mut queue = Queue::new(alloc)?;
    read_queue(&mut queue, p, head.two, queued, table, at)?;
    let first = first_artificial(queued, queue.items());
    let artificials = read_artificials(alloc, table, at, first, stage_rows(p, head.two))?;
    Ok(Recorded {
        two: head.two,
        carried: Carried {
            counts: head.counts,
            cursor: head.cursor,
            queue,
            options,
            last: head.last,
        },
        artificials,
    })
}

// What the rows record, or the first row at fault.
#[tactic(auto, unfolding(nf_saved::specs::Rows::recorded, nf_saved::specs::Rows::and_then))]
pub(crate) fn read_recorded(
    alloc: Global,
    p: &Problem,
    table: &Table,
    at: &SavedColumns,
) -> Result<Recorded, WarmFault>
    requires inside { HasRows table.now at.now }
    ensures { MatchResult result
        (λ r. recorded p.now (rows_in table.now at.now) ≡ Ok (recorded_of r))
        (IsFaultOf (recorded p.now (rows_in table.now at.now))) }
{
    let queued = version_row(table, at)?;
    let head = read_head(p, table, at)?;
    let options = read_options(table, at, queued)?;
    read_tail(alloc, p, table, at, queued, head, options)
}
