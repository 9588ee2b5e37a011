//! The first rows of SESSIONDATA: the stage, the pivots, the cursor and the last halt.
ghost use Rattle.std.specs.Prelude.{◌≡◌, ◌≤◌, ◌^◌, length, MatchResult, IfOk, Ok, Err};
ghost use Rattle.nf_simplex.specs.StageOf.{StageOne};
ghost use Rattle.nf_basis.specs.Names.{stage_by};
ghost use Rattle.nf_saved.specs.Rows.{has_two, head_read, two_to_come};
ghost use Rattle.nf_saved.specs.Session.{count_entering};
ghost use Rattle.nf_warm.specs.Inside.{HasRows, rows_in};
ghost use Rattle.nf_warm.specs.Head.{head_of};

use crate::rows::{count_row, last_row, stage_row};
use nf_print::{Counts, Last};
use nf_prob::Problem;
use nf_saved::{SavedColumns, SavedFault};
use nf_table::Table;

// Counts of pivots have at most 18 digits.
const MOST_PIVOTS: u64 = 999_999_999_999_999_999;

/// Where a saved session stands.
#[derive(Clone, Copy)]
pub(crate) struct Head {
    // Whether the stage is stage two.
    pub(crate) two: bool,
    pub(crate) counts: Counts,
    pub(crate) cursor: u32,
    pub(crate) last: Last,
}

// Whether the problem has a stage two: a constraint, or a nonarc variable.
fn has_two(p: &Problem) -> bool
    ensures { result ≡ has_two p.now }
{
    p.nodes() < p.rows() || p.arcs() < p.columns()
}

// How many columns have a number in pricing.
pub(crate) fn count_entering(p: &Problem) -> u32
    ensures count { result ≡ count_entering p.now }
    ensures few { result ≤ 2 ^ 31 }
{
    p.columns() + (p.rows() - p.nodes())
}

#[tactic(auto, unfolding(nf_saved::specs::Rows::head_read, nf_saved::specs::Rows::and_then))]
pub(crate) fn read_head(p: &Problem, table: &Table, at: &SavedColumns) -> Result<Head, SavedFault>
    requires inside { HasRows table.now at.now }
    ensures { MatchResult result
        (λ h. head_read p.now (rows_in table.now at.now) ≡ Ok (head_of h))
        (λ e. head_read p.now (rows_in table.now at.now) ≡ Err e) }
{
    let has_two = has_two(p);
    let two = stage_row(table, at, has_two)?;
    let one = count_row(table, at, 2, "PIVOTS", 1, 0, MOST_PIVOTS)?;
    let other = count_row(
        table,
        at,
        3,
        "PIVOTS",
        2,
        0,
        if two { MOST_PIVOTS } else { 0 },
    )?;
    let cursor = count_row(table, at, 4, "CURSOR", 1, 0, count_entering(p) as u64)?;
    let last = last_row(table, at, has_two && !two)?;
    Ok(Head {
        two,
        counts: Counts { one, two: other },
        cursor: cursor as u32,
        last,
    })
}
