//! The sections of a session's table: where it stands, its options, its queue and its artificials.
ghost use Rattle.std.specs.Prelude.{◌≡◌, ◌<◌, ◌≤◌, ◌+◌, ◌∷◌, ◌^◌, [], OnOk, length};
ghost use Rattle.nf_simplex.specs.Standing.{rows_of};
ghost use Rattle.nf_simplex.specs.StageOf.{StageNumber};
ghost use Rattle.nf_basis.specs.Kept.{IsStateOf};
ghost use Rattle.nf_basis.specs.Names.{number_of_stage, place_of};
ghost use Rattle.nf_saved.specs.SessionTable.{artificial_row, artificial_rows, artificial_word, flag_rows, head_rows, limit_rows, member_rows, option_rows, price_rows, queue_rows, stage_word};
ghost use Rattle.nf_session_table.specs.Growing.{carried_of, with_header, with_more};

use crate::carried::Carried;
use crate::cells::{push_count, push_flag, push_row, push_rule, word_of_last};
use nf_basis::{Col, Place, State};
use nf_prob::Problem;
use nf_program::SessionOptions;
use nf_table::Table;
use std::alloc::AllocError;

// The word for a stage.
fn word_of_stage(state: &State) -> &'static str
    ensures { result.now ≡ stage_word state.now.standing.stage }
{
    if state.stage() == 2 { "2" } else { "1" }
}

// The version, the stage, the pivots, the cursor and the last halt.
pub(crate) fn push_head(
    table: &mut Table,
    state: &State,
    carried: &Carried,
) -> Result<(), AllocError>
    requires begun { table.old ≡ with_header table.old.rows }
    requires room { length table.old.rows < 2 ^ 30 }
    ensures { OnOk result (table.new ≡ with_more table.old (head_rows state.now.standing.stage (carried_of carried.now))) }
{
    push_row(table, "VERSION", 1, "2")?;
    push_row(table, "STAGE", 1, word_of_stage(state))?;
    push_count(table, "PIVOTS", 1, carried.counts.one)?;
    push_count(table, "PIVOTS", 2, carried.counts.two)?;
    push_count(table, "CURSOR", 1, carried.cursor as u64)?;
    push_row(table, "LAST", 1, word_of_last(carried.last))?;
    Ok(())
}

// The session options.
pub(crate) fn push_options(table: &mut Table, options: &SessionOptions) -> Result<(), AllocError>
    requires begun { table.old ≡ with_header table.old.rows }
    requires room { length table.old.rows < 2 ^ 30 }
    ensures { OnOk result (table.new ≡ with_more table.old (option_rows options.now)) }
{
    push_limits(table, options)?;
    push_flags(table, options)?;
    push_prices(table, options)?;
    Ok(())
}

// The limits and pauses.
fn push_limits(table: &mut Table, options: &SessionOptions) -> Result<(), AllocError>
    requires begun { table.old ≡ with_header table.old.rows }
    requires room { length table.old.rows < 2 ^ 30 }
    ensures { OnOk result (table.new ≡ with_more table.old (limit_rows options.now)) }
{
    push_count(table, "MAXIT", 1, options.maxit1 as u64)?;
    push_count(table, "MAXIT", 2, options.maxit2 as u64)?;
    push_count(table, "PAUSE", 1, options.pause1 as u64)?;
    push_count(table, "PAUSE", 2, options.pause2 as u64)?;
    Ok(())
}

// The options that are on or off.
fn push_flags(table: &mut Table, options: &SessionOptions) -> Result<(), AllocError>
    requires begun { table.old ≡ with_header table.old.rows }
    requires room { length table.old.rows ≤ 2 ^ 30 + 3 }
    ensures { OnOk result (table.new ≡ with_more table.old (flag_rows options.now)) }
{
    push_flag(table, "FEASIBLEPAUSE", 1, options.feasiblepause1)?;
    push_flag(table, "FEASIBLEPAUSE", 2, options.feasiblepause2)?;
    push_flag(table, "ENDPAUSE", 1, options.endpause1)?;
    push_flag(table, "FUTURE", 1, options.future1)?;
    push_flag(table, "FUTURE", 2, options.future2)?;
    Ok(())
}

// The rules of pricing, and the sizes of their queues.
fn push_prices(table: &mut Table, options: &SessionOptions) -> Result<(), AllocError>
    requires begun { table.old ≡ with_header table.old.rows }
    requires room { length table.old.rows ≤ 2 ^ 30 + 8 }
    ensures { OnOk result (table.new ≡ with_more table.old (price_rows options.now)) }
{
    push_rule(table, "PRICETYPE", 1, options.pricetype1)?;
    push_rule(table, "PRICETYPE", 2, options.pricetype2)?;
    push_count(table, "QUEUESIZE", 1, options.queuesize1 as u64)?;
    push_count(table, "QUEUESIZE", 2, options.queuesize2 as u64)?;
    Ok(())
}

// The length of the queue, and its members.
pub(crate) fn push_queue(table: &mut Table, queue: &[u32]) -> Result<(), AllocError>
    requires begun { table.old ≡ with_header table.old.rows }
    requires room { length table.old.rows < 2 ^ 30 }
    requires most { length queue.now ≤ 999 }
    ensures { OnOk result (table.new ≡ with_more table.old (queue_rows queue.now)) }
{
    push_count(table, "QLENGTH", 1, queue.len() as u64)?;
    push_members(table, queue)?;
    Ok(())
}

// The members of the queue, numbered from 1.
fn push_members(table: &mut Table, queue: &[u32]) -> Result<(), AllocError>
    requires begun { table.old ≡ with_header table.old.rows }
    requires room { length table.old.rows ≤ 2 ^ 30 }
    requires most { length queue.now ≤ 999 }
    ensures { OnOk result (table.new ≡ with_more table.old (member_rows 1 queue.now)) }
{
    for (i, number) in queue.iter().enumerate() {
        push_count(table, "QUEUE", i as u32 + 1, *number as u64)?;
    }
    Ok(())
}

// How many rows the stage of a state has.
fn stage_rows(p: &Problem, state: &State) -> u32
    ensures rows { result ≡ rows_of p.now state.now.standing }
    ensures few { result ≤ 2 ^ 30 }
{
    let rows = p.rows();
    if state.stage() == 2 {
        return rows;
    }
    p.nodes()
}

// The word for an artificial by its sign and its place.
fn word_of_artificial(negative: bool, place: Place) -> &'static str
    ensures { result.now ≡ artificial_word negative (place_of place) }
{
    match (negative, place) {
        (true, Place::Basic) => "-B",
        (false, Place::Basic) => "+B",
        (true, Place::Lower | Place::Upper | Place::Zero | Place::Absent) => "-L",
        (false, Place::Lower | Place::Upper | Place::Zero | Place::Absent) => "+L",
    }
}

// The artificial of row r, from 0.
fn push_artificial(table: &mut Table, p: &Problem, state: &State, r: u32) -> Result<(), AllocError>
    requires begun { table.old ≡ with_header table.old.rows }
    requires room { length table.old.rows < 2 ^ 31 }
    requires state { IsStateOf p.now state.now }
    requires row { r < rows_of p.now state.now.standing }
    ensures { OnOk result (table.new ≡ with_more table.old (artificial_row p.now state.now.standing r ∷ [])) }
{
    let _few = stage_rows(p, state);
    let negative = state.negative(r + 1);
    let place = state.place(Col::Artificial(r + 1));
    push_row(table, "ARTIF", r + 1, word_of_artificial(negative, place))
}

// The artificials by row of the stage.
pub(crate) fn push_artificials(
    table: &mut Table,
    p: &Problem,
    state: &State,
) -> Result<(), AllocError>
    requires begun { table.old ≡ with_header table.old.rows }
    requires room { length table.old.rows ≤ 2 ^ 30 }
    requires state { IsStateOf p.now state.now }
    ensures { OnOk result (table.new ≡ with_more table.old (artificial_rows p.now state.now.standing (rows_of p.now state.now.standing))) }
{
    for r in 0..stage_rows(p, state) {
        push_artificial(table, p, state, r)?;
    }
    Ok(())
}
