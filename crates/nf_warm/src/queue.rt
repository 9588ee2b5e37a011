//! The queue and the artificials, from SESSIONDATA.
ghost use Rattle.std.specs.Prelude.{◌≡◌, ◌≤◌, ◌<◌, ◌+◌, ◌-◌, ◌^◌, [], MatchResult, OnOk, Ok, Err, ◌++◌, ◌∷◌};
ghost use Rattle.nf_basis.specs.Names.{stage_by};
ghost use Rattle.nf_saved.specs.Rows.{artificial_read, artificials_read, each_read, enters_in, member_read, member_said, queue_read};
ghost use Rattle.nf_saved.specs.Session.{count_entering};
ghost use Rattle.nf_warm.specs.Inside.{HasRows, rows_in};
ghost use Rattle.nf_warm.specs.Faults.{IsFaultOf};

use crate::fault::WarmFault;
use crate::head::count_entering;
use crate::rows::{artificial_row, count_row, or_bad, value_at};
use crate::values::count;
use nf_price::Queue;
use nf_prob::{Problem, RowKind};
use nf_saved::{SavedArtificial, SavedColumns, SavedFault};
use nf_table::Table;
use std::alloc::{AllocError, Global};

// Whether column j, from 0, is a given column or a slack of the stage.
fn enters(p: &Problem, two: bool, j: u32) -> bool
    requires within { j < count_entering p.now }
    ensures { result ≡ enters_in p.now (stage_by two) j }
{
    let columns = p.columns();
    if j < columns {
        return two || j < p.arcs();
    }
    let rows = p.rows();
    two && p.kind(rows + 1 - (columns + (rows - p.nodes()) - j)) != RowKind::Eq
}

// A member of the queue: the number of such a column, and none of those before it.
#[tactic(auto, unfolding(nf_saved::specs::Rows::member_said))]
fn member(value: &[u8], p: &Problem, two: bool, before: &[u32]) -> Option<u32>
    ensures { result ≡ member_said p.now (stage_by two) before.now value.now }
{
    let number = count(value, 1, count_entering(p) as u64)? as u32;
    if !enters(p, two, number - 1) || before.contains(&number) {
        return None;
    }
    Some(number)
}

// The row of member i, from 0, after those that were read.
fn member_row(
    before: &[u32],
    p: &Problem,
    two: bool,
    table: &Table,
    at: &SavedColumns,
    i: u32,
) -> Result<u32, SavedFault>
    requires inside { HasRows table.now at.now }
    requires small { i < 999 }
    ensures { result ≡ member_read p.now (stage_by two) (rows_in table.now at.now) before.now i }
{
    match value_at(table, at, 20 + i, "QUEUE", i + 1) {
        Some(value) => or_bad(20 + i, member(value, p, two, before)),
        None => or_bad(20 + i, None),
    }
}

// n members, pushed to a queue that is empty.
fn read_members(
    queue: &mut Queue,
    p: &Problem,
    two: bool,
    table: &Table,
    at: &SavedColumns,
    n: u32,
) -> Result<(), SavedFault>
    requires inside { HasRows table.now at.now }
    requires empty { queue.old ≡ [] }
    requires few { n ≤ 999 }
    ensures { MatchResult result
        (λ _. each_read (member_read p.now (stage_by two) (rows_in table.now at.now)) n 0 [] ≡ Ok queue.new)
        (λ e. each_read (member_read p.now (stage_by two) (rows_in table.now at.now)) n 0 [] ≡ Err e) }
{
    for i in 0..n {
        match member_row(queue.items(), p, two, table, at, i) {
            Ok(number) => queue.push(number),
            Err(fault) => return Err(fault),
        }
    }
    Ok(())
}

// The queue, pushed to one that is empty; in version 1 there is none.
#[tactic(auto, unfolding(nf_saved::specs::Rows::queue_read, nf_saved::specs::Rows::and_then))]
pub(crate) fn read_queue(
    queue: &mut Queue,
    p: &Problem,
    two: bool,
    queued: bool,
    table: &Table,
    at: &SavedColumns,
) -> Result<(), SavedFault>
    requires inside { HasRows table.now at.now }
    requires empty { queue.old ≡ [] }
    ensures { MatchResult result
        (λ _. queue_read p.now queued (stage_by two) (rows_in table.now at.now) ≡ Ok queue.new)
        (λ e. queue_read p.now queued (stage_by two) (rows_in table.now at.now) ≡ Err e) }
{
    if !queued {
        return Ok(());
    }
    let n = count_row(table, at, 19, "QLENGTH", 1, 0, 999)? as u32;
    read_members(queue, p, two, table, at, n)
}

fn push_artificial(
    artificials: &mut Vec<SavedArtificial>,
    artificial: SavedArtificial,
) -> Result<(), AllocError>
    ensures { OnOk result (artificials.new.items ≡ artificials.old.items ++ artificial ∷ []) }
{
    artificials.push(artificial)?;
    Ok(())
}

// n artificials from row k, from 0, on.
fn read_each(
    alloc: Global,
    table: &Table,
    at: &SavedColumns,
    k: u32,
    n: u32,
) -> Result<Vec<SavedArtificial>, WarmFault>
    requires inside { HasRows table.now at.now }
    requires small { k + n < 2 ^ 31 }
    ensures { MatchResult result
        (λ a. each_read (artificial_read (rows_in table.now at.now) k) n 0 [] ≡ Ok a.items)
        (IsFaultOf (each_read (artificial_read (rows_in table.now at.now) k) n 0 [])) }
{
    let mut artificials = Vec::new(alloc);
    for i in 0..n {
        match artificial_row(table, at, k, i) {
            Ok(artificial) => push_artificial(&mut artificials, artificial)?,
            Err(fault) => return Err(WarmFault::Saved(fault)),
        }
    }
    Ok(artificials)
}

// The artificials of n rows from row k, from 0, on, and no row after them.
#[tactic(auto, unfolding(nf_saved::specs::Rows::artificials_read, nf_saved::specs::Rows::and_then))]
pub(crate) fn read_artificials(
    alloc: Global,
    table: &Table,
    at: &SavedColumns,
    k: u32,
    n: u32,
) -> Result<Vec<SavedArtificial>, WarmFault>
    requires inside { HasRows table.now at.now }
    requires small { k + n < 2 ^ 31 }
    ensures { MatchResult result
        (λ a. artificials_read (rows_in table.now at.now) k n ≡ Ok a.items)
        (IsFaultOf (artificials_read (rows_in table.now at.now) k n)) }
{
    let artificials = read_each(alloc, table, at, k, n)?;
    if k + n < table.rows() {
        return Err(WarmFault::Saved(SavedFault::BadSession(k + n + 1)));
    }
    Ok(artificials)
}
