// The lists by row, made from the lists by column.
ghost use Rattle.std.specs.Prelude.{◌≡◌, ◌<◌, ◌≤◌, ◌^◌, ◌++◌, ℕ, [], length, map, IfOk};
ghost use Rattle.std.specs.List.{All};
ghost use Rattle.nf_prob.specs.Lists.{AreGathered, list_at, one_at};
ghost use Rattle.nf_prob.specs.Numbers.{IsNumber, entries_in, entry_of};
ghost use Rattle.nf_prob.specs.Stored.{column_of};

use crate::stored::{Entry, RowEntry, StoredColumn};
use nf_frac::Frac;
use std::alloc::{AllocError, Global};

// The lists by row of all columns, each by column number.
pub(crate) fn row_lists(
    alloc: Global,
    columns: &[StoredColumn],
    rows: usize,
) -> Result<Vec<Vec<RowEntry>>, AllocError>
    requires few { length columns.now ≤ 2 ^ 30 }
    requires numbers { All (λ c. All (λ e. IsNumber e.row rows) c.entries.items) columns.now }
    ensures len { IfOk result (λ v. length v.items ≡ rows) }
    ensures gathered { IfOk result (λ v. AreGathered rows (map column_of columns.now) v.items) }
{
    let mut by_row = empty_lists(alloc, columns, rows)?;
    for (j, column) in columns.iter().enumerate() {
        push_column(&mut by_row, j as u32 + 1, column.entries.as_slice())?;
    }
    Ok(by_row)
}

// An empty list for each row, with room for its entries.
fn empty_lists(
    alloc: Global,
    columns: &[StoredColumn],
    rows: usize,
) -> Result<Vec<Vec<RowEntry>>, AllocError>
    requires numbers { All (λ c. All (λ e. IsNumber e.row rows) c.entries.items) columns.now }
    ensures len { IfOk result (λ v. length v.items ≡ rows) }
    ensures empty { IfOk result (λ v. (i : ℕ) → list_at v.items i ≡ []) }
{
    let counts = entry_counts(alloc, columns, rows)?;
    let mut lists = Vec::with_capacity(alloc, rows)?;
    for count in counts.as_slice() {
        lists.push(Vec::with_capacity(alloc, *count)?)?;
    }
    Ok(lists)
}

// How many entries each row has.
fn entry_counts(
    alloc: Global,
    columns: &[StoredColumn],
    rows: usize,
) -> Result<Vec<usize>, AllocError>
    requires numbers { All (λ c. All (λ e. IsNumber e.row rows) c.entries.items) columns.now }
    ensures len { IfOk result (λ v. length v.items ≡ rows) }
{
    let mut counts = Vec::with_capacity(alloc, rows)?;
    counts.resize(rows, 0)?;
    for column in columns {
        count_column(counts.as_mut_slice(), column.entries.as_slice());
    }
    Ok(counts)
}

fn count_column(counts: &mut [usize], entries: &[Entry])
    requires numbers { All (λ e. IsNumber e.row (length counts.old)) entries.now }
    ensures len { length counts.new ≡ length counts.old }
{
    for e in entries {
        let row = e.row as usize - 1;
        counts[row] = counts[row].saturating_add(1);
    }
}

// Adds the entries of a column to the lists of their rows.
fn push_column(
    by_row: &mut Vec<Vec<RowEntry>>,
    column: u32,
    entries: &[Entry],
) -> Result<(), AllocError>
    requires numbers { All (λ e. IsNumber e.row (length by_row.old.items)) entries.now }
    ensures len { length by_row.new.items ≡ length by_row.old.items }
    ensures lists { IfOk result (λ _. (i : ℕ) → list_at by_row.new.items i ≡ list_at by_row.old.items i ++ entries_in column i (map entry_of entries.now)) }
{
    for e in entries {
        push_entry(by_row, e.row as usize - 1, column, e.value)?;
    }
    Ok(())
}

// Adds an entry to the list of its row.
fn push_entry(
    by_row: &mut Vec<Vec<RowEntry>>,
    row: usize,
    column: u32,
    value: Frac,
) -> Result<(), AllocError>
    requires within { row < length by_row.old.items }
    ensures len { length by_row.new.items ≡ length by_row.old.items }
    ensures lists { IfOk result (λ _. (i : ℕ) → list_at by_row.new.items i ≡ list_at by_row.old.items i ++ one_at i row column value) }
{
    by_row[row].push(RowEntry { column, value })?;
    Ok(())
}
