//! Rows of cells, put into a table.
ghost use Rattle.std.specs.Prelude.{◌≡◌, ◌<◌, ◌-◌, ◌^◌, ◌++◌, ◌∷◌, [], None, length, decimal, IfOk, OnOk};
ghost use Rattle.nf_table.specs.Reading.{repeated_column};
ghost use Rattle.nf_sample.specs.Rows.{headed, table_of, texts, with_hand};

use nf_table::Table;
use std::alloc::{AllocError, Global};

/// A table with these names of columns, and no row.
pub(crate) fn begin(alloc: Global, names: &[&str]) -> Result<Table, AllocError>
    requires some { 0 < length names.now }
    requires few { length names.now < 2 ^ 31 }
    requires own { repeated_column (texts names.now) ≡ None }
    ensures { IfOk result (λ t. t ≡ headed (texts names.now)) }
{
    let mut table = Table::new(alloc);
    push_cells(&mut table, names)?;
    table.end_row()?;
    Ok(table)
}

/// Adds a row with these cells.
pub(crate) fn push_row(table: &mut Table, cells: &[&str]) -> Result<(), AllocError>
    requires begun { table.old.hand ≡ [] }
    requires header { 0 < length table.old.header }
    requires few { length table.old.header < 2 ^ 31 }
    requires full { length cells.now ≡ length table.old.header }
    requires room { length table.old.rows < 2 ^ 32 - 1 }
    ensures { OnOk result (table.new ≡ table_of table.old.header (table.old.rows ++ texts cells.now ∷ [])) }
{
    push_cells(table, cells)?;
    table.end_row()
}

// Puts cells into the row in hand.
fn push_cells(table: &mut Table, cells: &[&str]) -> Result<(), AllocError>
    requires begun { table.old.hand ≡ [] }
    requires few { length cells.now < 2 ^ 31 }
    ensures { OnOk result (table.new ≡ with_hand table.old (texts cells.now)) }
{
    for cell in cells {
        table.push_cell(cell.as_bytes())?;
    }
    Ok(())
}

/// The name that a letter and a number make.
pub(crate) fn name(alloc: Global, letter: &str, number: u32) -> Result<String, AllocError>
    ensures { IfOk result (λ s. s.bytes.items ≡ letter.now ++ decimal number) }
{
    Ok(format!(in alloc; "{letter}{number}")?)
}
