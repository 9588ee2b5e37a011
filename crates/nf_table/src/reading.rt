//! Reading a table.
ghost use Rattle.std.specs.Prelude.{false, ◌≡◌, ◌⊎◌, ◌≤◌, ◌+◌, ◌++◌, [], Some, None, Err, MatchResult, OnOk, length, true};
ghost use Rattle.std.specs.List.{list_all};
ghost use Rattle.std.specs.Str.{is_utf8};
ghost use Rattle.csv.specs.Records.{fields_of, partial_of};
ghost use Rattle.csv.specs.Machine.{ends_at_end};
ghost use Rattle.nf_io.specs.Held.{most_bytes};
ghost use Rattle.nf_table.specs.Cursor.{records_at};
ghost use Rattle.nf_table.specs.Progress.{HeaderRead, RowsRead};
ghost use Rattle.nf_table.specs.Reading.{Answers, records_read, rows_read, table_read};

use crate::header::repeated_column;
use crate::records::{Records, Step};
use crate::table::{Table, TableFault};
use csv::ByteRecord;
use nf_io::{MOST_BYTES, Text};
use std::alloc::{AllocError, Global};
use std::str;

/// The table of a CSV text: cells apart by commas, in quotes where they hold commas, quotes or line ends. A byte order
/// mark at the start is skipped, and blank lines are no records, but a line `""` is a record of one empty cell. The
/// first record is the header.
///
/// The fault is the first in this order: `TooLong`, `NoHeader`, and then record by record `RowLength` before `NotText`
/// and, for the header, `RepeatedColumn` after its `NotText`. `NoMemory` may come at any time.
///
/// The time is in proportion to the bytes. Memory is reserved once: the length of the text, and eight bytes for each
/// comma and line end. Beside the caller's bytes and the table no more than one record is held.
pub fn read_table(alloc: Global, bytes: &[u8]) -> Result<Table, TableFault>
    ensures { Answers (table_read bytes.now) result }
{
    if bytes.len() > MOST_BYTES {
        return Err(TableFault::TooLong);
    }
    let mut cells = ByteRecord::with_capacity(alloc, bytes.len(), most_cells(bytes))?;
    let mut records = Records::new(alloc, bytes)?;
    let width = read_header(alloc, &mut records, &mut cells)?;
    let rows = read_rows(&mut records, &mut cells)?;
    Ok(Table::from_cells(cells, width, rows))
}

// How many cells a text has at most. Room for so many from the start spares the table a copy of itself when it grows.
fn most_cells(bytes: &[u8]) -> usize
    ensures { result ≤ length bytes.now + 1 }
{
    let ends = bytes
        .iter()
        .filter(|byte| matches!(**byte, b',' | b'\n' | b'\r'))
        .count();
    ends + 1
}

// Adds the cells of the first record, which is the header, and counts them.
fn read_header(
    alloc: Global,
    records: &mut Records<'_>,
    cells: &mut ByteRecord,
) -> Result<u32, TableFault>
    requires going { records.old.ended ≡ false }
    requires first { records.old.expected ≡ None }
    requires rests { ends_at_end records.old.state ≡ false }
    requires few { length records.old.left ≤ most_bytes }
    requires empty { fields_of cells.old ≡ [] }
    requires partial { partial_of cells.old ≡ [] }
    ensures { MatchResult result
        (λ width. HeaderRead records.old records.new width cells.new)
        (λ e. (e ≡ TableFault.NoMemory) ⊎ (records_read (records_at records.old) ≡ Err e)) }
{
    match records.advance()? {
        Step::Row => {}
        Step::OtherLength => unreachable!(),
        Step::End => return Err(TableFault::NoHeader),
    }
    if !is_text(records.cells()) {
        return Err(TableFault::NotText(0));
    }
    if let Some(name) = repeated_column(alloc, records.cells())? {
        return Err(TableFault::RepeatedColumn(Text::from_slice(alloc, name)?));
    }
    push_cells(cells, records.cells())?;
    Ok(records.cells().len() as u32)
}

// Adds the cells of the records that are to come, and counts these.
fn read_rows(records: &mut Records<'_>, cells: &mut ByteRecord) -> Result<u32, TableFault>
    requires going { records.old.ended ≡ false }
    requires rests { ends_at_end records.old.state ≡ false }
    requires few { length records.old.left ≤ most_bytes }
    requires expected { records.old.expected ≡ Some (length (fields_of cells.old)) }
    requires partial { partial_of cells.old ≡ [] }
    requires text { list_all is_utf8 (fields_of cells.old) ≡ true }
    ensures { MatchResult result
        (λ rows. RowsRead (fields_of cells.old) (records_at records.old) rows cells.new)
        (λ e. (e ≡ TableFault.NoMemory) ⊎ (rows_read (fields_of cells.old) [] (records_at records.old) ≡ Err e)) }
{
    let mut rows: u32 = 0;
    'rows: loop {
        match records.advance()? {
            Step::Row => rows += 1,
            Step::OtherLength => return Err(TableFault::RowLength(rows + 1)),
            Step::End => return Ok(rows),
        }
        if !is_text(records.cells()) {
            return Err(TableFault::NotText(rows));
        }
        push_cells(cells, records.cells())?;
    }
}

// Whether every cell of a record is UTF-8.
fn is_text(row: &ByteRecord) -> bool
    ensures { result ≡ list_all is_utf8 (fields_of row.now) }
{
    row.as_slice().is_ascii() || has_text_cells(row)
}

// The same, cell by cell.
fn has_text_cells(row: &ByteRecord) -> bool
    ensures { result ≡ list_all is_utf8 (fields_of row.now) }
{
    for cell in row {
        if !is_text_cell(cell) {
            return false;
        }
    }
    true
}

// Whether a cell is UTF-8.
fn is_text_cell(cell: &[u8]) -> bool
    ensures { result ≡ is_utf8 cell.now }
{
    str::from_utf8(cell).is_ok()
}

// Adds a record's cells.
fn push_cells(cells: &mut ByteRecord, row: &ByteRecord) -> Result<(), AllocError>
    requires { partial_of cells.old ≡ [] }
    ensures cells { OnOk result (fields_of cells.new ≡ fields_of cells.old ++ fields_of row.now) }
    ensures partial { OnOk result (partial_of cells.new ≡ []) }
{
    for cell in row {
        cells.push_field(cell)?;
    }
    Ok(())
}
