//! Writing a table.
ghost use Rattle.std.specs.Prelude.{◌≡◌, ◌≢◌, ◌≤◌, [], IfOk, Ok, OnOk, Some, false, length};
ghost use Rattle.std.specs.Io.KnownBytes.{Appends};
ghost use Rattle.csv.specs.Records.{fields_of};
ghost use Rattle.csv.specs.Writing.{default_writer, row_text};
ghost use Rattle.nf_io.specs.Held.{most_bytes};
ghost use Rattle.nf_table.specs.Reading.{table_read};
ghost use Rattle.nf_table.specs.Writing.{IsAtStart, begins_with_mark, row_at, table_text, written};

use crate::table::Table;
use csv::{ByteRecord, Writer, WriterBuilder};
use nf_io::Text;
use std::alloc::{AllocError, Global};

/// The CSV text of a table: cells apart by commas, in quotes where they need them, each row with a line feed at its end.
/// Where it has at most 67,108,864 bytes, reading it gives the table back.
///
/// `AllocError` where there is no memory. The csv crate leaves open that a writer over memory fails, so such a failure
/// counts as want of memory.
pub fn write_table(alloc: Global, table: &Table) -> Result<Text, AllocError>
    requires header { table.now.header ≢ [] }
    requires no_mark { begins_with_mark table.now ≡ false }
    requires hand { table.now.hand ≡ [] }
    ensures text { IfOk result (λ t. t ≡ table_text table.now) }
    ensures read_back { IfOk result (λ t. length t ≤ most_bytes → table_read t ≡ Ok table.now) }
{
    table.kept();
    let mut writer = WriterBuilder::new().from_writer(Vec::new(alloc));
    write_rows(alloc, table, &mut writer)?;
    match writer.into_inner() {
        Ok(bytes) => Ok(Text::from_vec(bytes)),
        Err(_) => Err(AllocError),
    }
}

// Writes the header and each row.
fn write_rows(alloc: Global, table: &Table, writer: &mut Writer<Vec<u8>>) -> Result<(), AllocError>
    requires start { IsAtStart writer.old }
    requires empty { written writer.old ≡ Some [] }
    ensures { OnOk result (written writer.new ≡ Some (table_text table.now)) }
{
    let mut copy = ByteRecord::new(alloc);
    write_row(table, 0, &mut copy, writer)?;
    for row in 0..table.rows() {
        write_row(table, row + 1, &mut copy, writer)?;
    }
    Ok(())
}

// Writes a row, where row 0 is the header. The record `copy` is used again for each row.
fn write_row(
    table: &Table,
    row: u32,
    copy: &mut ByteRecord,
    writer: &mut Writer<Vec<u8>>,
) -> Result<(), AllocError>
    requires row { row ≤ length table.now.rows }
    requires start { IsAtStart writer.old }
    ensures start { OnOk result (IsAtStart writer.new) }
    ensures text { OnOk result (Appends (written writer.old) (written writer.new) (row_text default_writer (row_at table.now row))) }
{
    copy_row(table, row, copy)?;
    match writer.write_byte_record(copy) {
        Ok(()) => Ok(()),
        Err(_) => Err(AllocError),
    }
}

fn copy_row(table: &Table, row: u32, copy: &mut ByteRecord) -> Result<(), AllocError>
    requires row { row ≤ length table.now.rows }
    ensures { OnOk result (fields_of copy.new ≡ row_at table.now row) }
{
    copy.clear();
    for column in 0..table.width() {
        copy.push_field(table.cell(row, column))?;
    }
    Ok(())
}
