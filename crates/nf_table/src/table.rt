//! A table, and why a text is none.
ghost use Rattle.std.specs.Prelude.{true, ◌≡◌, ◌≤◌, ◌<◌, ◌+◌, ◌*◌, ◌^◌, [], None, IfOk, IfErr, length, take};
ghost use Rattle.std.specs.List.{list_all};
ghost use Rattle.std.specs.Str.{IsUtf8, is_utf8};
ghost use Rattle.csv.specs.Records.{fields_of, partial_of};
ghost use Rattle.nf_table.specs.Cut.{grid_of};
ghost use Rattle.nf_table.specs.Grid.{HasOwnNames, IsEven, IsText, cell_at, column_of};
ghost use Rattle.nf_table.specs.Making.{RowMayEnd, empty_table, with_cell, with_row_ended};
ghost use Rattle.nf_table.specs.Reading.{repeated_column};

use crate::header::is_same_name;
use csv::ByteRecord;
use nf_io::Text;
use std::alloc::{AllocError, Global};
use std::marker::Model;

/// Why a text is no table. Row 0 is the header.
#[derive(Debug, Drop)]
pub enum TableFault {
    /// The text has more than 67,108,864 bytes.
    TooLong,
    /// The text has no record.
    NoHeader,
    /// This row has not as many cells as the header.
    RowLength(u32),
    /// A cell of this row is not UTF-8.
    NotText(u32),
    /// This cell of the header equals an earlier one without regard to ASCII case.
    RepeatedColumn(Text),
    /// There was no memory for the table.
    NoMemory,
}

impl From<AllocError> for TableFault {
    ghost use Rattle.nf_table.specs.declared.table.TableFault.TheVariants as fault;

    ghost from_gives = { λ _ e. e ≡ fault.NoMemory };

    fn from(_: AllocError) -> Self {
        TableFault::NoMemory
    }
}

/// A header, and rows of as many cells, and a row in hand while it is made. Each cell is UTF-8, and no two cells of the
/// header are equal without regard to ASCII case. `width` tells so.
#[derive(Drop)]
pub struct Table {
    // The cells of the header and then of each row, and at last those in hand.
    cells: ByteRecord,
    width: u32,
    rows: u32,
    hand: u32,
    // Memory was refused in the middle of a cell, so nothing more is taken.
    spent: bool,
}

impl Model for Table {
    ghost use Rattle.nf_table.specs.Grid.{Grid};

    ghost Value = { Grid };

    ghost use Rattle.nf_table.specs.Inside.{IsTable, grid_inside};

    ghost view = { grid_inside };

    ghost invariant = { IsTable };
}

impl Table {
    // The table of these cells, those of the header first.
    pub(crate) fn from_cells(cells: ByteRecord, width: u32, rows: u32) -> Table
        requires whole { length (fields_of cells) ≡ width + rows * width }
        requires partial { partial_of cells ≡ [] }
        requires text { list_all is_utf8 (fields_of cells) ≡ true }
        requires names { repeated_column (take width (fields_of cells)) ≡ None }
        ensures { result ≡ grid_of width rows (fields_of cells) }
    {
        Table {
            cells,
            width,
            rows,
            hand: 0,
            spent: false,
        }
    }

    /// A table without header and rows. It takes no memory.
    pub fn new(alloc: Global) -> Table
        ensures { result ≡ empty_table }
    {
        Table {
            cells: ByteRecord::new(alloc),
            width: 0,
            rows: 0,
            hand: 0,
            spent: false,
        }
    }

    /// Adds a cell to the row in hand. `AllocError` where there is no memory: the table is as it was, and takes no cell
    /// any more.
    pub fn push_cell(&mut self, cell: &[u8]) -> Result<(), AllocError>
        requires text { IsUtf8 cell.now }
        requires room { length self.old.hand < 2 ^ 31 }
        ensures added { IfOk result (λ _. self.new ≡ with_cell self.old cell.now) }
        ensures kept { IfErr result (λ _. self.new ≡ self.old) }
    {
        if self.spent {
            return Err(AllocError);
        }
        match self.cells.push_field(cell) {
            Ok(()) => {
                self.hand += 1;
                Ok(())
            }
            Err(refused) => {
                self.spent = true;
                Err(refused)
            }
        }
    }

    /// Ends the row in hand: it is the header where there is none yet, else the next row.
    pub fn end_row(&mut self) -> Result<(), AllocError>
        requires may_end { RowMayEnd self.old }
        ensures added { IfOk result (λ _. self.new ≡ with_row_ended self.old) }
        ensures kept { IfErr result (λ _. self.new ≡ self.old) }
    {
        if self.width == 0 {
            self.width = self.hand;
        } else {
            self.rows += 1;
        }
        self.hand = 0;
        Ok(())
    }

    /// How many rows it has, without the header.
    pub fn rows(&self) -> u32
        ensures { result ≡ length self.now.rows }
    {
        self.rows
    }

    /// How many cells the header has, and each row.
    pub fn width(&self) -> u32
        ensures width { result ≡ length self.now.header }
        ensures even { IsEven self.now }
        ensures text { IsText self.now }
        ensures names { HasOwnNames self.now.header }
    {
        self.width
    }

    // What a table keeps, for the proof that its text is read back. It computes nothing.
    pub(crate) fn kept(&self)
        ensures even { IsEven self.now }
        ensures text { IsText self.now }
        ensures names { repeated_column self.now.header ≡ None }
    {
        let _cells = &self.cells;
    }

    /// The number of the column with this name, from 0, or None where no cell of the header equals it without regard to
    /// ASCII case. Cells of the header are compared as they stand, with their spaces. It looks at each of them.
    pub fn column(&self, name: &[u8]) -> Option<u32>
        ensures { result ≡ column_of self.now.header name.now }
    {
        for column in 0..self.width {
            if is_same_name(name, self.cell(0, column)) {
                return Some(column);
            }
        }
        None
    }

    /// The bytes of a cell as they stand, with their spaces. Row 0 is the header, and columns count from 0. The time does
    /// not depend on the table.
    pub fn cell(&self, row: u32, column: u32) -> &[u8]
        requires row { row ≤ length self.now.rows }
        requires column { column < length self.now.header }
        ensures { result.now ≡ cell_at self.now row column }
    {
        match self
            .cells
            .get(row as usize * self.width as usize + column as usize)
        {
            Some(cell) => cell,
            None => &[],
        }
    }
}
