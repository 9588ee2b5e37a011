//! How a fault of CONDATA is reported.
ghost use Rattle.std.specs.Prelude.{◌≡◌, ◌⊎◌, [], get_or, length};
ghost use Rattle.nf_roles.specs.Faults.{out_of_memory};
ghost use Rattle.nf_roles.specs.Roles.{HasColumnsBelow};
ghost use Rattle.nf_cons.specs.Places.{text_of_column, told};

use crate::places::{DataColumn, PlacedFault, RowFault};
use nf_io::Text;
use nf_program::{Role, SetName};
use nf_roles::{DataFault, DataKind, Roles};
use nf_table::Table;
use std::alloc::Global;

/// A fault of a cell.
pub fn at(place: DataColumn, kind: DataKind) -> PlacedFault
    ensures { result ≡ record { place = place; kind = kind } }
{
    PlacedFault { place, kind }
}

/// A fault of a cell in the column of a role.
pub fn at_role(role: Role, kind: DataKind) -> PlacedFault
    ensures { result ≡ record { place = DataColumn.OfRole role; kind = kind } }
{
    at(DataColumn::OfRole(role), kind)
}

/// A fault of a row, which counts from 1; 0 is the header.
pub fn in_row(row: u32, fault: PlacedFault) -> RowFault
    ensures { result ≡ record { row = row; fault = fault } }
{
    RowFault { row, fault }
}

/// Out of memory.
pub fn no_memory() -> RowFault
    ensures { result.fault.kind ≡ DataKind.NoMemory }
{
    in_row(0, at_role(Role::Row, DataKind::NoMemory))
}

// How a column is reported: by its cell in the header, or else by the role's first reserved name.
fn text_of_column<'a>(place: DataColumn, roles: &Roles, table: &'a Table) -> &'a [u8]
    requires { HasColumnsBelow roles.now (length table.now.header) }
    ensures { result.now ≡ text_of_column roles.now table.now.header place }
{
    match place {
        DataColumn::OfRole(role) => roles.column_text(table, role),
        DataColumn::Column(column) => header_cell(table, column),
    }
}

// The cell of a column in the header.
fn header_cell(table: &Table, column: u32) -> &[u8]
    ensures { result.now ≡ get_or table.now.header column [] }
{
    if column < table.width() {
        table.cell(0, column)
    } else {
        &[]
    }
}

/// A fault of CONDATA, by its set, row, column and kind; out of memory as all data faults say it.
pub fn told(alloc: Global, roles: &Roles, table: &Table, found: RowFault) -> DataFault
    requires { HasColumnsBelow roles.now (length table.now.header) }
    ensures answer { (result ≡ out_of_memory) ⊎ (result ≡ told roles.now table.now.header found) }
    ensures memory { found.fault.kind ≡ DataKind.NoMemory → result ≡ out_of_memory }
{
    if found.fault.kind == DataKind::NoMemory {
        return DataFault::no_memory(alloc);
    }
    match Text::from_slice(alloc, text_of_column(found.fault.place, roles, table)) {
        Ok(column) => DataFault {
            set: SetName::Condata,
            row: found.row,
            column,
            kind: found.fault.kind,
        },
        Err(_) => DataFault::no_memory(alloc),
    }
}
