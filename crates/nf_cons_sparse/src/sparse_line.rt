//! A line of sparse CONDATA, each cell read by its role.
ghost use Rattle.std.specs.Prelude.{◌≡◌, ◌≤◌, ◌∷◌, [], get_or, length};
ghost use Rattle.nf_cells.specs.Values.{cell_now};
ghost use Rattle.nf_roles.specs.Roles.{HasColumnsBelow};
ghost use Rattle.nf_cons_sparse.specs.Sparse.{line_now, sparse_line, text_in};

use nf_cells::{Cell, amount_cell, is_missing, name_cell, trimmed};
use nf_cons::{RowType, Value, type_cell, value_cell};
use nf_frac::Amount;
use nf_program::Role;
use nf_roles::Roles;
use nf_table::Table;

/// A line of sparse CONDATA.
#[derive(Clone, Copy)]
pub struct Line<'a> {
    pub row: Cell<&'a [u8]>,
    pub row_type: Cell<RowType>,
    pub column: Cell<&'a [u8]>,
    pub coef: Cell<Value>,
    pub right: Cell<Amount>,
}

// The value of a cell, whatever its bytes.
fn text_cell(cell: &[u8]) -> Cell<&[u8]>
    ensures { cell_now result ≡ text_in cell.now }
{
    let value = trimmed(cell);
    if is_missing(value) {
        Cell::Missing
    } else {
        Cell::Is(value)
    }
}

/// A line, read by its roles. Rows count from 1.
pub(crate) fn read_line<'a>(roles: &Roles, table: &'a Table, row: u32) -> Line<'a>
    requires below { HasColumnsBelow roles.now (length table.now.header) }
    requires row { row ≤ length table.now.rows }
    ensures { line_now result ≡ sparse_line roles.now (get_or (table.now.header ∷ table.now.rows) row []) }
{
    Line {
        row: name_cell(roles.cell(table, row, Role::Row)),
        row_type: type_cell(roles.cell(table, row, Role::ConKind)),
        column: text_cell(roles.cell(table, row, Role::Column)),
        coef: value_cell(roles.cell(table, row, Role::Coef)),
        right: amount_cell(roles.cell(table, row, Role::Rhs)),
    }
}
