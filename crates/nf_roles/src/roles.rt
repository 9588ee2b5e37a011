//! The roles of a table's columns.
ghost use Rattle.std.specs.Prelude.{◌≡◌, ◌<◌, ◌≤◌, ◌∷◌, [], IfSome, get_or, length};
ghost use Rattle.nf_roles.specs.Roles.{AreFromLeft, HasColumnsBelow, RoleColumns, cell_for, column_for, column_text};

use crate::columns::number;
use crate::reserved::first_reserved;
use nf_program::Role;
use nf_table::Table;
use smallvec::SmallVec;
use std::marker::Model;

/// Which column of a table has which role, which are the variables of dense CONDATA, and which are ID columns. Columns
/// count from 0.
#[derive(Drop)]
pub struct Roles {
    columns: [Option<u32>; 17],
    variables: SmallVec<u32, 8>,
    ids: SmallVec<u32, 8>,
}

impl Model for Roles {
    ghost use Rattle.nf_roles.specs.Roles.{AreFromLeft, RoleColumns};

    ghost Value = { RoleColumns };

    ghost view = { λ r. record { columns = r.columns; variables = r.variables.items; ids = r.ids.items } };

    ghost invariant = { λ r. AreFromLeft r.ids.items };
}

impl Roles {
    pub(crate) fn from_columns(
        columns: [Option<u32>; 17],
        variables: SmallVec<u32, 8>,
        ids: SmallVec<u32, 8>,
    ) -> Roles
        requires from_left { AreFromLeft ids.items }
        ensures { result ≡ record { columns = columns; variables = variables.items; ids = ids.items } }
    {
        Roles {
            columns,
            variables,
            ids,
        }
    }

    /// The column of a role, where it has one. VAR and ID have none: they have `variables` and `ids`.
    pub fn of(&self, role: Role) -> Option<u32>
        ensures column { result ≡ column_for self.now role }
    {
        self.columns[number(role) as usize]
    }

    /// The variables of dense CONDATA, from the left; of other data sets there are none.
    pub fn variables(&self) -> &[u32]
        ensures variables { result.now ≡ self.now.variables }
    {
        self.variables.as_slice()
    }

    /// The ID columns, from the left.
    pub fn ids(&self) -> &[u32]
        ensures ids { result.now ≡ self.now.ids }
        ensures from_left { AreFromLeft self.now.ids }
    {
        self.ids.as_slice()
    }

    /// The cell of a role in a row of the table, where row 0 is the header; it is empty where the role has no column.
    pub fn cell<'a>(&self, table: &'a Table, row: u32, role: Role) -> &'a [u8]
        requires columns { HasColumnsBelow self.now (length table.now.header) }
        requires row { row ≤ length table.now.rows }
        ensures cell { result.now ≡ cell_for self.now role (get_or (table.now.header ∷ table.now.rows) row []) }
    {
        match self.of(role) {
            Some(column) => table.cell(row, column),
            None => &[],
        }
    }

    /// How the column of a role is told: its cell in the header, or else the role's first reserved name.
    pub fn column_text<'a>(&self, table: &'a Table, role: Role) -> &'a [u8]
        requires columns { HasColumnsBelow self.now (length table.now.header) }
        ensures text { result.now ≡ column_text self.now table.now.header role }
    {
        match self.of(role) {
            Some(column) => table.cell(0, column),
            None => first_reserved(role),
        }
    }
}
