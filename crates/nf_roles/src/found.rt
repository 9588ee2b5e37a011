//! The columns of a table that statements name, by a map, so that the header is not searched for each name.
ghost use Rattle.std.specs.Prelude.{◌≡◌, IfOk, OnOk};
ghost use Rattle.std.specs.Map.{lookup};
ghost use Rattle.std.specs.Str.{bytes_eq};
ghost use Rattle.nf_table.specs.Grid.{column_of};
ghost use Rattle.nf_roles.specs.Lookups.{AreColumnsOf, IsOneColumnMore};

use crate::uses::UsesByName;
use indexmap::IndexMap;
use nf_cells::Name;
use nf_table::Table;
use std::alloc::{AllocError, Global};
use std::marker::Model;

/// The columns of a table by their names in small letters, where statements name them.
#[derive(Drop)]
pub(crate) struct FoundColumns {
    columns: IndexMap<Name, u32>,
}

impl Model for FoundColumns {
    ghost use Rattle.std.specs.Prelude.{List, ℕ};
    ghost use Rattle.nf_cells.specs.Names.{Name};

    ghost Value = { List (Name × ℕ) };

    ghost view = { λ f. f.columns.entries };
}

impl FoundColumns {
    /// The columns of a table that statements name.
    pub(crate) fn of(
        alloc: Global,
        uses: &UsesByName,
        table: &Table,
    ) -> Result<FoundColumns, AllocError>
        ensures { IfOk result (λ f. AreColumnsOf uses.now f table.now.header) }
    {
        let mut found = FoundColumns {
            columns: IndexMap::new(alloc),
        };
        for column in 0..table.width() {
            found.add(alloc, uses, table.cell(0, column), column)?;
        }
        Ok(found)
    }

    // Adds a column by its cell in the header, if a statement names it and no column before it has its name.
    fn add(
        &mut self,
        alloc: Global,
        uses: &UsesByName,
        cell: &[u8],
        column: u32,
    ) -> Result<(), AllocError>
        ensures { OnOk result (IsOneColumnMore uses.now self.old cell.now column self.new) }
    {
        let name = Name::lowered(alloc, cell)?;
        if !uses.of_name(&name).is_named {
            return Ok(());
        }
        if self.columns.contains_key(&name) {
            return Ok(());
        }
        self.columns.insert(name, column)?;
        Ok(())
    }

    // The column of a name in small letters.
    fn get(&self, name: &Name) -> Option<u32>
        ensures { result ≡ lookup (bytes_eq name.now) self.now }
    {
        match self.columns.get(name) {
            Some(column) => Some(*column),
            None => None,
        }
    }
}

/// A table with the columns of it that statements name.
#[derive(Drop)]
pub(crate) struct TableColumns<'a> {
    table: &'a Table,
    uses: &'a UsesByName,
    found: FoundColumns,
}

impl<'a> Model for TableColumns<'a> {
    ghost use Rattle.nf_table.specs.Grid.{Cells};
    ghost use Rattle.nf_roles.specs.Lookups.{AreColumnsOf};

    ghost Value = { Cells };

    ghost view = { λ c. c.table.now.header };

    ghost invariant = { λ c. AreColumnsOf c.uses.now c.found c.table.now.header };
}

impl<'a> TableColumns<'a> {
    pub(crate) fn of(
        alloc: Global,
        uses: &'a UsesByName,
        table: &'a Table,
    ) -> Result<TableColumns<'a>, AllocError>
        ensures { IfOk result (λ c. c ≡ table.now.header) }
    {
        let found = FoundColumns::of(alloc, uses, table)?;
        Ok(TableColumns { table, uses, found })
    }

    /// The column of a name in the table. One that no statement names is looked for in the header.
    pub(crate) fn column(&self, alloc: Global, name: &[u8]) -> Result<Option<u32>, AllocError>
        ensures { IfOk result (λ c. c ≡ column_of self.now name.now) }
    {
        let small = Name::lowered(alloc, name)?;
        if !self.uses.of_name(&small).is_named {
            return Ok(self.table.column(name));
        }
        Ok(self.found.get(&small))
    }
}
