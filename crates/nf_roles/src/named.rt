//! The columns that role statements name.
ghost use Rattle.std.specs.Prelude.{◌≡◌, ◌++◌, IfOk, OnOk};
ghost use Rattle.nf_roles.specs.Named.{columns_named};
ghost use Rattle.nf_roles.specs.Assigned.{has_statement, named, named_by};
ghost use Rattle.nf_roles.specs.Lookups.{uses_of};

use crate::columns::{SetKind, is_same};
use crate::found::TableColumns;
use crate::uses::{Uses, UsesByName};
use nf_program::{Name, Program, Role};
use nf_table::Table;
use std::alloc::{AllocError, Global};
use std::marker::Model;

/// A column that a statement names, and the statement's role.
#[derive(Clone, Copy)]
pub struct NamedColumn {
    pub(crate) role: Role,
    pub(crate) name: Name,
}

/// The columns that the statements of a set name, in the order of the program, and what they say of each name.
#[derive(Drop)]
pub(crate) struct NamedColumns {
    items: Vec<NamedColumn>,
    uses: UsesByName,
}

impl Model for NamedColumns {
    ghost use Rattle.std.specs.Prelude.{List};
    ghost use Rattle.nf_roles.specs.declared.named.NamedColumn.{NamedColumn};
    ghost use Rattle.nf_roles.specs.Lookups.{AreUsesOf};

    ghost Value = { List NamedColumn };

    ghost view = { λ n. n.items.items };

    ghost invariant = { λ n. AreUsesOf n.uses n.items.items };
}

impl NamedColumns {
    /// The columns that the statements of a set name.
    pub(crate) fn of(
        alloc: Global,
        program: &Program,
        set: SetKind,
    ) -> Result<NamedColumns, AllocError>
        ensures { IfOk result (λ n. n ≡ named set program.now.roles) }
    {
        let items = named_columns(alloc, program, set)?;
        let uses = UsesByName::of(alloc, &items)?;
        Ok(NamedColumns { items, uses })
    }

    /// They, in the order of the program.
    pub(crate) fn items(&self) -> &[NamedColumn]
        ensures { result.now ≡ self.now }
    {
        &self.items
    }

    /// What statements say of the column with this cell in the header.
    pub(crate) fn uses(&self, alloc: Global, cell: &[u8]) -> Result<Uses, AllocError>
        ensures { IfOk result (λ u. u ≡ uses_of self.now cell.now) }
    {
        self.uses.of_cell(alloc, cell)
    }

    /// A table with the columns of it that statements name.
    pub(crate) fn in_table<'a>(
        &'a self,
        alloc: Global,
        table: &'a Table,
    ) -> Result<TableColumns<'a>, AllocError>
        ensures { IfOk result (λ c. c ≡ table.now.header) }
    {
        TableColumns::of(alloc, &self.uses, table)
    }
}

// The columns that the statements of a set name, in the order of the program.
fn named_columns(
    alloc: Global,
    program: &Program,
    set: SetKind,
) -> Result<Vec<NamedColumn>, AllocError>
    ensures { IfOk result (λ v. v.items ≡ named set program.now.roles) }
{
    let mut names = Vec::new(alloc);
    for statement in program.roles.items() {
        add_statement(&mut names, set, statement.0, statement.1.items())?;
    }
    Ok(names)
}

// Adds the columns that one statement names, where it is one of the set.
fn add_statement(
    names: &mut Vec<NamedColumn>,
    set: SetKind,
    role: Role,
    columns: &[Name],
) -> Result<(), AllocError>
    ensures { OnOk result (names.new.items ≡ names.old.items ++ named_by set (role, columns.now)) }
{
    if set.has_statements_of(role) {
        add_names(names, role, columns)
    } else {
        Ok(())
    }
}

// Adds the columns that one statement names.
fn add_names(names: &mut Vec<NamedColumn>, role: Role, columns: &[Name]) -> Result<(), AllocError>
    ensures { OnOk result (names.new.items ≡ names.old.items ++ columns_named role columns.now) }
{
    for name in columns {
        let Ok(()) = names.push(NamedColumn { role, name: *name }) else {
            return Err(AllocError);
        };
    }
    Ok(())
}

/// Whether a role has a statement.
pub(crate) fn has_statement(names: &[NamedColumn], role: Role) -> bool
    ensures { result ≡ has_statement names.now role }
{
    names.iter().any(|n| is_same(role, n.role))
}
