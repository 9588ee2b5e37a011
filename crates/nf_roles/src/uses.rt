//! What statements say of each name, by a map, so that no name is searched for.
ghost use Rattle.std.specs.Prelude.{◌≡◌, IfOk, OnOk, unwrap_or};
ghost use Rattle.std.specs.Map.{lookup};
ghost use Rattle.std.specs.Str.{bytes_eq};
ghost use Rattle.nf_roles.specs.Lookups.{AreUsesOf, IsOneMore, no_uses, uses_at, with_role};

use crate::columns::is_same;
use crate::named::NamedColumn;
use indexmap::IndexMap;
use nf_cells::Name;
use nf_program::Role;
use std::alloc::{AllocError, Global};
use std::marker::Model;

/// What statements say of a name.
#[derive(Clone, Copy, Debug)]
pub struct Uses {
    /// A statement names it.
    pub(crate) is_named: bool,
    /// Statements name it more than once.
    pub(crate) is_twice: bool,
    /// A statement of VAR names it.
    pub(crate) is_variable: bool,
    /// A statement of ID names it.
    pub(crate) is_id: bool,
}

impl Uses {
    fn none() -> Uses
        ensures { result ≡ no_uses }
    {
        Uses {
            is_named: false,
            is_twice: false,
            is_variable: false,
            is_id: false,
        }
    }

    // The same with one more statement, of this role.
    fn with(self, role: Role) -> Uses
        ensures { result ≡ with_role self role }
    {
        Uses {
            is_named: true,
            is_twice: self.is_twice || self.is_named,
            is_variable: self.is_variable || is_same(Role::Var, role),
            is_id: self.is_id || is_same(Role::Id, role),
        }
    }
}

/// The names of statements in small letters, with what statements say of each.
#[derive(Drop)]
pub(crate) struct UsesByName {
    uses: IndexMap<Name, Uses>,
}

impl Model for UsesByName {
    ghost use Rattle.std.specs.Prelude.{List};
    ghost use Rattle.nf_cells.specs.Names.{Name};
    ghost use Rattle.nf_roles.specs.declared.uses.Uses.{Uses};

    ghost Value = { List (Name × Uses) };

    ghost view = { λ u. u.uses.entries };
}

impl UsesByName {
    /// What statements say of the names of these columns.
    pub(crate) fn of(alloc: Global, names: &[NamedColumn]) -> Result<UsesByName, AllocError>
        ensures { IfOk result (λ u. AreUsesOf u names.now) }
    {
        let mut uses = UsesByName {
            uses: IndexMap::new(alloc),
        };
        for named in names {
            uses.add(alloc, named)?;
        }
        Ok(uses)
    }

    // Adds a name of a statement.
    fn add(&mut self, alloc: Global, named: &NamedColumn) -> Result<(), AllocError>
        ensures { OnOk result (IsOneMore self.old named.now self.new) }
    {
        let name = Name::lowered(alloc, named.name.bytes())?;
        let uses = self.of_name(&name).with(named.role);
        self.uses.insert(name, uses)?;
        Ok(())
    }

    /// What statements say of a name in small letters.
    pub(crate) fn of_name(&self, name: &Name) -> Uses
        ensures { result ≡ unwrap_or (lookup (bytes_eq name.now) self.now) no_uses }
    {
        match self.uses.get(name) {
            Some(uses) => *uses,
            None => Uses::none(),
        }
    }

    /// What statements say of the column with this cell in the header.
    pub(crate) fn of_cell(&self, alloc: Global, cell: &[u8]) -> Result<Uses, AllocError>
        ensures { IfOk result (λ u. u ≡ uses_at self.now cell.now) }
    {
        let name = Name::lowered(alloc, cell)?;
        Ok(self.of_name(&name))
    }
}
