//! Reads rows by their roles.
ghost use Rattle.std.specs.Prelude.{◌≡◌, ◌≤◌, ◌∷◌, [], length, get_or};
ghost use Rattle.nf_roles.specs.Roles.{HasColumnsBelow};
ghost use Rattle.nf_network.specs.Rows.{arc_row, arc_row_now, node_row, node_row_now};

use crate::rows::{ArcRow, NodeRow};
use nf_cells::{Gives, amount_cell, bound_cell, name_cell, supply_cell};
use nf_program::Role;
use nf_roles::Roles;
use nf_table::Table;

/// A row of ARCDATA, read by its roles. Rows count from 1.
pub fn read_arc_row<'a>(roles: &Roles, table: &'a Table, row: u32) -> ArcRow<'a>
    requires below { HasColumnsBelow roles.now (length table.now.header) }
    requires row { row ≤ length table.now.rows }
    ensures { arc_row_now result ≡ arc_row roles.now (get_or (table.now.header ∷ table.now.rows) row []) }
{
    ArcRow {
        tail: name_cell(roles.cell(table, row, Role::TailNode)),
        head: name_cell(roles.cell(table, row, Role::HeadNode)),
        name: name_cell(roles.cell(table, row, Role::ArcName)),
        cost: amount_cell(roles.cell(table, row, Role::Cost)),
        lower: amount_cell(roles.cell(table, row, Role::Lo)),
        capacity: bound_cell(roles.cell(table, row, Role::Capacity)),
        supply: supply_cell(Gives::Supply, roles.cell(table, row, Role::Supply)),
        demand: supply_cell(Gives::Demand, roles.cell(table, row, Role::Demand)),
    }
}

/// A row of NODEDATA, read by its roles. Rows count from 1.
pub fn read_node_row<'a>(roles: &Roles, table: &'a Table, row: u32) -> NodeRow<'a>
    requires below { HasColumnsBelow roles.now (length table.now.header) }
    requires row { row ≤ length table.now.rows }
    ensures { node_row_now result ≡ node_row roles.now (get_or (table.now.header ∷ table.now.rows) row []) }
{
    NodeRow {
        node: name_cell(roles.cell(table, row, Role::Node)),
        supdem: supply_cell(Gives::Either, roles.cell(table, row, Role::Supdem)),
    }
}
