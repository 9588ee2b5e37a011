//! A row of NODEDATA: its node, and what it gives it.
ghost use Rattle.std.specs.Prelude.{◌≡◌, ◌≤◌, ◌<◌, ◌++◌, ◌∷◌, [], None, true, length, get_or, MatchResult};
ghost use Rattle.nf_cells.specs.Names.{is_once};
ghost use Rattle.nf_cells.specs.Values.{cell_now};
ghost use Rattle.nf_roles.specs.First.{IsFaultOf, first_of};
ghost use Rattle.nf_roles.specs.Roles.{HasColumnsBelow};
ghost use Rattle.nf_network.specs.Arcs.{said as said_of};
ghost use Rattle.nf_network.specs.Given.{IsEven, IsNamed};
ghost use Rattle.nf_network.specs.NodePass.{IsTaken, name_faults_now, row_faults_now};
ghost use Rattle.nf_network.specs.Rows.{node_row};

use crate::excess::is_excess;
use crate::nodes::{Nodes, no_memory};
use crate::row_cells::read_node_row;
use nf_cells::{Cell, Names};
use nf_program::Role;
use nf_roles::{CellFault, DataKind, Roles};
use nf_table::Table;

/// Takes a row of NODEDATA, where the earlier rows name the nodes `seen`. Rows count from 1.
pub(crate) fn take_node_row(
    nodes: &mut Nodes,
    seen: &mut Names,
    roles: &Roles,
    table: &Table,
    row: u32,
) -> Result<(), CellFault>
    requires columns { HasColumnsBelow roles.now (length table.now.header) }
    requires row { row ≤ length table.now.rows }
    requires even { IsEven nodes.old }
    requires once { is_once nodes.old.names ≡ true }
    ensures { MatchResult result
        (λ _. IsTaken nodes.old seen.old (node_row roles.now (get_or (table.now.header ∷ table.now.rows) row [])) nodes.new seen.new)
        (IsFaultOf (first_of (row_faults_now nodes.old seen.old (node_row roles.now (get_or (table.now.header ∷ table.now.rows) row []))))) }
{
    let row = read_node_row(roles, table, row);
    let number = match name_row(nodes, seen, row.node) {
        Ok(number) => number,
        Err(fault) => return Err(fault),
    };
    match nodes.give(number, Role::Supdem, row.supdem) {
        Ok(()) => Ok(()),
        Err(fault) => Err(fault),
    }
}

// The number of the node that a row names.
fn name_row(nodes: &mut Nodes, seen: &mut Names, cell: Cell<&[u8]>) -> Result<usize, CellFault>
    requires even { IsEven nodes.old }
    requires once { is_once nodes.old.names ≡ true }
    ensures { MatchResult result
        (λ i. (first_of (name_faults_now nodes.old.names seen.old (cell_now cell.entry)) ≡ None)
        × IsNamed Role.Node nodes.old (cell_now cell.entry) nodes.new i × (seen.new ≡ seen.old ++ said_of [] (cell_now cell.entry) ∷ []))
        (IsFaultOf (first_of (name_faults_now nodes.old.names seen.old (cell_now cell.entry)))) }
{
    let Cell::Is(name) = cell else {
        return Err(CellFault {
            role: Role::Node,
            kind: DataKind::BadName,
        });
    };
    if is_excess(name) {
        return Err(CellFault {
            role: Role::Node,
            kind: DataKind::ReservedName,
        });
    }
    let before = seen.len();
    let Ok(place) = seen.number(name) else {
        return Err(no_memory(Role::Node));
    };
    if place < before {
        return Err(CellFault {
            role: Role::Node,
            kind: DataKind::RepeatedNode,
        });
    }
    match nodes.name(Role::Node, cell, None) {
        Ok(number) => Ok(number),
        Err(fault) => Err(fault),
    }
}
