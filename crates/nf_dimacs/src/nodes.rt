//! The table of the nodes.
ghost use Rattle.std.specs.Prelude.{◌≡◌, ◌<◌, ◌^◌, ◌++◌, ◌∷◌, [], length, IfOk, OnOk};
ghost use Rattle.nf_table.specs.Making.{empty_table};
ghost use Rattle.nf_dimacs.specs.Tables.{node_row, nodes_header, numbered, or_zero, table_of};

use crate::arcs::push_number;
use itoa::Buffer;
use nf_table::Table;
use std::alloc::{AllocError, Global};

/// The table of nodes by number, each with its supply, which is 0 if none is given.
pub(crate) fn nodes_table(alloc: Global, supplies: &[Option<i32>]) -> Result<Table, AllocError>
    requires few { length supplies.now < 2 ^ 31 }
    ensures { IfOk result (λ t. t ≡ table_of nodes_header (numbered node_row 1 supplies.now)) }
{
    let mut table = Table::new(alloc);
    push_header(&mut table)?;
    push_nodes(&mut table, supplies)?;
    Ok(table)
}

fn push_header(table: &mut Table) -> Result<(), AllocError>
    requires { table.old ≡ empty_table }
    ensures { OnOk result (table.new ≡ table_of nodes_header []) }
{
    table.push_cell("_NODE_".as_bytes())?;
    table.push_cell("_SUPDEM_".as_bytes())?;
    table.end_row()
}

fn push_nodes(table: &mut Table, supplies: &[Option<i32>]) -> Result<(), AllocError>
    requires begun { table.old ≡ table_of nodes_header [] }
    requires few { length supplies.now < 2 ^ 31 }
    ensures { OnOk result (table.new ≡ table_of nodes_header (numbered node_row 1 supplies.now)) }
{
    for (i, supply) in supplies.iter().enumerate() {
        push_node(table, i as u32 + 1, *supply)?;
    }
    Ok(())
}

fn push_node(table: &mut Table, node: u32, supply: Option<i32>) -> Result<(), AllocError>
    requires begun { table.old ≡ table_of nodes_header table.old.rows }
    requires room { length table.old.rows < 2 ^ 31 }
    ensures { OnOk result (table.new ≡ table_of nodes_header (table.old.rows ++ node_row node supply ∷ [])) }
{
    table.push_cell(Buffer::new().format(node).as_bytes())?;
    push_number(table, or_zero(supply))?;
    table.end_row()
}

fn or_zero(supply: Option<i32>) -> i32
    ensures { result ≡ or_zero supply }
{
    supply.unwrap_or(0)
}
