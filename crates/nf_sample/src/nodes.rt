//! The nodes of a sample.
ghost use Rattle.std.specs.Prelude.{◌≡◌, ◌≤◌, ◌/◌, ◌++◌, length, IfOk, OnOk};
ghost use Rattle.nf_sample.specs.Draws.{state_after};
ghost use Rattle.nf_sample.specs.Rows.{table_of};
ghost use Rattle.nf_sample.specs.Sample.{node_row, nodes_header, nodes_table, supplies, supply};

use crate::draws::Draws;
use crate::rows::{begin, name, push_row};
use nf_table::Table;
use std::alloc::{AllocError, Global};

/// The table of the nodes. Half of them draw a supply, which the other half, from the last one back, has as a demand.
pub(crate) fn nodes_table(alloc: Global, draws: &mut Draws, nodes: u32) -> Result<Table, AllocError>
    requires few { nodes ≤ 2000 }
    ensures table { IfOk result (λ t. t ≡ nodes_table draws.old nodes) }
    ensures drawn { OnOk result (draws.new ≡ state_after draws.old (nodes / 2)) }
{
    let drawn = draw_supplies(alloc, draws, nodes / 2)?;
    let mut table = begin(alloc, &["_NODE_", "_SUPDEM_"])?;
    for before in 0..nodes {
        push_node(alloc, &mut table, drawn.as_slice(), nodes, before + 1)?;
    }
    Ok(table)
}

// Draws so many supplies.
fn draw_supplies(alloc: Global, draws: &mut Draws, count: u32) -> Result<Vec<u32>, AllocError>
    ensures value { IfOk result (λ v. v.items ≡ supplies draws.old count) }
    ensures count { IfOk result (λ v. length v.items ≡ count) }
    ensures drawn { OnOk result (draws.new ≡ state_after draws.old count) }
{
    let mut drawn = Vec::new(alloc);
    for _ in 0..count {
        drawn.push(draws.below(10) + 1)?;
    }
    Ok(drawn)
}

// Adds the row of node i.
fn push_node(
    alloc: Global,
    table: &mut Table,
    drawn: &[u32],
    nodes: u32,
    i: u32,
) -> Result<(), AllocError>
    requires begun { table.old ≡ table_of nodes_header table.old.rows }
    requires room { length table.old.rows ≤ 2000 }
    requires within { (1 ≤ i) × (i ≤ nodes) × (nodes ≤ 2000) }
    requires supplies { length drawn.now ≤ nodes }
    ensures { OnOk result (table.new ≡ table_of nodes_header (table.old.rows ++ node_row drawn.now nodes i)) }
{
    let node = name(alloc, "n", i)?;
    let supply = supply_text(alloc, drawn, nodes, i)?;
    push_row(table, &[node.as_str(), supply.as_str()])
}

// The supply of node i, or its demand with a minus.
fn supply_text(alloc: Global, drawn: &[u32], nodes: u32, i: u32) -> Result<String, AllocError>
    requires within { (1 ≤ i) × (i ≤ nodes) × (nodes ≤ 2000) }
    requires supplies { length drawn.now ≤ nodes }
    ensures { IfOk result (λ s. s.bytes.items ≡ supply drawn.now nodes i) }
{
    let own = i as usize;
    let mirror = (nodes + 1 - i) as usize;
    if own <= drawn.len() {
        let supply = drawn[own - 1];
        Ok(format!(in alloc; "{supply}")?)
    } else if mirror <= drawn.len() {
        let demand = drawn[mirror - 1];
        Ok(format!(in alloc; "-{demand}")?)
    } else {
        Ok(format!(in alloc; "0")?)
    }
}
