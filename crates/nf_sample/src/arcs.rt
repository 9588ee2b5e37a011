//! The arcs of a sample.
ghost use Rattle.std.specs.Prelude.{◌≡◌, ◌<◌, ◌≤◌, ◌-◌, ◌*◌, ◌++◌, ◌∷◌, [], length, IfOk, OnOk};
ghost use Rattle.nf_sample.specs.Draws.{state_after};
ghost use Rattle.nf_sample.specs.Rows.{rows_to, table_of};
ghost use Rattle.nf_sample.specs.Sample.{arc, arcs_header, arcs_table, drawn_arc, drawn_arcs, next_node, node, ring_arc};

use crate::draws::Draws;
use crate::rows::{begin, name, push_row};
use nf_table::Table;
use std::alloc::{AllocError, Global};

/// The table of the arcs: first the ring over all nodes, dear and without capacities, so that every supply reaches every
/// demand, and then those that are drawn.
pub(crate) fn arcs_table(
    alloc: Global,
    draws: &mut Draws,
    nodes: u32,
    arcs: u32,
) -> Result<Table, AllocError>
    requires some { 0 < nodes }
    requires ring { nodes ≤ arcs }
    requires few { arcs ≤ 50000 }
    ensures table { IfOk result (λ t. t ≡ arcs_table draws.old nodes arcs) }
    ensures drawn { OnOk result (draws.new ≡ state_after draws.old (4 * (arcs - nodes))) }
{
    let mut table = begin(alloc, &["_FROM_", "_TO_", "_NAME_", "_COST_", "_CAPAC_"])?;
    push_ring(alloc, &mut table, nodes)?;
    push_drawn(alloc, &mut table, draws, nodes, arcs - nodes)?;
    Ok(table)
}

// Adds the arcs of the ring.
fn push_ring(alloc: Global, table: &mut Table, nodes: u32) -> Result<(), AllocError>
    requires begun { table.old ≡ table_of arcs_header [] }
    requires few { nodes ≤ 50000 }
    ensures rows { OnOk result (table.new ≡ table_of arcs_header (rows_to (ring_arc nodes) nodes)) }
    ensures count { OnOk result (length table.new.rows ≡ nodes) }
{
    for before in 0..nodes {
        let i = before + 1;
        push_arc(alloc, table, i, next_node(nodes, i), i, "100", "")?;
    }
    Ok(())
}

// The node after node i in the ring.
fn next_node(nodes: u32, i: u32) -> u32
    requires few { i ≤ 50000 }
    ensures { result ≡ next_node nodes i }
{
    if i == nodes { 1 } else { i + 1 }
}

// Adds the arcs that are drawn, so many after those of the ring.
fn push_drawn(
    alloc: Global,
    table: &mut Table,
    draws: &mut Draws,
    nodes: u32,
    count: u32,
) -> Result<(), AllocError>
    requires begun { table.old ≡ table_of arcs_header table.old.rows }
    requires some { 0 < nodes }
    requires few { (nodes ≤ 50000) × (count ≤ 50000) × (length table.old.rows ≤ 50000) }
    ensures rows { OnOk result (table.new ≡ table_of arcs_header (table.old.rows ++ rows_to (drawn_arcs draws.old nodes) count)) }
    ensures drawn { OnOk result (draws.new ≡ state_after draws.old (4 * count)) }
{
    for before in 0..count {
        push_drawn_arc(alloc, table, draws, nodes, nodes + before + 1)?;
    }
    Ok(())
}

// Adds the row of an arc that is drawn, of which the number is given.
fn push_drawn_arc(
    alloc: Global,
    table: &mut Table,
    draws: &mut Draws,
    nodes: u32,
    number: u32,
) -> Result<(), AllocError>
    requires begun { table.old ≡ table_of arcs_header table.old.rows }
    requires room { length table.old.rows ≤ 100000 }
    requires some { 0 < nodes }
    requires few { nodes ≤ 50000 }
    ensures row { OnOk result (table.new ≡ table_of arcs_header (table.old.rows ++ drawn_arc draws.old nodes number)) }
    ensures drawn { OnOk result (draws.new ≡ state_after draws.old 4) }
{
    let tail = draws.below(nodes) + 1;
    let head = draws.below(nodes) + 1;
    let cost = draws.below(90) + 1;
    let capacity = draws.below(20) + 1;
    let cost = format!(in alloc; "{cost}")?;
    let capacity = format!(in alloc; "{capacity}")?;
    push_arc(
        alloc,
        table,
        tail,
        head,
        number,
        cost.as_str(),
        capacity.as_str(),
    )
}

// Adds the row of an arc, of which the tail, the head and the number are given.
fn push_arc(
    alloc: Global,
    table: &mut Table,
    tail: u32,
    head: u32,
    number: u32,
    cost: &str,
    capacity: &str,
) -> Result<(), AllocError>
    requires begun { table.old ≡ table_of arcs_header table.old.rows }
    requires room { length table.old.rows ≤ 100000 }
    ensures { OnOk result (table.new ≡ table_of arcs_header (table.old.rows ++ (node tail ∷ node head ∷ arc number ∷ cost.now ∷ capacity.now ∷ []) ∷ [])) }
{
    let tail = name(alloc, "n", tail)?;
    let head = name(alloc, "n", head)?;
    let arc = name(alloc, "x", number)?;
    push_row(
        table,
        &[tail.as_str(), head.as_str(), arc.as_str(), cost, capacity],
    )
}
