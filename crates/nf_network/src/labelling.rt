//! The labels of the network: names, supplies as texts, and ID columns.
ghost use Rattle.std.specs.Prelude.{◌≡◌, ◌≤◌, ◌<◌, ◌^◌, ◌+◌, ◌∷◌, ◌++◌, [], IfOk, OnOk, if◌then◌else◌, length, get_or};
ghost use Rattle.std.specs.List.{flat_map};
ghost use Rattle.nf_labels.specs.Labels.{no_labels};
ghost use Rattle.nf_roles.specs.Roles.{HasColumnsBelow};
ghost use Rattle.nf_network.specs.Excess.{joined_below};
ghost use Rattle.nf_network.specs.Faults.{excess, most_arcs, most_nodes};
ghost use Rattle.nf_network.specs.Balanced.{IsWithin};
ghost use Rattle.nf_network.specs.Given.{IsEven};
ghost use Rattle.nf_network.specs.Making.{AreSound, name_at};
ghost use Rattle.nf_network.specs.Network.{cells_at, excess_names, excess_value, if_excess, labels_of, node_texts, supdem_text};
ghost use Rattle.nf_frac.specs.Texts.{frac_text};

use crate::excess::{Balance, excess_name};
use crate::nodes::Nodes;
use crate::pass::{Arcs, name_of_arc};
use nf_cells::Supply;
use nf_frac::Frac;
use nf_labels::Labels;
use nf_roles::Roles;
use nf_table::Table;
use std::alloc::{AllocError, Global};

/// The labels of nodes and arcs, with the ID columns of the table of arcs. Those of the arcs are there already.
pub(crate) fn make_labels(
    alloc: Global,
    arcs: Arcs,
    roles: &Roles,
    table: &Table,
    thrunet: bool,
) -> Result<Labels, AllocError>
    requires sound { AreSound arcs.nodes arcs.keys arcs.figures.items }
    requires columns { HasColumnsBelow roles.now (length table.now.header) }
    ensures { IfOk result (λ l. l ≡ labels_of thrunet arcs.nodes.names arcs.nodes.given (joined_below (length arcs.keys) (name_at arcs.keys)) roles.now.ids table.now) }
{
    let mut labels = arcs.keys.into_labels();
    label_all(alloc, &mut labels, &arcs.nodes, roles, table, thrunet)?;
    Ok(labels)
}

// Adds all labels to those of the arcs.
fn label_all(
    alloc: Global,
    labels: &mut Labels,
    nodes: &Nodes,
    roles: &Roles,
    table: &Table,
    thrunet: bool,
) -> Result<(), AllocError>
    requires even { IsEven nodes.now }
    requires few_nodes { length nodes.now.names ≤ most_nodes }
    requires few_arcs { length labels.old.columns ≤ most_arcs }
    requires columns { HasColumnsBelow roles.now (length table.now.header) }
    requires of_arcs { labels.old ≡ record no_labels { columns = labels.old.columns; own_arcs = length labels.old.columns } }
    ensures { OnOk result (labels.new ≡ labels_of thrunet nodes.now.names nodes.now.given labels.old.columns roles.now.ids table.now) }
{
    let balance = Balance::of(nodes, thrunet);
    label_nodes(labels, nodes)?;
    label_excess(labels, nodes, balance)?;
    label_excess_arcs(alloc, labels, nodes, balance)?;
    label_id_headers(labels, roles, table)?;
    label_ids(labels, roles, table)?;
    Ok(())
}

// Adds the nodes.
fn label_nodes(labels: &mut Labels, nodes: &Nodes) -> Result<(), AllocError>
    requires even { IsEven nodes.now }
    requires few { length nodes.now.names ≤ most_nodes }
    requires none { labels.old.nodes ≡ [] }
    ensures { OnOk result (labels.new ≡ record labels.old { nodes = node_texts nodes.now.names nodes.now.given }) }
{
    for i in 0..nodes.len() {
        label_node(labels, nodes.name_of(i), nodes.value(i))?;
    }
    Ok(())
}

// Adds a node with the text of its value.
fn label_node(labels: &mut Labels, name: &[u8], value: Option<Supply>) -> Result<(), AllocError>
    requires room { length labels.old.nodes < 2 ^ 30 }
    ensures { OnOk result (labels.new ≡ record labels.old { nodes = labels.old.nodes ++ record { name = name.now; supdem = supdem_text value } ∷ [] }) }
{
    match value {
        Some(Supply::Amount(amount)) => {
            let value = Frac::from_thousandths(i128::from(amount.thousandths));
            labels.push_node(name, value.text().bytes())
        }
        Some(Supply::OpenSupply) => labels.push_node(name, b".S"),
        Some(Supply::OpenDemand) => labels.push_node(name, b".D"),
        None => labels.push_node(name, Frac::zero().text().bytes()),
    }
}

// Adds `_EXCESS_`, where it is there.
fn label_excess(labels: &mut Labels, nodes: &Nodes, balance: Balance) -> Result<(), AllocError>
    requires even { IsEven nodes.now }
    requires room { length labels.old.nodes < 2 ^ 30 }
    requires within { IsWithin most_nodes balance.total }
    ensures { OnOk result (labels.new ≡ record labels.old { nodes = labels.old.nodes ++ if_excess balance nodes.now.given (record { name = excess; supdem = frac_text (excess_value balance) }) }) }
{
    if !balance.has_excess(nodes) {
        return Ok(());
    }
    let value = Frac::from_thousandths(-balance.total);
    labels.push_node(excess_name(), value.text().bytes())
}

// Adds the excess arcs, by node number.
fn label_excess_arcs(
    alloc: Global,
    labels: &mut Labels,
    nodes: &Nodes,
    balance: Balance,
) -> Result<(), AllocError>
    requires even { IsEven nodes.now }
    requires few { length nodes.now.names ≤ most_nodes }
    requires room { length labels.old.columns ≤ most_arcs }
    ensures { OnOk result (labels.new ≡ record labels.old { columns = labels.old.columns ++ excess_names balance nodes.now.names nodes.now.given }) }
{
    for i in 0..nodes.len() {
        let (name, value) = (nodes.name_of(i), nodes.value(i));
        label_excess_arc(alloc, labels, balance.sends(value), name, excess_name())?;
        label_excess_arc(alloc, labels, balance.gets(value), excess_name(), name)?;
    }
    Ok(())
}

// Adds an excess arc by its ends, where it is to be there.
fn label_excess_arc(
    alloc: Global,
    labels: &mut Labels,
    is_there: bool,
    tail: &[u8],
    head: &[u8],
) -> Result<(), AllocError>
    requires room { length labels.old.columns < 2 ^ 30 }
    ensures { OnOk result (labels.new ≡ record labels.old { columns = labels.old.columns ++ (if is_there then (tail.now ++ 95 ∷ head.now) ∷ [] else []) }) }
{
    if !is_there {
        return Ok(());
    }
    let name = name_of_arc(alloc, tail, head)?;
    labels.push_column(name.as_slice())
}

// Adds the ID columns by their headers.
fn label_id_headers(labels: &mut Labels, roles: &Roles, table: &Table) -> Result<(), AllocError>
    requires columns { HasColumnsBelow roles.now (length table.now.header) }
    requires none { labels.old.id_headers ≡ [] }
    ensures { OnOk result (labels.new ≡ record labels.old { id_headers = cells_at roles.now.ids table.now.header }) }
{
    for column in roles.ids() {
        labels.push_id_header(table.cell(0, *column))?;
    }
    Ok(())
}

// Adds the cells of the ID columns, row by row.
fn label_ids(labels: &mut Labels, roles: &Roles, table: &Table) -> Result<(), AllocError>
    requires columns { HasColumnsBelow roles.now (length table.now.header) }
    requires none { labels.old.ids ≡ [] }
    ensures { OnOk result (labels.new ≡ record labels.old { ids = flat_map (cells_at roles.now.ids) table.now.rows }) }
{
    for i in 0..table.rows() {
        label_row(labels, roles, table, i + 1)?;
    }
    Ok(())
}

// Adds the cells of the ID columns in a row.
fn label_row(labels: &mut Labels, roles: &Roles, table: &Table, row: u32) -> Result<(), AllocError>
    requires columns { HasColumnsBelow roles.now (length table.now.header) }
    requires row { row ≤ length table.now.rows }
    ensures { OnOk result (labels.new ≡ record labels.old { ids = labels.old.ids ++ cells_at roles.now.ids (get_or (table.now.header ∷ table.now.rows) row []) }) }
{
    for column in roles.ids() {
        labels.push_id(table.cell(row, *column))?;
    }
    Ok(())
}
