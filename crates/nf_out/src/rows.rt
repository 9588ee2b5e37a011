//! Tables of nodes and constraints.
ghost use Rattle.std.specs.Prelude.{◌≡◌, ◌<◌, ◌≤◌, ◌+◌, ◌-◌, ◌^◌, ◌∷◌, ◌++◌, [], None, IfOk, OnOk, codes, decimal, get_or, length, map, nat_lt, if◌then◌else◌};
ghost use Rattle.std.specs.Str.{IsUtf8};
ghost use Rattle.nf_frac.specs.Texts.{frac_text};
ghost use Rattle.nf_labels.specs.Labels.{AreLabelsOf, no_node};
ghost use Rattle.nf_table.specs.Making.{empty_table, with_cell};
ghost use Rattle.nf_table.specs.Reading.{repeated_column};
ghost use Rattle.nf_simplex.specs.Standing.{rows_of};
ghost use Rattle.nf_basis.specs.Kept.{IsStateOf};
ghost use Rattle.nf_out.specs.Rows.{row_cell, row_name};
ghost use Rattle.nf_out.specs.Tables.{grid_of, row_of, with_cells, with_rows};
ghost use Rattle.nf_out.specs.Words.{for_node, in_stage, kind_word, row_word};

use crate::cells::{push_count, push_frac, push_word, word_of};
use crate::fields::RowField;
use crate::figures::{RowFigures, TreeFigures};
use nf_basis::State;
use nf_duals::priced_place;
use nf_frac::Frac;
use nf_labels::Labels;
use nf_model::RowKind;
use nf_prob::Problem;
use nf_table::Table;
use std::alloc::{AllocError, Global};

/// The table of the rows of a problem from number `first` on up to `last` - 1, which count from 0, with these fields.
///
/// `AllocError` if out of memory.
pub fn row_table(
    alloc: Global,
    p: &Problem,
    labels: &Labels,
    state: &State,
    figures: &RowFigures,
    tree: &TreeFigures,
    fields: &[RowField],
    first: u32,
    last: u32,
) -> Result<Table, AllocError>
    requires labels { AreLabelsOf labels.now p.now }
    requires state { IsStateOf p.now state.now }
    requires some { 0 < length fields.now }
    requires few { length fields.now < 2 ^ 31 }
    requires names { repeated_column (map row_name fields.now) ≡ None }
    requires order { first ≤ last }
    requires within { last ≤ length p.now.rows }
    ensures table { IfOk result (λ t. t ≡ grid_of row_name (row_cell p.now labels.now state.now.standing figures.now tree.now) fields.now first (last - first)) }
{
    let mut table = Table::new(alloc);
    push_names(&mut table, fields)?;
    table.end_row()?;
    push_rows(
        &mut table, p, labels, state, figures, tree, fields, first, last,
    )?;
    Ok(table)
}

// The names of these fields.
fn push_names(table: &mut Table, fields: &[RowField]) -> Result<(), AllocError>
    requires few { length fields.now < 2 ^ 31 }
    requires begun { table.old.hand ≡ [] }
    ensures { OnOk result (table.new ≡ with_cells table.old (map row_name fields.now)) }
{
    for field in fields {
        push_word(table, name_of(*field))?;
    }
    Ok(())
}

// The name of a field.
fn name_of(field: RowField) -> &'static str
    ensures { result.now ≡ row_name field }
{
    match field {
        RowField::Node => "_NODE_",
        RowField::Supply => "_SUPDEM_",
        RowField::Constraint => "_ROW_",
        RowField::Kind => "_TYPE_",
        RowField::Right => "_RHS_",
        RowField::Sum => "_VALUE_",
        RowField::Dual => "_DUAL_",
        RowField::Status => "_STATUS_",
        RowField::Number => "_NNUMB_",
        RowField::Predecessor => "_PRED_",
        RowField::Next => "_TRAV_",
        RowField::Size => "_SCESS_",
        RowField::Arc => "_ARCID_",
    }
}

// These rows of the problem, below a header.
fn push_rows(
    table: &mut Table,
    p: &Problem,
    labels: &Labels,
    state: &State,
    figures: &RowFigures,
    tree: &TreeFigures,
    fields: &[RowField],
    first: u32,
    last: u32,
) -> Result<(), AllocError>
    requires labels { AreLabelsOf labels.now p.now }
    requires state { IsStateOf p.now state.now }
    requires some { 0 < length fields.now }
    requires few { length fields.now < 2 ^ 31 }
    requires order { first ≤ last }
    requires within { last ≤ length p.now.rows }
    requires begun { table.old ≡ with_rows (map row_name fields.now) [] }
    ensures { OnOk result (table.new ≡ grid_of row_name (row_cell p.now labels.now state.now.standing figures.now tree.now) fields.now first (last - first)) }
{
    let _few = p.rows();
    for i in first..last {
        push_cells(table, p, labels, state, figures, tree, fields, i)?;
        table.end_row()?;
    }
    Ok(())
}

// What these fields show of row i.
fn push_cells(
    table: &mut Table,
    p: &Problem,
    labels: &Labels,
    state: &State,
    figures: &RowFigures,
    tree: &TreeFigures,
    fields: &[RowField],
    i: u32,
) -> Result<(), AllocError>
    requires labels { AreLabelsOf labels.now p.now }
    requires state { IsStateOf p.now state.now }
    requires few { length fields.now < 2 ^ 31 }
    requires row { i < length p.now.rows }
    requires begun { table.old.hand ≡ [] }
    ensures { OnOk result (table.new ≡ with_cells table.old (row_of (row_cell p.now labels.now state.now.standing figures.now tree.now) fields.now i)) }
{
    for field in fields {
        push_cell(table, p, labels, state, figures, tree, *field, i)?;
    }
    Ok(())
}

// What a field shows of row i.
fn push_cell(
    table: &mut Table,
    p: &Problem,
    labels: &Labels,
    state: &State,
    figures: &RowFigures,
    tree: &TreeFigures,
    field: RowField,
    i: u32,
) -> Result<(), AllocError>
    requires labels { AreLabelsOf labels.now p.now }
    requires state { IsStateOf p.now state.now }
    requires row { i < length p.now.rows }
    requires room { length table.old.hand < 2 ^ 31 }
    ensures { OnOk result (table.new ≡ with_cell table.old (row_cell p.now labels.now state.now.standing figures.now tree.now field i)) }
{
    let _few = p.rows();
    match field {
        RowField::Node => push_node_name(table, p, labels, i),
        RowField::Supply => push_supply(table, p, labels, i),
        RowField::Constraint => push_constraint(table, p, labels, i),
        RowField::Kind => push_word(table, kind_of(p.kind(i + 1))),
        RowField::Right => push_frac(table, p.right(i + 1)),
        RowField::Sum => push_in_stage(table, p, state, i, figures.sum(i)),
        RowField::Dual => push_in_stage(table, p, state, i, figures.dual(i)),
        RowField::Status => push_word(table, status_of(p, state, i)),
        RowField::Number => push_for_node(table, p, i, i + 1),
        RowField::Predecessor => push_for_node(table, p, i, tree.predecessor(i)),
        RowField::Next => push_for_node(table, p, i, tree.next_node(i)),
        RowField::Size => push_for_node(table, p, i, tree.size(i)),
        RowField::Arc => push_for_node(table, p, i, tree.arc(i)),
    }
}

// The name of the node of row i, and nothing for a constraint.
fn push_node_name(table: &mut Table, p: &Problem, labels: &Labels, i: u32) -> Result<(), AllocError>
    requires labels { AreLabelsOf labels.now p.now }
    requires room { length table.old.hand < 2 ^ 31 }
    ensures { OnOk result (table.new ≡ with_cell table.old (for_node p.now i (get_or labels.now.nodes i no_node).name)) }
{
    if i >= p.nodes() {
        return table.push_cell(&[]);
    }
    let _few = p.rows();
    table.push_cell(labels.node(i + 1))
}

// The supply of the node of row i, and nothing for a constraint.
fn push_supply(table: &mut Table, p: &Problem, labels: &Labels, i: u32) -> Result<(), AllocError>
    requires labels { AreLabelsOf labels.now p.now }
    requires room { length table.old.hand < 2 ^ 31 }
    ensures { OnOk result (table.new ≡ with_cell table.old (for_node p.now i (get_or labels.now.nodes i no_node).supdem)) }
{
    if i >= p.nodes() {
        return table.push_cell(&[]);
    }
    let _few = p.rows();
    table.push_cell(labels.supdem(i + 1))
}

// The name of the constraint of row i, and nothing for a node.
fn push_constraint(
    table: &mut Table,
    p: &Problem,
    labels: &Labels,
    i: u32,
) -> Result<(), AllocError>
    requires labels { AreLabelsOf labels.now p.now }
    requires row { i < length p.now.rows }
    requires room { length table.old.hand < 2 ^ 31 }
    ensures { OnOk result (table.new ≡ with_cell table.old (if nat_lt i p.now.nodes then [] else get_or labels.now.constraints (i - p.now.nodes) [])) }
{
    if i < p.nodes() {
        return table.push_cell(&[]);
    }
    let _few = p.rows();
    table.push_cell(labels.constraint(i + 1))
}

// The word for a kind of row.
fn kind_of(kind: RowKind) -> &'static str
    ensures { result.now ≡ kind_word kind }
{
    match kind {
        RowKind::Eq => "EQ",
        RowKind::Le => "LE",
        RowKind::Ge => "GE",
    }
}

// How many rows the stage has.
fn stage_rows(p: &Problem, state: &State) -> u32
    ensures { result ≡ rows_of p.now state.now.standing }
{
    if state.stage() == 1 {
        p.nodes()
    } else {
        p.rows()
    }
}

// A number of row i, and nothing if the stage lacks the row.
fn push_in_stage(
    table: &mut Table,
    p: &Problem,
    state: &State,
    i: u32,
    x: Frac,
) -> Result<(), AllocError>
    requires room { length table.old.hand < 2 ^ 31 }
    ensures { OnOk result (table.new ≡ with_cell table.old (in_stage p.now state.now.standing i (frac_text x))) }
{
    if i >= stage_rows(p, state) {
        return table.push_cell(&[]);
    }
    push_frac(table, x)
}

// A number of row i as a node, and nothing for a constraint.
fn push_for_node(table: &mut Table, p: &Problem, i: u32, n: u32) -> Result<(), AllocError>
    requires room { length table.old.hand < 2 ^ 31 }
    ensures { OnOk result (table.new ≡ with_cell table.old (for_node p.now i (decimal n))) }
{
    if i >= p.nodes() {
        return table.push_cell(&[]);
    }
    push_count(table, n)
}

// The status of row i.
fn status_of(p: &Problem, state: &State, i: u32) -> &'static str
    requires state { IsStateOf p.now state.now }
    requires row { i < length p.now.rows }
    ensures { result.now ≡ row_word p.now state.now.standing i }
{
    let _few = (p.rows(), p.columns());
    if i < p.nodes() {
        return "NONE";
    }
    if state.stage() == 1 {
        return "ABSENT";
    }
    if p.kind(i + 1) == RowKind::Eq {
        return "NONE";
    }
    word_of(priced_place(p, state, p.columns() + (i - p.nodes())))
}
