//! Tables of arcs and nonarc variables.
ghost use Rattle.std.specs.Prelude.{◌≡◌, ◌<◌, ◌≤◌, ◌+◌, ◌-◌, ◌^◌, ◌∷◌, ◌++◌, [], None, IfOk, OnOk, length, map};
ghost use Rattle.std.specs.List.{All};
ghost use Rattle.std.specs.Str.{IsUtf8};
ghost use Rattle.nf_sums.specs.Terms.{with_sign};
ghost use Rattle.nf_model.specs.Program.{column};
ghost use Rattle.nf_labels.specs.Labels.{AreLabelsOf};
ghost use Rattle.nf_table.specs.Making.{empty_table, with_cell};
ghost use Rattle.nf_table.specs.Reading.{repeated_column};
ghost use Rattle.nf_basis.specs.Kept.{IsStateOf};
ghost use Rattle.nf_out.specs.Arcs.{IsFieldOf, arc_cell, arc_name, id_cell};
ghost use Rattle.nf_out.specs.Tables.{grid_of, row_of, with_cells, with_rows};

use crate::cells::{push_bound, push_count, push_frac, push_node, push_there, push_word, word_of};
use crate::fields::ArcField;
use crate::figures::ArcFigures;
use nf_basis::State;
use nf_duals::priced_place;
use nf_frac::Frac;
use nf_labels::Labels;
use nf_prob::Problem;
use nf_table::Table;
use std::alloc::{AllocError, Global};

/// The table of the columns of a problem from number `first` on up to `last` - 1, which count from 0, with these fields.
///
/// `AllocError` if out of memory.
pub fn arc_table(
    alloc: Global,
    p: &Problem,
    labels: &Labels,
    state: &State,
    figures: &ArcFigures,
    fields: &[ArcField],
    first: u32,
    last: u32,
) -> Result<Table, AllocError>
    requires labels { AreLabelsOf labels.now p.now }
    requires state { IsStateOf p.now state.now }
    requires fields { All (IsFieldOf labels.now) fields.now }
    requires some { 0 < length fields.now }
    requires few { length fields.now < 2 ^ 31 }
    requires names { repeated_column (map (arc_name labels.now) fields.now) ≡ None }
    requires order { first ≤ last }
    requires within { last ≤ length p.now.columns }
    ensures table { IfOk result (λ t. t ≡ grid_of (arc_name labels.now) (arc_cell p.now labels.now state.now.standing figures.now) fields.now first (last - first)) }
{
    let mut table = Table::new(alloc);
    push_names(&mut table, p, labels, fields)?;
    table.end_row()?;
    push_rows(&mut table, p, labels, state, figures, fields, first, last)?;
    Ok(table)
}

// The names of these fields.
fn push_names(
    table: &mut Table,
    p: &Problem,
    labels: &Labels,
    fields: &[ArcField],
) -> Result<(), AllocError>
    requires labels { AreLabelsOf labels.now p.now }
    requires fields { All (IsFieldOf labels.now) fields.now }
    requires few { length fields.now < 2 ^ 31 }
    requires begun { table.old.hand ≡ [] }
    ensures { OnOk result (table.new ≡ with_cells table.old (map (arc_name labels.now) fields.now)) }
{
    for field in fields {
        push_name(table, p, labels, *field)?;
    }
    Ok(())
}

// The name of a field.
fn push_name(
    table: &mut Table,
    p: &Problem,
    labels: &Labels,
    field: ArcField,
) -> Result<(), AllocError>
    requires labels { AreLabelsOf labels.now p.now }
    requires field { IsFieldOf labels.now field }
    requires room { length table.old.hand < 2 ^ 31 }
    ensures { OnOk result (table.new ≡ with_cell table.old (arc_name labels.now field)) }
{
    match field {
        ArcField::Tail => push_word(table, "_FROM_"),
        ArcField::Head => push_word(table, "_TO_"),
        ArcField::Name => push_word(table, "_NAME_"),
        ArcField::Cost => push_word(table, "_COST_"),
        ArcField::Capacity => push_word(table, "_CAPAC_"),
        ArcField::Lower => push_word(table, "_LO_"),
        ArcField::Id(c) => table.push_cell(labels.id_header(c)),
        ArcField::Flow => push_word(table, "_FLOW_"),
        ArcField::FlowCost => push_word(table, "_FCOST_"),
        ArcField::ReducedCost => push_word(table, "_RCOST_"),
        ArcField::Status => push_word(table, "_STATUS_"),
        ArcField::Number => push_word(table, "_ANUMB_"),
        ArcField::TailNumber => push_word(table, "_TNUMB_"),
    }
}

// The rows of these columns, below a header.
fn push_rows(
    table: &mut Table,
    p: &Problem,
    labels: &Labels,
    state: &State,
    figures: &ArcFigures,
    fields: &[ArcField],
    first: u32,
    last: u32,
) -> Result<(), AllocError>
    requires labels { AreLabelsOf labels.now p.now }
    requires state { IsStateOf p.now state.now }
    requires fields { All (IsFieldOf labels.now) fields.now }
    requires some { 0 < length fields.now }
    requires few { length fields.now < 2 ^ 31 }
    requires order { first ≤ last }
    requires within { last ≤ length p.now.columns }
    requires begun { table.old ≡ with_rows (map (arc_name labels.now) fields.now) [] }
    ensures { OnOk result (table.new ≡ grid_of (arc_name labels.now) (arc_cell p.now labels.now state.now.standing figures.now) fields.now first (last - first)) }
{
    let _few = p.columns();
    for k in first..last {
        push_cells(table, p, labels, state, figures, fields, k)?;
        table.end_row()?;
    }
    Ok(())
}

// What these fields show of column k.
fn push_cells(
    table: &mut Table,
    p: &Problem,
    labels: &Labels,
    state: &State,
    figures: &ArcFigures,
    fields: &[ArcField],
    k: u32,
) -> Result<(), AllocError>
    requires labels { AreLabelsOf labels.now p.now }
    requires state { IsStateOf p.now state.now }
    requires fields { All (IsFieldOf labels.now) fields.now }
    requires few { length fields.now < 2 ^ 31 }
    requires column { k < length p.now.columns }
    requires begun { table.old.hand ≡ [] }
    ensures { OnOk result (table.new ≡ with_cells table.old (row_of (arc_cell p.now labels.now state.now.standing figures.now) fields.now k)) }
{
    for field in fields {
        push_cell(table, p, labels, state, figures, *field, k)?;
    }
    Ok(())
}

// What a field shows of column k.
fn push_cell(
    table: &mut Table,
    p: &Problem,
    labels: &Labels,
    state: &State,
    figures: &ArcFigures,
    field: ArcField,
    k: u32,
) -> Result<(), AllocError>
    requires labels { AreLabelsOf labels.now p.now }
    requires state { IsStateOf p.now state.now }
    requires field { IsFieldOf labels.now field }
    requires column { k < length p.now.columns }
    requires room { length table.old.hand < 2 ^ 31 }
    ensures { OnOk result (table.new ≡ with_cell table.old (arc_cell p.now labels.now state.now.standing figures.now field k)) }
{
    let _few = p.columns();
    let place = priced_place(p, state, k);
    match field {
        ArcField::Tail => push_node(table, p, labels, p.tail(k + 1)),
        ArcField::Head => push_node(table, p, labels, p.head(k + 1)),
        ArcField::Name => table.push_cell(labels.column(k + 1)),
        ArcField::Cost => push_frac(table, own_cost(p, k)),
        ArcField::Capacity => push_bound(table, p.upper(k + 1), "INF"),
        ArcField::Lower => push_bound(table, p.lower(k + 1), "-INF"),
        ArcField::Id(c) => push_id(table, p, labels, k, c),
        ArcField::Flow => push_there(table, place, figures.flow(k)),
        ArcField::FlowCost => push_there(table, place, figures.flow_cost(k)),
        ArcField::ReducedCost => push_there(table, place, figures.reduced_cost(k)),
        ArcField::Status => push_word(table, word_of(place)),
        ArcField::Number => push_count(table, k + 1),
        ArcField::TailNumber => push_count(table, p.tail(k + 1)),
    }
}

// What one unit of column k costs in the program's own sense.
fn own_cost(p: &Problem, k: u32) -> Frac
    requires column { k < length p.now.columns }
    ensures { result ≡ with_sign p.now.maximizes (column p.now k).cost }
{
    let _few = p.columns();
    let cost = p.cost(k + 1);
    if p.maximize() { cost.neg() } else { cost }
}

// The cell of column k in ID column c: nothing but for the arcs of ARCDATA.
fn push_id(
    table: &mut Table,
    p: &Problem,
    labels: &Labels,
    k: u32,
    c: u32,
) -> Result<(), AllocError>
    requires labels { AreLabelsOf labels.now p.now }
    requires header { c < length labels.now.id_headers }
    requires column { k < length p.now.columns }
    requires room { length table.old.hand < 2 ^ 31 }
    ensures { OnOk result (table.new ≡ with_cell table.old (id_cell labels.now c k)) }
{
    let _few = p.columns();
    if k >= labels.own_arcs() {
        return table.push_cell(&[]);
    }
    table.push_cell(labels.id(k + 1, c))
}
