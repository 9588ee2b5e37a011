//! The four output tables of a state.
ghost use Rattle.std.specs.Prelude.{◌≡◌, ◌≤◌, ◌<◌, ◌+◌, ◌∷◌, ◌++◌, ◌^◌, [], IfOk, OnOk, length, get_or};
ghost use Rattle.std.specs.List.{list_any};
ghost use Rattle.nf_labels.specs.Labels.{AreLabelsOf};
ghost use Rattle.nf_table.specs.Grid.{same_name};
ghost use Rattle.nf_basis.specs.Kept.{IsStateOf};
ghost use Rattle.nf_out.specs.Arcs.{arc_fields, id_fields, one_id, own_names};
ghost use Rattle.nf_out.specs.Rows.{dual_fields, node_fields};
ghost use Rattle.nf_out.specs.Output.{arcout_grid, conout_grid, dualout_grid, nodeout_grid};

use crate::arcs::arc_table;
use crate::fields::{ArcField, RowField};
use crate::figures::{ArcFigures, RowFigures, TreeFigures};
use crate::rows::row_table;
use nf_basis::State;
use nf_labels::Labels;
use nf_prob::Problem;
use nf_table::Table;
use std::alloc::{AllocError, Global};

// A data set has fewer ID columns: each takes a byte of it, and it has at most 2^26.
const MOST_IDS: u32 = 1 << 30;

/// ARCOUT: the arcs with the numbers of a state, and under FUTURE1, as `future` says, their status.
///
/// `AllocError` if out of memory.
pub fn arcout(
    alloc: Global,
    p: &Problem,
    labels: &Labels,
    state: &State,
    figures: &ArcFigures,
    future: bool,
) -> Result<Table, AllocError>
    requires labels { AreLabelsOf labels.now p.now }
    requires state { IsStateOf p.now state.now }
    ensures table { IfOk result (λ t. t ≡ arcout_grid p.now labels.now state.now.standing figures.now future) }
{
    let fields = list_fields(alloc, labels, future)?;
    let last = p.arcs();
    arc_table(alloc, p, labels, state, figures, fields.as_slice(), 0, last)
}

/// CONOUT: the arcs and nonarc variables with the numbers of a state, and under FUTURE2, as `future` says, their status.
///
/// `AllocError` if out of memory.
pub fn conout(
    alloc: Global,
    p: &Problem,
    labels: &Labels,
    state: &State,
    figures: &ArcFigures,
    future: bool,
) -> Result<Table, AllocError>
    requires labels { AreLabelsOf labels.now p.now }
    requires state { IsStateOf p.now state.now }
    ensures table { IfOk result (λ t. t ≡ conout_grid p.now labels.now state.now.standing figures.now future) }
{
    let fields = list_fields(alloc, labels, future)?;
    let last = p.columns();
    arc_table(alloc, p, labels, state, figures, fields.as_slice(), 0, last)
}

// The columns of ARCOUT and CONOUT.
fn list_fields(alloc: Global, labels: &Labels, future: bool) -> Result<Vec<ArcField>, AllocError>
    ensures fields { IfOk result (λ fields. fields.items ≡ arc_fields labels.now future) }
    ensures few { IfOk result (λ _. length labels.now.id_headers ≤ 2 ^ 30) }
{
    let mut fields = Vec::new(alloc);
    fields.extend_from_slice(&[
        ArcField::Tail,
        ArcField::Head,
        ArcField::Name,
        ArcField::Cost,
        ArcField::Capacity,
        ArcField::Lower,
    ])?;
    list_ids(labels, &mut fields)?;
    fields.extend_from_slice(&[ArcField::Flow, ArcField::FlowCost, ArcField::ReducedCost])?;
    if future {
        fields.extend_from_slice(&[ArcField::Status, ArcField::Number, ArcField::TailNumber])?;
    }
    Ok(fields)
}

// Adds the ID columns that are copied.
fn list_ids(labels: &Labels, fields: &mut Vec<ArcField>) -> Result<(), AllocError>
    ensures fields { OnOk result (fields.new.items ≡ fields.old.items ++ id_fields labels.now (length labels.now.id_headers)) }
    ensures few { IfOk result (λ _. length labels.now.id_headers ≤ 2 ^ 30) }
{
    if labels.ids() > MOST_IDS {
        return Err(AllocError);
    }
    for c in 0..labels.ids() {
        list_id(labels, fields, c)?;
    }
    Ok(())
}

// Adds ID column c if it is copied.
fn list_id(labels: &Labels, fields: &mut Vec<ArcField>, c: u32) -> Result<(), AllocError>
    requires header { c < length labels.now.id_headers }
    ensures { OnOk result (fields.new.items ≡ fields.old.items ++ one_id labels.now c) }
{
    if is_own(labels.id_header(c)) {
        return Ok(());
    }
    fields.push(ArcField::Id(c))?;
    Ok(())
}

// Whether a header is that of a column of the table's own.
fn is_own(header: &[u8]) -> bool
    ensures { result ≡ list_any (λ name. same_name name header.now) own_names }
{
    is_same("_FROM_", header)
        || is_same("_TO_", header)
        || is_same("_NAME_", header)
        || is_same("_COST_", header)
        || is_same("_CAPAC_", header)
        || is_same("_LO_", header)
        || is_same("_FLOW_", header)
        || is_same("_FCOST_", header)
        || is_same("_RCOST_", header)
        || is_same("_STATUS_", header)
        || is_same("_ANUMB_", header)
        || is_same("_TNUMB_", header)
}

// Whether two names of columns are the same.
fn is_same(name: &str, header: &[u8]) -> bool
    ensures { result ≡ same_name name.now header.now }
{
    name.as_bytes().eq_ignore_ascii_case(header)
}

/// NODEOUT: the nodes with their printed duals, and under FUTURE1, as `future` says, with their place in the tree.
///
/// `AllocError` if out of memory.
pub fn nodeout(
    alloc: Global,
    p: &Problem,
    labels: &Labels,
    state: &State,
    figures: &RowFigures,
    tree: &TreeFigures,
    future: bool,
) -> Result<Table, AllocError>
    requires labels { AreLabelsOf labels.now p.now }
    requires state { IsStateOf p.now state.now }
    ensures table { IfOk result (λ t. t ≡ nodeout_grid p.now labels.now state.now.standing figures.now tree.now future) }
{
    let last = p.nodes();
    let fields = node_columns(future);
    row_table(alloc, p, labels, state, figures, tree, fields, 0, last)
}

// The columns of NODEOUT.
fn node_columns(future: bool) -> &'static [RowField]
    ensures { result.now ≡ node_fields future }
{
    if future {
        return &[
            RowField::Node,
            RowField::Supply,
            RowField::Dual,
            RowField::Number,
            RowField::Predecessor,
            RowField::Next,
            RowField::Size,
            RowField::Arc,
        ];
    }
    &[RowField::Node, RowField::Supply, RowField::Dual]
}

/// DUALOUT: the nodes and constraints with their sums and printed duals, and under FUTURE2, as `future` says, with their
/// status and place in the tree.
///
/// `AllocError` if out of memory.
pub fn dualout(
    alloc: Global,
    p: &Problem,
    labels: &Labels,
    state: &State,
    figures: &RowFigures,
    tree: &TreeFigures,
    future: bool,
) -> Result<Table, AllocError>
    requires labels { AreLabelsOf labels.now p.now }
    requires state { IsStateOf p.now state.now }
    ensures table { IfOk result (λ t. t ≡ dualout_grid p.now labels.now state.now.standing figures.now tree.now future) }
{
    let last = p.rows();
    let fields = dual_columns(future);
    row_table(alloc, p, labels, state, figures, tree, fields, 0, last)
}

// The columns of DUALOUT.
fn dual_columns(future: bool) -> &'static [RowField]
    ensures { result.now ≡ dual_fields future }
{
    if future {
        return &[
            RowField::Node,
            RowField::Constraint,
            RowField::Kind,
            RowField::Right,
            RowField::Sum,
            RowField::Dual,
            RowField::Status,
            RowField::Number,
            RowField::Predecessor,
            RowField::Next,
            RowField::Size,
            RowField::Arc,
        ];
    }
    &[
        RowField::Node,
        RowField::Constraint,
        RowField::Kind,
        RowField::Right,
        RowField::Sum,
        RowField::Dual,
    ]
}
