//! The tables that PRINT prints.
ghost use Rattle.std.specs.Prelude.{◌≡◌, IfOk};
ghost use Rattle.nf_labels.specs.Labels.{AreLabelsOf};
ghost use Rattle.nf_basis.specs.Kept.{IsStateOf};
ghost use Rattle.nf_out.specs.Arcs.{ArcLists};
ghost use Rattle.nf_out.specs.Rows.{RowLists};
ghost use Rattle.nf_print.specs.declared.parts.Part.TheVariants as part;
ghost use Rattle.nf_print.specs.Parts.{all_parts, arc_columns, constraint_columns, node_columns, nonarc_columns, part_grid, part_word};

use nf_basis::State;
use nf_labels::Labels;
use nf_out::{ArcField, ArcFigures, RowField, RowFigures, TreeFigures, arc_table, row_table};
use nf_prob::Problem;
use nf_table::Table;
use std::alloc::{AllocError, Global};

/// A table that PRINT prints.
#[derive(Clone, Copy, Debug, PartialEq, Eq)]
pub enum Part {
    /// The arcs.
    Arcs,
    /// The nonarc variables.
    Nonarcs,
    /// The nodes.
    Nodes,
    /// The constraints.
    Constraints,
}

impl Part {
    /// All four, in the order of PRINT SOLUTION and PRINT PROBLEM.
    pub fn all() -> &'static [Part]
        ensures parts { result.now ≡ all_parts }
    {
        &[Part::Arcs, Part::Nonarcs, Part::Nodes, Part::Constraints]
    }

    // The word over its table.
    pub(crate) fn word(self) -> &'static str
        ensures { result.now ≡ part_word self }
    {
        match self {
            Part::Arcs => "ARCS\n",
            Part::Nonarcs => "NONARCS\n",
            Part::Nodes => "NODES\n",
            Part::Constraints => "CONSTRAINTS\n",
        }
    }
}

// The columns of the arcs, with what a state has of them or without.
fn arc_columns(full: bool) -> &'static [ArcField]
    ensures { result.now ≡ arc_columns full }
{
    if full {
        return &[
            ArcField::Tail,
            ArcField::Head,
            ArcField::Name,
            ArcField::Cost,
            ArcField::Capacity,
            ArcField::Lower,
            ArcField::Flow,
            ArcField::FlowCost,
            ArcField::ReducedCost,
        ];
    }
    &[
        ArcField::Tail,
        ArcField::Head,
        ArcField::Name,
        ArcField::Cost,
        ArcField::Capacity,
        ArcField::Lower,
    ]
}

// The columns of the nonarc variables.
fn nonarc_columns(full: bool) -> &'static [ArcField]
    ensures { result.now ≡ nonarc_columns full }
{
    if full {
        return &[
            ArcField::Name,
            ArcField::Cost,
            ArcField::Capacity,
            ArcField::Lower,
            ArcField::Flow,
            ArcField::FlowCost,
            ArcField::ReducedCost,
        ];
    }
    &[
        ArcField::Name,
        ArcField::Cost,
        ArcField::Capacity,
        ArcField::Lower,
    ]
}

// The columns of the nodes.
fn node_columns(full: bool) -> &'static [RowField]
    ensures { result.now ≡ node_columns full }
{
    if full {
        return &[RowField::Node, RowField::Supply, RowField::Dual];
    }
    &[RowField::Node, RowField::Supply]
}

// The columns of the constraints.
fn constraint_columns(full: bool) -> &'static [RowField]
    ensures { result.now ≡ constraint_columns full }
{
    if full {
        return &[
            RowField::Constraint,
            RowField::Kind,
            RowField::Right,
            RowField::Sum,
            RowField::Dual,
        ];
    }
    &[RowField::Constraint, RowField::Kind, RowField::Right]
}

// The table of the arcs.
fn arcs_table(
    alloc: Global,
    p: &Problem,
    labels: &Labels,
    state: &State,
    figures: &ArcFigures,
    full: bool,
) -> Result<Table, AllocError>
    requires labels { AreLabelsOf labels.now p.now }
    requires state { IsStateOf p.now state.now }
    ensures { (r : RowLists) → IfOk result (λ t. t ≡ part_grid p.now labels.now state.now.standing figures.now r full part.Arcs) }
{
    let last = p.arcs();
    let fields = arc_columns(full);
    arc_table(alloc, p, labels, state, figures, fields, 0, last)
}

// The table of the nonarc variables.
fn nonarcs_table(
    alloc: Global,
    p: &Problem,
    labels: &Labels,
    state: &State,
    figures: &ArcFigures,
    full: bool,
) -> Result<Table, AllocError>
    requires labels { AreLabelsOf labels.now p.now }
    requires state { IsStateOf p.now state.now }
    ensures { (r : RowLists) → IfOk result (λ t. t ≡ part_grid p.now labels.now state.now.standing figures.now r full part.Nonarcs) }
{
    let (first, last) = (p.arcs(), p.columns());
    let fields = nonarc_columns(full);
    arc_table(alloc, p, labels, state, figures, fields, first, last)
}

// The table of the nodes.
fn nodes_table(
    alloc: Global,
    p: &Problem,
    labels: &Labels,
    state: &State,
    figures: &RowFigures,
    full: bool,
) -> Result<Table, AllocError>
    requires labels { AreLabelsOf labels.now p.now }
    requires state { IsStateOf p.now state.now }
    ensures { (a : ArcLists) → IfOk result (λ t. t ≡ part_grid p.now labels.now state.now.standing a figures.now full part.Nodes) }
{
    let last = p.nodes();
    let fields = node_columns(full);
    let tree = TreeFigures::none();
    row_table(alloc, p, labels, state, figures, &tree, fields, 0, last)
}

// The table of the constraints.
fn constraints_table(
    alloc: Global,
    p: &Problem,
    labels: &Labels,
    state: &State,
    figures: &RowFigures,
    full: bool,
) -> Result<Table, AllocError>
    requires labels { AreLabelsOf labels.now p.now }
    requires state { IsStateOf p.now state.now }
    ensures { (a : ArcLists) → IfOk result (λ t. t ≡ part_grid p.now labels.now state.now.standing a figures.now full part.Constraints) }
{
    let (first, last) = (p.nodes(), p.rows());
    let fields = constraint_columns(full);
    let tree = TreeFigures::none();
    row_table(alloc, p, labels, state, figures, &tree, fields, first, last)
}

// The table of a part: with the columns that a state has, as `full` says, or only with those of the problem.
pub(crate) fn part_table(
    alloc: Global,
    p: &Problem,
    labels: &Labels,
    state: &State,
    arcs: &ArcFigures,
    rows: &RowFigures,
    full: bool,
    part: Part,
) -> Result<Table, AllocError>
    requires labels { AreLabelsOf labels.now p.now }
    requires state { IsStateOf p.now state.now }
    ensures { IfOk result (λ t. t ≡ part_grid p.now labels.now state.now.standing arcs.now rows.now full part) }
{
    match part {
        Part::Arcs => arcs_table(alloc, p, labels, state, arcs, full),
        Part::Nonarcs => nonarcs_table(alloc, p, labels, state, arcs, full),
        Part::Nodes => nodes_table(alloc, p, labels, state, rows, full),
        Part::Constraints => constraints_table(alloc, p, labels, state, rows, full),
    }
}
