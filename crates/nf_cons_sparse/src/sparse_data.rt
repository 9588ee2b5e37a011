//! Sparse CONDATA: a line for each coefficient.
ghost use Rattle.std.specs.Prelude.{◌≡◌, ◌⊎◌, ◌≤◌, ◌<◌, ◌^◌, None, Ok, Err, IfOk, MatchResult, length};
ghost use Rattle.nf_labels.specs.Labels.{AreLabelsOf, AreNumbered};
ghost use Rattle.nf_roles.specs.Faults.{out_of_memory};
ghost use Rattle.nf_roles.specs.Roles.{HasColumnsBelow};
ghost use Rattle.nf_cons.specs.Due.{IsNetworkOf};
ghost use Rattle.nf_cons.specs.Making.{AreConstraints};
ghost use Rattle.nf_cons.specs.Places.{IsRowFaultOf};
ghost use Rattle.nf_cons.specs.Variables.{arcs_of};
ghost use Rattle.nf_cons_sparse.specs.LineState.{IsAfterLines};
ghost use Rattle.nf_cons_sparse.specs.Sparse.{first_line_fault};
ghost use Rattle.nf_cons_sparse.specs.TypedState.{AreRanked, first_typed_to, typed_to};
ghost use Rattle.nf_cons_sparse.specs.SparseDue.{sparse_constraints, sparse_due, sparse_fault, sparse_of};

use crate::first_round::Lines;
use crate::second_round::TypedLines;
use nf_cons::{
    Constraints, RowFault, Terms, Variables, add_constraints, arc_names, check_bounds,
    default_type, in_row, no_memory, nonarc_defaults, told,
};
use nf_labels::Labels;
use nf_prob::ProblemBuilder;
use nf_program::ProcOptions;
use nf_roles::{DataFault, Roles};
use nf_table::Table;
use std::alloc::Global;

/// Adds the constraints of sparse CONDATA to the network of ARCDATA and NODEDATA, or reports the first fault of CONDATA.
///
/// Lines with the same ROW are one constraint, numbered by its first line; COLUMN names a variable and COEF its coefficient,
/// or the right side if COLUMN is `_RHS_`. A name of COLUMN that is no arc's is a nonarc variable. A missing COEF gives
/// nothing, and a line without COLUMN no coefficient. A constraint of type COST, LOWERBD or UPPERBD is no row of the problem:
/// its coefficients are the costs or bounds of nonarc variables, where INF is no upper bound and `-INF` no lower bound. What
/// is not given has its default: DEFCOST, DEFMINFLOW, DEFCAPACITY, DEFCONTYPE, and 0 for right sides. MAXIMIZE negates the
/// costs.
///
/// Builder and labels are those that one call of `network` with these options made, and the roles are those that `assign`
/// gives for this table as `Sparse`. The fault is the first of the lines from 1 on, then of the lines with all types known,
/// then of the bounds of nonarc variables; `NoMemory` if out of memory. After a fault builder and labels are not used again.
pub fn sparse(
    alloc: Global,
    builder: &mut ProblemBuilder,
    labels: &mut Labels,
    roles: &Roles,
    table: &Table,
    options: &ProcOptions,
) -> Result<(), DataFault>
    requires network { IsNetworkOf options.now (record { program = builder.old; labels = labels.old }) }
    requires columns { HasColumnsBelow roles.now (length table.now.header) }
    ensures answer { MatchResult result
        (λ _. sparse_due options.now (record { program = builder.old; labels = labels.old }) roles.now table.now
        ≡ Ok (record { program = builder.new; labels = labels.new }))
        (λ e. (e ≡ out_of_memory)
        ⊎ (sparse_due options.now (record { program = builder.old; labels = labels.old }) roles.now table.now ≡ Err e)) }
    ensures fit { IfOk result (λ _. AreNumbered labels.new builder.new) }
    ensures labelled { IfOk result (λ _. AreLabelsOf labels.old builder.old → AreLabelsOf labels.new builder.new) }
{
    let constraints = match read_sparse(alloc, labels, roles, table, options) {
        Ok(constraints) => constraints,
        Err(fault) => return Err(told(alloc, roles, table, fault)),
    };
    match add_constraints(builder, labels, &constraints, options) {
        Ok(()) => Ok(()),
        Err(_) => Err(DataFault::no_memory(alloc)),
    }
}

// The constraints of a table, or its first fault.
fn read_sparse(
    alloc: Global,
    labels: &Labels,
    roles: &Roles,
    table: &Table,
    options: &ProcOptions,
) -> Result<Constraints, RowFault>
    requires arcs { labels.now.own_arcs ≤ length labels.now.columns }
    requires columns { HasColumnsBelow roles.now (length table.now.header) }
    ensures { MatchResult result
        (λ c. (sparse_fault options.now (arcs_of labels.now) roles.now table.now ≡ None)
        × AreConstraints (arcs_of labels.now) (sparse_constraints options.now (arcs_of labels.now) roles.now table.now) c.variables c.names c.sides.items c.terms)
        (IsRowFaultOf (sparse_fault options.now (arcs_of labels.now) roles.now table.now)) }
{
    let lines = match read_lines(alloc, labels, roles, table, options) {
        Ok(lines) => lines,
        Err(fault) => return Err(fault),
    };
    let constraints = match type_lines(alloc, lines) {
        Ok(constraints) => constraints,
        Err(fault) => return Err(fault),
    };
    match check_bounds(&constraints, nonarc_defaults(options)) {
        Ok(()) => Ok(constraints),
        Err(fault) => Err(fault),
    }
}

// The lines, or the first fault of the first pass.
fn read_lines(
    alloc: Global,
    labels: &Labels,
    roles: &Roles,
    table: &Table,
    options: &ProcOptions,
) -> Result<Lines, RowFault>
    requires arcs { labels.now.own_arcs ≤ length labels.now.columns }
    requires columns { HasColumnsBelow roles.now (length table.now.header) }
    ensures { MatchResult result
        (λ l. (first_line_fault (sparse_of options.now (arcs_of labels.now) roles.now table.now) ≡ None)
        × IsAfterLines (sparse_of options.now (arcs_of labels.now) roles.now table.now) (length table.now.rows) l × (length table.now.rows < 2 ^ 32))
        (IsRowFaultOf (first_line_fault (sparse_of options.now (arcs_of labels.now) roles.now table.now))) }
{
    let Ok(arcs) = arc_names(alloc, labels) else {
        return Err(no_memory());
    };
    let default = default_type(options.defcontype);
    let mut lines = Lines::new(alloc, default, Variables::new(alloc, arcs));
    for i in 0..table.rows() {
        match lines.take_line(roles, table, i + 1) {
            Ok(()) => {}
            Err(fault) => return Err(in_row(i + 1, fault)),
        }
    }
    Ok(lines)
}

// The constraints of the lines, or the first fault of the second pass.
fn type_lines(alloc: Global, lines: Lines) -> Result<Constraints, RowFault>
    requires ranked { AreRanked lines }
    ensures { MatchResult result
        (λ c. (first_typed_to lines ≡ None) × (c.variables ≡ lines.variables) × (c.names ≡ lines.names)
        × (c.sides.items ≡ (typed_to lines (length lines.taken)).sides) × (c.terms ≡ (typed_to lines (length lines.taken)).lists))
        (IsRowFaultOf (first_typed_to lines)) }
{
    let mut typed = TypedLines {
        default: lines.default,
        constraints: Constraints {
            variables: lines.variables,
            names: lines.names,
            sides: Vec::new(alloc),
            terms: Terms::new(alloc),
        },
        numbers: Vec::new(alloc),
    };
    for i in 0..lines.taken.len() {
        let line = lines.taken[i];
        match typed.take(line, lines.given[line.row], i as u32 + 1) {
            Ok(()) => {}
            Err(fault) => return Err(in_row(i as u32 + 1, fault)),
        }
    }
    Ok(typed.constraints)
}
