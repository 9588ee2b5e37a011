//! Dense CONDATA: a row for each constraint, a column for each variable.
ghost use Rattle.std.specs.Prelude.{◌≡◌, ◌⊎◌, ◌≤◌, None, Ok, Err, IfOk, MatchResult, length, map};
ghost use Rattle.nf_labels.specs.Labels.{AreLabelsOf, AreNumbered};
ghost use Rattle.nf_roles.specs.Faults.{out_of_memory};
ghost use Rattle.nf_roles.specs.Roles.{HasColumnsBelow};
ghost use Rattle.nf_cons.specs.Dense.{Dense, dense_row, first_row_fault, givens, names, sides};
ghost use Rattle.nf_cons.specs.Due.{IsNetworkOf, dense_constraints, dense_due, dense_fault};
ghost use Rattle.nf_cons.specs.Making.{AreConstraints};
ghost use Rattle.nf_cons.specs.Places.{IsRowFaultOf};
ghost use Rattle.nf_cons.specs.Terms.{lists_of};
ghost use Rattle.nf_cons.specs.Types.{default_type};
ghost use Rattle.nf_cons.specs.Variables.{arcs_of};

use crate::bounds::{check_bounds, nonarc_defaults};
use crate::constraints::Constraints;
use crate::dense_rows::DenseRows;
use crate::fault::{in_row, told};
use crate::header::{Header, read_header};
use crate::making::add_constraints;
use crate::places::RowFault;
use crate::row_type::default_type;
use crate::terms::Terms;
use nf_cells::Names;
use nf_labels::Labels;
use nf_prob::ProblemBuilder;
use nf_program::ProcOptions;
use nf_roles::{DataFault, Roles};
use nf_table::Table;
use std::alloc::Global;

/// Adds the constraints of dense CONDATA to the network of ARCDATA and NODEDATA, or reports the first fault of CONDATA.
///
/// There is a row for each constraint, in the order of the table, and a column for each nonarc variable, from the left,
/// after all arcs. The variables are the columns of VAR, or those without a role; one with the name of an arc is this arc.
/// A missing cell is no coefficient. A row of type COST, LOWERBD or UPPERBD is no row of the problem: its cells are the
/// costs or bounds of nonarc variables, where INF is no upper bound and `-INF` no lower bound. What is not given has its
/// default: DEFCOST, DEFMINFLOW, DEFCAPACITY, DEFCONTYPE, and 0 for right sides. MAXIMIZE negates the costs. A row without
/// a name is `_OBSn_`, where n is its number.
///
/// Builder and labels are those that one call of `network` with these options made, and the roles are those that `assign`
/// gives for this table as `Dense`. The fault is the first of the header, whose row is 0, then of the rows from 1 on, then
/// of the bounds of nonarc variables; `NoMemory` if out of memory. After a fault builder and labels are not used again.
pub fn dense(
    alloc: Global,
    builder: &mut ProblemBuilder,
    labels: &mut Labels,
    roles: &Roles,
    table: &Table,
    options: &ProcOptions,
) -> Result<(), DataFault>
    requires network { IsNetworkOf options.now (record { program = builder.old; labels = labels.old }) }
    requires columns { HasColumnsBelow roles.now (length table.now.header) }
    ensures answer { MatchResult result
        (λ _. dense_due options.now (record { program = builder.old; labels = labels.old }) roles.now table.now
        ≡ Ok (record { program = builder.new; labels = labels.new }))
        (λ e. (e ≡ out_of_memory)
        ⊎ (dense_due options.now (record { program = builder.old; labels = labels.old }) roles.now table.now ≡ Err e)) }
    ensures fit { IfOk result (λ _. AreNumbered labels.new builder.new) }
    ensures labelled { IfOk result (λ _. AreLabelsOf labels.old builder.old → AreLabelsOf labels.new builder.new) }
{
    let constraints = match read_dense(alloc, labels, roles, table, options) {
        Ok(constraints) => constraints,
        Err(fault) => return Err(told(alloc, roles, table, fault)),
    };
    match add_constraints(builder, labels, &constraints, options) {
        Ok(()) => Ok(()),
        Err(_) => Err(DataFault::no_memory(alloc)),
    }
}

// The constraints of a table, or its first fault.
fn read_dense(
    alloc: Global,
    labels: &Labels,
    roles: &Roles,
    table: &Table,
    options: &ProcOptions,
) -> Result<Constraints, RowFault>
    requires arcs { labels.now.own_arcs ≤ length labels.now.columns }
    requires columns { HasColumnsBelow roles.now (length table.now.header) }
    ensures { MatchResult result
        (λ c. (dense_fault options.now (arcs_of labels.now) roles.now table.now ≡ None)
        × AreConstraints (arcs_of labels.now) (dense_constraints options.now (arcs_of labels.now) roles.now table.now) c.variables c.names c.sides.items c.terms)
        (IsRowFaultOf (dense_fault options.now (arcs_of labels.now) roles.now table.now)) }
{
    let header = match read_header(alloc, labels, roles, table) {
        Ok(header) => header,
        Err(fault) => return Err(fault),
    };
    let constraints = match read_rows(alloc, header, roles, table, options) {
        Ok(constraints) => constraints,
        Err(fault) => return Err(fault),
    };
    match check_bounds(&constraints, nonarc_defaults(options)) {
        Ok(()) => Ok(constraints),
        Err(fault) => Err(fault),
    }
}

// The constraints of the rows, or the first fault of them.
fn read_rows(
    alloc: Global,
    header: Header,
    roles: &Roles,
    table: &Table,
    options: &ProcOptions,
) -> Result<Constraints, RowFault>
    requires columns { HasColumnsBelow roles.now (length table.now.header) }
    requires each { length header.numbers.items ≡ length roles.now.variables }
    ensures { let d : Dense = record {
      columns = roles.now.variables;
      variables = header.numbers.items;
      arcs = header.variables.arcs.count;
      default = default_type options.now.defcontype;
      rows = map (dense_row roles.now) table.now.rows;
    } in
        MatchResult result
        (λ c. (first_row_fault d ≡ None) × (c.variables ≡ header.variables) × (c.names ≡ names d (length d.rows))
        × (c.sides.items ≡ sides d (length d.rows)) × (c.terms ≡ lists_of (givens d (length d.rows))))
        (IsRowFaultOf (first_row_fault d)) }
{
    let mut rows = DenseRows {
        numbers: header.numbers,
        default: default_type(options.defcontype),
        constraints: Constraints {
            variables: header.variables,
            names: Names::new(alloc),
            sides: Vec::new(alloc),
            terms: Terms::new(alloc),
        },
        count: 0,
    };
    for i in 0..table.rows() {
        match rows.take_row(alloc, roles, table, i) {
            Ok(()) => {}
            Err(fault) => return Err(in_row(i + 1, fault)),
        }
    }
    Ok(rows.constraints)
}
