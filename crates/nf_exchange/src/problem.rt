//! The problem of a program and the tables of its data sets.
ghost use Rattle.std.specs.Prelude.{◌≡◌, ◌⊎◌, [], Some, Ok, Err, IfOk, IfErr, IfSome, MatchResult, length};
ghost use Rattle.std.specs.Option.{is_some, option_copied};
ghost use Rattle.nf_frac.specs.Amounts.{IsAmount};
ghost use Rattle.nf_labels.specs.Labels.{LabelList};
ghost use Rattle.nf_network.specs.Network.{network_due, roles_or_none, table_or_none};
ghost use Rattle.nf_roles.specs.Assigned.{header_of, roles_due};
ghost use Rattle.nf_roles.specs.Roles.{HasColumnsBelow};
ghost use Rattle.nf_cons.specs.Due.{IsNetworkOf};
ghost use Rattle.nf_top.specs.ProblemOf.{in_data, in_roles, in_size, layout, problem_in, with_cons, with_constraints, with_nodes};
ghost use Rattle.nf_top.specs.Steps.{IsPosed, too_large};
ghost use Rattle.nf_exchange.specs.Steps.{IsStopOf, stop_of_data, stop_of_roles};

use crate::refusal::{Refusal, Stop};
use crate::sets::Tables;
use nf_cons::dense;
use nf_cons_sparse::sparse;
use nf_io::Text;
use nf_labels::Labels;
use nf_network::network;
use nf_prob::{Problem, ProblemBuilder};
use nf_program::{ProcOptions, Program, SetName};
use nf_roles::{DataFault, DataKind, RoleFault, Roles, SetKind, assign};
use nf_table::Table;
use std::alloc::Global;

/// The most rows of a problem with CONDATA.
const MOST_ROWS: u32 = 1000;

/// The problem of a program and the tables of ARCDATA and, if they are there, of NODEDATA and CONDATA.
///
/// It stops with `NoRoles` at the first fault of the columns of ARCDATA, then of NODEDATA, then of CONDATA; then with
/// `NoNetwork` at the first fault of the data in this order, or if a problem with CONDATA has too many rows.
pub(crate) fn pose(alloc: Global, program: &Program, tables: &Tables) -> Result<Problem, Stop>
    requires demand { IfSome program.now.proc.demand IsAmount }
    ensures ok { IfOk result (IsPosed (problem_in program.now tables.now.arcdata tables.now.nodedata tables.now.condata)) }
    ensures stops { IfErr result (IsStopOf (problem_in program.now tables.now.arcdata tables.now.nodedata tables.now.condata)) }
{
    let (arcs, cons) = (&tables.arcdata, tables.condata.as_ref());
    let roles = roles_in(alloc, program, SetName::Arcdata, SetKind::Arcs, arcs, cons)?;
    match &tables.nodedata {
        Some(nodes) => pose_both(alloc, program, &roles, arcs, nodes, cons),
        None => pose_network(alloc, program, &roles, arcs, None, None, cons),
    }
}

// The problem with NODEDATA, where the roles of ARCDATA are these.
fn pose_both(
    alloc: Global,
    program: &Program,
    roles: &Roles,
    arcs: &Table,
    nodes: &Table,
    cons: Option<&Table>,
) -> Result<Problem, Stop>
    requires demand { IfSome program.now.proc.demand IsAmount }
    requires columns { HasColumnsBelow roles.now (length arcs.now.header) }
    ensures ok { IfOk result (IsPosed (with_nodes program.now roles.now arcs.now (Some nodes.now) (option_copied cons.entry))) }
    ensures stops { IfErr result (IsStopOf (with_nodes program.now roles.now arcs.now (Some nodes.now) (option_copied cons.entry))) }
{
    let node_roles = roles_in(
        alloc,
        program,
        SetName::Nodedata,
        SetKind::Nodes,
        nodes,
        None,
    )?;
    let (node_roles, nodes) = (Some(&node_roles), Some(nodes));
    pose_network(alloc, program, roles, arcs, node_roles, nodes, cons)
}

// The problem of tables, where the roles of ARCDATA and NODEDATA are these.
fn pose_network(
    alloc: Global,
    program: &Program,
    roles: &Roles,
    arcs: &Table,
    node_roles: Option<&Roles>,
    nodes: Option<&Table>,
    cons: Option<&Table>,
) -> Result<Problem, Stop>
    requires demand { IfSome program.now.proc.demand IsAmount }
    requires columns { HasColumnsBelow roles.now (length arcs.now.header) }
    requires node_columns { HasColumnsBelow (roles_or_none node_roles) (length (table_or_none nodes).header) }
    requires both { is_some node_roles ≡ is_some nodes }
    ensures ok { IfOk result (IsPosed (with_cons program.now roles.now arcs.now (roles_or_none node_roles.entry) (table_or_none nodes.entry) (option_copied cons.entry))) }
    ensures stops { IfErr result (IsStopOf (with_cons program.now roles.now arcs.now (roles_or_none node_roles.entry) (table_or_none nodes.entry) (option_copied cons.entry))) }
{
    match cons {
        Some(cons) => pose_all(alloc, program, roles, arcs, node_roles, nodes, cons),
        None => {
            let (builder, _) = build(alloc, &program.proc, roles, arcs, node_roles, nodes)?;
            finished(builder)
        }
    }
}

// The problem with CONDATA, where the roles of ARCDATA and NODEDATA are these.
fn pose_all(
    alloc: Global,
    program: &Program,
    roles: &Roles,
    arcs: &Table,
    node_roles: Option<&Roles>,
    nodes: Option<&Table>,
    cons: &Table,
) -> Result<Problem, Stop>
    requires demand { IfSome program.now.proc.demand IsAmount }
    requires columns { HasColumnsBelow roles.now (length arcs.now.header) }
    requires node_columns { HasColumnsBelow (roles_or_none node_roles) (length (table_or_none nodes).header) }
    requires both { is_some node_roles ≡ is_some nodes }
    ensures ok { IfOk result (IsPosed (with_cons program.now roles.now arcs.now (roles_or_none node_roles.entry) (table_or_none nodes.entry) (Some cons.now))) }
    ensures stops { IfErr result (IsStopOf (with_cons program.now roles.now arcs.now (roles_or_none node_roles.entry) (table_or_none nodes.entry) (Some cons.now))) }
{
    let options = &program.proc;
    let cons_roles = roles_in(
        alloc,
        program,
        SetName::Condata,
        layout(options),
        cons,
        None,
    )?;
    let (builder, labels) = build(alloc, options, roles, arcs, node_roles, nodes)?;
    let whole = constrain(alloc, options, builder, labels, &cons_roles, cons)?;
    sized(alloc, whole)
}

// How CONDATA is laid out.
fn layout(options: &ProcOptions) -> SetKind
    ensures { result ≡ layout options.now }
{
    if options.sparsecondata {
        SetKind::Sparse
    } else {
        SetKind::Dense
    }
}

// The roles of the columns of a table. ARCDATA may have its ID columns in the table of CONDATA.
fn roles_in(
    alloc: Global,
    program: &Program,
    set: SetName,
    kind: SetKind,
    table: &Table,
    cons: Option<&Table>,
) -> Result<Roles, Stop>
    ensures ok { IfOk result (λ r. in_roles set (roles_due kind table.now.header (header_of cons.entry) program.now.roles) ≡ Ok r) }
    ensures columns { IfOk result (λ r. HasColumnsBelow r (length table.now.header)) }
    ensures stops { IfErr result (IsStopOf (in_roles set (roles_due kind table.now.header (header_of cons.entry) program.now.roles))) }
{
    match assign(alloc, program, table, kind, cons) {
        Ok(roles) => Ok(roles),
        Err(fault) => Err(stop_of_roles(set, fault)),
    }
}

// A fault of roles, as it ends the command.
fn stop_of_roles(set: SetName, fault: RoleFault) -> Stop
    ensures { result ≡ stop_of_roles set fault }
{
    match fault {
        RoleFault::NoMemory => Stop::NoMemory,
        _ => Stop::Refused(Refusal::NoRoles(set, fault)),
    }
}

// The network of tables whose columns have these roles, with its labels.
fn build(
    alloc: Global,
    options: &ProcOptions,
    roles: &Roles,
    arcs: &Table,
    node_roles: Option<&Roles>,
    nodes: Option<&Table>,
) -> Result<(ProblemBuilder, Labels), Stop>
    requires demand { IfSome options.now.demand IsAmount }
    requires columns { HasColumnsBelow roles.now (length arcs.now.header) }
    requires node_columns { HasColumnsBelow (roles_or_none node_roles) (length (table_or_none nodes).header) }
    requires both { is_some node_roles ≡ is_some nodes }
    ensures ok { IfOk result (λ n. network_due options.now roles.now arcs.now (roles_or_none node_roles.entry) (table_or_none nodes.entry) ≡ Ok (record { program = n.0; labels = n.1 })) }
    ensures stops { IfErr result (IsStopOf (in_data (network_due options.now roles.now arcs.now (roles_or_none node_roles.entry) (table_or_none nodes.entry)))) }
{
    match network(alloc, roles, arcs, node_roles, nodes, options) {
        Ok(network) => Ok(network),
        Err(fault) => Err(stop_of_data(fault)),
    }
}

// The network with the constraints of CONDATA, whose columns have these roles. Its labels are dropped.
fn constrain(
    alloc: Global,
    options: &ProcOptions,
    builder: ProblemBuilder,
    labels: Labels,
    roles: &Roles,
    cons: &Table,
) -> Result<ProblemBuilder, Stop>
    requires network { IsNetworkOf options.now (record { program = builder; labels = labels }) }
    requires columns { HasColumnsBelow roles.now (length cons.now.header) }
    ensures ok { IfOk result (IsPosed (in_data (with_constraints options.now (record { program = builder; labels = labels }) roles.now cons.now))) }
    ensures stops { IfErr result (IsStopOf (in_data (with_constraints options.now (record { program = builder; labels = labels }) roles.now cons.now))) }
{
    let (mut builder, mut labels) = (builder, labels);
    match add_constraints(alloc, options, &mut builder, &mut labels, roles, cons) {
        Ok(()) => Ok(builder),
        Err(fault) => Err(stop_of_data(fault)),
    }
}

// Adds the constraints of CONDATA as it is laid out.
fn add_constraints(
    alloc: Global,
    options: &ProcOptions,
    builder: &mut ProblemBuilder,
    labels: &mut Labels,
    roles: &Roles,
    cons: &Table,
) -> Result<(), DataFault>
    requires network { IsNetworkOf options.now (record { program = builder.old; labels = labels.old }) }
    requires columns { HasColumnsBelow roles.now (length cons.now.header) }
    ensures answer { MatchResult result
        (λ _. with_constraints options.now (record { program = builder.old; labels = labels.old }) roles.now cons.now
        ≡ Ok (record { program = builder.new; labels = labels.new }))
        (λ e. (e.kind ≡ DataKind.NoMemory)
        ⊎ (with_constraints options.now (record { program = builder.old; labels = labels.old }) roles.now cons.now ≡ Err e)) }
{
    if options.sparsecondata {
        sparse(alloc, builder, labels, roles, cons, options)
    } else {
        dense(alloc, builder, labels, roles, cons, options)
    }
}

// A fault of the data, as it ends the command.
fn stop_of_data(fault: DataFault) -> Stop
    ensures { result ≡ stop_of_data fault }
{
    match fault.kind {
        DataKind::NoMemory => Stop::NoMemory,
        _ => Stop::Refused(Refusal::NoNetwork(fault)),
    }
}

// The finished problem, of as many rows as there are.
fn finished(builder: ProblemBuilder) -> Result<Problem, Stop>
    ensures ok { IfOk result (λ p. p ≡ builder) }
    ensures stops { IfErr result (λ stop. stop ≡ Stop.NoMemory) }
{
    match builder.finish() {
        Ok(problem) => Ok(problem),
        Err(_) => Err(Stop::NoMemory),
    }
}

// The finished problem, where it has not too many rows.
fn sized(alloc: Global, builder: ProblemBuilder) -> Result<Problem, Stop>
    ensures ok { IfOk result (λ p. (p ≡ builder) × ((labels : LabelList) → in_size (record { program = builder; labels = labels }) ≡ Ok (record { program = builder; labels = labels }))) }
    ensures stops { IfErr result (λ stop. (labels : LabelList) → IsStopOf (in_size (record { program = builder; labels = labels })) stop) }
{
    let Ok(problem) = builder.finish() else {
        return Err(Stop::NoMemory);
    };
    if MOST_ROWS < problem.rows() {
        return Err(too_many_rows(alloc));
    }
    Ok(problem)
}

// A problem has too many rows.
fn too_many_rows(alloc: Global) -> Stop
    ensures { IsStopOf too_large result }
{
    let Ok(column) = Text::from_slice(alloc, b"ROWS") else {
        return Stop::NoMemory;
    };
    Stop::Refused(Refusal::NoNetwork(DataFault {
        set: SetName::Proc,
        row: 0,
        column,
        kind: DataKind::LimitPassed,
    }))
}
