//! The network of ARCDATA and NODEDATA: the promise of this crate.
ghost use Rattle.std.specs.Prelude.{◌≡◌, ◌⊎◌, Ok, Err, IfOk, IfSome, MatchResult, length};
ghost use Rattle.std.specs.Option.{is_some};
ghost use Rattle.nf_frac.specs.Amounts.{IsAmount};
ghost use Rattle.nf_labels.specs.Labels.{AreLabelsOf};
ghost use Rattle.nf_roles.specs.Faults.{out_of_memory};
ghost use Rattle.nf_roles.specs.Roles.{HasColumnsBelow};
ghost use Rattle.nf_network.specs.Network.{network_due, roles_or_none, table_or_none};

use crate::data_sets::read_network;
use crate::labelling::make_labels;
use crate::problem::make_problem;
use nf_labels::Labels;
use nf_prob::ProblemBuilder;
use nf_program::ProcOptions;
use nf_roles::{DataFault, Roles};
use nf_table::Table;
use std::alloc::Global;

/// The problem of ARCDATA and NODEDATA with its labels, or the first fault of the data.
///
/// The columns are one for each row of ARCDATA in order, and then the excess arcs by node number; the rows are one for
/// each node. Nodes are numbered in order of first appearance: ARCDATA row by row, the tail before the head, and then
/// NODEDATA; `_EXCESS_` comes last, where it is there. A missing cost, lower bound or capacity has the default of PROC. A
/// node's right side is what it is given, negative for a demand: by SUPPLY and DEMAND cells of ARCDATA, SUPDEM cells of
/// NODEDATA, and SOURCE= and SINK= with SUPPLY= and DEMAND=. MAXIMIZE negates the costs.
///
/// Let the total be that of the amounts that the nodes are given. Each node with an open supply gets an arc from
/// `_EXCESS_`, each with an open demand an arc to it. Where the total is more than 0 and no demand is open, each node with
/// more than 0 gets an arc to it, under THRUNET each with less than 0; where the total is less than 0 and no supply is
/// open, each node with less than 0 gets an arc from it, under THRUNET each with more than 0. The right side of
/// `_EXCESS_` is the negated total.
///
/// The roles are those that `assign` gives for their tables, and of the two for NODEDATA both are there or neither. The
/// fault is the first in the order of rows and checks: ARCDATA with TAILNODE, HEADNODE, NAME, COST, LO, CAPACITY, SUPPLY
/// and DEMAND in each row, then NODEDATA with NODE and SUPDEM, then SOURCE= and SINK=. `NoMemory` where there is no
/// memory.
pub fn network(
    alloc: Global,
    arc_roles: &Roles,
    arc_table: &Table,
    node_roles: Option<&Roles>,
    node_table: Option<&Table>,
    options: &ProcOptions,
) -> Result<(ProblemBuilder, Labels), DataFault>
    requires arc_columns { HasColumnsBelow arc_roles.now (length arc_table.now.header) }
    requires node_columns { HasColumnsBelow (roles_or_none node_roles) (length (table_or_none node_table).header) }
    requires both { is_some node_roles ≡ is_some node_table }
    requires demand { IfSome options.now.demand IsAmount }
    ensures answer { MatchResult result
        (λ n. network_due options.now arc_roles.now arc_table.now (roles_or_none node_roles.entry) (table_or_none node_table.entry) ≡ Ok (record { program = n.0; labels = n.1 }))
        (λ e. (e ≡ out_of_memory)
        ⊎ (network_due options.now arc_roles.now arc_table.now (roles_or_none node_roles.entry) (table_or_none node_table.entry) ≡ Err e)) }
    ensures fit { IfOk result (λ n. AreLabelsOf n.1 n.0) }
{
    let arcs = match read_network(alloc, arc_roles, arc_table, node_roles, node_table, options) {
        Ok(arcs) => arcs,
        Err(fault) => return Err(fault),
    };
    let Ok(builder) = make_problem(alloc, &arcs, options) else {
        return Err(DataFault::no_memory(alloc));
    };
    // They tell that cells are UTF-8, and that neither a name of the header nor an ID column stands twice.
    let (_width, _ids) = (arc_table.width(), arc_roles.ids());
    match make_labels(alloc, arcs, arc_roles, arc_table, options.thrunet) {
        Ok(labels) => Ok((builder, labels)),
        Err(_) => Err(DataFault::no_memory(alloc)),
    }
}
