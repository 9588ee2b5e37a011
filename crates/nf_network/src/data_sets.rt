//! Reads ARCDATA, NODEDATA and the options: the arcs and the nodes with their values, or the first fault.
ghost use Rattle.std.specs.Prelude.{◌≡◌, ◌⊎◌, None, Some, IfSome, MatchResult, length};
ghost use Rattle.std.specs.Option.{is_some};
ghost use Rattle.nf_frac.specs.Amounts.{IsAmount};
ghost use Rattle.nf_roles.specs.Faults.{out_of_memory};
ghost use Rattle.nf_roles.specs.First.{or_else};
ghost use Rattle.nf_roles.specs.Roles.{HasColumnsBelow};
ghost use Rattle.nf_network.specs.Faults.{first_arc_fault};
ghost use Rattle.nf_network.specs.Network.{first_fault, in_set, no_roles, no_table, roles_or_none, table_or_none};
ghost use Rattle.nf_network.specs.NodeData.{first_node_fault};
ghost use Rattle.nf_network.specs.NodePass.{IsRead};
ghost use Rattle.nf_network.specs.Pass.{IsAfter};
ghost use Rattle.nf_network.specs.Rows.{arc_rows, node_rows};
ghost use Rattle.nf_network.specs.Whole.{IsWhole, rows_fault};

use crate::node_data::take_node_row;
use crate::numbers::defaults_of;
use crate::options::give_options;
use crate::pass::{Arcs, read_arcs};
use crate::rows::Defaults;
use nf_cells::Names;
use nf_program::{ProcOptions, SetName};
use nf_roles::{DataFault, Roles};
use nf_table::Table;
use std::alloc::Global;

/// The arcs and nodes of both tables and of the options.
pub(crate) fn read_network(
    alloc: Global,
    arc_roles: &Roles,
    arc_table: &Table,
    node_roles: Option<&Roles>,
    node_table: Option<&Table>,
    options: &ProcOptions,
) -> Result<Arcs, DataFault>
    requires arc_columns { HasColumnsBelow arc_roles.now (length arc_table.now.header) }
    requires node_columns { HasColumnsBelow (roles_or_none node_roles) (length (table_or_none node_table).header) }
    requires both { is_some node_roles ≡ is_some node_table }
    requires demand { IfSome options.now.demand IsAmount }
    ensures { MatchResult result
        (λ a. (first_fault options.now arc_roles.now arc_table.now (roles_or_none node_roles.entry) (table_or_none node_table.entry) ≡ None)
        × IsWhole options.now (arc_rows arc_roles.now arc_table.now.rows) (node_rows (roles_or_none node_roles.entry) (table_or_none node_table.entry).rows) a.nodes a.keys a.figures.items)
        (λ e. (e ≡ out_of_memory)
        ⊎ (first_fault options.now arc_roles.now arc_table.now (roles_or_none node_roles.entry) (table_or_none node_table.entry) ≡ Some e)) }
{
    let defaults = defaults_of(options);
    let mut arcs = match read_rows(
        alloc, arc_roles, arc_table, node_roles, node_table, &defaults,
    ) {
        Ok(arcs) => arcs,
        Err(fault) => return Err(fault),
    };
    match give_options(alloc, &mut arcs.nodes, options) {
        Ok(()) => Ok(arcs),
        Err(fault) => Err(fault),
    }
}

// The arcs and nodes of ARCDATA, and of NODEDATA where it is there.
fn read_rows(
    alloc: Global,
    arc_roles: &Roles,
    arc_table: &Table,
    node_roles: Option<&Roles>,
    node_table: Option<&Table>,
    defaults: &Defaults,
) -> Result<Arcs, DataFault>
    requires arc_columns { HasColumnsBelow arc_roles.now (length arc_table.now.header) }
    requires node_columns { HasColumnsBelow (roles_or_none node_roles) (length (table_or_none node_table).header) }
    requires both { is_some node_roles ≡ is_some node_table }
    ensures { MatchResult result
        (λ a. (rows_fault defaults.now arc_roles.now arc_table.now (roles_or_none node_roles.entry) (table_or_none node_table.entry) ≡ None)
        × IsRead defaults.now (arc_rows arc_roles.now arc_table.now.rows) (node_rows (roles_or_none node_roles.entry) (table_or_none node_table.entry).rows) a.nodes a.keys a.figures.items)
        (λ e. (e ≡ out_of_memory)
        ⊎ (rows_fault defaults.now arc_roles.now arc_table.now (roles_or_none node_roles.entry) (table_or_none node_table.entry) ≡ Some e)) }
{
    match (node_roles, node_table) {
        (Some(node_roles), Some(node_table)) => {
            read_both(
                alloc, arc_roles, arc_table, node_roles, node_table, defaults,
            )
        }
        (None, None) => read_alone(alloc, arc_roles, arc_table, defaults),
        (Some(_), None) | (None, Some(_)) => read_alone(alloc, arc_roles, arc_table, defaults),
    }
}

// The arcs and nodes of ARCDATA alone.
fn read_alone(
    alloc: Global,
    arc_roles: &Roles,
    arc_table: &Table,
    defaults: &Defaults,
) -> Result<Arcs, DataFault>
    requires { HasColumnsBelow arc_roles.now (length arc_table.now.header) }
    ensures { MatchResult result
        (λ a. (rows_fault defaults.now arc_roles.now arc_table.now no_roles no_table ≡ None)
        × IsRead defaults.now (arc_rows arc_roles.now arc_table.now.rows) (node_rows no_roles no_table.rows) a.nodes a.keys a.figures.items)
        (λ e. (e ≡ out_of_memory) ⊎ (rows_fault defaults.now arc_roles.now arc_table.now no_roles no_table ≡ Some e)) }
{
    match read_arc_data(alloc, arc_roles, arc_table, defaults) {
        Ok(arcs) => Ok(arcs),
        Err(fault) => Err(fault),
    }
}

// The arcs of ARCDATA and the nodes of both tables.
fn read_both(
    alloc: Global,
    arc_roles: &Roles,
    arc_table: &Table,
    node_roles: &Roles,
    node_table: &Table,
    defaults: &Defaults,
) -> Result<Arcs, DataFault>
    requires arc_columns { HasColumnsBelow arc_roles.now (length arc_table.now.header) }
    requires node_columns { HasColumnsBelow node_roles.now (length node_table.now.header) }
    ensures { MatchResult result
        (λ a. (rows_fault defaults.now arc_roles.now arc_table.now node_roles.now node_table.now ≡ None)
        × IsRead defaults.now (arc_rows arc_roles.now arc_table.now.rows) (node_rows node_roles.now node_table.now.rows) a.nodes a.keys a.figures.items)
        (λ e. (e ≡ out_of_memory) ⊎ (rows_fault defaults.now arc_roles.now arc_table.now node_roles.now node_table.now ≡ Some e)) }
{
    let mut arcs = match read_arc_data(alloc, arc_roles, arc_table, defaults) {
        Ok(arcs) => arcs,
        Err(fault) => return Err(fault),
    };
    let mut seen = Names::new(alloc);
    for i in 0..node_table.rows() {
        match take_node_row(&mut arcs.nodes, &mut seen, node_roles, node_table, i + 1) {
            Ok(()) => {}
            Err(fault) => {
                return Err(DataFault::in_row(
                    alloc,
                    SetName::Nodedata,
                    i + 1,
                    node_roles,
                    node_table,
                    fault,
                ));
            }
        }
    }
    Ok(arcs)
}

// The arcs of ARCDATA.
fn read_arc_data(
    alloc: Global,
    roles: &Roles,
    table: &Table,
    defaults: &Defaults,
) -> Result<Arcs, DataFault>
    requires { HasColumnsBelow roles.now (length table.now.header) }
    ensures { MatchResult result
        (λ a. (first_arc_fault defaults.now (arc_rows roles.now table.now.rows) ≡ None)
        × IsAfter defaults.now (arc_rows roles.now table.now.rows) a.nodes a.keys a.figures.items)
        (λ e. (e ≡ out_of_memory)
        ⊎ (in_set SetName.Arcdata roles.now table.now.header (first_arc_fault defaults.now (arc_rows roles.now table.now.rows)) ≡ Some e)) }
{
    match read_arcs(alloc, roles, table, defaults) {
        Ok(arcs) => Ok(arcs),
        Err(e) => Err(DataFault::in_row(alloc, SetName::Arcdata, e.row, roles, table, e.fault)),
    }
}
