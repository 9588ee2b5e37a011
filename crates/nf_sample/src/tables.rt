//! The tables of a sample.
ghost use Rattle.std.specs.Prelude.{◌≡◌, ◌≤◌, IfOk};
ghost use Rattle.nf_sample.specs.Sample.{IsSample, IsSize};

use crate::arcs::arcs_table;
use crate::constraints::constraints_table;
use crate::draws::Draws;
use crate::nodes::nodes_table;
use nf_table::Table;
use std::alloc::{AllocError, Global};

/// The tables of a network with constraints, as ARCDATA, NODEDATA and sparse CONDATA have them.
#[derive(Drop)]
pub struct SampleTables {
    pub arcs: Table,
    pub nodes: Table,
    /// None exactly if there are no constraints.
    pub cons: Option<Table>,
}

/// The tables that a seed and three sizes give: the same for the same numbers.
///
/// A ring of dear arcs over all nodes lets every supply reach every demand, and each constraint has a dear nonarc variable
/// that meets it, so the problem is feasible. `AllocError` if out of memory.
pub fn sample_tables(
    alloc: Global,
    seed: u32,
    nodes: u32,
    arcs: u32,
    cons: u32,
) -> Result<SampleTables, AllocError>
    requires sizes { IsSize nodes arcs cons }
    ensures { IfOk result (IsSample seed nodes arcs cons) }
{
    let mut draws = Draws::new(seed);
    let nodes_drawn = nodes_table(alloc, &mut draws, nodes)?;
    let arcs_drawn = arcs_table(alloc, &mut draws, nodes, arcs)?;
    let cons_drawn = if cons == 0 {
        None
    } else {
        Some(constraints_table(alloc, &mut draws, arcs, cons)?)
    };
    Ok(SampleTables {
        arcs: arcs_drawn,
        nodes: nodes_drawn,
        cons: cons_drawn,
    })
}
