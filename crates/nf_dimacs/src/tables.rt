//! The tables of a text.
ghost use Rattle.std.specs.Prelude.{◌≡◌, ◌⊎◌, Some, IfOk, IfErr};
ghost use Rattle.nf_dimacs.specs.Kinds.{no_memory};
ghost use Rattle.nf_dimacs.specs.Text.{AreTables, fault_of};

use crate::arcs::arcs_table;
use crate::fault::{DimacsFault, DimacsKind};
use crate::nodes::nodes_table;
use crate::reading::read_lines;
use nf_io::MOST_BYTES;
use nf_table::Table;
use std::alloc::Global;

/// The tables of the problem of a text, as ARCDATA and NODEDATA have them.
#[derive(Drop)]
pub struct DimacsTables {
    /// `_FROM_,_TO_,_NAME_,_COST_,_CAPAC_,_LO_`: a row for each arc in the order of the text. Arc k is named `xk`.
    pub arcs: Table,
    /// `_NODE_,_SUPDEM_`: a row for each node by number.
    pub nodes: Table,
}

/// The tables of the minimum cost flow problem of a DIMACS text, or the first fault of the text.
///
/// A line ends with a line feed, perhaps after a carriage return, or with the text; its fields are apart by spaces and
/// tabs. Lines without a field and lines that begin with `c` say nothing. `p min NODES ARCS` comes once and first, with at
/// most 20,000 nodes and 200,000 arcs; then `n ID FLOW`, once at most for a node, and `a SRC DST LOW CAP COST` in any order.
/// Numbers are one to nine digits, perhaps after a `-`.
///
/// The first line with a fault is reported, and of its faults the first in the order of `DimacsKind`; faults of the whole
/// text come at the line after the last. `NoMemory` may come at any time.
///
/// The time is in proportion to the bytes. Beside the tables 20 bytes are held for an arc and 8 for a node.
pub fn read_dimacs(alloc: Global, text: &[u8]) -> Result<DimacsTables, DimacsFault>
    ensures tables { IfOk result (AreTables text.now) }
    ensures fault { IfErr result (λ f. (f ≡ no_memory) ⊎ (fault_of text.now ≡ Some f)) }
{
    if text.len() > MOST_BYTES {
        return Err(DimacsFault {
            line: 0,
            kind: DimacsKind::TooLong,
        });
    }
    let reading = read_lines(alloc, text)?;
    let arcs = arcs_table(alloc, &reading.arcs)?;
    let nodes = nodes_table(alloc, &reading.supplies)?;
    Ok(DimacsTables { arcs, nodes })
}
