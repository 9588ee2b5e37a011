//! What the tables of a DIMACS text say.
ghost use Rattle.nf_dimacs_network.specs.Rows.{ArcsSay, NodesSay, RolesAreReserved};

/// The tables of a text, read by the reserved names of their columns, say what the lines of the text say: an arc for each
/// `a` line with its ends, bounds and cost, and the supply of each node.
pub fn tables_say()
    ensures roles { RolesAreReserved }
    ensures arcs { ArcsSay }
    ensures nodes { NodesSay }
{}
