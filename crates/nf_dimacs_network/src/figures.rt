//! What the tables of a DIMACS text give a network.
ghost use Rattle.nf_dimacs_network.specs.Figures.{GiveColumns, GiveNodes};

/// In a network of the tables of a text, the arcs of the `a` lines are columns with their costs and bounds between the
/// places of their nodes' names, and each node has its supply.
pub fn tables_give()
    ensures columns { GiveColumns }
    ensures nodes { GiveNodes }
{}
