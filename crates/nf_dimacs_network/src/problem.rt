//! The problem of a DIMACS text.
ghost use Rattle.nf_dimacs_network.specs.Problem.{TablesAreTheProblem};

/// The tables of a text are the data of a network: with options that minimise and say nothing of nodes they have no fault,
/// and their program is the problem of the text, with the rows numbered by the names of the nodes. There are no excess arcs,
/// since the supplies add up to 0.
pub fn tables_are_the_problem()
    ensures problem { TablesAreTheProblem }
{}
