//! What the readers of programs and of data give to the range law.
ghost use Rattle.nf_amounts.specs.Laws.{DenseHasAmounts, NetworksHaveAmounts, NetworksHaveOneStage, OptionsHaveAmounts, SparseHasAmounts};

/// The numbers in the options of a program are amounts.
pub fn options_have_amounts()
    ensures law { OptionsHaveAmounts }
{}

/// A network of ARCDATA and NODEDATA has amounts, and not too many; and it has no stage two.
pub fn networks_have_amounts()
    ensures law { NetworksHaveAmounts }
    ensures one_stage { NetworksHaveOneStage }
{}

/// A network with the constraints of CONDATA has amounts, and not too many, be CONDATA dense or sparse.
pub fn constraints_have_amounts()
    ensures dense { DenseHasAmounts }
    ensures sparse { SparseHasAmounts }
{}
