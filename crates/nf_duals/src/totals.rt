//! The total cost of a state.
ghost use Rattle.std.specs.Prelude.{◌≡◌, ◌-◌, ◌<◌, ◌≤◌, ◌^◌, IfOk, IfErr, length};
ghost use Rattle.nf_model.specs.Program.{column};
ghost use Rattle.nf_prob.specs.Numbers.{IsNumber};
ghost use Rattle.nf_sums.specs.Terms.{PassesIn, with_sign};
ghost use Rattle.nf_basis.specs.Arising.{StateTerms};
ghost use Rattle.nf_duals.specs.Printed.{IsTotalOf};

use nf_basis::{Basis, Col, Place};
use nf_frac::{Frac, Passed, Steps};
use nf_prob::Problem;
use nf_sums::sum_products;
use std::sync::ledger::Ledger;

/// What the state's values cost in the program's own sense: where it maximises, the costs of the problem are negated.
///
/// `Passed` only where an operation of this sum passes 128 bits. It takes no memory.
pub fn total<B: Basis, L: Ledger>(
    p: &Problem,
    basis: &B,
    steps: &mut Steps<L>,
) -> Result<Frac, Passed>
    requires numbers { B.HasNumbers p.now basis.now }
    ensures total { IfOk result (IsTotalOf p.now (B.standing basis.now)) }
    ensures passed { IfErr result (PassesIn (StateTerms p.now (B.standing basis.now))) }
{
    let factors = |k: usize| -> (Frac, Frac)
        requires within { k < length p.now.columns }
        requires few { length p.now.columns ≤ 2 ^ 30 }
        requires numbers { B.HasNumbers p.now basis.now }
        ensures { (result.0 ≡ (column p.entry.now k).cost) × (result.1 ≡ B.values p.entry.now basis.entry.now k) }
    {
        let j = k as u32 + 1;
        (p.cost(j), given_value(p, basis, j))
    };
    let cost = sum_products(p.columns() as usize, factors, steps)?;
    Ok(in_own_sense(p.maximize(), cost))
}

// A cost of the minimised problem in the program's own sense.
fn in_own_sense(maximize: bool, cost: Frac) -> Frac
    ensures { result ≡ with_sign maximize cost }
{
    if maximize { cost.neg() } else { cost }
}

// The value of given column j. One that the stage lacks has 0.
fn given_value<B: Basis>(p: &Problem, basis: &B, j: u32) -> Frac
    requires numbers { B.HasNumbers p.now basis.now }
    requires number { IsNumber j (length p.now.columns) }
    ensures { result ≡ B.values p.now basis.now (j - 1) }
{
    let col = Col::Given(j);
    match basis.state().place(col) {
        Place::Absent => Frac::zero(),
        Place::Lower | Place::Upper | Place::Zero | Place::Basic => basis.value(p, col),
    }
}
