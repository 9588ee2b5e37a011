//! The numbers of the given columns: flows, what they cost, and reduced costs.
ghost use Rattle.std.specs.Prelude.{◌≡◌, ◌-◌, length, IfOk, IfErr};
ghost use Rattle.nf_model.specs.Certificate as certificate;
ghost use Rattle.nf_model.specs.Lists.{list_of};
ghost use Rattle.nf_model.specs.Program.{at, column};
ghost use Rattle.nf_sums.specs.Terms.{PassesIn, with_sign};
ghost use Rattle.nf_prob.specs.Numbers.{IsNumber};
ghost use Rattle.nf_simplex.specs.Standing.{Standing, PhaseTwo, costs_of, place_at, rows_of};
ghost use Rattle.nf_simplex.specs.Verdicts.{AreGivenValues};
ghost use Rattle.nf_basis.specs.Arising.{ArePricing, StateTerms};
ghost use Rattle.nf_basis.specs.Kept.{IsStateOf};
ghost use Rattle.nf_figures.specs.Figures.{AreFlowCosts, AreReducedCosts, IsFigureFault, flow_cost as cost_of_flow, if_there};

use crate::fault::FigureFault;
use nf_basis::{Basis, Col, Place, State};
use nf_duals::{priced_place, reduced_cost};
use nf_frac::{Frac, Passed, Steps};
use nf_prob::{Fracs, Problem};
use std::alloc::{AllocError, Global};
use std::sync::ledger::Ledger;

/// The flows of a state: the value of each given column, and 0 for one that the stage lacks.
///
/// `AllocError` if out of memory.
pub fn flows<B: Basis>(alloc: Global, p: &Problem, basis: &B) -> Result<Fracs, AllocError>
    requires numbers { B.HasNumbers p.now basis.now }
    ensures values { IfOk result (λ xs. xs ≡ list_of (length p.now.columns) (B.values p.now basis.now)) }
    ensures given { IfOk result (AreGivenValues p.now (B.standing basis.now)) }
{
    let mut values = Fracs::new(alloc);
    for j in 0..p.columns() {
        values.push(value_of(p, basis, j + 1))?;
    }
    Ok(values)
}

// The value of given column j. One that the stage lacks has 0.
fn value_of<B: Basis>(p: &Problem, basis: &B, j: u32) -> Frac
    requires numbers { B.HasNumbers p.now basis.now }
    requires number { IsNumber j (length p.now.columns) }
    ensures { result ≡ B.values p.now basis.now (j - 1) }
{
    let col = Col::Given(j);
    match basis.state().place(col) {
        Place::Absent => Frac::zero(),
        Place::Lower | Place::Upper | Place::Zero | Place::Basic => basis.value(p, col),
    }
}

/// What the flow of each column costs, in the program's own sense: where it maximises, the costs of the problem are
/// negated.
///
/// `Passed` only where a product overflows 128 bits that arises from a state with these flows.
pub fn flow_costs<L: Ledger>(
    alloc: Global,
    p: &Problem,
    flows: &[Frac],
    steps: &mut Steps<L>,
) -> Result<Fracs, FigureFault>
    requires values { length flows.now ≡ length p.now.columns }
    ensures costs { IfOk result (AreFlowCosts p.now flows.now) }
    ensures fault { (s : Standing) → AreGivenValues p.now s flows.now → IfErr result (IsFigureFault p.now s) }
{
    let mut costs = Fracs::new(alloc);
    for j in 0..p.columns() {
        let cost = flow_cost(p, flows, j + 1, steps)?;
        costs.push(cost)?;
    }
    Ok(costs)
}

// What the flow of column j costs.
fn flow_cost<L: Ledger>(
    p: &Problem,
    flows: &[Frac],
    j: u32,
    steps: &mut Steps<L>,
) -> Result<Frac, Passed>
    requires values { length flows.now ≡ length p.now.columns }
    requires number { IsNumber j (length p.now.columns) }
    ensures cost { IfOk result (λ c. c ≡ cost_of_flow p.now flows.now (j - 1)) }
    ensures passed { (s : Standing) → AreGivenValues p.now s flows.now → IfErr result (PassesIn (StateTerms p.now s)) }
{
    let flow = flows[j as usize - 1];
    let cost = own_cost(p, j).mul(flow, steps)?;
    Ok(cost)
}

// What one unit of column j costs in the program's own sense.
fn own_cost(p: &Problem, j: u32) -> Frac
    requires number { IsNumber j (length p.now.columns) }
    ensures { result ≡ with_sign p.now.maximizes (column p.now (j - 1)).cost }
{
    let cost = p.cost(j);
    if p.maximize() { cost.neg() } else { cost }
}

/// The reduced cost of each given column by duals of the stage's rows, and 0 for a column that the stage lacks.
///
/// `Passed` only where an operation of such a sum overflows 128 bits; it arises from the state if these are its duals of
/// phase two or its printed ones.
pub fn reduced_costs<L: Ledger>(
    alloc: Global,
    p: &Problem,
    state: &State,
    duals: &[Frac],
    steps: &mut Steps<L>,
) -> Result<Fracs, FigureFault>
    requires state { IsStateOf p.now state.now }
    requires duals { length duals.now ≡ rows_of p.now state.now.standing }
    ensures costs { IfOk result (AreReducedCosts p.now state.now.standing duals.now) }
    ensures fault { ArePricing p.now state.now.standing (costs_of p.now PhaseTwo) (at duals.now) → IfErr result (IsFigureFault p.now state.now.standing) }
{
    let mut costs = Fracs::new(alloc);
    for j in 0..p.columns() {
        let cost = reduced_at(p, state, duals, j + 1, steps)?;
        costs.push(cost)?;
    }
    Ok(costs)
}

// The reduced cost of given column j, and 0 if the stage lacks it.
fn reduced_at<L: Ledger>(
    p: &Problem,
    state: &State,
    duals: &[Frac],
    j: u32,
    steps: &mut Steps<L>,
) -> Result<Frac, Passed>
    requires state { IsStateOf p.now state.now }
    requires duals { length duals.now ≡ rows_of p.now state.now.standing }
    requires number { IsNumber j (length p.now.columns) }
    ensures cost { IfOk result (λ d. d ≡ if_there (place_at state.now.standing (j - 1)) (certificate.reduced_cost p.now duals.now (j - 1))) }
    ensures passed { ArePricing p.now state.now.standing (costs_of p.now PhaseTwo) (at duals.now) → IfErr result (PassesIn (StateTerms p.now state.now.standing)) }
{
    match priced_place(p, state, j - 1) {
        Place::Absent => Ok(Frac::zero()),
        Place::Lower | Place::Upper | Place::Zero | Place::Basic => {
            present_cost(p, duals, j, steps)
        }
    }
}

// The reduced cost of given column j.
fn present_cost<L: Ledger>(
    p: &Problem,
    duals: &[Frac],
    j: u32,
    steps: &mut Steps<L>,
) -> Result<Frac, Passed>
    requires number { IsNumber j (length p.now.columns) }
    ensures cost { IfOk result (λ d. d ≡ certificate.reduced_cost p.now duals.now (j - 1)) }
    ensures passed { (s : Standing) → length duals.now ≡ rows_of p.now s → ArePricing p.now s (costs_of p.now PhaseTwo) (at duals.now) → IfErr result (PassesIn (StateTerms p.now s)) }
{
    let _few = p.columns();
    let d = reduced_cost(p, j, duals, steps)?;
    Ok(d)
}
