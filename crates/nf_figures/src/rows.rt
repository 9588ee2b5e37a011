//! The numbers of the rows of the stage: their sums, and the printed duals.
ghost use Rattle.std.specs.Prelude.{true, ◌≡◌, ◌<◌, ◌-◌, length, IfOk, IfErr};
ghost use Rattle.nf_model.specs.Program.{at, row_sum};
ghost use Rattle.nf_sums.specs.Terms.{PassesIn};
ghost use Rattle.nf_prob.specs.Numbers.{IsNumber};
ghost use Rattle.nf_prob.specs.Stored.{row_entry};
ghost use Rattle.nf_simplex.specs.Moves.{HasEndedOptimalIn};
ghost use Rattle.nf_simplex.specs.Standing.{Standing, rows_of};
ghost use Rattle.nf_simplex.specs.Verdicts.{AreGivenValues};
ghost use Rattle.nf_basis.specs.Arising.{StateTerms};
ghost use Rattle.nf_basis.specs.Kept.{IsStateOf};
ghost use Rattle.nf_figures.specs.Figures.{AreRowSums, AreShownDuals, IsFigureFault};

use crate::fault::FigureFault;
use nf_basis::{Basis, State};
use nf_duals::printed_duals;
use nf_frac::{Frac, Passed, Steps};
use nf_prob::{Fracs, Problem};
use nf_sums::sum_products;
use std::alloc::{AllocError, Global};
use std::sync::ledger::Ledger;

/// The sum of each row of the stage: its coefficients times the flows.
///
/// `Passed` only where an operation of such a sum overflows 128 bits; it arises from a state of this stage with these
/// flows.
pub fn row_sums<L: Ledger>(
    alloc: Global,
    p: &Problem,
    state: &State,
    flows: &[Frac],
    steps: &mut Steps<L>,
) -> Result<Fracs, FigureFault>
    requires values { length flows.now ≡ length p.now.columns }
    requires state { IsStateOf p.now state.now }
    ensures sums { IfOk result (AreRowSums p.now state.now.standing flows.now) }
    ensures fault { AreGivenValues p.now state.now.standing flows.now → IfErr result (IsFigureFault p.now state.now.standing) }
{
    let mut sums = Fracs::new(alloc);
    for i in 0..stage_rows(p, state) {
        let sum = sum_of_row(p, i + 1, flows, steps)?;
        sums.push(sum)?;
    }
    Ok(sums)
}

// The sum of row i.
fn sum_of_row<L: Ledger>(
    p: &Problem,
    i: u32,
    flows: &[Frac],
    steps: &mut Steps<L>,
) -> Result<Frac, Passed>
    requires values { length flows.now ≡ length p.now.columns }
    requires number { IsNumber i (length p.now.rows) }
    ensures value { IfOk result (λ s. s ≡ row_sum p.now flows.now (i - 1)) }
    ensures passed { (s : Standing) → AreGivenValues p.now s flows.now → IfErr result (PassesIn (StateTerms p.now s)) }
{
    let entries = p.row_entries(i);
    let factors = |k: usize| -> (Frac, Frac)
        requires place { k < length entries.now }
        requires column { IsNumber (row_entry entries.now k).column (length flows.now) }
        ensures { (result.0 ≡ (row_entry entries.entry.now k).value) × (result.1 ≡ at flows.entry.now ((row_entry entries.entry.now k).column - 1)) }
    { (entries[k].value, flows[entries[k].column as usize - 1]) };
    let total = sum_products(entries.len(), factors, steps)?;
    Ok(total)
}

// How many rows the stage has.
fn stage_rows(p: &Problem, state: &State) -> u32
    ensures rows { result ≡ rows_of p.now state.now.standing }
{
    if state.stage() == 1 {
        p.nodes()
    } else {
        p.rows()
    }
}

/// The printed dual of each row of the stage. `best` says whether the state has ended optimal.
///
/// `Passed` only where an operation overflows 128 bits that arises from the state; the basis is not used again.
pub fn shown_duals<B: Basis, L: Ledger>(
    alloc: Global,
    p: &Problem,
    basis: &mut B,
    best: bool,
    steps: &mut Steps<L>,
) -> Result<Fracs, FigureFault>
    requires numbers { B.HasNumbers p.now basis.old }
    requires ended { best ≡ true → HasEndedOptimalIn p.now (B.standing basis.old) }
    ensures numbers { IfOk result (λ _. B.HasNumbers p.now basis.new) }
    ensures standing { IfOk result (λ _. B.standing basis.new ≡ B.standing basis.old) }
    ensures slots { IfOk result (λ _. B.slots basis.new ≡ B.slots basis.old) }
    ensures values { IfOk result (λ _. B.values p.now basis.new ≡ B.values p.now basis.old) }
    ensures duals { IfOk result (AreShownDuals p.now (B.standing basis.old) best) }
    ensures fault { IfErr result (IsFigureFault p.now (B.standing basis.old)) }
{
    let rows = stage_rows(p, basis.state()) as usize;
    let mut one = vec![in alloc; Frac::zero(); rows]?;
    let mut two = vec![in alloc; Frac::zero(); rows]?;
    printed_duals(
        p,
        basis,
        best,
        one.as_mut_slice(),
        two.as_mut_slice(),
        steps,
    )?;
    let duals = list(alloc, two.as_slice())?;
    Ok(duals)
}

// A list of these numbers.
fn list(alloc: Global, numbers: &[Frac]) -> Result<Fracs, AllocError>
    ensures { IfOk result (λ xs. xs ≡ numbers.now) }
{
    let mut list = Fracs::new(alloc);
    for number in numbers {
        list.push(*number)?;
    }
    Ok(list)
}
