// The direction in which a picked column moves, by where it stands and the reduced cost that decides.
ghost use Rattle.std.specs.Prelude.{◌≡◌, ◌-◌, Bool, length, IfOk, IfErr};
ghost use Rattle.nf_sums.specs.Terms.{PassesIn};
ghost use Rattle.nf_prob.specs.Numbers.{IsNumber};
ghost use Rattle.nf_simplex.specs.Moves.{WouldLower};
ghost use Rattle.nf_simplex.specs.Place as model;
ghost use Rattle.nf_simplex.specs.Standing.{rows_of};
ghost use Rattle.nf_basis.specs.Arising.{StateTerms};
ghost use Rattle.nf_basis.specs.Kept.{IsPresent, place_in};
ghost use Rattle.nf_basis.specs.Names.{col_of, phase_of};
ghost use Rattle.nf_certify.specs.Deciding.{IsCostIn, IsDecidingCost};

use nf_basis::{Basis, Col, Phase, Place, is_below_zero};
use nf_duals::phase_cost;
use nf_frac::{Frac, Passed, Steps};
use nf_prob::Problem;
use nf_sums::is_zero;
use std::sync::ledger::Ledger;

/// Whether a column that would lower the cost moves down: from its upper bound, or from zero if the reduced cost that
/// decides is positive. `duals` is room for the duals of a phase.
///
/// `Passed` only where an operation passes 128 bits that arises from the state.
pub(crate) fn moves_down<B: Basis, L: Ledger>(
    p: &Problem,
    basis: &mut B,
    column: Col,
    duals: &mut [Frac],
    steps: &mut Steps<L>,
) -> Result<bool, Passed>
    requires numbers { B.HasNumbers p.now basis.old }
    requires present { IsPresent p.now (B.standing basis.old) column }
    requires room { length duals.old ≡ rows_of p.now (B.standing basis.old) }
    ensures numbers { IfOk result (λ _. B.HasNumbers p.now basis.new) }
    ensures standing { IfOk result (λ _. B.standing basis.new ≡ B.standing basis.old) }
    ensures slots { IfOk result (λ _. B.slots basis.new ≡ B.slots basis.old) }
    ensures values { IfOk result (λ _. B.values p.now basis.new ≡ B.values p.now basis.old) }
    ensures down { (down : Bool) → WouldLower p.now (B.standing basis.old) (col_of column) down → IfOk result (λ d. d ≡ down) }
    ensures passed { IfErr result (PassesIn (StateTerms p.now (B.standing basis.old))) }
{
    match basis.state().place(column) {
        Place::Upper => Ok(true),
        Place::Zero => falls_from_zero(p, basis, column, duals, steps),
        Place::Lower | Place::Basic | Place::Absent => Ok(false),
    }
}

// Whether a column at zero that would lower the cost moves down.
fn falls_from_zero<B: Basis, L: Ledger>(
    p: &Problem,
    basis: &mut B,
    column: Col,
    duals: &mut [Frac],
    steps: &mut Steps<L>,
) -> Result<bool, Passed>
    requires numbers { B.HasNumbers p.now basis.old }
    requires present { IsPresent p.now (B.standing basis.old) column }
    requires zero { place_in p.now (B.standing basis.old) column ≡ model.Zero }
    requires room { length duals.old ≡ rows_of p.now (B.standing basis.old) }
    ensures numbers { IfOk result (λ _. B.HasNumbers p.now basis.new) }
    ensures standing { IfOk result (λ _. B.standing basis.new ≡ B.standing basis.old) }
    ensures slots { IfOk result (λ _. B.slots basis.new ≡ B.slots basis.old) }
    ensures values { IfOk result (λ _. B.values p.now basis.new ≡ B.values p.now basis.old) }
    ensures down { (down : Bool) → WouldLower p.now (B.standing basis.old) (col_of column) down → IfOk result (λ d. d ≡ down) }
    ensures passed { IfErr result (PassesIn (StateTerms p.now (B.standing basis.old))) }
{
    match column {
        Col::Given(j) => {
            let d = deciding_cost(p, basis, j, duals, steps)?;
            Ok(!is_below_zero(d))
        }
        // These have a lower bound, so they are not at zero.
        Col::Slack(_) | Col::Artificial(_) => Ok(false),
    }
}

// The reduced cost that decides about given column j: that of phase one if it is not 0, else that of phase two.
fn deciding_cost<B: Basis, L: Ledger>(
    p: &Problem,
    basis: &mut B,
    j: u32,
    duals: &mut [Frac],
    steps: &mut Steps<L>,
) -> Result<Frac, Passed>
    requires numbers { B.HasNumbers p.now basis.old }
    requires number { IsNumber j (length p.now.columns) }
    requires room { length duals.old ≡ rows_of p.now (B.standing basis.old) }
    ensures numbers { IfOk result (λ _. B.HasNumbers p.now basis.new) }
    ensures standing { IfOk result (λ _. B.standing basis.new ≡ B.standing basis.old) }
    ensures slots { IfOk result (λ _. B.slots basis.new ≡ B.slots basis.old) }
    ensures values { IfOk result (λ _. B.values p.now basis.new ≡ B.values p.now basis.old) }
    ensures decides { IfOk result (IsDecidingCost p.now (B.standing basis.old) (j - 1)) }
    ensures passed { IfErr result (PassesIn (StateTerms p.now (B.standing basis.old))) }
{
    let one = cost_in(p, basis, Phase::One, j, duals, steps)?;
    if !is_zero(one) {
        return Ok(one);
    }
    let two = cost_in(p, basis, Phase::Two, j, duals, steps)?;
    Ok(two)
}

// The reduced cost of given column j in a phase.
fn cost_in<B: Basis, L: Ledger>(
    p: &Problem,
    basis: &mut B,
    phase: Phase,
    j: u32,
    duals: &mut [Frac],
    steps: &mut Steps<L>,
) -> Result<Frac, Passed>
    requires numbers { B.HasNumbers p.now basis.old }
    requires number { IsNumber j (length p.now.columns) }
    requires room { length duals.old ≡ rows_of p.now (B.standing basis.old) }
    ensures numbers { IfOk result (λ _. B.HasNumbers p.now basis.new) }
    ensures standing { IfOk result (λ _. B.standing basis.new ≡ B.standing basis.old) }
    ensures slots { IfOk result (λ _. B.slots basis.new ≡ B.slots basis.old) }
    ensures values { IfOk result (λ _. B.values p.now basis.new ≡ B.values p.now basis.old) }
    ensures cost { IfOk result (IsCostIn p.now (B.standing basis.old) (phase_of phase) (j - 1)) }
    ensures passed { IfErr result (PassesIn (StateTerms p.now (B.standing basis.old))) }
{
    basis.duals(p, phase, duals, steps)?;
    let d = phase_cost(p, phase, j - 1, duals, steps)?;
    Ok(d)
}
