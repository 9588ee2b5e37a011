//! The duals as they are printed.
ghost use Rattle.std.specs.Prelude.{true, ◌≡◌, ◌≢◌, ◌<◌, ◌+◌, ◌⊎◌, length, IfOk, IfErr, IfSome, IfNone};
ghost use Rattle.nf_num.specs.Rational.{ℚ, zero_ℚ, ◌<ℚ◌, ◌+ℚ◌, ◌*ℚ◌};
ghost use Rattle.nf_model.specs.Program.{HoldsBelow, at};
ghost use Rattle.nf_sums.specs.Terms.{PassesIn};
ghost use Rattle.nf_simplex.specs.Columns.{ones, twos};
ghost use Rattle.nf_simplex.specs.Ends.{IsFactor, IsPriced};
ghost use Rattle.nf_simplex.specs.Layout.{layout_of};
ghost use Rattle.nf_simplex.specs.Moves.{HasEndedOptimalIn};
ghost use Rattle.nf_simplex.specs.Numbers.{reduced};
ghost use Rattle.nf_simplex.specs.Standing.{place_at, rows_of, stage_of};
ghost use Rattle.nf_basis.specs.Arising.{StateTerms};
ghost use Rattle.nf_basis.specs.Kept.{IsStateOf};
ghost use Rattle.nf_basis.specs.Numbers.{AreDualsByRow};
ghost use Rattle.nf_duals.specs.Factor.{IsQuotientAt, PrintedTerms};
ghost use Rattle.nf_duals.specs.Priced.{HasDuals, count_priced};
ghost use Rattle.nf_duals.specs.Printed.{ArePrintedBy};

use crate::priced::{phase_cost, priced_columns, priced_place};
use nf_basis::{Basis, Phase, Place, State};
use nf_frac::{Frac, Passed, Steps};
use nf_prob::Problem;
use nf_sums::add_product;
use std::cmp::Ordering;
use std::sync::ledger::Ledger;

/// The printed duals of a state, by row of the stage: in `two` the printed ones, and in `one` those of phase one.
///
/// `best` says whether the state has ended optimal. Then the printed duals are those of phase two and M times those of
/// phase one, M the greatest of 0 and of all -d2/d1 over the nonbasic given columns and slacks of the stage, those with
/// two equal bounds too, whose reduced cost d1 of phase one is not 0. In any other state they are the duals of phase
/// two. M is answered, and 0 where `best` is false.
///
/// `Passed` only where an operation passes 128 bits that arises from the state. It takes no memory.
pub fn printed_duals<B: Basis, L: Ledger>(
    p: &Problem,
    basis: &mut B,
    best: bool,
    one: &mut [Frac],
    two: &mut [Frac],
    steps: &mut Steps<L>,
) -> Result<Frac, Passed>
    requires numbers { B.HasNumbers p.now basis.old }
    requires places_one { length one.old ≡ rows_of p.now (B.standing basis.old) }
    requires places_two { length two.old ≡ rows_of p.now (B.standing basis.old) }
    requires ended { best ≡ true → HasEndedOptimalIn p.now (B.standing basis.old) }
    ensures numbers { IfOk result (λ _. B.HasNumbers p.now basis.new) }
    ensures standing { IfOk result (λ _. B.standing basis.new ≡ B.standing basis.old) }
    ensures slots { IfOk result (λ _. B.slots basis.new ≡ B.slots basis.old) }
    ensures values { IfOk result (λ _. B.values p.now basis.new ≡ B.values p.now basis.old) }
    ensures one { IfOk result (λ _. AreDualsByRow p.now (B.standing basis.old) Phase.One one.new) }
    ensures printed { IfOk result (λ m. ArePrintedBy p.now (B.standing basis.old) best m two.new) }
    ensures passed { IfErr result (PassesIn (StateTerms p.now (B.standing basis.old))) }
{
    basis.duals(p, Phase::One, one, steps)?;
    basis.duals(p, Phase::Two, two, steps)?;
    if !best {
        return Ok(Frac::zero());
    }
    let m = factor(p, basis.state(), one, two, steps)?;
    add_multiple(two, m, one, steps)?;
    Ok(m)
}

// The factor of the phase-one duals in the printed duals.
fn factor<L: Ledger>(
    p: &Problem,
    state: &State,
    one: &[Frac],
    two: &[Frac],
    steps: &mut Steps<L>,
) -> Result<Frac, Passed>
    requires state { IsStateOf p.now state.now }
    requires one { HasDuals p.now state.now.standing Phase.One one.now }
    requires two { HasDuals p.now state.now.standing Phase.Two two.now }
    requires ended { HasEndedOptimalIn p.now state.now.standing }
    ensures factor { IfOk result (IsFactor (stage_of p.now state.now.standing) (place_at state.now.standing) (reduced (stage_of p.now state.now.standing) (ones (layout_of p.now)) (at one.now)) (reduced (stage_of p.now state.now.standing) (twos (layout_of p.now)) (at two.now))) }
    ensures passed { IfErr result (PassesIn (StateTerms p.now state.now.standing)) }
{
    let mut m = Frac::zero();
    for k in 0..priced_columns(p) {
        if let Some(q) = quotient(p, state, k, one, two, steps)? {
            m = greater(m, q);
        }
    }
    Ok(m)
}

// -d2/d1 at the column with a number, where it is nonbasic and d1 is not 0.
fn quotient<L: Ledger>(
    p: &Problem,
    state: &State,
    k: u32,
    one: &[Frac],
    two: &[Frac],
    steps: &mut Steps<L>,
) -> Result<Option<Frac>, Passed>
    requires state { IsStateOf p.now state.now }
    requires one { HasDuals p.now state.now.standing Phase.One one.now }
    requires two { HasDuals p.now state.now.standing Phase.Two two.now }
    requires within { k < count_priced p.now }
    requires ended { HasEndedOptimalIn p.now state.now.standing }
    ensures some { IfOk result (λ r. IfSome r (IsQuotientAt (stage_of p.now state.now.standing) (place_at state.now.standing) (reduced (stage_of p.now state.now.standing) (ones (layout_of p.now)) (at one.now)) (reduced (stage_of p.now state.now.standing) (twos (layout_of p.now)) (at two.now)) k)) }
    ensures none { IfOk result (λ r. IfNone r ((q : ℚ) → IsQuotientAt (stage_of p.now state.now.standing) (place_at state.now.standing) (reduced (stage_of p.now state.now.standing) (ones (layout_of p.now)) (at one.now)) (reduced (stage_of p.now state.now.standing) (twos (layout_of p.now)) (at two.now)) k q → ⊥)) }
    ensures passed { IfErr result (PassesIn (StateTerms p.now state.now.standing)) }
{
    match priced_place(p, state, k) {
        Place::Basic | Place::Absent => return Ok(None),
        Place::Lower | Place::Upper | Place::Zero => {}
    }
    let d1 = phase_cost(p, Phase::One, k, one, steps)?;
    if d1 == Frac::zero() {
        return Ok(None);
    }
    let d2 = phase_cost(p, Phase::Two, k, two, steps)?;
    let q = d2.neg().div(d1, steps)?;
    Ok(Some(q))
}

// The greater of two numbers.
fn greater(m: Frac, q: Frac) -> Frac
    ensures { ((result ≡ m) × (m <ℚ q → ⊥)) ⊎ ((result ≡ q) × (m <ℚ q)) }
{
    match m.cmp(q) {
        Ordering::Less => q,
        Ordering::Equal | Ordering::Greater => m,
    }
}

// Adds m times the members of `one` to those of `two`.
fn add_multiple<L: Ledger>(
    two: &mut [Frac],
    m: Frac,
    one: &[Frac],
    steps: &mut Steps<L>,
) -> Result<(), Passed>
    requires places { length one.now ≡ length two.old }
    ensures added { IfOk result (λ _. HoldsBelow (length two.old) (λ i. at two.new i ≡ at two.old i +ℚ m *ℚ at one.now i)) }
    ensures passed { IfErr result (PassesIn (PrintedTerms m one.now two.old)) }
{
    for i in 0..two.len() {
        two[i] = add_product(two[i], m, one[i], steps)?;
    }
    Ok(())
}
