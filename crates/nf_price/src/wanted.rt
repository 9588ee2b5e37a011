// Whether a phase wants a column to enter.
ghost use Rattle.std.specs.Prelude.{◌≡◌, ◌+◌, ◌<◌, ◌≤◌, ◌↔◌, IfOk, IfErr, IfNone, IfSome, IsTrue};
ghost use Rattle.nf_num.specs.Rational.{ℚ};
ghost use Rattle.nf_sums.specs.Terms.{PassesIn};
ghost use Rattle.nf_simplex.specs.Pricing.{HasWrongSign};
ghost use Rattle.nf_basis.specs.Arising.{StateTerms};
ghost use Rattle.nf_basis.specs.Kept.{IsStateOf};
ghost use Rattle.nf_basis.specs.Names.{place_of};
ghost use Rattle.nf_duals.specs.Priced.{HasDuals, count_priced, price};
ghost use Rattle.nf_price.specs.Cost.{price_in};
ghost use Rattle.nf_price.specs.Wanted.{BoundsDiffer, IsCandidate, Wants};

use crate::candidate::Candidate;
use nf_basis::{Phase, Place, State};
use nf_duals::{phase_cost, priced_place};
use nf_frac::{Frac, Passed, Steps};
use nf_prob::Problem;
use std::sync::ledger::Ledger;

// The column with a number, where a phase wants it to enter.
pub(crate) fn wanted<L: Ledger>(
    p: &Problem,
    state: &State,
    phase: Phase,
    one: &[Frac],
    two: &[Frac],
    k: u32,
    steps: &mut Steps<L>,
) -> Result<Option<Candidate>, Passed>
    requires state { IsStateOf p.now state.now }
    requires one { HasDuals p.now state.now.standing Phase.One one.now }
    requires two { HasDuals p.now state.now.standing Phase.Two two.now }
    requires within { k < count_priced p.now }
    ensures some { IfOk result (λ r. IfSome r (IsCandidate p.now state.now.standing phase one.now two.now)) }
    ensures number { IfOk result (λ r. IfSome r (λ c. c.number ≡ k)) }
    ensures none { IfOk result (λ r. IfNone r (Wants p.now state.now.standing phase one.now two.now k → ⊥)) }
    ensures passed { IfErr result (PassesIn (StateTerms p.now state.now.standing)) }
    ensures cost { steps.new ≤ steps.old + price_in p.now phase k }
{
    match phase {
        Phase::One => wanted_one(p, state, one, two, k, steps),
        Phase::Two => wanted_two(p, state, one, two, k, steps),
    }
}

fn wanted_one<L: Ledger>(
    p: &Problem,
    state: &State,
    one: &[Frac],
    two: &[Frac],
    k: u32,
    steps: &mut Steps<L>,
) -> Result<Option<Candidate>, Passed>
    requires state { IsStateOf p.now state.now }
    requires one { HasDuals p.now state.now.standing Phase.One one.now }
    requires within { k < count_priced p.now }
    ensures some { IfOk result (λ r. IfSome r (IsCandidate p.now state.now.standing Phase.One one.now two.now)) }
    ensures number { IfOk result (λ r. IfSome r (λ c. c.number ≡ k)) }
    ensures none { IfOk result (λ r. IfNone r (Wants p.now state.now.standing Phase.One one.now two.now k → ⊥)) }
    ensures passed { IfErr result (PassesIn (StateTerms p.now state.now.standing)) }
    ensures cost { steps.new ≤ steps.old + price p.now k }
{
    let place = priced_place(p, state, k);
    if !may_enter(p, place, k) {
        return Ok(None);
    }
    let d = phase_cost(p, Phase::One, k, one, steps)?;
    Ok(Candidate::of(k, place, d))
}

fn wanted_two<L: Ledger>(
    p: &Problem,
    state: &State,
    one: &[Frac],
    two: &[Frac],
    k: u32,
    steps: &mut Steps<L>,
) -> Result<Option<Candidate>, Passed>
    requires state { IsStateOf p.now state.now }
    requires one { HasDuals p.now state.now.standing Phase.One one.now }
    requires two { HasDuals p.now state.now.standing Phase.Two two.now }
    requires within { k < count_priced p.now }
    ensures some { IfOk result (λ r. IfSome r (IsCandidate p.now state.now.standing Phase.Two one.now two.now)) }
    ensures number { IfOk result (λ r. IfSome r (λ c. c.number ≡ k)) }
    ensures none { IfOk result (λ r. IfNone r (Wants p.now state.now.standing Phase.Two one.now two.now k → ⊥)) }
    ensures passed { IfErr result (PassesIn (StateTerms p.now state.now.standing)) }
    ensures cost { steps.new ≤ steps.old + (price p.now k + price p.now k) }
{
    let place = priced_place(p, state, k);
    if !may_enter(p, place, k) {
        return Ok(None);
    }
    let d = phase_cost(p, Phase::Two, k, two, steps)?;
    let Some(found) = Candidate::of(k, place, d) else {
        return Ok(None);
    };
    let first = phase_cost(p, Phase::One, k, one, steps)?;
    if first != Frac::zero() {
        return Ok(None);
    }
    Ok(Some(found))
}

// Whether the column with a number, which stands here, is nonbasic and without two equal bounds.
fn may_enter(p: &Problem, place: Place, k: u32) -> bool
    requires within { k < count_priced p.now }
    ensures yes { IsTrue result → BoundsDiffer p.now k }
    ensures no { (IsTrue result → ⊥) → (d : ℚ) → BoundsDiffer p.now k → HasWrongSign (place_of place) d → ⊥ }
{
    match place {
        Place::Lower | Place::Upper | Place::Zero => bounds_differ(p, k),
        Place::Basic | Place::Absent => false,
    }
}

// Slacks have no upper bound.
fn bounds_differ(p: &Problem, k: u32) -> bool
    requires within { k < count_priced p.now }
    ensures { IsTrue result ↔ BoundsDiffer p.now k }
{
    if k >= p.columns() {
        return true;
    }
    match (p.lower(k + 1), p.upper(k + 1)) {
        (Some(lower), Some(upper)) => lower != upper,
        _ => true,
    }
}
