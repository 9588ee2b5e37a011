// The columns that a phase wants, by number.
ghost use Rattle.std.specs.Prelude.{◌+◌, ◌<◌, ◌≤◌, IfOk, IfErr, IfNone, IfSome};
ghost use Rattle.nf_sums.specs.Terms.{PassesIn};
ghost use Rattle.nf_basis.specs.Arising.{StateTerms};
ghost use Rattle.nf_basis.specs.Kept.{IsStateOf};
ghost use Rattle.nf_duals.specs.Priced.{HasDuals, count_priced};
ghost use Rattle.nf_price.specs.Cost.{paid};
ghost use Rattle.nf_price.specs.Wanted.{IsBestBelow, IsBetter, IsFirstWanted, WantsNoneIn};

use crate::candidate::Candidate;
use crate::wanted::wanted;
use nf_basis::{Phase, State};
use nf_duals::priced_columns;
use nf_frac::{Frac, Passed, Steps};
use nf_prob::Problem;
use std::cmp::Ordering;
use std::sync::ledger::Ledger;

// The first column from number `from` on and below `to` that a phase wants.
pub(crate) fn first_wanted<L: Ledger>(
    p: &Problem,
    state: &State,
    phase: Phase,
    one: &[Frac],
    two: &[Frac],
    from: u32,
    to: u32,
    steps: &mut Steps<L>,
) -> Result<Option<Candidate>, Passed>
    requires state { IsStateOf p.now state.now }
    requires one { HasDuals p.now state.now.standing Phase.One one.now }
    requires two { HasDuals p.now state.now.standing Phase.Two two.now }
    requires within { to ≤ count_priced p.now }
    requires forward { from ≤ to }
    ensures some { IfOk result (λ r. IfSome r (IsFirstWanted p.now state.now.standing phase one.now two.now from)) }
    ensures inside { IfOk result (λ r. IfSome r (λ c. c.number < to)) }
    ensures none { IfOk result (λ r. IfNone r (WantsNoneIn p.now state.now.standing phase one.now two.now from to)) }
    ensures passed { IfErr result (PassesIn (StateTerms p.now state.now.standing)) }
    ensures cost { steps.new + paid p.now phase from ≤ steps.old + paid p.now phase to }
{
    for k in from..to {
        if let Some(first) = wanted(p, state, phase, one, two, k, steps)? {
            return Ok(Some(first));
        }
    }
    Ok(None)
}

// The best of all columns that a phase wants.
pub(crate) fn greatest_wanted<L: Ledger>(
    p: &Problem,
    state: &State,
    phase: Phase,
    one: &[Frac],
    two: &[Frac],
    steps: &mut Steps<L>,
) -> Result<Option<Candidate>, Passed>
    requires state { IsStateOf p.now state.now }
    requires one { HasDuals p.now state.now.standing Phase.One one.now }
    requires two { HasDuals p.now state.now.standing Phase.Two two.now }
    ensures best { IfOk result (IsBestBelow p.now state.now.standing phase one.now two.now (count_priced p.now)) }
    ensures passed { IfErr result (PassesIn (StateTerms p.now state.now.standing)) }
    ensures cost { steps.new ≤ steps.old + paid p.now phase (count_priced p.now) }
{
    let mut best = None;
    for k in 0..priced_columns(p) {
        if let Some(next) = wanted(p, state, phase, one, two, k, steps)? {
            best = better(best, next);
        }
    }
    Ok(best)
}

// The candidate so far, unless the next one is greater.
fn better(best: Option<Candidate>, next: Candidate) -> Option<Candidate>
    ensures { IsBetter best next result }
{
    match best {
        None => Some(next),
        Some(so_far) => match so_far.size.cmp(next.size) {
            Ordering::Less => Some(next),
            Ordering::Equal | Ordering::Greater => Some(so_far),
        },
    }
}
