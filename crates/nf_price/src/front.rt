// The front of the tidied queue: what the rule QUEUE picks of the columns that a phase wants.
ghost use Rattle.std.specs.Prelude.{◌≡◌, ◌+◌, ◌<◌, ◌≤◌, ◌↔◌, suc, IfOk, IfErr, IfNone, IfSome, MatchBool};
ghost use Rattle.nf_sums.specs.Terms.{PassesIn};
ghost use Rattle.nf_simplex.specs.Queue.{IsFirstMember, IsFirstNumber, IsFront};
ghost use Rattle.nf_basis.specs.Arising.{StateTerms};
ghost use Rattle.nf_basis.specs.Kept.{IsStateOf};
ghost use Rattle.nf_duals.specs.Priced.{HasDuals, count_priced};
ghost use Rattle.nf_price.specs.Cost.{has_member, paid, paid_members, price_but, price_of};
ghost use Rattle.nf_price.specs.Queue.{AreDistinct, pricing};
ghost use Rattle.nf_price.specs.Turns.{in_turn};
ghost use Rattle.nf_price.specs.Wanted.{IsCandidate, Wants, WantsNoMember, WantsNone, WantsNumber};

use crate::candidate::Candidate;
use crate::queue::Queue;
use crate::wanted::wanted;
use nf_basis::{Phase, State};
use nf_duals::priced_columns;
use nf_frac::{Frac, Passed, Steps};
use nf_prob::Problem;
use std::sync::ledger::Ledger;

// The candidate at the front: the first member that the phase wants, and else the first column after the cursor. A
// member that the phase does not want is not looked at again.
pub(crate) fn front_of<L: Ledger>(
    p: &Problem,
    state: &State,
    phase: Phase,
    cursor: u32,
    queue: &Queue,
    one: &[Frac],
    two: &[Frac],
    steps: &mut Steps<L>,
) -> Result<Option<Candidate>, Passed>
    requires state { IsStateOf p.now state.now }
    requires one { HasDuals p.now state.now.standing Phase.One one.now }
    requires two { HasDuals p.now state.now.standing Phase.Two two.now }
    ensures some { IfOk result (λ r. IfSome r (IsCandidate p.now state.now.standing phase one.now two.now)) }
    ensures front { IfOk result (λ r. IfSome r (λ c. IsFront (pricing cursor queue.now) (Wants p.now state.now.standing phase one.now two.now) c.number)) }
    ensures none { IfOk result (λ r. IfNone r (WantsNone p.now state.now.standing phase one.now two.now)) }
    ensures passed { IfErr result (PassesIn (StateTerms p.now state.now.standing)) }
    ensures cost { steps.new ≤ steps.old + paid p.now phase (count_priced p.now) }
{
    let members = queue.items();
    if let Some(c) = first_member(p, state, phase, one, two, members, steps)? {
        return Ok(Some(c));
    }
    let other = first_other(p, state, phase, one, two, members, cursor, steps)?;
    Ok(other)
}

// The first member that the phase wants.
fn first_member<L: Ledger>(
    p: &Problem,
    state: &State,
    phase: Phase,
    one: &[Frac],
    two: &[Frac],
    members: &[u32],
    steps: &mut Steps<L>,
) -> Result<Option<Candidate>, Passed>
    requires state { IsStateOf p.now state.now }
    requires one { HasDuals p.now state.now.standing Phase.One one.now }
    requires two { HasDuals p.now state.now.standing Phase.Two two.now }
    ensures some { IfOk result (λ r. IfSome r (IsCandidate p.now state.now.standing phase one.now two.now)) }
    ensures first { IfOk result (λ r. IfSome r (λ c. IsFirstMember (WantsNumber p.now state.now.standing phase one.now two.now) members.now (suc c.number))) }
    ensures none { IfOk result (λ r. IfNone r (WantsNoMember p.now state.now.standing phase one.now two.now members.now)) }
    ensures passed { IfErr result (PassesIn (StateTerms p.now state.now.standing)) }
    ensures cost { steps.new ≤ steps.old + paid_members p.now phase members.now }
{
    for k in 0..members.len() {
        if let Some(c) = wanted_number(p, state, phase, one, two, members[k], steps)? {
            return Ok(Some(c));
        }
    }
    Ok(None)
}

// The first column in turn that the phase wants, if it wants none of the members.
fn first_other<L: Ledger>(
    p: &Problem,
    state: &State,
    phase: Phase,
    one: &[Frac],
    two: &[Frac],
    members: &[u32],
    cursor: u32,
    steps: &mut Steps<L>,
) -> Result<Option<Candidate>, Passed>
    requires state { IsStateOf p.now state.now }
    requires one { HasDuals p.now state.now.standing Phase.One one.now }
    requires two { HasDuals p.now state.now.standing Phase.Two two.now }
    requires unwanted { WantsNoMember p.now state.now.standing phase one.now two.now members.now }
    requires distinct { AreDistinct members.now }
    ensures some { IfOk result (λ r. IfSome r (IsCandidate p.now state.now.standing phase one.now two.now)) }
    ensures first { IfOk result (λ r. IfSome r (λ c. IsFirstNumber cursor (WantsNumber p.now state.now.standing phase one.now two.now) (suc c.number))) }
    ensures none { IfOk result (λ r. IfNone r (WantsNone p.now state.now.standing phase one.now two.now)) }
    ensures passed { IfErr result (PassesIn (StateTerms p.now state.now.standing)) }
    ensures cost { steps.new + paid_members p.now phase members.now ≤ steps.old + paid p.now phase (count_priced p.now) }
{
    let count = priced_columns(p);
    let from = cursor.min(count);
    for t in 0..count {
        let number = number_in_turn(from, count, t);
        if let Some(c) = wanted_other(p, state, phase, one, two, members, number, steps)? {
            return Ok(Some(c));
        }
    }
    Ok(None)
}

// The number, from 1, of the column that is looked at after t others.
pub(crate) fn number_in_turn(from: u32, count: u32, t: u32) -> u32
    requires start { from ≤ count }
    requires within { t < count }
    ensures { result ≡ suc (in_turn from count t) }
{
    if t < count - from {
        from + t + 1
    } else {
        t - (count - from) + 1
    }
}

// The column with a number from 1, if the phase wants it to enter.
pub(crate) fn wanted_number<L: Ledger>(
    p: &Problem,
    state: &State,
    phase: Phase,
    one: &[Frac],
    two: &[Frac],
    number: u32,
    steps: &mut Steps<L>,
) -> Result<Option<Candidate>, Passed>
    requires state { IsStateOf p.now state.now }
    requires one { HasDuals p.now state.now.standing Phase.One one.now }
    requires two { HasDuals p.now state.now.standing Phase.Two two.now }
    ensures some { IfOk result (λ r. IfSome r (IsCandidate p.now state.now.standing phase one.now two.now)) }
    ensures number { IfOk result (λ r. IfSome r (λ c. suc c.number ≡ number)) }
    ensures wants { IfOk result (λ r. IfSome r (λ _. WantsNumber p.now state.now.standing phase one.now two.now number)) }
    ensures none { IfOk result (λ r. IfNone r (WantsNumber p.now state.now.standing phase one.now two.now number → ⊥)) }
    ensures passed { IfErr result (PassesIn (StateTerms p.now state.now.standing)) }
    ensures cost { steps.new ≤ steps.old + price_of p.now phase number }
{
    if number == 0 || number > priced_columns(p) {
        return Ok(None);
    }
    let c = wanted(p, state, phase, one, two, number - 1, steps)?;
    Ok(c)
}

// The column with a number from 1, if the phase wants it to enter; it wants none of the members.
pub(crate) fn wanted_other<L: Ledger>(
    p: &Problem,
    state: &State,
    phase: Phase,
    one: &[Frac],
    two: &[Frac],
    members: &[u32],
    number: u32,
    steps: &mut Steps<L>,
) -> Result<Option<Candidate>, Passed>
    requires state { IsStateOf p.now state.now }
    requires one { HasDuals p.now state.now.standing Phase.One one.now }
    requires two { HasDuals p.now state.now.standing Phase.Two two.now }
    requires unwanted { WantsNoMember p.now state.now.standing phase one.now two.now members.now }
    ensures some { IfOk result (λ r. IfSome r (IsCandidate p.now state.now.standing phase one.now two.now)) }
    ensures number { IfOk result (λ r. IfSome r (λ c. suc c.number ≡ number)) }
    ensures wants { IfOk result (λ r. IfSome r (λ _. WantsNumber p.now state.now.standing phase one.now two.now number)) }
    ensures none { IfOk result (λ r. IfNone r (WantsNumber p.now state.now.standing phase one.now two.now number → ⊥)) }
    ensures passed { IfErr result (PassesIn (StateTerms p.now state.now.standing)) }
    ensures cost { steps.new ≤ steps.old + price_but p.now phase members.now number }
{
    if is_member(members, number) {
        return Ok(None);
    }
    let c = wanted_number(p, state, phase, one, two, number, steps)?;
    Ok(c)
}

fn is_member(members: &[u32], number: u32) -> bool
    ensures { result ≡ has_member members.now number }
{
    members.contains(&number)
}

// Whether the phase wants the column with a number from 1 to enter.
pub(crate) fn wants_number<L: Ledger>(
    p: &Problem,
    state: &State,
    phase: Phase,
    one: &[Frac],
    two: &[Frac],
    number: u32,
    steps: &mut Steps<L>,
) -> Result<bool, Passed>
    requires state { IsStateOf p.now state.now }
    requires one { HasDuals p.now state.now.standing Phase.One one.now }
    requires two { HasDuals p.now state.now.standing Phase.Two two.now }
    ensures wants { IfOk result (λ b. MatchBool b (WantsNumber p.now state.now.standing phase one.now two.now number) (WantsNumber p.now state.now.standing phase one.now two.now number → ⊥)) }
    ensures passed { IfErr result (PassesIn (StateTerms p.now state.now.standing)) }
    ensures cost { steps.new ≤ steps.old + price_of p.now phase number }
{
    match wanted_number(p, state, phase, one, two, number, steps)? {
        Some(_) => Ok(true),
        None => Ok(false),
    }
}

// The same, if it wants none of the members.
pub(crate) fn wants_other<L: Ledger>(
    p: &Problem,
    state: &State,
    phase: Phase,
    one: &[Frac],
    two: &[Frac],
    members: &[u32],
    number: u32,
    steps: &mut Steps<L>,
) -> Result<bool, Passed>
    requires state { IsStateOf p.now state.now }
    requires one { HasDuals p.now state.now.standing Phase.One one.now }
    requires two { HasDuals p.now state.now.standing Phase.Two two.now }
    requires unwanted { WantsNoMember p.now state.now.standing phase one.now two.now members.now }
    ensures wants { IfOk result (λ b. MatchBool b (WantsNumber p.now state.now.standing phase one.now two.now number) (WantsNumber p.now state.now.standing phase one.now two.now number → ⊥)) }
    ensures passed { IfErr result (PassesIn (StateTerms p.now state.now.standing)) }
    ensures cost { steps.new ≤ steps.old + price_but p.now phase members.now number }
{
    match wanted_other(p, state, phase, one, two, members, number, steps)? {
        Some(_) => Ok(true),
        None => Ok(false),
    }
}
