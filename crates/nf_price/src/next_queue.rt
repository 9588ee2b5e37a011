//! The queue that a step leaves.
ghost use Rattle.std.specs.Prelude.{◌≡◌, ◌+◌, ◌*◌, ◌<◌, ◌≤◌, [], ◌∷◌, ◌++◌, true, false, length, IfOk, IfErr};
ghost use Rattle.nf_sums.specs.Terms.{PassesIn};
ghost use Rattle.nf_simplex.specs.Moves.{IsNextQueueIn};
ghost use Rattle.nf_simplex.specs.Pricing as model;
ghost use Rattle.nf_simplex.specs.Queue.{AreFirst, AreKept, IsTidied};
ghost use Rattle.nf_simplex.specs.Size as bound;
ghost use Rattle.nf_simplex.specs.Standing.{rows_of};
ghost use Rattle.nf_basis.specs.Arising.{StateTerms};
ghost use Rattle.nf_basis.specs.Kept.{IsStateOf};
ghost use Rattle.nf_basis.specs.Numbers.{AreDualsByRow};
ghost use Rattle.nf_duals.specs.Priced.{HasDuals, count_priced};
ghost use Rattle.nf_price.specs.Choice.{Decides, HasEligible, TellsShort};
ghost use Rattle.nf_price.specs.Cost.{paid, paid_members};
ghost use Rattle.nf_price.specs.Queue.{AreDistinct, IsAmong, pricing};
ghost use Rattle.nf_price.specs.Wanted.{Wants, WantsNoMember, WantsNumber};

use crate::front::{number_in_turn, wants_number, wants_other};
use crate::level::is_level;
use crate::queue::Queue;
use crate::scan::first_wanted;
use nf_basis::{Phase, State};
use nf_duals::priced_columns;
use nf_frac::{Frac, Passed, Steps};
use nf_prob::Problem;
use std::sync::ledger::Ledger;

/// Makes the queue the next one, where `choose` picks a column by the rule QUEUE: its eligible members in their order, or if it has
/// none, the first eligible columns after the cursor and then from the least, as many as the size or all; and of these
/// all but the front, which is the column picked.
///
/// The duals, `short` and the cursor are those of `choose`. `Passed` only where an operation of a reduced cost passes 128 bits, and then the
/// queue stays as it was. At most `16 w` steps, w the size of the problem in the stage. It takes no memory.
pub fn advance<L: Ledger>(
    p: &Problem,
    state: &State,
    size: u32,
    cursor: u32,
    queue: &mut Queue,
    short: bool,
    duals_one: &[Frac],
    duals_two: &[Frac],
    steps: &mut Steps<L>,
) -> Result<(), Passed>
    requires state { IsStateOf p.now state.now }
    requires size { 0 < size }
    requires most { size ≤ 999 }
    requires places_one { length duals_one.now ≡ rows_of p.now state.now.standing }
    requires places_two { length duals_two.now ≡ rows_of p.now state.now.standing }
    requires duals_one { AreDualsByRow p.now state.now.standing Phase.One duals_one.now }
    requires duals_two { AreDualsByRow p.now state.now.standing Phase.Two duals_two.now }
    requires short { TellsShort p.now state.now.standing short }
    requires eligible { HasEligible p.now state.now.standing duals_one.now duals_two.now short }
    ensures next { IfOk result (λ _. IsNextQueueIn p.now state.now.standing (model.Queue size) (pricing cursor queue.old) queue.new) }
    ensures same { IfErr result (λ _. queue.new ≡ queue.old) }
    ensures passed { IfErr result (PassesIn (StateTerms p.now state.now.standing)) }
    ensures cost { steps.new ≤ steps.old + 16 * bound.size p.now state.now.standing.stage }
{
    let phase = deciding(p, state, short, duals_one, duals_two, steps)?;
    let mut next = tidied(
        p, state, phase, size, cursor, queue, duals_one, duals_two, steps,
    )?;
    next.drop_front();
    *queue = next;
    Ok(())
}

// The phase that decides, where some column is eligible: phase one wherever it wants a column.
fn deciding<L: Ledger>(
    p: &Problem,
    state: &State,
    short: bool,
    one: &[Frac],
    two: &[Frac],
    steps: &mut Steps<L>,
) -> Result<Phase, Passed>
    requires state { IsStateOf p.now state.now }
    requires one { HasDuals p.now state.now.standing Phase.One one.now }
    requires two { HasDuals p.now state.now.standing Phase.Two two.now }
    requires eligible { HasEligible p.now state.now.standing one.now two.now short }
    ensures decides { IfOk result (Decides p.now state.now.standing one.now two.now short) }
    ensures passed { IfErr result (PassesIn (StateTerms p.now state.now.standing)) }
    ensures cost { steps.new ≤ steps.old + paid p.now Phase.One (count_priced p.now) }
{
    if short {
        return Ok(Phase::One);
    }
    if is_level(p, one) {
        return Ok(Phase::Two);
    }
    match first_wanted(p, state, Phase::One, one, two, 0, priced_columns(p), steps)? {
        Some(_) => Ok(Phase::One),
        None => Ok(Phase::Two),
    }
}

// The queue tidied, by what a phase wants.
fn tidied<L: Ledger>(
    p: &Problem,
    state: &State,
    phase: Phase,
    size: u32,
    cursor: u32,
    queue: &Queue,
    one: &[Frac],
    two: &[Frac],
    steps: &mut Steps<L>,
) -> Result<Queue, Passed>
    requires state { IsStateOf p.now state.now }
    requires most { size ≤ 999 }
    requires one { HasDuals p.now state.now.standing Phase.One one.now }
    requires two { HasDuals p.now state.now.standing Phase.Two two.now }
    ensures tidied { IfOk result (IsTidied size (pricing cursor queue.now) (Wants p.now state.now.standing phase one.now two.now)) }
    ensures passed { IfErr result (PassesIn (StateTerms p.now state.now.standing)) }
    ensures cost { steps.new ≤ steps.old + paid p.now phase (count_priced p.now) }
{
    let members = queue.items();
    let kept = kept_members(p, state, phase, members, one, two, steps)?;
    if kept.items().len() > 0 {
        return Ok(kept);
    }
    let found = first_others(p, state, phase, size, cursor, members, one, two, steps)?;
    Ok(found)
}

// The members that a phase wants, in their order.
fn kept_members<L: Ledger>(
    p: &Problem,
    state: &State,
    phase: Phase,
    members: &[u32],
    one: &[Frac],
    two: &[Frac],
    steps: &mut Steps<L>,
) -> Result<Queue, Passed>
    requires state { IsStateOf p.now state.now }
    requires one { HasDuals p.now state.now.standing Phase.One one.now }
    requires two { HasDuals p.now state.now.standing Phase.Two two.now }
    requires most { length members.now ≤ 999 }
    requires distinct { AreDistinct members.now }
    ensures kept { IfOk result (AreKept (WantsNumber p.now state.now.standing phase one.now two.now) members.now) }
    ensures passed { IfErr result (PassesIn (StateTerms p.now state.now.standing)) }
    ensures cost { steps.new ≤ steps.old + paid_members p.now phase members.now }
{
    let mut kept = Queue::empty();
    for k in 0..members.len() {
        let number = members[k];
        let stays = wants_number(p, state, phase, one, two, number, steps)?;
        push_if(&mut kept, number, stays);
    }
    Ok(kept)
}

// The first columns in turn that a phase wants, as many as the size or all, if it wants none of the members.
fn first_others<L: Ledger>(
    p: &Problem,
    state: &State,
    phase: Phase,
    size: u32,
    cursor: u32,
    members: &[u32],
    one: &[Frac],
    two: &[Frac],
    steps: &mut Steps<L>,
) -> Result<Queue, Passed>
    requires state { IsStateOf p.now state.now }
    requires most { size ≤ 999 }
    requires one { HasDuals p.now state.now.standing Phase.One one.now }
    requires two { HasDuals p.now state.now.standing Phase.Two two.now }
    requires unwanted { WantsNoMember p.now state.now.standing phase one.now two.now members.now }
    requires distinct { AreDistinct members.now }
    ensures first { IfOk result (AreFirst cursor size (WantsNumber p.now state.now.standing phase one.now two.now)) }
    ensures passed { IfErr result (PassesIn (StateTerms p.now state.now.standing)) }
    ensures cost { steps.new + paid_members p.now phase members.now ≤ steps.old + paid p.now phase (count_priced p.now) }
{
    let mut found = Queue::empty();
    let count = priced_columns(p);
    let from = cursor.min(count);
    for t in 0..count {
        if found.items().len() >= size as usize {
            return Ok(found);
        }
        let number = number_in_turn(from, count, t);
        let comes = wants_other(p, state, phase, one, two, members, number, steps)?;
        push_if(&mut found, number, comes);
    }
    Ok(found)
}

// Adds a number that is not there, if so.
fn push_if(queue: &mut Queue, number: u32, so: bool)
    requires room { length queue.old < 999 }
    requires fresh { IsAmong number queue.old → ⊥ }
    ensures yes { so ≡ true → queue.new ≡ queue.old ++ number ∷ [] }
    ensures no { so ≡ false → queue.new ≡ queue.old }
{
    if so {
        queue.push(number);
    }
}
