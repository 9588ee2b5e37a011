// What a pivot and a flip do to the values of a tree.
ghost use Rattle.std.specs.Prelude.{◌≡◌, ◌≢◌, ℕ, suc, ◌+◌, ◌-◌, ◌*◌, ◌<◌, ◌≤◌, List, length, set, IfOk, IfErr};
ghost use Rattle.nf_num.specs.Rational.{ℚ};
ghost use Rattle.nf_sums.specs.Terms.{PassesIn};
ghost use Rattle.nf_simplex.specs.Changes as changes;
ghost use Rattle.nf_simplex.specs.StageOf.{StageOne};
ghost use Rattle.nf_basis.specs.Names.{col_of, place_of};
ghost use Rattle.nf_basis.specs.Kept.{CanFlip, IsBoundOf, IsNonbasic, IsPresent, IsStateOf};
ghost use Rattle.nf_basis.specs.Numbers.{AreEntriesBySlot, HasEntryAt, in_slot};
ghost use Rattle.nf_basis.specs.Arising.{StateTerms};
ghost use Rattle.nf_basis.specs.Dense.{HasBasics};
ghost use Rattle.nf_tree.specs.Links.{IsTreeOf};

use crate::ends::{column_in, head_of, tail_of};
use crate::path::path_between;
use nf_basis::{Col, Place, State, bound, goes_down, resting_number};
use nf_frac::{Frac, Passed, Steps};
use nf_inverse::{exchange_values, flip_values};
use nf_links::Links;
use nf_prob::Problem;
use std::sync::ledger::Ledger;

/// The entries of a present column, by slot: those of the path from its tail to its head.
pub(crate) fn entries_of<L: Ledger>(
    p: &Problem,
    state: &State,
    slots: &[Col],
    values: &[Frac],
    order: &[usize],
    links: &Links,
    col: Col,
    out: &mut [Frac],
    steps: &mut Steps<L>,
)
    requires state { IsStateOf p.now state.now }
    requires stage { state.now.standing.stage ≡ StageOne }
    requires held { HasBasics p.now state.now.standing slots.now values.now }
    requires tree { IsTreeOf p.now state.now.standing slots.now order.now links.now }
    requires present { IsPresent p.now state.now.standing col }
    requires places { length out.old ≡ p.now.nodes }
    ensures long { length out.new ≡ p.now.nodes }
    ensures entries { AreEntriesBySlot p.now state.now.standing slots.now col out.new }
    ensures cost { steps.new ≤ steps.old + 6 * p.now.nodes + 2 }
{
    let from = tail_of(p, state, col);
    let to = head_of(p, state, col);
    path_between(p, state, slots, order, links, from, to, out, steps);
}

/// The values after a column has entered for the one in a slot, which goes to a bound. `work` is room for a column: it
/// gets the entries of the entering one.
pub(crate) fn exchange<L: Ledger>(
    p: &Problem,
    state: &State,
    slots: &[Col],
    order: &[usize],
    links: &Links,
    values: &mut [Frac],
    work: &mut [Frac],
    entering: Col,
    slot: usize,
    to: Place,
    steps: &mut Steps<L>,
) -> Result<(), Passed>
    requires state { IsStateOf p.now state.now }
    requires stage { state.now.standing.stage ≡ StageOne }
    requires held { HasBasics p.now state.now.standing slots.now values.old }
    requires tree { IsTreeOf p.now state.now.standing slots.now order.now links.now }
    requires room { length work.old ≡ p.now.nodes }
    requires entering { IsNonbasic p.now state.now.standing entering }
    requires within { slot < length slots.now }
    requires entry { HasEntryAt p.now state.now.standing slots.now entering slot }
    requires bound { IsBoundOf p.now (in_slot slots.now slot) (place_of to) }
    ensures held { IfOk result (λ _. HasBasics p.now (changes.exchanged p.now state.now.standing (col_of entering) (col_of (in_slot slots.now slot)) (place_of to)) (set slots.now slot entering) values.new) }
    ensures long { length values.new ≡ length values.old }
    ensures room { length work.new ≡ p.now.nodes }
    ensures entries { IfOk result (λ _. AreEntriesBySlot p.now state.now.standing slots.now entering work.new) }
    ensures passed { IfErr result (PassesIn (StateTerms p.now state.now.standing)) }
    ensures cost { steps.new ≤ steps.old + 8 * p.now.nodes + 5 }
{
    let place = state.place(entering);
    let from = resting_number(p, state, entering, place);
    let leaving = column_in(slots, slot);
    let until = bound(p, state, leaving, to);
    entries_of(p, state, slots, values, order, links, entering, work, steps);
    exchange_values(values, work, slot, until, from, steps)?;
    Ok(())
}

/// The values after a nonbasic column has gone to its other bound. `work` is room for a column.
pub(crate) fn shift<L: Ledger>(
    p: &Problem,
    state: &State,
    slots: &[Col],
    order: &[usize],
    links: &Links,
    values: &mut [Frac],
    work: &mut [Frac],
    entering: Col,
    steps: &mut Steps<L>,
) -> Result<(), Passed>
    requires state { IsStateOf p.now state.now }
    requires stage { state.now.standing.stage ≡ StageOne }
    requires held { HasBasics p.now state.now.standing slots.now values.old }
    requires tree { IsTreeOf p.now state.now.standing slots.now order.now links.now }
    requires room { length work.old ≡ p.now.nodes }
    requires entering { CanFlip p.now state.now.standing entering }
    ensures held { IfOk result (λ _. HasBasics p.now (changes.flipped p.now state.now.standing (col_of entering)) slots.now values.new) }
    ensures long { length values.new ≡ length values.old }
    ensures room { length work.new ≡ p.now.nodes }
    ensures passed { IfErr result (PassesIn (StateTerms p.now state.now.standing)) }
    ensures cost { steps.new ≤ steps.old + 8 * p.now.nodes + 3 }
{
    let falls = goes_down(state.place(entering));
    let lower = bound(p, state, entering, Place::Lower);
    let upper = bound(p, state, entering, Place::Upper);
    let distance = upper.sub(lower, steps)?;
    entries_of(p, state, slots, values, order, links, entering, work, steps);
    flip_values(values, work, distance, falls, steps)?;
    Ok(())
}
