//! What a pivot and a flip do to the numbers of a dense basis.
ghost use Rattle.std.specs.Prelude.{◌≡◌, ◌≢◌, ◌+◌, ◌*◌, ◌<◌, ◌≤◌, length, set, IfOk, IfErr};
ghost use Rattle.nf_inverse.specs.Weights as inverses;
ghost use Rattle.nf_sums.specs.Terms.{PassesIn};
ghost use Rattle.nf_simplex.specs.Changes as changes;
ghost use Rattle.nf_simplex.specs.Place as model;
ghost use Rattle.nf_simplex.specs.Standing.{rows_of};
ghost use Rattle.nf_basis.specs.Names.{col_of, place_of};
ghost use Rattle.nf_basis.specs.Kept.{CanFlip, IsBoundOf, IsNonbasic, IsStateOf};
ghost use Rattle.nf_basis.specs.Numbers.{HasEntryAt, in_slot};
ghost use Rattle.nf_basis.specs.Arising.{StateTerms};
ghost use Rattle.nf_basis.specs.Dense.{HasParts};
ghost use Rattle.nf_basis.specs.Duals.{IsPivotRow};

use crate::col::{Col, Place};
use crate::columns::{bound, resting_number, weights_of};
use crate::slots::column_in;
use crate::state::State;
use nf_frac::{Frac, Passed, Steps};
use nf_inverse::{Inverse, exchange_values, flip_values};
use nf_prob::Problem;
use std::sync::ledger::Ledger;

/// The other of two bounds; other places stay.
pub fn other_bound(place: Place) -> Place
    ensures { place_of result ≡ changes.other_bound (place_of place) }
{
    match place {
        Place::Lower => Place::Upper,
        Place::Upper => Place::Lower,
        Place::Zero => Place::Zero,
        Place::Basic => Place::Basic,
        Place::Absent => Place::Absent,
    }
}

/// The numbers of a basis after a column has entered for the one in a slot, which goes to a bound. `work` is room for a
/// column.
pub(crate) fn exchange<L: Ledger>(
    p: &Problem,
    state: &State,
    slots: &[Col],
    inverse: &mut Inverse,
    values: &mut [Frac],
    work: &mut [Frac],
    entering: Col,
    slot: usize,
    to: Place,
    steps: &mut Steps<L>,
) -> Result<(), Passed>
    requires state { IsStateOf p.now state.now }
    requires parts { HasParts p.now state.now.standing slots.now inverse.old values.old }
    requires room { length work.old ≡ rows_of p.now state.now.standing }
    requires entering { IsNonbasic p.now state.now.standing entering }
    requires within { slot < length slots.now }
    requires entry { HasEntryAt p.now state.now.standing slots.now entering slot }
    requires bound { IsBoundOf p.now (in_slot slots.now slot) (place_of to) }
    ensures parts { IfOk result (λ _. HasParts p.now (changes.exchanged p.now state.now.standing (col_of entering) (col_of (in_slot slots.now slot)) (place_of to)) (set slots.now slot entering) inverse.new values.new) }
    ensures row { IfOk result (λ _. IsPivotRow p.now state.now.standing entering (in_slot slots.now slot) (place_of to) (inverses.weights_of inverse.new slot)) }
    ensures passed { IfErr result (PassesIn (StateTerms p.now state.now.standing)) }
    ensures cost { steps.new ≤ steps.old + (length slots.now * (4 * length slots.now) + (3 * length slots.now + 3)) }
{
    let place = state.place(entering);
    let from = resting_number(p, state, entering, place);
    let leaving = column_in(slots, slot);
    let until = bound(p, state, leaving, to);
    weights_of(inverse, p, state, entering, work, steps)?;
    exchange_values(values, work, slot, until, from, steps)?;
    inverse.exchange(work, slot, steps)?;
    Ok(())
}

/// Whether a column that leaves this bound for the other one falls.
pub fn goes_down(place: Place) -> bool
    ensures { result ≡ model.goes_down (place_of place) }
{
    match place {
        Place::Upper => true,
        Place::Lower => false,
        Place::Zero => false,
        Place::Basic => false,
        Place::Absent => false,
    }
}

/// The values of a basis after a nonbasic column has gone to its other bound. `work` is room for a column.
pub(crate) fn shift<L: Ledger>(
    p: &Problem,
    state: &State,
    slots: &[Col],
    inverse: &Inverse,
    values: &mut [Frac],
    work: &mut [Frac],
    entering: Col,
    steps: &mut Steps<L>,
) -> Result<(), Passed>
    requires state { IsStateOf p.now state.now }
    requires parts { HasParts p.now state.now.standing slots.now inverse.now values.old }
    requires room { length work.old ≡ rows_of p.now state.now.standing }
    requires entering { CanFlip p.now state.now.standing entering }
    ensures parts { IfOk result (λ _. HasParts p.now (changes.flipped p.now state.now.standing (col_of entering)) slots.now inverse.now values.new) }
    ensures passed { IfErr result (PassesIn (StateTerms p.now state.now.standing)) }
    ensures cost { steps.new ≤ steps.old + (length slots.now * (2 * length slots.now) + (2 * length slots.now + 1)) }
{
    let falls = goes_down(state.place(entering));
    let lower = bound(p, state, entering, Place::Lower);
    let upper = bound(p, state, entering, Place::Upper);
    let distance = upper.sub(lower, steps)?;
    weights_of(inverse, p, state, entering, work, steps)?;
    flip_values(values, work, distance, falls, steps)?;
    Ok(())
}
