//! The state of a saved session, from the places of its columns and its artificials.
ghost use Rattle.std.specs.Prelude.{◌≡◌, ◌<◌, ◌≤◌, length, slice_index_or, map, IfOk};
ghost use Rattle.nf_simplex.specs.Columns.{all_columns, col_at};
ghost use Rattle.nf_simplex.specs.Layout.{layout_of};
ghost use Rattle.nf_simplex.specs.Place as model;
ghost use Rattle.nf_simplex.specs.Standing as standing;
ghost use Rattle.nf_basis.specs.Kept.{IsStateOf, number};
ghost use Rattle.nf_basis.specs.Loading.{with_places};
ghost use Rattle.nf_basis.specs.Names.{col_of, named, place_of, stage_by, stage_of};
ghost use Rattle.nf_warm.specs.Standing.{HasPlace, HasPlaces, HasSigns, standing_of};

use nf_basis::{Col, Place, State};
use nf_prob::Problem;
use nf_saved::SavedArtificial;
use std::alloc::{AllocError, Global};

// The column with a number, from 0.
fn column_at(p: &Problem, at: usize) -> Col
    requires within { at < all_columns (layout_of p.now) }
    ensures column { col_of result ≡ col_at (layout_of p.now) at }
    ensures named { 0 < named result }
    ensures number { number p.now result ≡ at }
{
    let (columns, sides) = (p.columns() as usize, (p.rows() - p.nodes()) as usize);
    if at < columns {
        return Col::Given(at as u32 + 1);
    }
    if at < columns + sides {
        return Col::Slack(p.nodes() + (at - columns) as u32 + 1);
    }
    Col::Artificial((at - columns - sides) as u32 + 1)
}

// Puts the column with a number, from 0, in its place; one that the stage lacks is absent already.
fn put_place(state: &mut State, p: &Problem, at: usize, place: Place, places: &[Place])
    requires state { IsStateOf p.now state.old }
    requires fits { standing.IsStateOf p.now (with_places state.old.standing (map place_of places.now)) }
    requires within { at < length places.now }
    requires place { place_of place ≡ slice_index_or (map place_of places.now) at model.Absent }
    ensures { HasPlace p.now state.old state.new at (place_of place) }
{
    match place {
        Place::Absent => {}
        Place::Lower | Place::Upper | Place::Zero | Place::Basic => {
            state.set_place(p, column_at(p, at), place);
        }
    }
}

// Puts all columns in their places.
fn put_places(state: &mut State, p: &Problem, places: &[Place])
    requires state { IsStateOf p.now state.old }
    requires fits { standing.IsStateOf p.now (with_places state.old.standing (map place_of places.now)) }
    ensures { HasPlaces p.now state.old state.new (length places.now) places.now }
{
    for at in 0..places.len() {
        put_place(state, p, at, places[at], places);
    }
}

// Gives all artificials their signs.
fn put_signs(state: &mut State, p: &Problem, artificials: &[SavedArtificial])
    requires state { IsStateOf p.now state.old }
    requires many { length artificials.now ≡ length state.old.standing.negative }
    ensures { HasSigns p.now state.old state.new (length artificials.now) artificials.now }
{
    let _few = p.rows();
    for r in 0..artificials.len() {
        state.set_negative(r as u32 + 1, artificials[r].negative);
    }
}

// The number of a stage.
fn stage_number(two: bool) -> u8
    ensures stage { stage_of result ≡ stage_by two }
    ensures within { (0 < result) × (result ≤ 2) }
{
    if two { 2 } else { 1 }
}

// The state of a stage with these places and these artificials.
pub(crate) fn state_of(
    alloc: Global,
    p: &Problem,
    two: bool,
    places: &[Place],
    artificials: &[SavedArtificial],
) -> Result<State, AllocError>
    requires fits { standing.IsStateOf p.now (standing_of two places.now artificials.now) }
    ensures state { IfOk result (IsStateOf p.now) }
    ensures standing { IfOk result (λ s. s.standing ≡ standing_of two places.now artificials.now) }
{
    let mut state = State::new(alloc, p, stage_number(two))?;
    put_places(&mut state, p, places);
    put_signs(&mut state, p, artificials);
    Ok(state)
}
