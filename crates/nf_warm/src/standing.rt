//! The places of all columns of a saved session, by number.
ghost use Rattle.std.specs.Prelude.{◌≡◌, ◌≤◌, ◌++◌, ◌∷◌, [], length, map, replicate, OnOk};
ghost use Rattle.nf_basis.specs.declared.col.Place.TheVariants as place;
ghost use Rattle.nf_saved.specs.Reading.{artificial_place, places_read};
ghost use Rattle.nf_warm.specs.Standing.{count_of};

use nf_basis::Place;
use nf_prob::Problem;
use nf_saved::SavedArtificial;
use std::alloc::AllocError;

// Where an artificial stands.
fn artificial_place(artificial: SavedArtificial) -> Place
    ensures { result ≡ artificial_place artificial }
{
    if artificial.basic {
        Place::Basic
    } else {
        Place::Lower
    }
}

fn push_place(places: &mut Vec<Place>, place: Place) -> Result<(), AllocError>
    ensures { OnOk result (places.new.items ≡ places.old.items ++ place ∷ []) }
{
    places.push(place)?;
    Ok(())
}

// Adds the places of artificials.
fn push_artificials(
    places: &mut Vec<Place>,
    artificials: &[SavedArtificial],
) -> Result<(), AllocError>
    ensures { OnOk result (places.new.items ≡ places.old.items ++ map artificial_place artificials.now) }
{
    for artificial in artificials {
        push_place(places, artificial_place(*artificial))?;
    }
    Ok(())
}

// Adds n columns that are absent.
fn push_absent(places: &mut Vec<Place>, n: u32) -> Result<(), AllocError>
    ensures { OnOk result (places.new.items ≡ places.old.items ++ replicate n place.Absent) }
{
    for _ in 0..n {
        push_place(places, Place::Absent)?;
    }
    Ok(())
}

// Adds to the places of the given columns those of the slacks and of the artificials.
pub(crate) fn add_places(
    places: &mut Vec<Place>,
    p: &Problem,
    slacks: &[Place],
    artificials: &[SavedArtificial],
) -> Result<(), AllocError>
    requires slacks { length slacks.now ≡ length p.now.rows }
    requires artificials { length artificials.now ≤ length p.now.rows }
    ensures { OnOk result (places.new.items ≡ places_read p.now places.old.items slacks.now artificials.now) }
{
    let rows = p.rows();
    places.extend_from_slice(&slacks[p.nodes() as usize..])?;
    push_artificials(places, artificials)?;
    push_absent(places, rows - artificials.len() as u32)
}

// How many of the places are those of basic columns.
pub(crate) fn count_basic(places: &[Place]) -> usize
    ensures count { result ≡ count_of places.now }
    ensures most { result ≤ length places.now }
{
    let mut count = 0;
    for place in places {
        if *place == Place::Basic {
            count += 1;
        }
    }
    count
}
