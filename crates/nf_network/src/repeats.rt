//! The first arc that repeats another.
ghost use Rattle.std.specs.Prelude.{◌≡◌, ◌/◌, ◌<◌, length, get_or, IfOk};
ghost use Rattle.nf_network.specs.Keys.{no_key};
ghost use Rattle.nf_network.specs.Repeats.{AreShared, IsFirstRepeat, place_of_ends};

use crate::key_set::KeySet;
use crate::keys::ArcKeys;
use nf_bits::BitSet;
use nf_cells::Name;
use std::alloc::{AllocError, Global};

// More than the nodes that there may be, so that other ends have another number.
const ROW: usize = 20_011;

// So few arcs share a place by chance.
const PLACES_PER_ARC: usize = 16;

/// The number of the first arc, from 0, that repeats one before it: the same ends under the same name.
///
/// Arcs with the same ends have the same place among many (Bloom, 1970). Only those whose place is another's too are
/// looked for by their names, so that mostly few names are looked at.
pub(crate) fn first_repeat(alloc: Global, keys: &ArcKeys) -> Result<Option<usize>, AllocError>
    ensures { IfOk result (IsFirstRepeat keys.now) }
{
    let places = keys.len().saturating_mul(PLACES_PER_ARC).saturating_add(1);
    let shared = shared_places(alloc, keys, places)?;
    first_repeat_among(alloc, keys, places, &shared)
}

// The same, where these places are those that several arcs have.
fn first_repeat_among(
    alloc: Global,
    keys: &ArcKeys,
    places: usize,
    shared: &BitSet,
) -> Result<Option<usize>, AllocError>
    requires some { 0 < places }
    requires room { places / 64 < length shared.now }
    requires shared { AreShared shared.now places keys.now }
    ensures { IfOk result (IsFirstRepeat keys.now) }
{
    let mut seen = KeySet::new(alloc);
    for i in 0..keys.len() {
        let (tail, head) = keys.ends(i);
        if shared.has(place(tail, head, places)) {
            let name = Name::from_slice(alloc, keys.name(i))?;
            if !seen.add(tail, head, name)? {
                return Ok(Some(i));
            }
        }
    }
    Ok(None)
}

// The place of an arc's ends among so many.
fn place(tail: usize, head: usize, places: usize) -> usize
    requires { 0 < places }
    ensures value { result ≡ place_of_ends places tail head }
    ensures within { result < places }
{
    tail.wrapping_mul(ROW).wrapping_add(head) % places
}

// The places that several arcs have.
fn shared_places(alloc: Global, keys: &ArcKeys, places: usize) -> Result<BitSet, AllocError>
    requires { 0 < places }
    ensures len { IfOk result (λ s. places / 64 < length s) }
    ensures shared { IfOk result (λ s. AreShared s places keys.now) }
{
    let mut taken = BitSet::new(alloc, places)?;
    let mut shared = BitSet::new(alloc, places)?;
    for i in 0..keys.len() {
        let (tail, head) = keys.ends(i);
        let at = place(tail, head, places);
        if taken.has(at) {
            shared.insert(at);
        }
        taken.insert(at);
    }
    Ok(shared)
}
