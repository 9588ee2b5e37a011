//! The places of the columns, from CONIN and DUALIN.
ghost use Rattle.std.specs.Prelude.{◌≡◌, ◌<◌, ◌≤◌, ◌+◌, [], length, if◌then◌else◌, MatchResult, OnOk, Ok, Err, Some, None, ◌++◌, ◌∷◌};
ghost use Rattle.nf_basis.specs.declared.col.Place.TheVariants as place;
ghost use Rattle.nf_basis.specs.Names.{stage_by};
ghost use Rattle.nf_saved.specs.Reading.{columns_read, given_read, slack_read, slacks_read};
ghost use Rattle.nf_saved.specs.Statuses.{column_place, given_may, if_allowed, is_absent, may_stand, row_place, side_place, slack_may};
ghost use Rattle.nf_saved.specs.Rows.{each_read};
ghost use Rattle.nf_saved.specs.Values.{says_none};
ghost use Rattle.nf_warm.specs.Faults.{IsFaultOf};
ghost use Rattle.nf_warm.specs.Inside.{statuses_in, words_in};

use crate::fault::WarmFault;
use crate::values;
use itoa::Buffer;
use nf_basis::Place;
use nf_cells::trimmed;
use nf_frac::Frac;
use nf_prob::{Problem, RowKind};
use nf_saved::{SavedColumns, SavedFault, SavedSet};
use nf_table::Table;
use std::alloc::{AllocError, Global};

// Whether a column with these bounds may stand here.
fn may_stand(lower: Option<Frac>, upper: Option<Frac>, place: Place) -> bool
    ensures { result ≡ may_stand lower upper place }
{
    match place {
        Place::Lower => lower.is_some(),
        Place::Upper => upper.is_some(),
        Place::Zero => lower.is_none() && upper.is_none(),
        Place::Basic => true,
        Place::Absent => false,
    }
}

fn is_absent(place: Place) -> bool
    ensures { result ≡ is_absent place }
{
    match place {
        Place::Absent => true,
        Place::Lower | Place::Upper | Place::Zero | Place::Basic => false,
    }
}

// Whether given column j, from 0, may have this place in the stage.
fn given_may(p: &Problem, two: bool, j: u32, place: Place) -> bool
    requires column { j < length p.now.columns }
    ensures { result ≡ given_may p.now (stage_by two) j place }
{
    let _few = p.columns();
    if two || j < p.arcs() {
        return may_stand(p.lower(j + 1), p.upper(j + 1), place);
    }
    is_absent(place)
}

// The place of given column j, from 0: its row has its number, and a status that it may have.
#[tactic(auto, unfolding(nf_saved::specs::Statuses::column_place))]
fn column_place(p: &Problem, two: bool, j: u32, status: &[u8], number: &[u8]) -> Option<Place>
    requires column { j < length p.now.columns }
    ensures { result ≡ column_place p.now (stage_by two) j (record { status = status.now; number = number.now }) }
{
    let _few = p.columns();
    if number != Buffer::new().format(j + 1).as_bytes() {
        return None;
    }
    match values::place(status) {
        Some(place) if given_may(p, two, j, place) => Some(place),
        _ => None,
    }
}

fn slack_may(place: Place) -> bool
    ensures { result ≡ slack_may place }
{
    match place {
        Place::Lower | Place::Basic => true,
        Place::Upper | Place::Zero | Place::Absent => false,
    }
}

// No place, if a word says that there is no status.
fn no_place(word: &[u8]) -> Option<Place>
    ensures { result ≡ (if says_none word.now then Some place.Absent else None) }
{
    if values::is_none(word) {
        return Some(Place::Absent);
    }
    None
}

// The place that the row of a constraint gives, by its number from 0.
fn side_place(p: &Problem, two: bool, i: u32, word: &[u8]) -> Option<Place>
    requires row { i < length p.now.rows }
    ensures { result ≡ side_place p.now (stage_by two) i word.now }
{
    let _few = p.rows();
    if !two {
        return match values::place(word) {
            Some(place) if is_absent(place) => Some(place),
            _ => None,
        };
    }
    if p.kind(i + 1) == RowKind::Eq {
        return no_place(word);
    }
    match values::place(word) {
        Some(place) if slack_may(place) => Some(place),
        _ => None,
    }
}

// The place that row i, from 0, of DUALIN gives.
#[tactic(auto, unfolding(nf_saved::specs::Statuses::row_place))]
fn row_place(p: &Problem, two: bool, i: u32, word: &[u8]) -> Option<Place>
    requires row { i < length p.now.rows }
    ensures { result ≡ row_place p.now (stage_by two) i word.now }
{
    if i < p.nodes() {
        return no_place(word);
    }
    side_place(p, two, i, word)
}

// The place of given column j, from 0, or that its row is at fault.
#[tactic(auto, unfolding(nf_saved::specs::Reading::or_unfit))]
fn column_at(
    p: &Problem,
    two: bool,
    table: &Table,
    at: &SavedColumns,
    j: u32,
) -> Result<Place, SavedFault>
    requires status { at.now.status < length table.now.header }
    requires number { at.now.anumb < length table.now.header }
    requires column { j < length p.now.columns }
    requires row { j < length table.now.rows }
    ensures { result ≡ given_read p.now (stage_by two) (statuses_in table.now at.now) [] j }
{
    let _few = p.columns();
    let status = trimmed(table.cell(j + 1, at.status));
    let number = trimmed(table.cell(j + 1, at.anumb));
    match column_place(p, two, j, status, number) {
        Some(place) => Ok(place),
        None => Err(SavedFault::BadStatus(SavedSet::Conin, j + 1)),
    }
}

fn push_place(places: &mut Vec<Place>, place: Place) -> Result<(), AllocError>
    ensures { OnOk result (places.new.items ≡ places.old.items ++ place ∷ []) }
{
    places.push(place)?;
    Ok(())
}

// The places of the given columns, each from its row.
fn read_given(
    alloc: Global,
    p: &Problem,
    two: bool,
    table: &Table,
    at: &SavedColumns,
) -> Result<Vec<Place>, WarmFault>
    requires status { at.now.status < length table.now.header }
    requires number { at.now.anumb < length table.now.header }
    requires counted { length table.now.rows ≡ length p.now.columns }
    ensures { MatchResult result
        (λ v. each_read (given_read p.now (stage_by two) (statuses_in table.now at.now)) (length p.now.columns) 0 [] ≡ Ok v.items)
        (IsFaultOf (each_read (given_read p.now (stage_by two) (statuses_in table.now at.now)) (length p.now.columns) 0 [])) }
{
    let mut places = Vec::new(alloc);
    for j in 0..p.columns() {
        match column_at(p, two, table, at, j) {
            Ok(place) => push_place(&mut places, place)?,
            Err(fault) => return Err(WarmFault::Saved(fault)),
        }
    }
    Ok(places)
}

// The places of the given columns, from CONIN.
#[tactic(auto, unfolding(nf_saved::specs::Reading::columns_read, nf_saved::specs::Reading::if_counted))]
pub(crate) fn read_columns(
    alloc: Global,
    p: &Problem,
    two: bool,
    table: &Table,
    at: &SavedColumns,
) -> Result<Vec<Place>, WarmFault>
    requires status { at.now.status < length table.now.header }
    requires number { at.now.anumb < length table.now.header }
    ensures { MatchResult result
        (λ v. columns_read p.now (stage_by two) (statuses_in table.now at.now) ≡ Ok v.items)
        (IsFaultOf (columns_read p.now (stage_by two) (statuses_in table.now at.now))) }
{
    if table.rows() != p.columns() {
        return Err(WarmFault::Saved(SavedFault::WrongCount(SavedSet::Conin)));
    }
    read_given(alloc, p, two, table, at)
}

// The place that row i, from 0, gives, or that it is at fault.
#[tactic(auto, unfolding(nf_saved::specs::Reading::or_unfit))]
fn slack_at(
    p: &Problem,
    two: bool,
    table: &Table,
    at: &SavedColumns,
    i: u32,
) -> Result<Place, SavedFault>
    requires word { at.now.word < length table.now.header }
    requires problem_row { i < length p.now.rows }
    requires row { i < length table.now.rows }
    ensures { result ≡ slack_read p.now (stage_by two) (words_in table.now at.now) [] i }
{
    let _few = p.rows();
    let word = trimmed(table.cell(i + 1, at.word));
    match row_place(p, two, i, word) {
        Some(place) => Ok(place),
        None => Err(SavedFault::BadStatus(SavedSet::Dualin, i + 1)),
    }
}

// A place for each row, each from its row of the table.
fn read_sides(
    alloc: Global,
    p: &Problem,
    two: bool,
    table: &Table,
    at: &SavedColumns,
) -> Result<Vec<Place>, WarmFault>
    requires word { at.now.word < length table.now.header }
    requires counted { length table.now.rows ≡ length p.now.rows }
    ensures { MatchResult result
        (λ v. each_read (slack_read p.now (stage_by two) (words_in table.now at.now)) (length p.now.rows) 0 [] ≡ Ok v.items)
        (IsFaultOf (each_read (slack_read p.now (stage_by two) (words_in table.now at.now)) (length p.now.rows) 0 [])) }
{
    let mut places = Vec::new(alloc);
    for i in 0..p.rows() {
        match slack_at(p, two, table, at, i) {
            Ok(place) => push_place(&mut places, place)?,
            Err(fault) => return Err(WarmFault::Saved(fault)),
        }
    }
    Ok(places)
}

// A place for each row of the problem, from DUALIN: that of its slack if the stage has one.
#[tactic(auto, unfolding(nf_saved::specs::Reading::slacks_read, nf_saved::specs::Reading::if_counted))]
pub(crate) fn read_slacks(
    alloc: Global,
    p: &Problem,
    two: bool,
    table: &Table,
    at: &SavedColumns,
) -> Result<Vec<Place>, WarmFault>
    requires word { at.now.word < length table.now.header }
    ensures { MatchResult result
        (λ v. slacks_read p.now (stage_by two) (words_in table.now at.now) ≡ Ok v.items)
        (IsFaultOf (slacks_read p.now (stage_by two) (words_in table.now at.now))) }
{
    if table.rows() != p.rows() {
        return Err(WarmFault::Saved(SavedFault::WrongCount(SavedSet::Dualin)));
    }
    read_sides(alloc, p, two, table, at)
}
