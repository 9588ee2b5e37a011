//! A saved session, read from its three tables.
ghost use Rattle.std.specs.Prelude.{◌≡◌, MatchResult, IfOk, Ok};
ghost use Rattle.nf_model.specs.Problem.{IsProblem};
ghost use Rattle.nf_simplex.specs.Standing as standing;
ghost use Rattle.nf_basis.specs.Kept.{IsStateOf};
ghost use Rattle.nf_saved.specs.Reading.{if_basis, rows_read, session_read};
ghost use Rattle.nf_saved.specs.Session.{session_of};
ghost use Rattle.nf_session_table.specs.Growing.{carried_of};
ghost use Rattle.nf_warm.specs.Faults.{IsFaultOf};
ghost use Rattle.nf_warm.specs.Inside.{AreInside, rows_in, statuses_in, words_in};
ghost use Rattle.nf_warm.specs.Standing.{standing_of};

use crate::columns::find_columns;
use crate::fault::WarmFault;
use crate::places::{read_columns, read_slacks};
use crate::recorded::{Recorded, read_recorded, stage_rows};
use crate::standing::{add_places, count_basic};
use crate::state::state_of;
use nf_basis::{Place, State};
use nf_prob::Problem;
use nf_saved::{SavedColumns, SavedFault, SavedSet};
use nf_session_table::Carried;
use nf_table::Table;
use std::alloc::Global;

/// A saved session: its state, and what it carries besides.
#[derive(Drop)]
pub struct Saved {
    /// Where its columns stand.
    pub state: State,
    /// What it carries.
    pub carried: Carried,
}

// The session of what was recorded and of these places, if there are as many basic columns as rows of the stage.
#[tactic(auto, unfolding(nf_saved::specs::Reading::if_counted))]
fn finish(
    alloc: Global,
    p: &Problem,
    recorded: Recorded,
    places: &[Place],
) -> Result<Saved, WarmFault>
    requires fits { standing.IsStateOf p.now (standing_of recorded.two places.now recorded.artificials.items) }
    ensures answer { MatchResult result
        (λ s. if_basis p.now (session_of (standing_of recorded.two places.now recorded.artificials.items) (carried_of recorded.carried)) ≡ Ok (session_of s.state.standing (carried_of s.carried)))
        (IsFaultOf (if_basis p.now (session_of (standing_of recorded.two places.now recorded.artificials.items) (carried_of recorded.carried)))) }
    ensures state { IfOk result (λ s. IsStateOf p.now s.state) }
{
    let rows = stage_rows(p, recorded.two);
    if count_basic(places) != rows as usize {
        return Err(WarmFault::Saved(SavedFault::WrongCount(SavedSet::Session)));
    }
    let state = state_of(
        alloc,
        p,
        recorded.two,
        places,
        recorded.artificials.as_slice(),
    )?;
    Ok(Saved {
        state,
        carried: recorded.carried,
    })
}

// The session of the rows of the three tables.
#[tactic(auto, unfolding(nf_saved::specs::Reading::rows_read, nf_saved::specs::Rows::and_then))]
fn read_rows(
    alloc: Global,
    p: &Problem,
    conin: &Table,
    dualin: &Table,
    session: &Table,
    at: &SavedColumns,
) -> Result<Saved, WarmFault>
    requires inside { AreInside conin.now dualin.now session.now at.now }
    ensures answer { MatchResult result
        (λ s. rows_read p.now (rows_in session.now at.now) (statuses_in conin.now at.now) (words_in dualin.now at.now) ≡ Ok (session_of s.state.standing (carried_of s.carried)))
        (IsFaultOf (rows_read p.now (rows_in session.now at.now) (statuses_in conin.now at.now) (words_in dualin.now at.now))) }
    ensures state { IfOk result (λ s. IsStateOf p.now s.state) }
{
    let _problem = p.rows();
    let recorded = read_recorded(alloc, p, session, at)?;
    let mut places = read_columns(alloc, p, recorded.two, conin, at)?;
    let slacks = read_slacks(alloc, p, recorded.two, dualin, at)?;
    let artificials = recorded.artificials.as_slice();
    add_places(&mut places, p, slacks.as_slice(), artificials)?;
    finish(alloc, p, recorded, places.as_slice())
}

/// The session that is saved in three tables: CONIN and DUALIN are a CONOUT and a DUALOUT that were saved under FUTURE2,
/// and `session` is a SESSIONOUT, in version 1 or 2. Only the columns `_STATUS_` and `_ANUMB_` of CONIN, `_STATUS_` of
/// DUALIN, and `_KEY_`, `_NUMBER_` and `_VALUE_` of SESSIONDATA are looked at.
///
/// `Saved` is their first fault, in this order: a column that is missing; the first row of SESSIONDATA that is not the one
/// that is due, with a value of its kind; CONIN, and then DUALIN, without a row for each column or row of the problem, or a
/// row without its number or with a status that it may not have; not as many basic columns as rows of the stage. `NoMemory`
/// if out of memory.
#[tactic(auto, unfolding(nf_saved::specs::Reading::session_read, nf_saved::specs::Rows::and_then))]
pub fn read_saved(
    alloc: Global,
    p: &Problem,
    conin: &Table,
    dualin: &Table,
    session: &Table,
) -> Result<Saved, WarmFault>
    ensures answer { MatchResult result
        (λ s. session_read p.now conin.now dualin.now session.now ≡ Ok (session_of s.state.standing (carried_of s.carried)))
        (IsFaultOf (session_read p.now conin.now dualin.now session.now)) }
    ensures state { IfOk result (λ s. IsStateOf p.now s.state) }
{
    let at = find_columns(conin, dualin, session)?;
    read_rows(alloc, p, conin, dualin, session, &at)
}
