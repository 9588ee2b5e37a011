//! The table of a session.
ghost use Rattle.std.specs.Prelude.{◌≡◌, IfOk};
ghost use Rattle.nf_basis.specs.Kept.{IsStateOf};
ghost use Rattle.nf_saved.specs.Session.{session_of};
ghost use Rattle.nf_saved.specs.SessionTable.{session_grid};
ghost use Rattle.nf_session_table.specs.Growing.{carried_of};

use crate::carried::Carried;
use crate::cells::push_header;
use crate::sections::{push_artificials, push_head, push_options, push_queue};
use nf_basis::State;
use nf_prob::Problem;
use nf_table::Table;
use std::alloc::{AllocError, Global};

/// SESSIONOUT: the table in which a session is saved, in version 2. Its columns are `_KEY_`, `_NUMBER_` and `_VALUE_`; its
/// rows say the version, the stage, the pivots, the cursor and the last halt, then the session options, then the candidate
/// queue, and then each artificial of the stage with its sign and whether it is basic.
///
/// With CONOUT and DUALOUT under FUTURE2 it is read as this session, by the law `saved_tables_are_read` of nf_saved.
/// `AllocError` if out of memory.
pub fn sessionout(
    alloc: Global,
    p: &Problem,
    state: &State,
    carried: &Carried,
) -> Result<Table, AllocError>
    requires state { IsStateOf p.now state.now }
    ensures table { IfOk result (λ t. t ≡ session_grid p.now (session_of state.now.standing (carried_of carried.now))) }
{
    let mut table = Table::new(alloc);
    push_header(&mut table)?;
    push_head(&mut table, state, carried)?;
    push_options(&mut table, &carried.options)?;
    push_queue(&mut table, carried.queue.items())?;
    push_artificials(&mut table, p, state)?;
    Ok(table)
}
