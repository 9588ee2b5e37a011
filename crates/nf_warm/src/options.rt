//! The session options, from SESSIONDATA.
ghost use Rattle.std.specs.Prelude.{◌≡◌, ◌<◌, ◌≤◌, IfOk};
ghost use Rattle.nf_saved.specs.Rows.{options_read, sizes_read};
ghost use Rattle.nf_warm.specs.Inside.{HasRows, rows_in};

use crate::rows::{count_pair, flag_pair, flag_row, rule_pair};
use nf_program::SessionOptions;
use nf_saved::{SavedColumns, SavedFault};
use nf_table::Table;

// Limits and pauses have at most nine digits.
const MOST_COUNT: u64 = 999_999_999;

// The sizes of the queues; in version 1 they are 10.
#[tactic(auto, unfolding(nf_saved::specs::Rows::sizes_read))]
fn read_sizes(table: &Table, at: &SavedColumns, queued: bool) -> Result<(u64, u64), SavedFault>
    requires inside { HasRows table.now at.now }
    ensures read { result ≡ sizes_read queued (rows_in table.now at.now) }
    ensures within { IfOk result (λ n. (n.0 ≤ 999) × (n.1 ≤ 999)) }
{
    if !queued {
        return Ok((10, 10));
    }
    count_pair(table, at, 17, "QUEUESIZE", 1, 999)
}

#[tactic(auto, unfolding(nf_saved::specs::Rows::options_read, nf_saved::specs::Rows::and_then))]
pub(crate) fn read_options(
    table: &Table,
    at: &SavedColumns,
    queued: bool,
) -> Result<SessionOptions, SavedFault>
    requires inside { HasRows table.now at.now }
    ensures { result ≡ options_read queued (rows_in table.now at.now) }
{
    let maxit = count_pair(table, at, 6, "MAXIT", 0, MOST_COUNT)?;
    let pause = count_pair(table, at, 8, "PAUSE", 0, MOST_COUNT)?;
    let feasible = flag_pair(table, at, 10, "FEASIBLEPAUSE")?;
    let endpause1 = flag_row(table, at, 12, "ENDPAUSE", 1)?;
    let future = flag_pair(table, at, 13, "FUTURE")?;
    let pricetype = rule_pair(table, at, queued)?;
    let sizes = read_sizes(table, at, queued)?;
    Ok(SessionOptions {
        maxit1: maxit.0 as u32,
        maxit2: maxit.1 as u32,
        pause1: pause.0 as u32,
        pause2: pause.1 as u32,
        feasiblepause1: feasible.0,
        feasiblepause2: feasible.1,
        endpause1,
        future1: future.0,
        future2: future.1,
        pricetype1: pricetype.0,
        pricetype2: pricetype.1,
        queuesize1: sizes.0 as u32,
        queuesize2: sizes.1 as u32,
    })
}
