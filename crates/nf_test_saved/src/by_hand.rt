// One session of a network of three arcs after its first pivot, its tables typed by hand.

use nf_frac::Frac;
use nf_io::Text;
use nf_prob::{Problem, ProblemBuilder};
use nf_saved::{SavedFault, SavedSet};
use nf_session_table::sessionout;
use nf_table::{Table, read_table, write_table};
use nf_warm::{WarmFault, read_saved};
use std::alloc::Global;
use std::test::Fail;

const CONIN: &str = "_STATUS_,_ANUMB_\nLOWERBD,1\nbasic,2\nLOWERBD,3\n";

const DUALIN: &str = "_STATUS_\nNONE\nNONE\nNONE\n";

// The rows of SESSIONDATA in version 2, after the header.
const ROWS: [&str; 23] = [
    "VERSION,1,2",
    "STAGE,1,1",
    "PIVOTS,1,1",
    "PIVOTS,2,0",
    "CURSOR,1,2",
    "LAST,1,PIVOT",
    "MAXIT,1,1000000",
    "MAXIT,2,1000000",
    "PAUSE,1,0",
    "PAUSE,2,0",
    "FEASIBLEPAUSE,1,0",
    "FEASIBLEPAUSE,2,0",
    "ENDPAUSE,1,0",
    "FUTURE,1,0",
    "FUTURE,2,1",
    "PRICETYPE,1,FIRST",
    "PRICETYPE,2,FIRST",
    "QUEUESIZE,1,10",
    "QUEUESIZE,2,10",
    "QLENGTH,1,0",
    "ARTIF,1,+B",
    "ARTIF,2,+L",
    "ARTIF,3,-B",
];

// Arcs 1 from node 1 to 2, 2 from node 2 to 3, and 3 from node 1 to 3, with the costs 1, 1 and 3; node 1 has 4 and node 3
// needs them.
fn network(alloc: Global) -> Result<Problem, Fail> {
    let (zero, four) = (Frac::zero(), Frac::from_whole(4));
    let mut builder = ProblemBuilder::new(alloc, false);
    builder.add_node(four)?;
    builder.add_node(zero)?;
    builder.add_node(four.neg())?;
    builder.add_column(1, 2, Frac::from_whole(1), Some(zero), None)?;
    builder.add_column(2, 3, Frac::from_whole(1), Some(zero), None)?;
    builder.add_column(1, 3, Frac::from_whole(3), Some(zero), None)?;
    Ok(builder.finish()?)
}

// The text of SESSIONDATA with another row, which counts from 1; in version 1 without the rows of queues.
fn session_text(alloc: Global, old: bool, row: usize, line: &str) -> Result<Vec<u8>, Fail> {
    let mut text = Vec::new(alloc);
    text.extend_from_slice(b"_KEY_,_NUMBER_,_VALUE_\n")?;
    for (k, own) in ROWS.iter().enumerate() {
        if old && 17 <= k && k < 20 {
            continue;
        }
        text.extend_from_slice(if k + 1 == row { line } else { own }.as_bytes())?;
        text.extend_from_slice(b"\n")?;
    }
    Ok(text)
}

fn table_of(alloc: Global, text: &[u8]) -> Result<Table, Fail> {
    let table = read_table(alloc, text)?;
    Ok(table)
}

// The text of SESSIONOUT of the session that is read, or the fault.
#[tactic(auto, unfolding(nf_saved::specs::SessionTable::session_grid))]
fn written_again(
    alloc: Global,
    conin: &str,
    dualin: &str,
    session: &[u8],
) -> Result<Result<Text, WarmFault>, Fail> {
    let p = network(alloc)?;
    let conin = table_of(alloc, conin.as_bytes())?;
    let dualin = table_of(alloc, dualin.as_bytes())?;
    let session = table_of(alloc, session)?;
    let saved = match read_saved(alloc, &p, &conin, &dualin, &session) {
        Ok(saved) => saved,
        Err(fault) => return Ok(Err(fault)),
    };
    let table = sessionout(alloc, &p, &saved.state, &saved.carried)?;
    Ok(Ok(write_table(alloc, &table)?))
}

// The fault of the session with another row.
fn fault_with(alloc: Global, row: usize, line: &str) -> Result<Option<WarmFault>, Fail> {
    let text = session_text(alloc, false, row, line)?;
    match written_again(alloc, CONIN, DUALIN, text.as_slice())? {
        Ok(_) => Ok(None),
        Err(fault) => Ok(Some(fault)),
    }
}

#[test]
fn is_written_as_it_was(rt: HostRuntime) -> Result<(), Fail> {
    let alloc = rt.alloc();
    let new = session_text(alloc, false, 1, "VERSION,1,2")?;
    let old = session_text(alloc, true, 1, "VERSION,1,1")?;
    for session in [new.as_slice(), old.as_slice()] {
        match written_again(alloc, CONIN, DUALIN, session)? {
            Ok(text) => assert_eq!(rt; text.bytes(), new.as_slice()),
            Err(_) => assert!(rt; false),
        }
    }
    Ok(())
}

#[test]
fn a_row_is_at_fault(rt: HostRuntime) -> Result<(), Fail> {
    for (row, line) in [
        (1, "VERSION,1,7"),
        (1, "VERSION,2,2"),
        // There is no stage two, and so no pivots of it.
        (2, "STAGE,1,2"),
        (4, "PIVOTS,2,1"),
        (3, "PIVOTS,1,1000000000000000000"),
        // Three columns have a number.
        (5, "CURSOR,1,4"),
        (6, "LAST,1,STAGEONE"),
        (6, "LAST,1,pivot"),
        (7, "MAXIT,1,01"),
        (14, "FUTURE,1,2"),
        (16, "PRICETYPE,1,first"),
        (18, "QUEUESIZE,1,0"),
        (22, "ARTIF,2,+U"),
    ] {
        let fault = fault_with(rt.alloc(), row, line)?;
        assert_eq!(rt;
            fault,
            Some(WarmFault::Saved(SavedFault::BadSession(row as u32)))
        );
    }
    // A member of the queue is due, and an artificial stands there.
    let fault = fault_with(rt.alloc(), 20, "QLENGTH,1,1")?;
    assert_eq!(rt; fault, Some(WarmFault::Saved(SavedFault::BadSession(21))));
    Ok(())
}

#[test]
fn a_table_is_at_fault(rt: HostRuntime) -> Result<(), Fail> {
    let alloc = rt.alloc();
    // Two columns are basic, and three rows have to have one.
    let fault = fault_with(alloc, 23, "ARTIF,3,-L")?;
    assert_eq!(rt;
        fault,
        Some(WarmFault::Saved(SavedFault::WrongCount(SavedSet::Session)))
    );
    let session = session_text(alloc, false, 1, "VERSION,1,2")?;
    for (conin, dualin, fault) in [
        (
            "_STATUS_,_ANUMB_\nLOWERBD,1\nBASIC,2\n",
            DUALIN,
            SavedFault::WrongCount(SavedSet::Conin),
        ),
        (
            "_STATUS_,_ANUMB_\nLOWERBD,1\nBASIC,3\nLOWERBD,3\n",
            DUALIN,
            SavedFault::BadStatus(SavedSet::Conin, 2),
        ),
        // An arc has a lower bound, so it is never at zero.
        (
            "_STATUS_,_ANUMB_\nLOWERBD,1\nBASIC,2\nZERO,3\n",
            DUALIN,
            SavedFault::BadStatus(SavedSet::Conin, 3),
        ),
        (
            CONIN,
            "_STATUS_\nNONE\nNONE\nABSENT\n",
            SavedFault::BadStatus(SavedSet::Dualin, 3),
        ),
        (
            CONIN,
            "_STATUS_\nNONE\n",
            SavedFault::WrongCount(SavedSet::Dualin),
        ),
    ] {
        match written_again(alloc, conin, dualin, session.as_slice())? {
            Ok(_) => assert!(rt; false),
            Err(found) => assert_eq!(rt; found, WarmFault::Saved(fault)),
        }
    }
    Ok(())
}
