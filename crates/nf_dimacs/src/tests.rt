//! Texts and what they read as.
ghost use Rattle.std.specs.Prelude.{◌≤◌, length};

use crate::{DimacsFault, read_dimacs};
use nf_table::Table;
use std::alloc::{AllocError, Global};
use std::str;
use std::test::Fail;

// A row a text, with its line feeds as bars; and what it reads as: the rows of its arcs and of its nodes, or its fault.
const TEXTS: [(&str, &str); 58] = [
    // worked problems
    (
        "p min 2 1|n 1 5|n 2 -5|a 1 2 0 10 2|",
        "1,2,x1,2,10,0/ 1,5/2,-5/",
    ),
    ("p min 2 1|n 1 5|n 2 -4|a 1 2 0 10 2|", "5 Unbalanced"),
    ("p min 0 0|", " "),
    ("p min 3 0", " 1,0/2,0/3,0/"),
    (
        "c a|p min 2 2|a 2 2 -3 0 -7|n 2 0|a 1 2 4 4 999999999|",
        "2,2,x1,-7,0,-3/1,2,x2,999999999,4,4/ 1,0/2,0/",
    ),
    (
        "p min 2 1|a 001 02 -0 007 -000000001",
        "1,2,x1,-1,7,0/ 1,0/2,0/",
    ),
    ("p min 3 0|n 3 -2|n 1 1|n 2 1|", " 1,1/2,1/3,-2/"),
    // lines and fields
    ("", "1 NoProblem"),
    ("|", "2 NoProblem"),
    ("||", "3 NoProblem"),
    ("c", "2 NoProblem"),
    (" \t|cost of it|c1 p|\tcc|x", "5 BadLine"),
    ("\r|c\r|\tp\t min  1\t0 \r|\r|", " 1,0/"),
    ("p min 1 0\r", "1 Number"),
    ("\r", "1 BadLine"),
    ("p min 1 0 |  ", " 1,0/"),
    ("p min 1 0\r\r|", "1 Number"),
    ("pmin 1 0", "1 BadLine"),
    // BadLine
    ("p min 1", "1 BadLine"),
    ("p min 1 0 0", "1 BadLine"),
    ("p max 1 0", "1 BadLine"),
    ("p mi 1 0", "1 BadLine"),
    ("P min 1 0", "1 BadLine"),
    ("p", "1 BadLine"),
    ("p min 1 0|p min 1 0", "2 BadLine"),
    ("p min 1 0|p min x 0", "2 BadLine"),
    ("n 1 0|p min 1 0", "1 BadLine"),
    ("a x 1 0 0 0|p min 1 0", "1 BadLine"),
    ("p min 1 0|n 1", "2 BadLine"),
    ("p min 1 0|n 1 0 0", "2 BadLine"),
    ("p min 1 0|a 1 1 0 0", "2 BadLine"),
    ("p min 1 0|a 1 1 0 0 0 0", "2 BadLine"),
    ("p min 1 0|aa 1 1 0 0 0", "2 BadLine"),
    // Number
    ("p min x 0", "1 Number"),
    ("p min -1 0", "1 Number"),
    ("p min 99999 -1", "1 Number"),
    ("p min -0 -0", " "),
    ("p min 1234567890 0", "1 Number"),
    ("p min 0000000001 0", "1 Number"),
    ("p min 1 0|n 1 +1", "2 Number"),
    ("p min 1 0|n 9 -", "2 Number"),
    ("p min 1 0|n 1 1.0", "2 Number"),
    ("p min 1 0|a 1 1 0 0 --1", "2 Number"),
    ("p min 1 0|a 9 1 5 -1 1e2", "2 Number"),
    // the other faults of a line
    ("p min 20001 0", "1 LimitPassed"),
    ("p min 0 200001", "1 LimitPassed"),
    ("p min 1 0|n 0 1", "2 Node"),
    ("p min 1 0|n 2 1", "2 Node"),
    ("p min 1 0|a 1 -1 0 -1 0", "2 Node"),
    ("p min 1 0|a 2 1 0 -1 0", "2 Node"),
    ("p min 1 0|n 1 0|n 1 0|", "3 RepeatedNode"),
    ("p min 1 1|a 1 1 -5 -1 0", "2 Negative"),
    ("p min 1 1|a 1 1 5 -1 0", "2 Negative"),
    ("p min 1 1|a 1 1 5 4 0", "2 Crossed"),
    ("p min 1 1|a 1 1 5 4 0|x", "2 Crossed"),
    // faults of the whole text
    ("p min 1 1||", "3 WrongCount"),
    ("p min 1 1|n 1 1|a 1 1 0 0 0|a 1 1 0 0 0", "5 WrongCount"),
    ("p min 2 0|n 1 999999999|n 2 -999999998", "4 Unbalanced"),
];

fn push_row(shown: &mut String, table: &Table, row: u32) -> Result<(), AllocError>
    requires { row ≤ length table.now.rows }
{
    for column in 0..table.width() {
        if column > 0 {
            shown.push_str(",")?;
        }
        shown.push_str(str::from_utf8(table.cell(row, column)).unwrap_or("?"))?;
    }
    shown.push_str("/")
}

fn push_rows(shown: &mut String, table: &Table) -> Result<(), AllocError> {
    for row in 0..table.rows() {
        push_row(shown, table, row + 1)?;
    }
    Ok(())
}

fn shown_fault(alloc: Global, fault: DimacsFault) -> Result<String, AllocError> {
    let line = fault.line;
    let kind = fault.kind;
    format!(in alloc; "{line} {kind}")
}

fn shown(alloc: Global, bytes: &[u8]) -> Result<String, AllocError> {
    match read_dimacs(alloc, bytes) {
        Ok(tables) => {
            let mut shown = String::new(alloc);
            push_rows(&mut shown, &tables.arcs)?;
            shown.push_str(" ")?;
            push_rows(&mut shown, &tables.nodes)?;
            Ok(shown)
        }
        Err(fault) => shown_fault(alloc, fault),
    }
}

fn with_line_feeds(alloc: Global, text: &str) -> Result<Vec<u8>, AllocError> {
    let mut bytes = Vec::new(alloc);
    for byte in text.as_bytes() {
        bytes.push(if *byte == b'|' { b'\n' } else { *byte })?;
    }
    Ok(bytes)
}

#[test]
fn reads_tables_and_faults(rt: HostRuntime) -> Result<(), Fail> {
    for (text, due) in TEXTS {
        let bytes = with_line_feeds(rt.alloc(), text)?;
        let shown = shown(rt.alloc(), &bytes)?;
        assert_eq!(rt; shown.as_str(), due, "of {text:?}");
    }
    Ok(())
}

#[test]
fn names_columns(rt: HostRuntime) -> Result<(), Fail> {
    let tables = read_dimacs(rt.alloc(), b"p min 1 0")?;
    let mut header = String::new(rt.alloc());
    push_row(&mut header, &tables.arcs, 0)?;
    push_row(&mut header, &tables.nodes, 0)?;
    assert_eq!(rt;
        header.as_str(),
        "_FROM_,_TO_,_NAME_,_COST_,_CAPAC_,_LO_/_NODE_,_SUPDEM_/"
    );
    Ok(())
}
