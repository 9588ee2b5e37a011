ghost use Rattle.std.specs.Prelude.{◌≤◌, length};

use nf_io::MOST_BYTES;
use nf_table::{Table, TableFault, read_table};
use std::alloc::{AllocError, Global};
use std::str;
use std::test::Fail;

// Bytes as text, between bars where they are a cell.
fn push_cell(shown: &mut String, cell: &[u8]) -> Result<(), AllocError> {
    shown.push_str(str::from_utf8(cell).unwrap_or("?"))?;
    shown.push_str("|")
}

fn push_row(shown: &mut String, table: &Table, row: u32) -> Result<(), AllocError>
    requires { row ≤ length table.now.rows }
{
    for column in 0..table.width() {
        push_cell(shown, table.cell(row, column))?;
    }
    shown.push_str("/")
}

fn push_table(shown: &mut String, table: &Table) -> Result<(), AllocError> {
    for row in 0..=table.rows() {
        push_row(shown, table, row)?;
    }
    Ok(())
}

fn shown_fault(alloc: Global, fault: &TableFault) -> Result<String, AllocError> {
    match fault {
        TableFault::RowLength(row) => format!(in alloc; "RowLength {row}"),
        TableFault::NotText(row) => format!(in alloc; "NotText {row}"),
        TableFault::RepeatedColumn(name) => {
            let mut shown = String::from_str(alloc, "RepeatedColumn ")?;
            shown.push_str(str::from_utf8(name.bytes()).unwrap_or("?"))?;
            Ok(shown)
        }
        TableFault::TooLong => String::from_str(alloc, "TooLong"),
        TableFault::NoHeader => String::from_str(alloc, "NoHeader"),
        TableFault::NoMemory => String::from_str(alloc, "NoMemory"),
    }
}

// What a text reads as: each cell with a bar after it and each row with a stroke, or the fault.
fn shown(alloc: Global, bytes: &[u8]) -> Result<String, AllocError> {
    match read_table(alloc, bytes) {
        Ok(table) => {
            let mut shown = String::new(alloc);
            push_table(&mut shown, &table)?;
            Ok(shown)
        }
        Err(fault) => shown_fault(alloc, &fault),
    }
}

#[test]
fn reads_tables_and_faults(rt: HostRuntime) -> Result<(), Fail> {
    let cases: [(&[u8], &str); 24] = [
        (b"a,b\n1,2\n", "a|b|/1|2|/"),
        (b"a,b", "a|b|/"),
        (b"a,b\r\n1,2\r\n", "a|b|/1|2|/"),
        (b"a\r1\r", "a|/1|/"),
        (b"\xef\xbb\xbfa,b\n1,2\n", "a|b|/1|2|/"),
        (b"\n\r\na,b\n\n\n1,2\n\n", "a|b|/1|2|/"),
        (b"a\n\"\"\n1\n", "a|/|/1|/"),
        (b"a,b\n,\n", "a|b|/||/"),
        (b"a,b\n\"x,y\",\"p\nq\"\n", "a|b|/x,y|p\nq|/"),
        (b"a,b\n\"say \"\"so\"\"\", 1 \n", "a|b|/say \"so\"| 1 |/"),
        (b"a, a\n\xc3\xa4,\n", "a| a|/ä||/"),
        (b"", "NoHeader"),
        (b"\xef\xbb\xbf\r\n\n", "NoHeader"),
        (b"a,b\n1\n", "RowLength 1"),
        (b"a,b\n1,2\n1,2,3\n", "RowLength 2"),
        (b"a\n1,\n", "RowLength 1"),
        (b"a,\xff\n1\n", "NotText 0"),
        (b"a,b\n1,2\n\xc3,2\n", "NotText 2"),
        (b"a,b\n\xff\n", "RowLength 1"),
        (b"a,b\n1,\xff\n1\n", "NotText 1"),
        (b"a,B,b\n", "RepeatedColumn b"),
        (b"x,Y,X,y\n", "RepeatedColumn X"),
        (b"a,A\n1\n", "RepeatedColumn A"),
        (b"a,A,\xff\n", "NotText 0"),
    ];
    for (bytes, expected) in cases {
        assert_eq!(rt; shown(rt.alloc(), bytes)?.as_str(), expected);
    }
    Ok(())
}

#[test]
fn refuses_a_long_text(rt: HostRuntime) -> Result<(), Fail> {
    let bytes = vec![in rt.alloc(); b'a'; MOST_BYTES + 1]?;
    assert_eq!(rt; shown(rt.alloc(), &bytes)?.as_str(), "TooLong");
    Ok(())
}
