//! The lines of the listing, each with its line feed. `AllocError` if out of memory.
ghost use Rattle.std.specs.Prelude.{◌≡◌, ◌++◌, IfOk, codes};
ghost use Rattle.nf_top.specs.Lines.{data_line, named_line, printed, program_line, roles_line, row_line, set_line, shown, table_line, too_long_line};
ghost use Rattle.nf_exchange.specs.Lines.{column_line, dimacs_line, export_line, imported_line};

use crate::set_words::{role_word, set_word};
use nf_dimacs::DimacsFault;
use nf_dimacs_writer::ExportFault;
use nf_io::Text;
use nf_program::{SetName, StmtFault};
use nf_roles::{DataFault, RoleFault};
use nf_table::TableFault;
use std::alloc::{AllocError, Global};

/// These words alone.
pub(crate) fn plain(alloc: Global, words: &str) -> Result<Text, AllocError>
    ensures { IfOk result (λ t. t ≡ words.now) }
{
    Text::from_slice(alloc, words.as_bytes())
}

/// The library lacks the data set of this name.
pub(crate) fn absent(alloc: Global, name: &Text) -> Result<Text, AllocError>
    ensures { IfOk result (λ t. t ≡ codes "ABSENT " ++ (name.now ++ codes "\n")) }
{
    let mut text = Text::from_slice(alloc, b"ABSENT ")?;
    text.push(name.bytes())?;
    text.push(b"\n")?;
    Ok(text)
}

/// A text is no program: the place and the kind of its first fault.
pub(crate) fn no_program(alloc: Global, fault: &StmtFault) -> Result<Text, AllocError>
    ensures { IfOk result (λ t. t ≡ program_line fault.now) }
{
    let StmtFault { at, kind } = *fault;
    plain(
        alloc,
        format!(in alloc; "PROGRAM REFUSED AT {at}: {kind}\n")?.as_str(),
    )
}

/// A data set has too many bytes.
pub(crate) fn too_long(alloc: Global, set: SetName) -> Result<Text, AllocError>
    ensures { IfOk result (λ t. t ≡ too_long_line set) }
{
    in_set(alloc, set, "TooLong")
}

// A data set is refused for this reason.
fn in_set(alloc: Global, set: SetName, reason: &str) -> Result<Text, AllocError>
    ensures { IfOk result (λ t. t ≡ set_line set reason.now) }
{
    let word = set_word(set);
    plain(
        alloc,
        format!(in alloc; "DATA REFUSED {word}: {reason}\n")?.as_str(),
    )
}

// A byte of a header cell as a line prints it: `?` for each control byte, so that no cell ends the line.
fn shown(byte: u8) -> u8
    ensures { result ≡ shown byte }
{
    if byte < 32 || byte == 127 { b'?' } else { byte }
}

// A header cell, or another name, as a line prints it.
fn printed(alloc: Global, cell: &[u8]) -> Result<Vec<u8>, AllocError>
    ensures { IfOk result (λ v. v.items ≡ printed cell.now) }
{
    cell.iter().map(|byte| shown(*byte)).collect(alloc)
}

// A data set is refused for this reason, which names a column or a role.
fn in_set_named(alloc: Global, set: SetName, reason: &str, name: &[u8]) -> Result<Text, AllocError>
    ensures { IfOk result (λ t. t ≡ named_line set reason.now name.now) }
{
    let word = set_word(set);
    let mut text = plain(
        alloc,
        format!(in alloc; "DATA REFUSED {word}: {reason} ")?.as_str(),
    )?;
    text.push(&printed(alloc, name)?)?;
    text.push(b"\n")?;
    Ok(text)
}

// A row of a data set is refused for this reason.
fn in_row(alloc: Global, set: SetName, row: u32, reason: &str) -> Result<Text, AllocError>
    ensures { IfOk result (λ t. t ≡ row_line set row reason.now) }
{
    let word = set_word(set);
    plain(
        alloc,
        format!(in alloc; "DATA REFUSED {word} ROW {row}: {reason}\n")?.as_str(),
    )
}

/// A data set is no table.
pub(crate) fn no_table(alloc: Global, set: SetName, fault: &TableFault) -> Result<Text, AllocError>
    ensures { IfOk result (λ t. t ≡ table_line set fault.now) }
{
    match fault {
        TableFault::TooLong => too_long(alloc, set),
        TableFault::NoHeader => in_set(alloc, set, "NoHeader"),
        TableFault::RowLength(row) => in_row(alloc, set, *row, "RowLength"),
        TableFault::NotText(row) => in_row(alloc, set, *row, "NotText"),
        TableFault::RepeatedColumn(name) => in_set_named(
            alloc,
            set,
            "RepeatedColumn",
            name.bytes(),
        ),
        TableFault::NoMemory => Ok(Text::new(alloc)),
    }
}

/// The columns of a data set have no roles.
pub(crate) fn no_roles(alloc: Global, set: SetName, fault: &RoleFault) -> Result<Text, AllocError>
    ensures { IfOk result (λ t. t ≡ roles_line set fault.now) }
{
    match fault {
        RoleFault::NoColumn(name) => in_set_named(alloc, set, "NoColumn", name.bytes()),
        RoleFault::TwoRoles(name) => in_set_named(alloc, set, "TwoRoles", name.bytes()),
        RoleFault::MissingRole(role) => {
            in_set_named(alloc, set, "MissingRole", role_word(*role).as_bytes())
        }
        RoleFault::NoMemory => Ok(Text::new(alloc)),
    }
}

/// A cell of the data, an option or the size of the problem is refused.
pub(crate) fn no_network(alloc: Global, fault: &DataFault) -> Result<Text, AllocError>
    ensures { IfOk result (λ t. t ≡ data_line fault.now) }
{
    let (word, row, kind) = (set_word(fault.set), fault.row, fault.kind);
    let mut text = plain(
        alloc,
        format!(in alloc; "DATA REFUSED {word} ROW {row} COLUMN ")?.as_str(),
    )?;
    text.push(&printed(alloc, fault.column.bytes())?)?;
    text.push(format!(in alloc; ": {kind}\n")?.as_str().as_bytes())?;
    Ok(text)
}

/// A problem has no DIMACS text.
pub(crate) fn no_text(alloc: Global, fault: ExportFault) -> Result<Text, AllocError>
    ensures { IfOk result (λ t. t ≡ export_line fault) }
{
    match fault {
        ExportFault::Constraints => plain(alloc, "EXPORT REFUSED: Constraints\n"),
        ExportFault::RowNumber(i) => {
            plain(
                alloc,
                format!(in alloc; "EXPORT REFUSED ROW {i}: Number\n")?.as_str(),
            )
        }
        ExportFault::ColumnNumber(j) => in_column(alloc, j, "Number"),
        ExportFault::NoCapacity(j) => in_column(alloc, j, "NoCapacity"),
        ExportFault::Negative(j) => in_column(alloc, j, "Negative"),
        ExportFault::NoMemory => Ok(Text::new(alloc)),
    }
}

// A column has no line in a DIMACS text for this reason.
fn in_column(alloc: Global, j: u32, reason: &str) -> Result<Text, AllocError>
    ensures { IfOk result (λ t. t ≡ column_line j reason.now) }
{
    plain(
        alloc,
        format!(in alloc; "EXPORT REFUSED C{j}: {reason}\n")?.as_str(),
    )
}

/// A text has no problem: the line and the kind of its first fault.
pub(crate) fn no_dimacs(alloc: Global, fault: &DimacsFault) -> Result<Text, AllocError>
    ensures { IfOk result (λ t. t ≡ dimacs_line fault.now) }
{
    let DimacsFault { line, kind } = *fault;
    plain(
        alloc,
        format!(in alloc; "DIMACS REFUSED LINE {line}: {kind}\n")?.as_str(),
    )
}

/// The tables of a text are stored: so many nodes and arcs.
pub(crate) fn imported(alloc: Global, nodes: u32, arcs: u32) -> Result<Text, AllocError>
    ensures { IfOk result (λ t. t ≡ imported_line nodes arcs) }
{
    plain(
        alloc,
        format!(in alloc; "IMPORTED NODES {nodes} ARCS {arcs}\n")?.as_str(),
    )
}
