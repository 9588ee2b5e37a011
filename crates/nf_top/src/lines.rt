//! The lines of the listing, each with its line feed. `AllocError` where there is no memory for a line.
ghost use Rattle.std.specs.Prelude.{◌≡◌, ◌++◌, IfOk, Some, codes};
ghost use Rattle.nf_top.specs.Lines.{accepted_lines, cert_line, data_line, named_line, operation_text, printed, program_line, range_line, roles_line, row_line, set_line, shown, step_range_line, table_line, too_long_line, why_line};

use crate::set_words::{role_word, set_word};
use nf_cert::CertFault;
use nf_frac::Passed;
use nf_io::Text;
use nf_prob::Why;
use nf_program::{SetName, StmtFault};
use nf_roles::{DataFault, RoleFault};
use nf_run::HaltLine;
use nf_table::TableFault;
use std::alloc::{AllocError, Global};
use std::fmt;

/// What the words may be.
pub(crate) const USAGE: &str =
    "USAGE netflow run | netflow check | netflow sample SEED NODES ARCS CONS\n";

/// These words alone.
pub(crate) fn plain(alloc: Global, words: &str) -> Result<Text, AllocError>
    ensures { IfOk result (λ t. t ≡ words.now) }
{
    Text::from_slice(alloc, words.as_bytes())
}

/// These words and a name.
pub(crate) fn named(alloc: Global, words: &str, name: &Text) -> Result<Text, AllocError>
    ensures { IfOk result (λ t. t ≡ words.now ++ (name.now ++ codes "\n")) }
{
    let mut text = Text::from_slice(alloc, words.as_bytes())?;
    text.push(name.bytes())?;
    text.push(b"\n")?;
    Ok(text)
}

/// A text is no program: the place and the kind of its first fault.
pub(crate) fn no_program(alloc: Global, fault: &StmtFault) -> Result<Text, AllocError>
    ensures { IfOk result (λ t. t ≡ program_line fault.now) }
{
    let StmtFault { at, kind } = *fault;
    plain(
        alloc,
        format!(in alloc; "PROGRAM REFUSED AT {at}: {kind}\n")?.as_str(),
    )
}

/// The certificate is accepted, and this is what it claims.
pub(crate) fn accepted(alloc: Global, line: HaltLine) -> Result<Text, AllocError>
    ensures { IfOk result (λ t. t ≡ accepted_lines line) }
{
    plain(alloc, format!(in alloc; "ACCEPTED {line}")?.as_str())
}

/// A data set has too many bytes.
pub(crate) fn too_long(alloc: Global, set: SetName) -> Result<Text, AllocError>
    ensures { IfOk result (λ t. t ≡ too_long_line set) }
{
    in_set(alloc, set, "TooLong")
}

// A data set is refused for this reason.
fn in_set(alloc: Global, set: SetName, reason: &str) -> Result<Text, AllocError>
    ensures { IfOk result (λ t. t ≡ set_line set reason.now) }
{
    let word = set_word(set);
    plain(
        alloc,
        format!(in alloc; "DATA REFUSED {word}: {reason}\n")?.as_str(),
    )
}

// A byte of a header cell as a line prints it: `?` for each control byte, so that no cell ends the line.
fn shown(byte: u8) -> u8
    ensures { result ≡ shown byte }
{
    if byte < 32 || byte == 127 { b'?' } else { byte }
}

// A header cell, or another name, as a line prints it.
fn printed(alloc: Global, cell: &[u8]) -> Result<Vec<u8>, AllocError>
    ensures { IfOk result (λ v. v.items ≡ printed cell.now) }
{
    cell.iter().map(|byte| shown(*byte)).collect(alloc)
}

// A data set is refused for this reason, which names a column or a role.
fn in_set_named(alloc: Global, set: SetName, reason: &str, name: &[u8]) -> Result<Text, AllocError>
    ensures { IfOk result (λ t. t ≡ named_line set reason.now name.now) }
{
    let word = set_word(set);
    let mut text = plain(
        alloc,
        format!(in alloc; "DATA REFUSED {word}: {reason} ")?.as_str(),
    )?;
    text.push(&printed(alloc, name)?)?;
    text.push(b"\n")?;
    Ok(text)
}

// A row of a data set is refused for this reason.
fn in_row(alloc: Global, set: SetName, row: u32, reason: &str) -> Result<Text, AllocError>
    ensures { IfOk result (λ t. t ≡ row_line set row reason.now) }
{
    let word = set_word(set);
    plain(
        alloc,
        format!(in alloc; "DATA REFUSED {word} ROW {row}: {reason}\n")?.as_str(),
    )
}

/// A data set is no table.
pub(crate) fn no_table(alloc: Global, set: SetName, fault: &TableFault) -> Result<Text, AllocError>
    ensures { IfOk result (λ t. t ≡ table_line set fault.now) }
{
    match fault {
        TableFault::TooLong => too_long(alloc, set),
        TableFault::NoHeader => in_set(alloc, set, "NoHeader"),
        TableFault::RowLength(row) => in_row(alloc, set, *row, "RowLength"),
        TableFault::NotText(row) => in_row(alloc, set, *row, "NotText"),
        TableFault::RepeatedColumn(name) => in_set_named(
            alloc,
            set,
            "RepeatedColumn",
            name.bytes(),
        ),
        TableFault::NoMemory => Ok(Text::new(alloc)),
    }
}

/// The columns of a data set have no roles.
pub(crate) fn no_roles(alloc: Global, set: SetName, fault: &RoleFault) -> Result<Text, AllocError>
    ensures { IfOk result (λ t. t ≡ roles_line set fault.now) }
{
    match fault {
        RoleFault::NoColumn(name) => in_set_named(alloc, set, "NoColumn", name.bytes()),
        RoleFault::TwoRoles(name) => in_set_named(alloc, set, "TwoRoles", name.bytes()),
        RoleFault::MissingRole(role) => {
            in_set_named(alloc, set, "MissingRole", role_word(*role).as_bytes())
        }
        RoleFault::NoMemory => Ok(Text::new(alloc)),
    }
}

/// A cell of the data, an option or the size of the problem is refused.
pub(crate) fn no_network(alloc: Global, fault: &DataFault) -> Result<Text, AllocError>
    ensures { IfOk result (λ t. t ≡ data_line fault.now) }
{
    let (word, row, kind) = (set_word(fault.set), fault.row, fault.kind);
    let mut text = plain(
        alloc,
        format!(in alloc; "DATA REFUSED {word} ROW {row} COLUMN ")?.as_str(),
    )?;
    text.push(&printed(alloc, fault.column.bytes())?)?;
    text.push(format!(in alloc; ": {kind}\n")?.as_str().as_bytes())?;
    Ok(text)
}

/// The table of CERTDATA is no certificate.
pub(crate) fn no_certificate(alloc: Global, fault: &CertFault) -> Result<Text, AllocError>
    ensures { IfOk result (λ t. t ≡ cert_line fault.now) }
{
    match fault {
        CertFault::NoColumn(name) => named(alloc, "REFUSED CERTDATA NO COLUMN ", name),
        CertFault::UnknownRow(row) => {
            plain(
                alloc,
                format!(in alloc; "REFUSED CERTDATA UNKNOWN ROW {row}\n")?.as_str(),
            )
        }
        CertFault::MissingRow(row) => {
            plain(
                alloc,
                format!(in alloc; "REFUSED CERTDATA MISSING ROW {row}\n")?.as_str(),
            )
        }
        CertFault::Number(row) => {
            plain(
                alloc,
                format!(in alloc; "REFUSED CERTDATA NUMBER ROW {row}\n")?.as_str(),
            )
        }
        CertFault::NoMemory => Ok(Text::new(alloc)),
    }
}

/// The certificate is not valid.
pub(crate) fn not_valid(alloc: Global, why: Why) -> Result<Text, AllocError>
    ensures { IfOk result (λ t. t ≡ why_line why) }
{
    match why {
        Why::Bound(j) => plain(alloc, format!(in alloc; "REFUSED BOUND C{j}\n")?.as_str()),
        Why::Row(i) => plain(alloc, format!(in alloc; "REFUSED ROW {i}\n")?.as_str()),
        Why::ReducedCost(j) => {
            plain(
                alloc,
                format!(in alloc; "REFUSED REDUCED COST C{j}\n")?.as_str(),
            )
        }
        Why::Dual(i) => plain(alloc, format!(in alloc; "REFUSED DUAL {i}\n")?.as_str()),
        Why::Column(j) => plain(alloc, format!(in alloc; "REFUSED COLUMN C{j}\n")?.as_str()),
        Why::Gap(gap) => plain(alloc, format!(in alloc; "REFUSED GAP {gap}\n")?.as_str()),
        Why::RayColumn(j) => plain(alloc, format!(in alloc; "REFUSED RAY C{j}\n")?.as_str()),
        Why::RayRow(i) => plain(alloc, format!(in alloc; "REFUSED RAY ROW {i}\n")?.as_str()),
        Why::Rate(rate) => plain(alloc, format!(in alloc; "REFUSED RATE {rate}\n")?.as_str()),
    }
}

// An operation on two fractions, as a line tells it.
#[derive(Drop)]
struct Operation(Passed);

impl fmt::Display for Operation {
    ghost output = { λ o. Some (operation_text o.0) };

    fn fmt<W: fmt::Write>(&self, f: &mut fmt::Formatter<W>) -> fmt::Result {
        let Passed { op, left, right } = self.0;
        write!(f, "{left} {op} {right}")
    }
}

/// An operation of the check passes 128 bits.
pub(crate) fn range(alloc: Global, passed: &Passed) -> Result<Text, AllocError>
    ensures { IfOk result (λ t. t ≡ range_line passed.now) }
{
    let operation = Operation(*passed);
    plain(
        alloc,
        format!(in alloc; "RANGE PASSED CHECK: {operation}\n")?.as_str(),
    )
}

/// An operation of a run passes 128 bits, in the stage with this number, behind so many pivots of it.
pub(crate) fn step_range(
    alloc: Global,
    stage: u8,
    pivots: u64,
    passed: &Passed,
) -> Result<Text, AllocError>
    ensures { IfOk result (λ t. t ≡ step_range_line stage pivots passed.now) }
{
    let operation = Operation(*passed);
    plain(
        alloc,
        format!(in alloc; "RANGE PASSED STAGE {stage} ITERATION {pivots}: {operation}\n")?.as_str(),
    )
}
