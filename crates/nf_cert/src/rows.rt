//! The rows of a certificate, read one after the other.
ghost use Rattle.std.specs.Prelude.{◌≡◌, ◌⊎◌, ◌<◌, ◌≤◌, ◌+◌, ◌-◌, ◌^◌, map, length, slice_get, Some, None, Ok, Err, IfOk, MatchResult};
ghost use Rattle.nf_cert.specs.Inside.{IsInside};
ghost use Rattle.nf_cert.specs.Items.{HoldsFrac, cert_row, item, items_with};
ghost use Rattle.nf_cert.specs.Rows.{first_fault, rows_read, verdict_of};
ghost use Rattle.nf_cert.specs.Steps.{HasFrac, HasFracs, HasLists, HasSizes, HasValue, HasVerdict, fault_below, first_in};

use crate::columns::Columns;
use crate::fault::CertFault;
use crate::item::{Item, Kind};
use crate::verdict::Verdict;
use nf_cells::trimmed;
use nf_frac::{Frac, read_frac};
use nf_prob::{Cert, Fracs};
use nf_table::Table;
use std::alloc::Global;

// The value of the row below so many, where this item is due.
fn value_below<'a>(
    table: &'a Table,
    at: Columns,
    above: u32,
    due: Item,
) -> Result<&'a [u8], CertFault>
    requires inside { IsInside at (length table.now.header) }
    requires small { above < 2 ^ 32 - 1 }
    ensures { MatchResult result
        (λ v. HasValue (map (cert_row at) table.now.rows) above due v.now)
        (λ e. fault_below (map (cert_row at) table.now.rows) above due ≡ Some e) }
{
    let row = above + 1;
    if table.rows() < row {
        return Err(CertFault::MissingRow(row));
    }
    let name = trimmed(table.cell(row, at.item));
    let number = trimmed(table.cell(row, at.number));
    if !due.is_told(name, number) {
        return Err(CertFault::UnknownRow(row));
    }
    Ok(trimmed(table.cell(row, at.value)))
}

// The verdict of the first row.
fn read_verdict(table: &Table, at: Columns) -> Result<Verdict, CertFault>
    requires inside { IsInside at (length table.now.header) }
    ensures { MatchResult result
        (HasVerdict (map (cert_row at) table.now.rows))
        (λ e. verdict_of (slice_get (map (cert_row at) table.now.rows) 0) ≡ Err e) }
{
    let verdict = Item {
        kind: Kind::Verdict,
        number: 1,
    };
    match value_below(table, at, 0, verdict) {
        Ok(word) => match Verdict::of_word(word) {
            Some(verdict) => Ok(verdict),
            None => Err(CertFault::UnknownRow(1)),
        },
        Err(fault) => Err(fault),
    }
}

// The fraction of the row below so many, where this item is due.
fn frac_below(table: &Table, at: Columns, above: u32, due: Item) -> Result<Frac, CertFault>
    requires inside { IsInside at (length table.now.header) }
    requires small { above < 2 ^ 32 - 1 }
    requires kind { HoldsFrac due.kind }
    ensures { MatchResult result
        (λ x. HasFrac (map (cert_row at) table.now.rows) above due x)
        (λ e. fault_below (map (cert_row at) table.now.rows) above due ≡ Some e) }
{
    match value_below(table, at, above, due) {
        Ok(value) => match read_frac(value) {
            Ok(frac) => Ok(frac),
            Err(_) => Err(CertFault::Number(above + 1)),
        },
        Err(fault) => Err(fault),
    }
}

// The fractions of so many rows of one kind, below so many others.
fn fracs_below(
    alloc: Global,
    table: &Table,
    at: Columns,
    above: u32,
    kind: Kind,
    count: u32,
) -> Result<Fracs, CertFault>
    requires inside { IsInside at (length table.now.header) }
    requires small { above + count < 2 ^ 32 }
    requires kind { HoldsFrac kind }
    ensures { MatchResult result
        (λ xs. HasFracs (map (cert_row at) table.now.rows) above kind count xs)
        (λ e. (e ≡ CertFault.NoMemory) ⊎ (first_in (map (cert_row at) table.now.rows) above kind count ≡ Some e)) }
{
    let mut fracs = Fracs::new(alloc);
    for i in 0..count {
        let due = Item {
            kind,
            number: i + 1,
        };
        match frac_below(table, at, above + i, due) {
            Ok(frac) => fracs.push(frac)?,
            Err(fault) => return Err(fault),
        }
    }
    Ok(fracs)
}

// The fractions of the rows after the verdict: values of columns, and others.
#[derive(Drop)]
struct Lists {
    values: Fracs,
    others: Fracs,
}

// The rows after the verdict: so many values of columns, so many of another kind, and no more.
fn read_lists(
    alloc: Global,
    table: &Table,
    at: Columns,
    columns: u32,
    kind: Kind,
    count: u32,
) -> Result<Lists, CertFault>
    requires inside { IsInside at (length table.now.header) }
    requires small { columns + count < 2 ^ 32 - 2 }
    requires kind { HoldsFrac kind }
    requires verdict { fault_below (map (cert_row at) table.now.rows) 0 (item Kind.Verdict 1) ≡ None }
    ensures { MatchResult result
        (HasLists (map (cert_row at) table.now.rows) columns kind count)
        (λ e. (e ≡ CertFault.NoMemory) ⊎ (first_fault (items_with columns kind count) (map (cert_row at) table.now.rows) ≡ Some e)) }
{
    let values = match fracs_below(alloc, table, at, 1, Kind::Column, columns) {
        Ok(values) => values,
        Err(fault) => return Err(fault),
    };
    let others = match fracs_below(alloc, table, at, 1 + columns, kind, count) {
        Ok(others) => others,
        Err(fault) => return Err(fault),
    };
    let last = 1 + columns + count;
    if last < table.rows() {
        return Err(CertFault::UnknownRow(last + 1));
    }
    Ok(Lists { values, others })
}

// The certificate of a problem of so many columns and rows.
pub(crate) fn read_rows(
    alloc: Global,
    table: &Table,
    at: Columns,
    columns: u32,
    rows: u32,
) -> Result<Cert, CertFault>
    requires inside { IsInside at (length table.now.header) }
    requires few_columns { columns ≤ 2 ^ 30 }
    requires few_rows { rows ≤ 2 ^ 30 }
    ensures answer { (result ≡ Err CertFault.NoMemory) ⊎ (result ≡ rows_read columns rows (map (cert_row at) table.now.rows)) }
    ensures sizes { IfOk result (HasSizes columns rows) }
{
    let verdict = match read_verdict(table, at) {
        Ok(verdict) => verdict,
        Err(fault) => return Err(fault),
    };
    match verdict {
        Verdict::Optimal => match read_lists(alloc, table, at, columns, Kind::Row, rows) {
            Ok(Lists { values, others }) => Ok(Cert::Best {
                values,
                duals: others,
            }),
            Err(fault) => Err(fault),
        },
        Verdict::Infeasible => match read_lists(alloc, table, at, 0, Kind::Row, rows) {
            Ok(Lists { values: _, others }) => Ok(Cert::Farkas { duals: others }),
            Err(fault) => Err(fault),
        },
        Verdict::Unbounded => match read_lists(alloc, table, at, columns, Kind::Ray, columns) {
            Ok(Lists { values, others }) => Ok(Cert::Ray {
                values,
                ray: others,
            }),
            Err(fault) => Err(fault),
        },
    }
}
