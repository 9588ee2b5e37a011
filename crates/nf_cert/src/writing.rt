//! Writing a certificate's table.
ghost use Rattle.std.specs.Prelude.{◌≡◌, ◌<◌, ◌≤◌, ◌-◌, ◌+◌, ◌^◌, ◌++◌, ◌∷◌, [], Ok, IfOk, OnOk, length};
ghost use Rattle.std.specs.List.{All};
ghost use Rattle.std.specs.Str.{IsUtf8};
ghost use Rattle.nf_frac.specs.Texts.{frac_text};
ghost use Rattle.nf_prob.specs.Verdict.{HasLengths};
ghost use Rattle.nf_table.specs.Making.{empty_table};
ghost use Rattle.nf_cert.specs.Reading.{cert_read};
ghost use Rattle.nf_cert.specs.Written.{HasParts, cert_grid, frac_rows, lists_rows, with_header, written_row};

use crate::item::Kind;
use crate::verdict::Verdict;
use itoa::Buffer;
use nf_frac::Frac;
use nf_prob::{Cert, Problem};
use nf_table::Table;
use std::alloc::{AllocError, Global};

/// The table of a certificate for a problem, with the columns `_ITEM_`, `_NUMBER_` and `_VALUE_` and the rows that
/// `read_cert` asks for. Reading it gives the certificate back.
///
/// `AllocError` if out of memory.
pub fn cert_table(alloc: Global, p: &Problem, cert: &Cert) -> Result<Table, AllocError>
    requires lengths { HasLengths p.now cert.now }
    ensures table { IfOk result (λ t. t ≡ cert_grid cert.now) }
    ensures read_back { IfOk result (λ t. cert_read t (length p.now.columns) (length p.now.rows) ≡ Ok cert.now) }
{
    // There are few enough of both that each has a number.
    let _few = (p.columns(), p.rows());
    match cert {
        Cert::Best { values, duals } => lists_table(
            alloc,
            Verdict::Optimal,
            values.items(),
            Kind::Row,
            duals.items(),
        ),
        Cert::Farkas { duals } => {
            lists_table(alloc, Verdict::Infeasible, &[], Kind::Row, duals.items())
        }
        Cert::Ray { values, ray } => lists_table(
            alloc,
            Verdict::Unbounded,
            values.items(),
            Kind::Ray,
            ray.items(),
        ),
    }
}

// The table of a verdict, of the values of columns, and of the rows of another kind.
fn lists_table(
    alloc: Global,
    verdict: Verdict,
    values: &[Frac],
    kind: Kind,
    others: &[Frac],
) -> Result<Table, AllocError>
    requires few_values { length values.now ≤ 2 ^ 30 }
    requires few_others { length others.now ≤ 2 ^ 30 }
    ensures table { IfOk result (λ t. t ≡ with_header (lists_rows verdict values.now kind others.now)) }
    ensures values_in_range { OnOk result (All HasParts values.now) }
    ensures others_in_range { OnOk result (All HasParts others.now) }
{
    let mut table = Table::new(alloc);
    push_header(&mut table)?;
    push_row(&mut table, Kind::Verdict, 1, verdict.word().as_bytes())?;
    push_fracs(&mut table, Kind::Column, values)?;
    push_fracs(&mut table, kind, others)?;
    Ok(table)
}

fn push_header(table: &mut Table) -> Result<(), AllocError>
    requires { table.old ≡ empty_table }
    ensures { OnOk result (table.new ≡ with_header []) }
{
    table.push_cell("_ITEM_".as_bytes())?;
    table.push_cell("_NUMBER_".as_bytes())?;
    table.push_cell("_VALUE_".as_bytes())?;
    table.end_row()
}

fn push_row(table: &mut Table, kind: Kind, number: u32, value: &[u8]) -> Result<(), AllocError>
    requires text { IsUtf8 value.now }
    requires begun { table.old ≡ with_header table.old.rows }
    requires room { length table.old.rows < 2 ^ 32 - 1 }
    ensures { OnOk result (table.new ≡ with_header (table.old.rows ++ written_row kind number value.now ∷ [])) }
{
    table.push_cell(kind.word().as_bytes())?;
    table.push_cell(Buffer::new().format(number).as_bytes())?;
    table.push_cell(value)?;
    table.end_row()
}

fn push_frac(table: &mut Table, kind: Kind, number: u32, x: Frac) -> Result<(), AllocError>
    requires begun { table.old ≡ with_header table.old.rows }
    requires room { length table.old.rows < 2 ^ 32 - 1 }
    ensures row { OnOk result (table.new ≡ with_header (table.old.rows ++ written_row kind number (frac_text x) ∷ [])) }
    ensures in_range { HasParts x }
{
    // Its parts are in range, so its text is read back.
    let _parts = (x.num(), x.den());
    let text = x.text();
    push_row(table, kind, number, text.bytes())
}

// Adds the rows of one kind, numbered from 1.
fn push_fracs(table: &mut Table, kind: Kind, fracs: &[Frac]) -> Result<(), AllocError>
    requires few { length fracs.now ≤ 2 ^ 30 }
    requires begun { table.old ≡ with_header table.old.rows }
    requires room { length table.old.rows ≤ 2 ^ 30 + 1 }
    ensures rows { OnOk result (table.new ≡ with_header (table.old.rows ++ frac_rows kind 1 fracs.now)) }
    ensures in_range { OnOk result (All HasParts fracs.now) }
{
    for (i, x) in fracs.iter().enumerate() {
        push_frac(table, kind, i as u32 + 1, *x)?;
    }
    Ok(())
}
