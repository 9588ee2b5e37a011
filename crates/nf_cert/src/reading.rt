//! Reading a certificate's table.
ghost use Rattle.std.specs.Prelude.{◌≡◌, ◌⊎◌, ◌≤◌, ◌^◌, Err, IfOk, length};
ghost use Rattle.nf_prob.specs.Verdict.{HasLengths};
ghost use Rattle.nf_cert.specs.Reading.{cert_read};
ghost use Rattle.nf_cert.specs.Steps.{HasSizes};

use crate::columns::Columns;
use crate::fault::CertFault;
use crate::rows::read_rows;
use nf_prob::{Cert, Problem};
use nf_table::Table;
use std::alloc::Global;

/// The certificate that a table gives for a problem.
///
/// The table has the columns `_ITEM_`, `_NUMBER_` and `_VALUE_`, in any order and any case. Its rows are, in this order:
/// `VERDICT,1,` with `OPTIMAL`, `INFEASIBLE` or `UNBOUNDED`; `COL,j,value` for each column of the problem from 1, but not
/// for `INFEASIBLE`; `ROW,i,dual` for each of its rows from 1, but not for `UNBOUNDED`; and `RAY,j,direction` for each
/// column, only for `UNBOUNDED`. Spaces at both ends of a cell do not count.
///
/// `NoColumn` is the first of the three columns that is missing. After that the first row with a fault is reported:
/// `UnknownRow` if it is not the one that is due, or its verdict is none of the three, or it is one too many; `Number` if
/// it is due, but its value is not the text of a fraction; `MissingRow` if the table ends before it. `NoMemory` if out of
/// memory.
pub fn read_cert(alloc: Global, table: &Table, p: &Problem) -> Result<Cert, CertFault>
    ensures answer { (result ≡ Err CertFault.NoMemory) ⊎ (result ≡ cert_read table.now (length p.now.columns) (length p.now.rows)) }
    ensures lengths { IfOk result (HasLengths p.now) }
{
    read_counted(alloc, table, p.columns(), p.rows())
}

// The certificate that a table gives for a problem of so many columns and rows.
fn read_counted(alloc: Global, table: &Table, columns: u32, rows: u32) -> Result<Cert, CertFault>
    requires few_columns { columns ≤ 2 ^ 30 }
    requires few_rows { rows ≤ 2 ^ 30 }
    ensures answer { (result ≡ Err CertFault.NoMemory) ⊎ (result ≡ cert_read table.now columns rows) }
    ensures sizes { IfOk result (HasSizes columns rows) }
{
    let at = match Columns::find(alloc, table) {
        Ok(at) => at,
        Err(fault) => return Err(fault),
    };
    read_rows(alloc, table, at, columns, rows)
}
