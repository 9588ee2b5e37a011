//! The columns of a certificate's table.
ghost use Rattle.std.specs.Prelude.{◌≡◌, ◌⊎◌, Err, IfOk, length};

use crate::fault::CertFault;
use nf_io::Text;
use nf_table::Table;
use std::alloc::Global;

/// The columns of a certificate's table, from 0.
#[derive(Clone, Copy)]
pub(crate) struct Columns {
    pub(crate) item: u32,
    pub(crate) number: u32,
    pub(crate) value: u32,
}

// A column is missing.
fn no_column(alloc: Global, name: &[u8]) -> CertFault
    ensures { (result ≡ CertFault.NoMemory) ⊎ (result ≡ CertFault.NoColumn name.now) }
{
    let mut text = Text::new(alloc);
    match text.push(name) {
        Ok(()) => CertFault::NoColumn(text),
        Err(_) => CertFault::NoMemory,
    }
}

impl Columns {
    ghost use Rattle.nf_cert.specs.Inside.{IsInside};
    ghost use Rattle.nf_cert.specs.Reading.{columns_read};

    // The three columns, or the first that is missing.
    pub(crate) fn find(alloc: Global, table: &Table) -> Result<Columns, CertFault>
        ensures answer { (result ≡ Err CertFault.NoMemory) ⊎ (result ≡ columns_read table.now.header) }
        ensures inside { IfOk result (λ at_columns. IsInside at_columns (length table.now.header)) }
    {
        let Some(item) = table.column(b"_ITEM_") else {
            return Err(no_column(alloc, b"_ITEM_"));
        };
        let Some(number) = table.column(b"_NUMBER_") else {
            return Err(no_column(alloc, b"_NUMBER_"));
        };
        let Some(value) = table.column(b"_VALUE_") else {
            return Err(no_column(alloc, b"_VALUE_"));
        };
        Ok(Columns {
            item,
            number,
            value,
        })
    }
}
