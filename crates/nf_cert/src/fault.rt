//! Why a table is no certificate.
ghost use Rattle.std.specs.Prelude.{◌≡◌};

use nf_io::Text;
use std::alloc::AllocError;

/// Why a table is no certificate of a problem. Rows count from 1, without the header.
#[derive(Debug, Drop)]
pub enum CertFault {
    /// The header lacks this column.
    NoColumn(Text),
    /// This row is not the one that is due, or is one too many, or its verdict is not known.
    UnknownRow(u32),
    /// The table ends before this row.
    MissingRow(u32),
    /// The value of this row is no number.
    Number(u32),
    /// There is not enough memory.
    NoMemory,
}

impl From<AllocError> for CertFault {
    ghost use Rattle.nf_cert.specs.declared.fault.CertFault.TheVariants as fault;

    ghost from_gives = { λ _ e. e ≡ fault.NoMemory };

    fn from(_: AllocError) -> Self {
        CertFault::NoMemory
    }
}
