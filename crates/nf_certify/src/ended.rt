//! How a state has ended, and why its certificate is not told.
use nf_basis::Col;
use nf_frac::Passed;
use std::alloc::AllocError;

/// How a state has ended.
#[derive(Clone, Copy, Debug, PartialEq, Eq)]
pub enum Ended {
    /// No column is eligible, and the artificials sum to 0.
    Best,
    /// Phase one wants no column, and the artificials sum to more than 0.
    NoFlow,
    /// This column is picked, and nothing limits its move.
    NoBound(Col),
}

/// Why the certificate of a state is not told.
#[derive(Clone, Copy, Debug, PartialEq, Eq)]
pub enum CertOfFault {
    /// An operation passes 128 bits.
    Passed(Passed),
    /// Memory ran out.
    NoMemory,
}

impl From<AllocError> for CertOfFault {
    ghost use Rattle.std.specs.Prelude.{◌≡◌};
    ghost use Rattle.nf_certify.specs.declared.ended.CertOfFault.TheVariants as fault;

    ghost from_gives = { λ _ e. e ≡ fault.NoMemory };

    fn from(_: AllocError) -> CertOfFault {
        CertOfFault::NoMemory
    }
}

impl From<Passed> for CertOfFault {
    ghost use Rattle.std.specs.Prelude.{◌≡◌};
    ghost use Rattle.nf_certify.specs.declared.ended.CertOfFault.TheVariants as fault;

    ghost from_gives = { λ passed e. e ≡ fault.Passed passed };

    fn from(passed: Passed) -> CertOfFault {
        CertOfFault::Passed(passed)
    }
}
