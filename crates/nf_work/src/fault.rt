//! Why a column is not replaced, and why a rank is not found.
use nf_frac::Passed;
use std::alloc::AllocError;

/// Why a working inverse does not follow a change of its matrix, or does not solve.
#[derive(Clone, Copy, Debug, PartialEq, Eq)]
pub enum WorkFault {
    /// The new matrix has no inverse.
    Singular,
    /// An operation overflows 128 bits.
    Passed(Passed),
}

impl From<Passed> for WorkFault {
    ghost use Rattle.std.specs.Prelude.{◌≡◌};
    ghost use Rattle.nf_work.specs.declared.fault.WorkFault.TheVariants as fault;

    ghost from_gives = { λ passed e. e ≡ fault.Passed passed };

    fn from(passed: Passed) -> WorkFault {
        WorkFault::Passed(passed)
    }
}

/// Why a rank is not found.
#[derive(Clone, Copy, Debug, PartialEq, Eq)]
pub enum RankFault {
    /// An operation overflows 128 bits.
    Passed(Passed),
    /// Out of memory.
    NoMemory,
}

impl From<Passed> for RankFault {
    ghost use Rattle.std.specs.Prelude.{◌≡◌};
    ghost use Rattle.nf_work.specs.declared.fault.RankFault.TheVariants as fault;

    ghost from_gives = { λ passed e. e ≡ fault.Passed passed };

    fn from(passed: Passed) -> RankFault {
        RankFault::Passed(passed)
    }
}

impl From<AllocError> for RankFault {
    ghost use Rattle.std.specs.Prelude.{◌≡◌};
    ghost use Rattle.nf_work.specs.declared.fault.RankFault.TheVariants as fault;

    ghost from_gives = { λ _ e. e ≡ fault.NoMemory };

    fn from(_: AllocError) -> RankFault {
        RankFault::NoMemory
    }
}
