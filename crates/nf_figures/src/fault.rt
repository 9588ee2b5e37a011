//! Why the numbers of a state are not listed.
use nf_frac::Passed;
use std::alloc::AllocError;

/// Why the numbers of a state are not listed.
#[derive(Clone, Copy)]
pub enum FigureFault {
    /// An operation overflows 128 bits.
    Passed(Passed),
    /// Out of memory.
    NoMemory,
}

impl From<AllocError> for FigureFault {
    ghost use Rattle.std.specs.Prelude.{◌≡◌};
    ghost use Rattle.nf_figures.specs.declared.fault.FigureFault.TheVariants as fault;

    ghost from_gives = { λ _ e. e ≡ fault.NoMemory };

    fn from(_: AllocError) -> FigureFault {
        FigureFault::NoMemory
    }
}

impl From<Passed> for FigureFault {
    ghost use Rattle.std.specs.Prelude.{◌≡◌};
    ghost use Rattle.nf_figures.specs.declared.fault.FigureFault.TheVariants as fault;

    ghost from_gives = { λ passed e. e ≡ fault.Passed passed };

    fn from(passed: Passed) -> FigureFault {
        FigureFault::Passed(passed)
    }
}
