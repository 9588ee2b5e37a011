//! Why saved tables give no session.
use nf_saved::SavedFault;
use std::alloc::AllocError;

/// Why saved tables give no session.
#[derive(Clone, Copy, Debug, PartialEq, Eq)]
pub enum WarmFault {
    /// The first fault of their columns, rows and counts.
    Saved(SavedFault),
    /// There was no memory for what they give.
    NoMemory,
}

impl From<SavedFault> for WarmFault {
    ghost use Rattle.std.specs.Prelude.{◌≡◌};
    ghost use Rattle.nf_warm.specs.declared.fault.WarmFault.TheVariants as fault;

    ghost from_gives = { λ saved e. e ≡ fault.Saved saved };

    fn from(saved: SavedFault) -> WarmFault {
        WarmFault::Saved(saved)
    }
}

impl From<AllocError> for WarmFault {
    ghost use Rattle.std.specs.Prelude.{◌≡◌};
    ghost use Rattle.nf_warm.specs.declared.fault.WarmFault.TheVariants as fault;

    ghost from_gives = { λ _ e. e ≡ fault.NoMemory };

    fn from(_: AllocError) -> WarmFault {
        WarmFault::NoMemory
    }
}
