//! Why a call to the outside failed. Each fault prints as the name of its type or variant.
ghost use Rattle.std.specs.Prelude.{◌≡◌};
ghost use Rattle.nf_io.specs.declared.faults.FetchFault.TheVariants as fetch;
ghost use Rattle.nf_io.specs.declared.faults.PutFault.TheVariants as put;
ghost use Rattle.nf_io.specs.declared.faults.ReadAllFault.TheVariants as all;

use std::alloc::AllocError;
use thiserror::Error;

/// A source failed at a take.
#[derive(Clone, Copy, Debug, Error, PartialEq, Eq)]
#[error("Failed")]
pub struct Failed;

/// Why a put or a store did not happen.
#[derive(Clone, Copy, Debug, Error, PartialEq, Eq)]
pub enum PutFault {
    /// The sink or the library failed.
    #[error("Failed")]
    Failed,
    /// A growth was refused.
    #[error("NoMemory")]
    NoMemory,
}

/// Why a source was not read to its end.
#[derive(Clone, Copy, Debug, Error, PartialEq, Eq)]
pub enum ReadAllFault {
    /// The source failed.
    #[error("Failed")]
    Failed,
    /// It has more bytes than were asked for.
    #[error("TooLong")]
    TooLong,
    /// A growth was refused.
    #[error("NoMemory")]
    NoMemory,
}

/// Why a data set was not fetched.
#[derive(Clone, Copy, Debug, Error, PartialEq, Eq)]
pub enum FetchFault {
    /// The library failed.
    #[error("Failed")]
    Failed,
    /// It lacks a data set of this name.
    #[error("Absent")]
    Absent,
    /// The data set has more than `MOST_BYTES` bytes.
    #[error("TooLong")]
    TooLong,
    /// A growth was refused.
    #[error("NoMemory")]
    NoMemory,
}

impl From<AllocError> for PutFault {
    ghost from_gives = { λ _ e. e ≡ put.NoMemory };

    fn from(_: AllocError) -> Self {
        PutFault::NoMemory
    }
}

impl From<AllocError> for ReadAllFault {
    ghost from_gives = { λ _ e. e ≡ all.NoMemory };

    fn from(_: AllocError) -> Self {
        ReadAllFault::NoMemory
    }
}

impl From<AllocError> for FetchFault {
    ghost from_gives = { λ _ e. e ≡ fetch.NoMemory };

    fn from(_: AllocError) -> Self {
        FetchFault::NoMemory
    }
}
