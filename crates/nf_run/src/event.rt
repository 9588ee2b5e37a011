//! How obeying statements ends early.
use nf_frac::Passed;

/// Why the statements of a program are not obeyed to their end.
#[derive(Clone, Copy, Debug, PartialEq, Eq)]
pub enum RunFault {
    /// An operation passes 128 bits, in the stage with this number and after so many pivots of it.
    Range {
        stage: u8,
        pivots: u64,
        passed: Passed,
    },
    /// The listing failed at a write, or the library at a store.
    Write,
    /// Memory ran out.
    NoMemory,
}
