//! How long a text from outside may be.

/// The most bytes of a data set: 64 MiB. A fetch of more answers `FetchFault::TooLong`.
pub const MOST_BYTES: usize = 67_108_864;

/// The most bytes of a program's text: 1 MiB.
pub const MOST_PROGRAM_BYTES: usize = 1_048_576;
