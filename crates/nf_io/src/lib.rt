//! The outside of a program as three traits: where its text comes from, where its listing goes and where data sets
//! lie. Each has counts of its faults, so that a caller's contract can say that an answer came only from a fault.
//! There are implementations in memory, with calls that fail by number, and adapters over the real thing.
#![tactic(auto)]

mod adapters;
mod calls;
mod faults;
mod folder;
mod limits;
mod memory;
mod outside;
mod text;
mod whole;

pub use adapters::{ReadSource, WriteSink};
pub use faults::{Failed, FetchFault, PutFault, ReadAllFault};
pub use folder::DirLibrary;
pub use limits::{MOST_BYTES, MOST_PROGRAM_BYTES};
pub use memory::{MemLibrary, MemSink, MemSource};
pub use outside::{Library, Sink, Source};
pub use text::Text;
pub use whole::{read_all, write_all};
