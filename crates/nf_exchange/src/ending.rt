//! The end of a command: its last text, and its status.
ghost use Rattle.std.specs.Prelude.{true, ◌≡◌, ℕ, List, IfOk};
ghost use Rattle.nf_exchange.specs.Ending.{EndsWith};

use nf_io::{PutFault, Sink, Text, write_all};
use nf_top::Status;
use std::alloc::AllocError;

/// Writes the last text of the listing, and returns the status that it reports.
pub(crate) fn conclude<K: Sink>(
    listing: &mut K,
    text: Result<Text, AllocError>,
    status: Status,
) -> Status
    ensures calm { K.quiet listing.old ≡ true → K.faults listing.new ≡ K.faults listing.old }
    ensures ends { (due : List ℕ) → IfOk text (λ t. t ≡ due) → EndsWith due status (K.written listing.old) (K.written listing.new) (K.faults listing.old) (K.faults listing.new) result }
{
    let Ok(text) = text else {
        return Status::NoMemory;
    };
    match write_all(listing, text.bytes()) {
        Ok(()) => status,
        Err(PutFault::Failed) => Status::WriteFault,
        Err(PutFault::NoMemory) => Status::NoMemory,
    }
}
