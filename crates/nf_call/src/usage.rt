//! Words that are no command.
ghost use Rattle.std.specs.Prelude.{true, ◌≡◌};
ghost use Rattle.nf_top.specs.declared.status.Status.TheVariants.{Usage};
ghost use Rattle.nf_exchange.specs.Ending.{EndsWith};
ghost use Rattle.nf_call.specs.Lines.{usage_line};

use nf_io::{PutFault, Sink, write_all};
use nf_top::Status;

/// What the words may be.
const LINE: &str =
    "USAGE netflow run | netflow check | netflow sample SEED NODES ARCS CONS | netflow import | netflow export\n";

/// Lists how netflow is used.
pub(crate) fn list_usage<K: Sink>(listing: &mut K) -> Status
    ensures calm { K.quiet listing.old ≡ true → K.faults listing.new ≡ K.faults listing.old }
    ensures ends { EndsWith usage_line Usage (K.written listing.old) (K.written listing.new) (K.faults listing.old) (K.faults listing.new) result }
{
    conclude(listing, LINE.as_bytes(), Status::Usage)
}

// Writes the last text of the listing, and returns the status that it reports.
fn conclude<K: Sink>(listing: &mut K, text: &[u8], status: Status) -> Status
    ensures calm { K.quiet listing.old ≡ true → K.faults listing.new ≡ K.faults listing.old }
    ensures ends { EndsWith text.now status (K.written listing.old) (K.written listing.new) (K.faults listing.old) (K.faults listing.new) result }
{
    match write_all(listing, text) {
        Ok(()) => status,
        Err(PutFault::Failed) => Status::WriteFault,
        Err(PutFault::NoMemory) => Status::NoMemory,
    }
}
