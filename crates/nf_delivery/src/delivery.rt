//! The delivery of a report: its sets to the library, then its text to the listing.
ghost use Rattle.std.specs.Prelude.{◌≡◌, ◌≤◌, true, ℕ, List, IfErr, OnOk};
ghost use Rattle.std.specs.Io.KnownBytes.{Appends};
ghost use Rattle.nf_delivery.specs.declared.delivery.DeliveryFault.TheVariants as fault;
ghost use Rattle.nf_delivery.specs.Deliveries.{IsDeliveryFault, IsStoreFault, delivery_fault};
ghost use Rattle.nf_delivery.specs.Sets.{StoresAll, HoldsAll};

use crate::report::{OutSet, Report};
use nf_io::{Library, PutFault, Sink, write_all};
use thiserror::Error;

/// Why a report is not delivered whole.
#[derive(Clone, Copy, Debug, Error, PartialEq, Eq)]
pub enum DeliveryFault {
    /// The library failed at a store, or the listing at a write.
    #[error("Write")]
    Write,
    /// Memory ran out.
    #[error("NoMemory")]
    NoMemory,
}

impl From<PutFault> for DeliveryFault {
    ghost from_gives = { λ e f. f ≡ delivery_fault e };

    fn from(fault: PutFault) -> Self {
        match fault {
            PutFault::Failed => DeliveryFault::Write,
            PutFault::NoMemory => DeliveryFault::NoMemory,
        }
    }
}

/// Delivers a report: stores each of its sets in their order, and then writes its text. The library then has under the
/// name of each set the text of the last set of this name, and under every other name what it had.
///
/// `Write` comes only if the count of failed stores rose or that of the listing's faults. After a store that failed,
/// the sets before it are stored, what its own name has is unknown, all other names have what they had, and nothing is
/// written. After a write that failed, all sets are stored, and a front of the text is written. `NoMemory` leaves the
/// first sets stored and nothing written, or all sets stored and a front of the text written.
pub fn deliver<K: Sink, D: Library>(
    report: &Report,
    listing: &mut K,
    library: &mut D,
) -> Result<(), DeliveryFault>
    ensures later { K.faults listing.old ≤ K.faults listing.new }
    ensures quiet { K.quiet listing.new ≡ K.quiet listing.old }
    ensures calm { K.quiet listing.old ≡ true → K.faults listing.new ≡ K.faults listing.old }
    ensures stores { D.store_faults library.old ≤ D.store_faults library.new }
    ensures fetches { D.fetch_faults library.new ≡ D.fetch_faults library.old }
    ensures misses { (q : List ℕ) → D.misses library.new q ≡ D.misses library.old q }
    ensures quiet_fetches { D.quiet_fetches library.new ≡ D.quiet_fetches library.old }
    ensures quiet_stores { D.quiet_stores library.new ≡ D.quiet_stores library.old }
    ensures calm_stores { D.quiet_stores library.old ≡ true → D.store_faults library.new ≡ D.store_faults library.old }
    ensures listed { OnOk result (Appends (K.written listing.old) (K.written listing.new) report.now.text) }
    ensures stored { OnOk result (StoresAll report.now.sets.items (D.held library.old) (D.held library.new)) }
    ensures held { OnOk result (HoldsAll report.now.sets.items (D.held library.old) (D.held library.new)) }
    ensures fault { IfErr result (IsDeliveryFault report.now (K.written listing.old) (K.written listing.new) (K.faults listing.old) (K.faults listing.new) (D.held library.old) (D.held library.new) (D.store_faults library.old) (D.store_faults library.new)) }
{
    store_all(&report.sets, library)?;
    Ok(write_all(listing, report.text.bytes())?)
}

// Stores each set in their order, up to the first that fails.
fn store_all<D: Library>(sets: &[OutSet], library: &mut D) -> Result<(), PutFault>
    ensures stores { D.store_faults library.old ≤ D.store_faults library.new }
    ensures fetches { D.fetch_faults library.new ≡ D.fetch_faults library.old }
    ensures misses { (q : List ℕ) → D.misses library.new q ≡ D.misses library.old q }
    ensures quiet_fetches { D.quiet_fetches library.new ≡ D.quiet_fetches library.old }
    ensures quiet_stores { D.quiet_stores library.new ≡ D.quiet_stores library.old }
    ensures calm_stores { D.quiet_stores library.old ≡ true → D.store_faults library.new ≡ D.store_faults library.old }
    ensures stored { OnOk result (StoresAll sets.now (D.held library.old) (D.held library.new)) }
    ensures fault { IfErr result (IsStoreFault sets.now (D.held library.old) (D.held library.new) (D.store_faults library.old) (D.store_faults library.new)) }
{
    'sets: for set in sets {
        library.store(&set.name, set.text.bytes())?;
    }
    Ok(())
}
