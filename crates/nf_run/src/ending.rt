//! The end of a program: the certificate of the last verdict is stored.
ghost use Rattle.std.specs.Prelude.{◌≡◌, ◌≤◌, true, ℕ, List, Some, IfOk, IfErr, IfSome, OnOk};
ghost use Rattle.std.specs.Io.KnownBytes.{Appends};
ghost use Rattle.std.specs.Option.{option_copied};
ghost use Rattle.nf_prob.specs.Verdict.{HasLengths};
ghost use Rattle.nf_run.specs.Endings.{Ends, IsEndFault, IsSavedAs, IsWriteFault, saved_line};

use crate::event::RunFault;
use nf_cert::cert_table;
use nf_io::{Library, PutFault, Sink, Text, write_all};
use nf_prob::{Cert, Problem};
use nf_table::write_table;
use std::alloc::{AllocError, Global};

// The text of a certificate's table, and how many rows the table has.
#[derive(Drop)]
struct Saved {
    text: Text,
    rows: u32,
}

// The text of a certificate's table. `AllocError` where there is no memory for it.
fn certificate_text(alloc: Global, p: &Problem, cert: &Cert) -> Result<Saved, AllocError>
    requires lengths { HasLengths p.now cert.now }
    ensures { IfOk result (λ s. IsSavedAs p.now cert.now s.rows s.text) }
{
    let table = cert_table(alloc, p, cert)?;
    let text = write_table(alloc, &table)?;
    Ok(Saved {
        text,
        rows: table.rows(),
    })
}

// The line that tells a store.
fn saved_line(alloc: Global, name: &str, rows: u32) -> Result<Text, AllocError>
    ensures { IfOk result (λ t. t ≡ saved_line name.now rows) }
{
    Text::from_slice(
        alloc,
        format!(in alloc; "SAVED CERTOUT {name} ROWS {rows}\n")?.as_bytes(),
    )
}

// Writes a text of the listing.
fn write<K: Sink>(listing: &mut K, text: &[u8]) -> Result<(), RunFault>
    ensures later { K.faults listing.old ≤ K.faults listing.new }
    ensures quiet { K.quiet listing.new ≡ K.quiet listing.old }
    ensures calm { K.quiet listing.old ≡ true → K.faults listing.new ≡ K.faults listing.old }
    ensures ok { OnOk result (Appends (K.written listing.old) (K.written listing.new) text.now) }
    ensures fault { IfErr result (IsWriteFault text.now (K.written listing.old) (K.written listing.new) (K.faults listing.old) (K.faults listing.new)) }
{
    match write_all(listing, text) {
        Ok(()) => Ok(()),
        Err(PutFault::Failed) => Err(RunFault::Write),
        Err(PutFault::NoMemory) => Err(RunFault::NoMemory),
    }
}

// Stores a certificate under a name, and writes the line that tells it.
fn save<K: Sink, D: Library>(
    alloc: Global,
    p: &Problem,
    name: &str,
    cert: &Cert,
    listing: &mut K,
    library: &mut D,
) -> Result<(), RunFault>
    requires lengths { HasLengths p.now cert.now }
    ensures later { K.faults listing.old ≤ K.faults listing.new }
    ensures quiet { K.quiet listing.new ≡ K.quiet listing.old }
    ensures calm { K.quiet listing.old ≡ true → K.faults listing.new ≡ K.faults listing.old }
    ensures stores { D.store_faults library.old ≤ D.store_faults library.new }
    ensures fetches { D.fetch_faults library.new ≡ D.fetch_faults library.old }
    ensures misses { (q : List ℕ) → D.misses library.new q ≡ D.misses library.old q }
    ensures quiet_fetches { D.quiet_fetches library.new ≡ D.quiet_fetches library.old }
    ensures quiet_stores { D.quiet_stores library.new ≡ D.quiet_stores library.old }
    ensures calm_stores { D.quiet_stores library.old ≡ true → D.store_faults library.new ≡ D.store_faults library.old }
    ensures ok { OnOk result (Ends p.now (Some name.now) (Some cert.now) (K.written listing.old) (K.written listing.new) (D.held library.old) (D.held library.new)) }
    ensures fault { IfErr result (IsEndFault p.now (Some name.now) (Some cert.now) (K.written listing.old) (K.written listing.new) (K.faults listing.old) (K.faults listing.new) (D.held library.old) (D.held library.new) (D.store_faults library.old) (D.store_faults library.new)) }
{
    let Ok(saved) = certificate_text(alloc, p, cert) else {
        return Err(RunFault::NoMemory);
    };
    let Ok(line) = saved_line(alloc, name, saved.rows) else {
        return Err(RunFault::NoMemory);
    };
    match library.store(name, saved.text.bytes()) {
        Ok(()) => write(listing, line.bytes()),
        Err(PutFault::Failed) => Err(RunFault::Write),
        Err(PutFault::NoMemory) => Err(RunFault::NoMemory),
    }
}

/// Ends a program. Where it names a data set for its certificate, that of the last halt is stored there, if this was a
/// verdict, and a line says so; else a line says that there is none.
///
/// `Write` comes only where the count of the listing's faults or that of failed stores rose. After a store that failed
/// nothing was written, and what this name then has is unknown; all other names are as they were.
pub(crate) fn end<K: Sink, D: Library>(
    alloc: Global,
    p: &Problem,
    certout: Option<&str>,
    proof: &Option<Cert>,
    listing: &mut K,
    library: &mut D,
) -> Result<(), RunFault>
    requires lengths { IfSome proof.now (HasLengths p.now) }
    ensures later { K.faults listing.old ≤ K.faults listing.new }
    ensures quiet { K.quiet listing.new ≡ K.quiet listing.old }
    ensures calm { K.quiet listing.old ≡ true → K.faults listing.new ≡ K.faults listing.old }
    ensures stores { D.store_faults library.old ≤ D.store_faults library.new }
    ensures fetches { D.fetch_faults library.new ≡ D.fetch_faults library.old }
    ensures misses { (q : List ℕ) → D.misses library.new q ≡ D.misses library.old q }
    ensures quiet_fetches { D.quiet_fetches library.new ≡ D.quiet_fetches library.old }
    ensures quiet_stores { D.quiet_stores library.new ≡ D.quiet_stores library.old }
    ensures calm_stores { D.quiet_stores library.old ≡ true → D.store_faults library.new ≡ D.store_faults library.old }
    ensures ok { OnOk result (Ends p.now (option_copied certout.entry) proof.now (K.written listing.old) (K.written listing.new) (D.held library.old) (D.held library.new)) }
    ensures fault { IfErr result (IsEndFault p.now (option_copied certout.entry) proof.now (K.written listing.old) (K.written listing.new) (K.faults listing.old) (K.faults listing.new) (D.held library.old) (D.held library.new) (D.store_faults library.old) (D.store_faults library.new)) }
{
    let Some(name) = certout else {
        return Ok(());
    };
    match proof {
        Some(cert) => save(alloc, p, name, cert, listing, library),
        None => write(listing, "NOT SAVED CERTOUT NO VERDICT\n".as_bytes()),
    }
}
