//! `import`: the tables of a DIMACS text, stored.
ghost use Rattle.std.specs.Prelude.{true, ◌≡◌, ℕ, String, List, IfErr, IfOk, OnOk};
ghost use Rattle.std.specs.Io.KnownBytes.{Consumes, IsAtEnd};
ghost use Rattle.nf_dimacs.specs.Text.{AreTables};
ghost use Rattle.nf_top.specs.Outcome.{Call, Input, call_of, call_with};
ghost use Rattle.nf_top.specs.Steps.{SawSource};
ghost use Rattle.nf_exchange.specs.Import.{EndsStoring, ImportEnds, ReadsTables};
ghost use Rattle.nf_exchange.specs.Promises.{HasImported, ImportsTheText, MayEndImport, RefusesNoText};
ghost use Rattle.nf_exchange.specs.Steps.{AreTexts, FailsStores, StopsImport, StoresTexts, status_of, stop_of_dimacs};

use crate::ending::conclude;
use crate::lines;
use crate::refusal::{Refusal, Stop};
use nf_dimacs::{DimacsFault, DimacsKind, DimacsTables, read_dimacs};
use nf_io::{Library, MOST_BYTES, PutFault, ReadAllFault, Sink, Source, Text, read_all};
use nf_table::write_table;
use nf_top::Status;
use std::alloc::{AllocError, Global};

/// The fault of a text of more bytes.
const TOO_LONG: DimacsFault = DimacsFault {
    line: 0,
    kind: DimacsKind::TooLong,
};

// The text of the source.
fn source_text<S: Source>(alloc: Global, source: &mut S) -> Result<Text, Stop>
    ensures calm { S.quiet source.old ≡ true → S.faults source.new ≡ S.faults source.old }
    ensures taken { IfOk result (λ t. Consumes (S.left source.old) (S.left source.new) t) }
    ensures ended { IfOk result (λ _. IsAtEnd (S.left source.new)) }
    ensures stops { IfErr result (λ stop. (i : Input) →
        SawSource i (S.left source.old) (S.left source.new) (S.faults source.old) (S.faults source.new) → StopsImport i stop) }
{
    match read_all(alloc, source, MOST_BYTES) {
        Ok(text) => Ok(text),
        Err(ReadAllFault::Failed) => Err(Stop::Refused(Refusal::ReadFault)),
        Err(ReadAllFault::TooLong) => Err(Stop::Refused(Refusal::NoDimacs(TOO_LONG))),
        Err(ReadAllFault::NoMemory) => Err(Stop::NoMemory),
    }
}

// Why a text has no problem, as it ends the command.
fn refused(fault: DimacsFault) -> Stop
    ensures { result ≡ stop_of_dimacs fault }
{
    match fault.kind {
        DimacsKind::NoMemory => Stop::NoMemory,
        _ => Stop::Refused(Refusal::NoDimacs(fault)),
    }
}

// The tables of a text.
fn tables_of(alloc: Global, text: &[u8]) -> Result<DimacsTables, Stop>
    ensures ok { IfOk result (AreTables text.now) }
    ensures stops { IfErr result (λ stop. (i : Input) → Consumes i.left i.rest text.now → IsAtEnd i.rest → StopsImport i stop) }
{
    match read_dimacs(alloc, text) {
        Ok(tables) => Ok(tables),
        Err(fault) => Err(refused(fault)),
    }
}

// The tables of the source.
fn source_tables<S: Source>(alloc: Global, source: &mut S) -> Result<DimacsTables, Stop>
    ensures calm { S.quiet source.old ≡ true → S.faults source.new ≡ S.faults source.old }
    ensures tables { IfOk result (λ t. (text : List ℕ) × AreTables text t) }
    ensures reads { IfOk result (λ t. (i : Input) →
        SawSource i (S.left source.old) (S.left source.new) (S.faults source.old) (S.faults source.new) → ReadsTables i t) }
    ensures stops { IfErr result (λ stop. (i : Input) →
        SawSource i (S.left source.old) (S.left source.new) (S.faults source.old) (S.faults source.new) → StopsImport i stop) }
{
    let text = source_text(alloc, source)?;
    tables_of(alloc, text.bytes())
}

// The texts of the tables.
#[derive(Drop)]
struct TableTexts {
    arcs: Text,
    nodes: Text,
}

fn texts_of(alloc: Global, tables: &DimacsTables) -> Result<TableTexts, AllocError>
    requires tables { (text : List ℕ) × AreTables text tables.now }
    ensures { IfOk result (AreTexts tables.now) }
{
    let arcs = write_table(alloc, &tables.arcs)?;
    let nodes = write_table(alloc, &tables.nodes)?;
    Ok(TableTexts { arcs, nodes })
}

// Stores both texts, the arcs first. It stops at the first store that fails.
fn store_texts<L: Library>(library: &mut L, texts: &TableTexts) -> Result<(), PutFault>
    ensures fetches { L.fetch_faults library.new ≡ L.fetch_faults library.old }
    ensures misses { (q : List ℕ) → L.misses library.new q ≡ L.misses library.old q }
    ensures calm { L.quiet_stores library.old ≡ true → L.store_faults library.new ≡ L.store_faults library.old }
    ensures ok { OnOk result (StoresTexts texts.now (L.held library.old) (L.held library.new)) }
    ensures fails { IfErr result (FailsStores texts.now (L.held library.old) (L.held library.new) (L.store_faults library.old) (L.store_faults library.new)) }
{
    library.store("arcs", texts.arcs.bytes())?;
    library.store("nodes", texts.nodes.bytes())
}

// The status of a store that fails.
fn status_of(fault: PutFault) -> Status
    ensures { result ≡ status_of fault }
{
    match fault {
        PutFault::Failed => Status::WriteFault,
        PutFault::NoMemory => Status::NoMemory,
    }
}

// Stores tables, and lists how many nodes and arcs there are.
fn store_tables<L: Library, K: Sink>(
    alloc: Global,
    tables: &DimacsTables,
    library: &mut L,
    listing: &mut K,
) -> Status
    requires tables { (text : List ℕ) × AreTables text tables.now }
    ensures fetches { L.fetch_faults library.new ≡ L.fetch_faults library.old }
    ensures misses { (q : List ℕ) → L.misses library.new q ≡ L.misses library.old q }
    ensures stores_calm { L.quiet_stores library.old ≡ true → L.store_faults library.new ≡ L.store_faults library.old }
    ensures listing_calm { K.quiet listing.old ≡ true → K.faults listing.new ≡ K.faults listing.old }
    ensures ends { (input : Input) →
        let call : Call = call_with input (K.written listing.old) (K.written listing.new) (K.faults listing.old) (K.faults listing.new) (L.held library.new) (L.store_faults library.old) (L.store_faults library.new) in
        L.held library.old ≡ input.held → EndsStoring call tables.now result }
{
    let Ok(texts) = texts_of(alloc, tables) else {
        return Status::NoMemory;
    };
    if let Err(fault) = store_texts(library, &texts) {
        return status_of(fault);
    }
    let line = lines::imported(alloc, tables.nodes.rows(), tables.arcs.rows());
    conclude(listing, line, Status::Finished)
}

// Stores the tables, or lists the line of a refusal.
fn import_source<S: Source, L: Library, K: Sink>(
    alloc: Global,
    source: &mut S,
    library: &mut L,
    listing: &mut K,
) -> Status
    ensures source_calm { S.quiet source.old ≡ true → S.faults source.new ≡ S.faults source.old }
    ensures library_calm { L.fetch_faults library.new ≡ L.fetch_faults library.old }
    ensures stores_calm { L.quiet_stores library.old ≡ true → L.store_faults library.new ≡ L.store_faults library.old }
    ensures listing_calm { K.quiet listing.old ≡ true → K.faults listing.new ≡ K.faults listing.old }
    ensures ends { (words : List (String Global)) → ImportEnds (call_of words S.left S.faults source.old source.new L.held L.fetch_faults L.store_faults L.misses library.old library.new K.written K.faults listing.old listing.new) result }
{
    match source_tables(alloc, source) {
        Ok(tables) => store_tables(alloc, &tables, library, listing),
        Err(Stop::Refused(refusal)) => { conclude(listing, refusal.line(alloc), refusal.status()) }
        Err(Stop::NoMemory) => Status::NoMemory,
    }
}

/// Reads the source as DIMACS text, stores the tables of its problem, and returns how that ended. It never ends with
/// `RangePassed`.
///
/// The tables are stored as `arcs` and then `nodes`, and the listing has `IMPORTED NODES n ARCS m`. A text without a problem
/// is `DataRefused`, and the listing has the line and the kind of its first fault. The first store that fails ends the command
/// with `WriteFault`; nothing is listed then. Nothing is fetched.
pub fn import<S: Source, L: Library, K: Sink>(
    alloc: Global,
    source: &mut S,
    library: &mut L,
    listing: &mut K,
) -> Status
    ensures source_calm { S.quiet source.old ≡ true → S.faults source.new ≡ S.faults source.old }
    ensures library_calm { L.fetch_faults library.new ≡ L.fetch_faults library.old }
    ensures stores_calm { L.quiet_stores library.old ≡ true → L.store_faults library.new ≡ L.store_faults library.old }
    ensures listing_calm { K.quiet listing.old ≡ true → K.faults listing.new ≡ K.faults listing.old }
    ensures ends { (words : List (String Global)) → ImportEnds (call_of words S.left S.faults source.old source.new L.held L.fetch_faults L.store_faults L.misses library.old library.new K.written K.faults listing.old listing.new) result }
    ensures imported { (words : List (String Global)) → result ≡ Status.Finished → HasImported (call_of words S.left S.faults source.old source.new L.held L.fetch_faults L.store_faults L.misses library.old library.new K.written K.faults listing.old listing.new) }
    ensures complete { (words : List (String Global)) → ImportsTheText (call_of words S.left S.faults source.old source.new L.held L.fetch_faults L.store_faults L.misses library.old library.new K.written K.faults listing.old listing.new) result }
    ensures refused { (words : List (String Global)) → RefusesNoText (call_of words S.left S.faults source.old source.new L.held L.fetch_faults L.store_faults L.misses library.old library.new K.written K.faults listing.old listing.new) result }
    ensures status { MayEndImport result }
{
    import_source(alloc, source, library, listing)
}
