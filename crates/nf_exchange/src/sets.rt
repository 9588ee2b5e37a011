//! The data sets of a program: their bytes, and then their tables.
ghost use Rattle.std.specs.Prelude.{true, ◌≡◌, Some, IfOk, IfErr, OnOk};
ghost use Rattle.nf_top.specs.Data.{AreTables, AreTablesBefore, IsTable, IsTableOrNone, Sets as SetBytes, bytes_of};
ghost use Rattle.nf_top.specs.Outcome.{AreHeld, AreHeldBefore, Input, IsHeld, IsHeldOrNone, NoneMissed, name_of};
ghost use Rattle.nf_top.specs.Standing.{SetNames as Named};
ghost use Rattle.nf_top.specs.Steps.{SawLibrary, bytes_in, lent_name};
ghost use Rattle.nf_exchange.specs.Export.{ComesToFetch, FetchesSets, NamesSets};
ghost use Rattle.nf_exchange.specs.Steps.{IsStopOfFetch, Stops, grids_of, names_of, sets_of};

use crate::program::SetNames;
use crate::refusal::{Refusal, Stop};
use nf_io::{FetchFault, Library, Text};
use nf_program::SetName;
use nf_table::{Table, TableFault, read_table};
use std::alloc::{AllocError, Global};

/// The bytes of the data sets of a program.
#[derive(Debug, Drop)]
pub(crate) struct Sets {
    arcdata: Vec<u8>,
    nodedata: Option<Vec<u8>>,
    condata: Option<Vec<u8>>,
}

/// Their tables.
#[derive(Drop)]
pub(crate) struct Tables {
    pub(crate) arcdata: Table,
    pub(crate) nodedata: Option<Table>,
    pub(crate) condata: Option<Table>,
}

// The refusal of a name that the library lacks.
fn absent(alloc: Global, name: &str) -> Result<Refusal, AllocError>
    ensures { IfOk result (λ r. r ≡ Refusal.Absent name.now) }
{
    let name = Text::from_slice(alloc, name.as_bytes())?;
    Ok(Refusal::Absent(name))
}

// The bytes of a data set, which has this name in the program.
fn fetch_set<L: Library>(
    alloc: Global,
    set: SetName,
    name: &str,
    library: &mut L,
) -> Result<Vec<u8>, Stop>
    ensures held { L.held library.new ≡ L.held library.old }
    ensures stores { L.store_faults library.new ≡ L.store_faults library.old }
    ensures quiet { L.quiet_fetches library.new ≡ L.quiet_fetches library.old }
    ensures quiet_stores { L.quiet_stores library.new ≡ L.quiet_stores library.old }
    ensures calm { L.quiet_fetches library.old ≡ true → L.fetch_faults library.new ≡ L.fetch_faults library.old }
    ensures all { OnOk result (NoneMissed (L.fetch_faults library.old) (L.fetch_faults library.new) (L.misses library.old) (L.misses library.new)) }
    ensures ok { IfOk result (λ v. IsHeld (L.held library.old) name.now v.items) }
    ensures stops { IfErr result (λ stop. (i : Input) →
        SawLibrary i (L.held library.old) (L.fetch_faults library.old) (L.fetch_faults library.new) (L.misses library.old) (L.misses library.new) →
        ComesToFetch i set name.now → Stops i stop) }
{
    let mut bytes = Vec::new(alloc);
    match library.fetch(alloc, name, &mut bytes) {
        Ok(()) => Ok(bytes),
        Err(fault) => Err(stop_of_fetch(alloc, set, name, fault)),
    }
}

// Why a fetch returned no bytes, as it ends the command.
fn stop_of_fetch(alloc: Global, set: SetName, name: &str, fault: FetchFault) -> Stop
    ensures { IsStopOfFetch set name.now fault result }
{
    match fault {
        FetchFault::Failed => Stop::Refused(Refusal::ReadFault),
        FetchFault::Absent => match absent(alloc, name) {
            Ok(refusal) => Stop::Refused(refusal),
            Err(_) => Stop::NoMemory,
        },
        FetchFault::TooLong => Stop::Refused(Refusal::TooLong(set)),
        FetchFault::NoMemory => Stop::NoMemory,
    }
}

// The bytes of a data set, if it has a name.
fn fetch_if_named<L: Library>(
    alloc: Global,
    set: SetName,
    name: Option<&str>,
    library: &mut L,
) -> Result<Option<Vec<u8>>, Stop>
    ensures held { L.held library.new ≡ L.held library.old }
    ensures stores { L.store_faults library.new ≡ L.store_faults library.old }
    ensures quiet { L.quiet_fetches library.new ≡ L.quiet_fetches library.old }
    ensures quiet_stores { L.quiet_stores library.new ≡ L.quiet_stores library.old }
    ensures calm { L.quiet_fetches library.old ≡ true → L.fetch_faults library.new ≡ L.fetch_faults library.old }
    ensures all { OnOk result (NoneMissed (L.fetch_faults library.old) (L.fetch_faults library.new) (L.misses library.old) (L.misses library.new)) }
    ensures ok { IfOk result (λ v. IsHeldOrNone (L.held library.old) (lent_name name.entry) (bytes_in v)) }
    ensures stops { IfErr result (λ stop. (i : Input) (n : Named) →
        SawLibrary i (L.held library.old) (L.fetch_faults library.old) (L.fetch_faults library.new) (L.misses library.old) (L.misses library.new) →
        NamesSets i n → AreHeldBefore i.held n set → lent_name name.entry ≡ name_of n set → Stops i stop) }
{
    let Some(name) = name else {
        return Ok(None);
    };
    match fetch_set(alloc, set, name, library) {
        Ok(bytes) => Ok(Some(bytes)),
        Err(stop) => Err(stop),
    }
}

// The bytes of the data sets of these names, in the order ARCDATA, NODEDATA, CONDATA.
//
// It stops at the first fetch that does not return `Ok`: with `ReadFault` if it failed, `Absent` if the library lacks the
// name, `TooLong` if it has too many bytes. No other set is fetched.
fn fetch_sets<L: Library>(alloc: Global, names: SetNames<'_>, library: &mut L) -> Result<Sets, Stop>
    ensures held { L.held library.new ≡ L.held library.old }
    ensures stores { L.store_faults library.new ≡ L.store_faults library.old }
    ensures quiet { L.quiet_fetches library.new ≡ L.quiet_fetches library.old }
    ensures quiet_stores { L.quiet_stores library.new ≡ L.quiet_stores library.old }
    ensures calm { L.quiet_fetches library.old ≡ true → L.fetch_faults library.new ≡ L.fetch_faults library.old }
    ensures all { OnOk result (NoneMissed (L.fetch_faults library.old) (L.fetch_faults library.new) (L.misses library.old) (L.misses library.new)) }
    ensures ok { IfOk result (λ s. AreHeld (L.held library.old) (names_of names.entry) (sets_of s)) }
    ensures stops { IfErr result (λ stop. (i : Input) →
        SawLibrary i (L.held library.old) (L.fetch_faults library.old) (L.fetch_faults library.new) (L.misses library.old) (L.misses library.new) →
        NamesSets i (names_of names.entry) → Stops i stop) }
{
    let arcdata = fetch_set(alloc, SetName::Arcdata, names.arcdata, library)?;
    let nodedata = fetch_if_named(alloc, SetName::Nodedata, names.nodedata, library)?;
    let condata = fetch_if_named(alloc, SetName::Condata, names.condata, library)?;
    Ok(Sets {
        arcdata,
        nodedata,
        condata,
    })
}

// The table of a data set, whose bytes are dropped.
fn read_set(alloc: Global, set: SetName, bytes: Vec<u8>) -> Result<Table, Stop>
    ensures ok { IfOk result (IsTable bytes.items) }
    ensures stops { IfErr result (λ stop. (i : Input) (s : SetBytes) →
        FetchesSets i s → AreTablesBefore s set → Some bytes.items ≡ bytes_of s set → Stops i stop) }
{
    match read_table(alloc, &bytes) {
        Ok(table) => Ok(table),
        Err(TableFault::NoMemory) => Err(Stop::NoMemory),
        Err(fault) => Err(Stop::Refused(Refusal::NoTable(set, fault))),
    }
}

// The table of a data set, if it is there.
fn read_if_there(alloc: Global, set: SetName, bytes: Option<Vec<u8>>) -> Result<Option<Table>, Stop>
    ensures ok { IfOk result (IsTableOrNone (bytes_in bytes)) }
    ensures stops { IfErr result (λ stop. (i : Input) (s : SetBytes) →
        FetchesSets i s → AreTablesBefore s set → bytes_in bytes ≡ bytes_of s set → Stops i stop) }
{
    let Some(bytes) = bytes else {
        return Ok(None);
    };
    match read_set(alloc, set, bytes) {
        Ok(table) => Ok(Some(table)),
        Err(stop) => Err(stop),
    }
}

// The tables of data sets, read in the order ARCDATA, NODEDATA, CONDATA. The bytes of each are dropped once it is
// read. It stops with `NoTable` at the first that is no table.
fn read_tables(alloc: Global, sets: Sets) -> Result<Tables, Stop>
    ensures ok { IfOk result (λ t. AreTables (sets_of sets) (grids_of t)) }
    ensures stops { IfErr result (λ stop. (i : Input) → FetchesSets i (sets_of sets) → Stops i stop) }
{
    let Sets {
        arcdata,
        nodedata,
        condata,
    } = sets;
    let arcdata = read_set(alloc, SetName::Arcdata, arcdata)?;
    let nodedata = read_if_there(alloc, SetName::Nodedata, nodedata)?;
    let condata = read_if_there(alloc, SetName::Condata, condata)?;
    Ok(Tables {
        arcdata,
        nodedata,
        condata,
    })
}

/// The tables of the data sets of these names: first all are fetched, then all are read, each in the order ARCDATA,
/// NODEDATA, CONDATA. It stops at the first that is refused, and fetches no set of another name.
pub(crate) fn load_tables<L: Library>(
    alloc: Global,
    names: SetNames<'_>,
    library: &mut L,
) -> Result<Tables, Stop>
    ensures held { L.held library.new ≡ L.held library.old }
    ensures stores { L.store_faults library.new ≡ L.store_faults library.old }
    ensures quiet_stores { L.quiet_stores library.new ≡ L.quiet_stores library.old }
    ensures calm { L.quiet_fetches library.old ≡ true → L.fetch_faults library.new ≡ L.fetch_faults library.old }
    ensures all { OnOk result (NoneMissed (L.fetch_faults library.old) (L.fetch_faults library.new) (L.misses library.old) (L.misses library.new)) }
    ensures ok { IfOk result (λ t. (s : SetBytes) × AreHeld (L.held library.old) (names_of names.entry) s × AreTables s (grids_of t)) }
    ensures stops { IfErr result (λ stop. (i : Input) →
        SawLibrary i (L.held library.old) (L.fetch_faults library.old) (L.fetch_faults library.new) (L.misses library.old) (L.misses library.new) →
        NamesSets i (names_of names.entry) → Stops i stop) }
{
    let sets = fetch_sets(alloc, names, library)?;
    read_tables(alloc, sets)
}
