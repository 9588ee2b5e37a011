//! The tables of a sample as texts, and the two commands over them in memory.
ghost use Rattle.std.specs.Prelude.{◌≡◌, Some, codes, IfOk, OnOk};
ghost use Rattle.std.specs.Option.{option_map};
ghost use Rattle.nf_io.specs.Held.{found};
ghost use Rattle.nf_sample.specs.Sample.{IsSize};
ghost use Rattle.nf_call.specs.Sample.{ChecksSample, RunsSample};
ghost use Rattle.nf_call.specs.Steps.{AreTexts, GivenIfAny, HoldsTexts, IsTrial, IsUntouched};

use crate::lines::{check_text, run_text};
use nf_command::SampleSize;
use nf_io::{MemLibrary, MemSink, MemSource, Text};
use nf_sample::sample_tables;
use nf_table::write_table;
use nf_top::{Status, netflow};
use std::alloc::{AllocError, Global};

/// The tables of a sample, as texts.
#[derive(Drop)]
pub(crate) struct SampleTexts {
    arcs: Text,
    nodes: Text,
    cons: Option<Text>,
}

/// A command that was done in memory: how it ended, its listing, and what is then under the name `k`.
#[derive(Drop)]
pub(crate) struct Trial {
    pub(crate) status: Status,
    pub(crate) listing: MemSink,
    pub(crate) certificate: Option<Text>,
}

/// The tables of a sample, as texts.
pub(crate) fn sample_texts(alloc: Global, size: SampleSize) -> Result<SampleTexts, AllocError>
    requires sizes { IsSize size.nodes size.arcs size.cons }
    ensures { IfOk result (AreTexts size) }
{
    let tables = sample_tables(alloc, size.seed, size.nodes, size.arcs, size.cons)?;
    let arcs = write_table(alloc, &tables.arcs)?;
    let nodes = write_table(alloc, &tables.nodes)?;
    let cons = match &tables.cons {
        Some(cons) => Some(write_table(alloc, cons)?),
        None => None,
    };
    Ok(SampleTexts { arcs, nodes, cons })
}

// Gives a name these bytes, if there are any.
fn give_if_any(library: &mut MemLibrary, name: &str, bytes: &Option<Text>) -> Result<(), AllocError>
    ensures given { OnOk result (GivenIfAny library.old.held library.new.held name.now bytes.now) }
    ensures fetches { library.new.fetches ≡ library.old.fetches }
    ensures stores { library.new.stores ≡ library.old.stores }
{
    match bytes {
        Some(bytes) => library.give(name, bytes.bytes()),
        None => Ok(()),
    }
}

// A library in memory that has these texts, each under its name.
fn library_of(alloc: Global, texts: &SampleTexts) -> Result<MemLibrary, AllocError>
    ensures holds { IfOk result (λ l. HoldsTexts texts.now l.held) }
    ensures untouched { IfOk result IsUntouched }
{
    let mut library = MemLibrary::new(alloc, &[], &[])?;
    library.give("arcs", texts.arcs.bytes())?;
    library.give("nodes", texts.nodes.bytes())?;
    give_if_any(&mut library, "cons", &texts.cons)?;
    Ok(library)
}

// What is under the name `k`.
fn certificate_in(alloc: Global, library: &MemLibrary) -> Result<Option<Text>, AllocError>
    ensures { IfOk result (λ c. c ≡ found library.now.held (codes "k")) }
{
    match library.get("k") {
        Some(bytes) => Ok(Some(Text::from_slice(alloc, bytes)?)),
        None => Ok(None),
    }
}

// Does what one word says, by this program text and over this library.
fn obey(alloc: Global, word: &str, text: &str, library: MemLibrary) -> Result<Trial, AllocError>
    requires untouched { IsUntouched library }
    ensures { IfOk result (λ t. IsTrial word.now text.now library.held t.status t.listing.written t.certificate) }
{
    let mut library = library;
    let mut words = Vec::new(alloc);
    words.push(String::from_str(alloc, word)?)?;
    let mut source = MemSource::new(alloc, text.as_bytes(), &[])?;
    let mut listing = MemSink::new(alloc, &[])?;
    let status = netflow(
        alloc,
        words.as_slice(),
        &mut source,
        &mut library,
        &mut listing,
    );
    let certificate = certificate_in(alloc, &library)?;
    Ok(Trial {
        status,
        listing,
        certificate,
    })
}

/// The run of a sample.
pub(crate) fn run_sample(
    alloc: Global,
    size: SampleSize,
    texts: &SampleTexts,
) -> Result<Trial, AllocError>
    requires texts { AreTexts size texts.now }
    ensures { IfOk result (λ t. RunsSample size t.status t.listing.written t.certificate) }
{
    let library = library_of(alloc, texts)?;
    obey(alloc, "run", run_text(size), library)
}

/// The check of a certificate on the same tables.
pub(crate) fn check_sample(
    alloc: Global,
    size: SampleSize,
    texts: &SampleTexts,
    certificate: &[u8],
) -> Result<Trial, AllocError>
    requires texts { AreTexts size texts.now }
    ensures { IfOk result (λ t. ChecksSample size certificate.now t.status t.listing.written) }
{
    let mut library = library_of(alloc, texts)?;
    library.give("k", certificate)?;
    obey(alloc, "check", check_text(size), library)
}
