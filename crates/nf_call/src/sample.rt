//! A sample: a problem that is made, solved and checked in memory.
ghost use Rattle.std.specs.Prelude.{true, ◌≡◌, ◌++◌, ℕ, List, IfOk, OnOk};
ghost use Rattle.nf_sample.specs.Sample.{IsSize};
ghost use Rattle.nf_call.specs.Lines.{but_last_line, check_lines, run_lines, sample_line};
ghost use Rattle.nf_call.specs.Sample.{ChecksSample, IsSummary, RunsSample, SampleEnds};
ghost use Rattle.nf_call.specs.Steps.{AreTexts};

use crate::lines::{but_last_line, heading};
use crate::trial::{SampleTexts, Trial, check_sample, run_sample, sample_texts};
use nf_command::SampleSize;
use nf_io::{PutFault, Sink, Text, write_all};
use nf_top::Status;
use std::alloc::{AllocError, Global};

/// A summary, and how its sample ended.
#[derive(Drop)]
struct Summary {
    text: Text,
    status: Status,
}

// Adds what a summary says of a check: that the certificate is accepted, or the line of its refusal.
fn add_check(text: &mut Text, check: &Trial) -> Result<(), AllocError>
    ensures { OnOk result (text.new ≡ text.old ++ check_lines check.now.status check.now.listing.written) }
{
    match check.status {
        Status::Finished => text.push(b"CHECK ACCEPTED\n"),
        _ => text.push(check.listing.bytes()),
    }
}

// The summary of a run that stored a certificate: these lines, and what the check of it says.
fn checked(
    alloc: Global,
    size: SampleSize,
    texts: &SampleTexts,
    certificate: &[u8],
    lines: Text,
) -> Result<Summary, AllocError>
    requires texts { AreTexts size texts.now }
    ensures { IfOk result (λ s. (checked : List ℕ) × ChecksSample size certificate.now s.status checked × (s.text ≡ lines ++ check_lines s.status checked)) }
{
    let mut text = lines;
    let check = check_sample(alloc, size, texts, certificate)?;
    add_check(&mut text, &check)?;
    Ok(Summary {
        text,
        status: check.status,
    })
}

// What a summary has of a run: its lines but the last, or all if it did not finish.
fn lines_of(run: &Trial) -> &[u8]
    ensures { result.now ≡ run_lines run.now.status run.now.listing.written }
{
    match run.status {
        Status::Finished => but_last_line(run.listing.bytes()),
        _ => run.listing.bytes(),
    }
}

// The first line of a summary, and what it has of a run.
fn front(alloc: Global, size: SampleSize, run: &Trial) -> Result<Text, AllocError>
    ensures { IfOk result (λ t. t ≡ sample_line size ++ run_lines run.now.status run.now.listing.written) }
{
    let mut text = heading(alloc, size)?;
    text.push(lines_of(run))?;
    Ok(text)
}

// The summary of a run that finished, of which these are the lines: the check of the certificate that it stored, if any.
fn after_finish(
    alloc: Global,
    size: SampleSize,
    texts: &SampleTexts,
    run: &Trial,
    lines: Text,
) -> Result<Summary, AllocError>
    requires texts { AreTexts size texts.now }
    requires run { RunsSample size Status.Finished run.now.listing.written run.now.certificate }
    requires lines { lines ≡ sample_line size ++ but_last_line run.now.listing.written }
    ensures { IfOk result (λ s. IsSummary size s.text s.status) }
{
    match &run.certificate {
        Some(certificate) => checked(alloc, size, texts, certificate.bytes(), lines),
        None => Ok(Summary {
            text: lines,
            status: Status::Finished,
        }),
    }
}

// The summary of a sample that was run.
fn summary_after(
    alloc: Global,
    size: SampleSize,
    texts: &SampleTexts,
    run: &Trial,
) -> Result<Summary, AllocError>
    requires texts { AreTexts size texts.now }
    requires run { RunsSample size run.now.status run.now.listing.written run.now.certificate }
    ensures { IfOk result (λ s. IsSummary size s.text s.status) }
{
    let text = front(alloc, size, run)?;
    match run.status {
        Status::Finished => after_finish(alloc, size, texts, run, text),
        _ => Ok(Summary {
            text,
            status: run.status,
        }),
    }
}

// The summary of a sample.
fn summary_of(alloc: Global, size: SampleSize) -> Result<Summary, AllocError>
    requires sizes { IsSize size.nodes size.arcs size.cons }
    ensures { IfOk result (λ s. IsSummary size s.text s.status) }
{
    let texts = sample_texts(alloc, size)?;
    let run = run_sample(alloc, size, &texts)?;
    summary_after(alloc, size, &texts, &run)
}

/// Makes a sample, runs and checks it in memory, and lists the summary.
pub(crate) fn sample<K: Sink>(alloc: Global, size: SampleSize, listing: &mut K) -> Status
    requires sizes { IsSize size.nodes size.arcs size.cons }
    ensures calm { K.quiet listing.old ≡ true → K.faults listing.new ≡ K.faults listing.old }
    ensures ends { SampleEnds size (K.written listing.old) (K.written listing.new) (K.faults listing.old) (K.faults listing.new) result }
{
    let Ok(summary) = summary_of(alloc, size) else {
        return Status::NoMemory;
    };
    match write_all(listing, summary.text.bytes()) {
        Ok(()) => summary.status,
        Err(PutFault::Failed) => Status::WriteFault,
        Err(PutFault::NoMemory) => Status::NoMemory,
    }
}
