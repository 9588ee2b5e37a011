//! The program of a source under `export`, and the names of its data sets.
ghost use Rattle.std.specs.Prelude.{true, ◌≡◌, ◌≤◌, List, ℕ, IfErr, IfOk, IfSome, MatchOption};
ghost use Rattle.std.specs.Io.KnownBytes.{Consumes, IsAtEnd};
ghost use Rattle.std.specs.Str.{IsUtf8};
ghost use Rattle.nf_program.specs.declared.program.Command.TheVariants.{Export};
ghost use Rattle.nf_program.specs.Grammar.{HasProgram};
ghost use Rattle.nf_top.specs.Outcome.{AllFetched, Input};
ghost use Rattle.nf_top.specs.Standing.{SetNames as Named, asks_path};
ghost use Rattle.nf_top.specs.Steps.{SawSource, lent_name};
ghost use Rattle.nf_exchange.specs.Export.{IsExportable, ReadsProgram};
ghost use Rattle.nf_exchange.specs.Steps.{Stops, names_of, stop_of};

use crate::refusal::{Refusal, Stop};
use nf_io::{MOST_PROGRAM_BYTES, ReadAllFault, Source, Text, read_all};
use nf_program::{Command, Name, ProcOptions, Program, StmtFault, StmtKind};
use nf_reader::read_program;
use std::alloc::Global;
use std::str;

/// The names of the data sets of a program, as it says them.
#[derive(Clone, Copy)]
pub(crate) struct SetNames<'a> {
    pub(crate) arcdata: &'a str,
    pub(crate) nodedata: Option<&'a str>,
    pub(crate) condata: Option<&'a str>,
}

/// The fault of a text of more bytes.
const TOO_LONG: StmtFault = StmtFault {
    at: MOST_PROGRAM_BYTES as u32,
    kind: StmtKind::TooLong,
};

// The text of the source.
fn source_text<S: Source>(alloc: Global, source: &mut S) -> Result<Text, Stop>
    ensures faults { S.faults source.old ≤ S.faults source.new }
    ensures quiet { S.quiet source.new ≡ S.quiet source.old }
    ensures calm { S.quiet source.old ≡ true → S.faults source.new ≡ S.faults source.old }
    ensures taken { IfOk result (λ t. Consumes (S.left source.old) (S.left source.new) t) }
    ensures ended { IfOk result (λ _. IsAtEnd (S.left source.new)) }
    ensures stops { IfErr result (λ stop. (i : Input) →
        SawSource i (S.left source.old) (S.left source.new) (S.faults source.old) (S.faults source.new) → AllFetched i → Stops i stop) }
{
    match read_all(alloc, source, MOST_PROGRAM_BYTES) {
        Ok(text) => Ok(text),
        Err(ReadAllFault::Failed) => Err(Stop::Refused(Refusal::ReadFault)),
        Err(ReadAllFault::TooLong) => Err(Stop::Refused(Refusal::NoProgram(TOO_LONG))),
        Err(ReadAllFault::NoMemory) => Err(Stop::NoMemory),
    }
}

// Why a text is no program, as it ends the command.
fn refused(fault: StmtFault) -> Stop
    ensures { result ≡ stop_of fault }
{
    match fault.kind {
        StmtKind::NoMemory => Stop::NoMemory,
        _ => Stop::Refused(Refusal::NoProgram(fault)),
    }
}

// The program of a text.
fn program_of(alloc: Global, text: &[u8]) -> Result<Program, Stop>
    ensures ok { IfOk result (λ p. HasProgram Export text.now p) }
    ensures stops { IfErr result (λ stop. (i : Input) → Consumes i.left i.rest text.now → IsAtEnd i.rest → AllFetched i → Stops i stop) }
{
    match read_program(alloc, text, Command::Export) {
        Ok(program) => Ok(program),
        Err(fault) => Err(refused(fault)),
    }
}

/// The program of the source. It stops with `ReadFault` if the source failed, and with `NoProgram` at the text's first fault.
pub(crate) fn source_program<S: Source>(alloc: Global, source: &mut S) -> Result<Program, Stop>
    ensures calm { S.quiet source.old ≡ true → S.faults source.new ≡ S.faults source.old }
    ensures read { IfOk result (λ p. (text : List ℕ) × HasProgram Export text p) }
    ensures reads { IfOk result (λ p. (i : Input) →
        SawSource i (S.left source.old) (S.left source.new) (S.faults source.old) (S.faults source.new) → ReadsProgram i p) }
    ensures stops { IfErr result (λ stop. (i : Input) →
        SawSource i (S.left source.old) (S.left source.new) (S.faults source.old) (S.faults source.new) → AllFetched i → Stops i stop) }
{
    let text = source_text(alloc, source)?;
    program_of(alloc, text.bytes())
}

// The name of a data set as text, if it is there.
fn text_of(name: &Option<Name>) -> Option<&str>
    requires text { IfSome name.now IsUtf8 }
    ensures { lent_name result ≡ name.now }
{
    match name {
        Some(name) => match str::from_utf8(name.bytes()) {
            Ok(text) => Some(text),
            Err(_) => unreachable!(),
        },
        None => None,
    }
}

// Whether PROC asks for a greatest flow or a shortest path.
fn asks_path(p: &ProcOptions) -> bool
    ensures { result ≡ asks_path p.now }
{
    p.maxflow || p.shortpath
}

/// The names of the data sets of a program, or None if `export` does not accept the program.
pub(crate) fn set_names(program: &Program) -> Option<SetNames<'_>>
    requires read { (text : List ℕ) × HasProgram Export text program.now }
    ensures { MatchOption result ((n : Named) → IsExportable program.now n → ⊥) (λ n. IsExportable program.now (names_of n)) }
{
    let p = &program.proc;
    if asks_path(p) {
        return None;
    }
    let Some(arcdata) = text_of(&p.arcdata) else {
        return None;
    };
    Some(SetNames {
        arcdata,
        nodedata: text_of(&p.nodedata),
        condata: text_of(&p.condata),
    })
}
