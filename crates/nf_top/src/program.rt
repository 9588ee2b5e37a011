//! The program of a text by the command that it is read for, and what of the language the command takes today.
ghost use Rattle.std.specs.Prelude.{◌≡◌, List, ℕ, IfOk, IfErr, IfSome, MatchOption};
ghost use Rattle.std.specs.Io.KnownBytes.{Consumes, IsAtEnd};
ghost use Rattle.nf_program.specs.declared.program.Command.TheVariants.{Check, Run};
ghost use Rattle.nf_program.specs.Grammar.{HasProgram};
ghost use Rattle.nf_top.specs.Outcome.{AllFetched, Input};
ghost use Rattle.nf_top.specs.Standing.{SetNames as Named, StandsForCheck, StandsForRun, asks_more, asks_path, asks_tables};
ghost use Rattle.std.specs.Str.{IsUtf8};
ghost use Rattle.nf_top.specs.Steps.{Stops, lent_name, names_of, stop_of};
ghost use Rattle.nf_top.specs.Words.{IsCommand};

use crate::refusal::{Refusal, Stop};
use nf_program::{Command, Name, ProcOptions, Program, SessionOptions, StmtFault, StmtKind};
use nf_reader::read_program;
use nf_run::are_standing;
use std::alloc::Global;
use std::str;

/// The names of the data sets that a command fetches for a program, as it says them. CERTDATA is of `check` only.
#[derive(Clone, Copy)]
pub(crate) struct SetNames<'a> {
    pub(crate) arcdata: &'a str,
    pub(crate) nodedata: Option<&'a str>,
    pub(crate) condata: Option<&'a str>,
    pub(crate) certdata: Option<&'a str>,
}

// Why a text is no program, as it ends the call.
fn refused(fault: StmtFault) -> Stop
    ensures { result ≡ stop_of fault }
{
    match fault.kind {
        StmtKind::NoMemory => Stop::NoMemory,
        _ => Stop::Refused(Refusal::NoProgram(fault)),
    }
}

/// The program that a text has under a command. It stops with `NoProgram` at the text's first fault.
pub(crate) fn program_of(alloc: Global, text: &[u8], command: Command) -> Result<Program, Stop>
    ensures ok { IfOk result (λ p. HasProgram command text.now p) }
    ensures stops { IfErr result (λ stop. (i : Input) → IsCommand command i.words → Consumes i.left i.rest text.now → IsAtEnd i.rest → AllFetched i → Stops i stop) }
{
    match read_program(alloc, text, command) {
        Ok(program) => Ok(program),
        Err(fault) => Err(refused(fault)),
    }
}

/// The name of a data set as text, where it is there.
pub(crate) fn text_of(name: &Option<Name>) -> Option<&str>
    requires text { IfSome name.now IsUtf8 }
    ensures { lent_name result ≡ name.now }
{
    match name {
        Some(name) => match str::from_utf8(name.bytes()) {
            Ok(text) => Some(text),
            Err(_) => unreachable!(),
        },
        None => None,
    }
}

/// The names of the data sets of a program of `check`, with one for CERTDATA, or None if `check` does not accept the program.
pub(crate) fn names_for_check(program: &Program) -> Option<SetNames<'_>>
    requires read { (text : List ℕ) × HasProgram Check text program.now }
    ensures { MatchOption result ((n : Named) → StandsForCheck program.now n → ⊥) (λ n. StandsForCheck program.now (names_of n)) }
{
    let p = &program.proc;
    if asks_path(p) {
        return None;
    }
    let (arcdata, certdata) = (text_of(&p.arcdata), text_of(&p.certdata));
    let (Some(arcdata), Some(_)) = (arcdata, certdata) else {
        return None;
    };
    Some(SetNames {
        arcdata,
        nodedata: text_of(&p.nodedata),
        condata: text_of(&p.condata),
        certdata,
    })
}

// Whether PROC asks for a greatest flow or a shortest path.
fn asks_path(p: &ProcOptions) -> bool
    ensures { result ≡ asks_path p.now }
{
    p.maxflow || p.shortpath
}

// Whether PROC asks for saved tables, or for outputs other than CERTOUT=.
fn asks_tables(p: &ProcOptions) -> bool
    ensures { result ≡ asks_tables p.now }
{
    p.warm
        || p.conin.is_some()
        || p.dualin.is_some()
        || p.sessiondata.is_some()
        || p.arcout.is_some()
        || p.nodeout.is_some()
        || p.conout.is_some()
        || p.dualout.is_some()
        || p.sessionout.is_some()
}

// Whether a session option other than limits, rules and sizes of queues has not its default.
fn asks_more(o: &SessionOptions) -> bool
    ensures { result ≡ asks_more o.now }
{
    o.pause1 != 0
        || o.pause2 != 0
        || o.feasiblepause1
        || o.feasiblepause2
        || o.endpause1
        || o.future1
        || o.future2
}

/// The names of the data sets of a program of `run`, without one for CERTDATA, or None if `run` does not accept the program.
pub(crate) fn names_for_run(program: &Program) -> Option<SetNames<'_>>
    requires read { (text : List ℕ) × HasProgram Run text program.now }
    ensures { MatchOption result ((n : Named) → StandsForRun program.now n → ⊥) (λ n. StandsForRun program.now (names_of n)) }
{
    let p = &program.proc;
    if asks_path(p) || asks_tables(p) || asks_more(&p.session) {
        return None;
    }
    if !are_standing(program.acts.items()) {
        return None;
    }
    let Some(arcdata) = text_of(&p.arcdata) else {
        return None;
    };
    Some(SetNames {
        arcdata,
        nodedata: text_of(&p.nodedata),
        condata: text_of(&p.condata),
        certdata: None,
    })
}
