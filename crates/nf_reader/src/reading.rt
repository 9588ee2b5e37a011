//! Reading a program.
ghost use Rattle.std.specs.Prelude.{◌≡◌, ◌<◌, ◌≤◌, ◌^◌, ◌⊎◌, length, All, IfOk, IfErr, MatchResult, Ok, Err, List, ℕ, slice_range, if◌then◌else◌};
ghost use Rattle.nf_text.specs.Tokens.{lexemes, IsWithin};
ghost use Rattle.nf_reader.specs.Gives.{Gives, GivesAt, is_memory};
ghost use Rattle.nf_program.specs.Settings.{no_options};
ghost use Rattle.nf_program.specs.Programs.{is_quit};
ghost use Rattle.nf_reader.specs.Turns.{behind, fault_at, step, here, end_at, read, start};
ghost use Rattle.nf_program.specs.declared.program.Command.{Command};
ghost use Rattle.nf_program.specs.declared.program.Program.{Program};
ghost use Rattle.nf_program.specs.declared.program.StmtFault.{StmtFault};
ghost use Rattle.nf_program.specs.declared.program.StmtKind.TheVariants.{NoMemory};
ghost use Rattle.nf_reader.specs.Texts.{fault_of, Told};
ghost use Rattle.nf_program.specs.Grammar.{HasProgram};
ghost use Rattle.nf_reader.specs.Faults.{HasFault};

use crate::places::{Place, Reader, Turn};
use crate::turns::turn_at;
use nf_program::settings::no_options;
use nf_program::{Command, Items, Program, Statement, StmtFault, StmtKind};
use nf_text::{TextFault, Token, tokens};
use std::alloc::{AllocError, Global};

/// The most bytes of a program's text.
const MOST: usize = 1_048_576;

fn start(alloc: Global) -> Reader
    ensures { result ≡ start }
{
    Reader {
        place: Place::Start,
        program: Program {
            proc: no_options(),
            roles: Items::new(alloc),
            acts: Items::new(alloc),
        },
    }
}

fn is_quit(act: &Statement) -> bool
    ensures { result ≡ is_quit act.now }
{
    match act {
        Statement::Quit => true,
        _ => false,
    }
}

/// The reader after a token.
fn behind(mut program: Program, turn: Turn) -> Result<Reader, StmtKind>
    ensures { Gives result (Ok (behind program turn)) }
{
    match turn {
        Turn::Goes(place) => Ok(Reader { place, program }),
        Turn::Proc(proc) => {
            program.proc = proc;
            Ok(Reader {
                place: Place::Statement(false),
                program,
            })
        }
        Turn::Role(role, names) => {
            program.roles.push((role, names))?;
            Ok(Reader {
                place: Place::Statement(false),
                program,
            })
        }
        Turn::Act(act) => {
            let over = is_quit(&act);
            program.acts.push(act)?;
            Ok(Reader {
                place: Place::Statement(over),
                program,
            })
        }
    }
}

fn step(
    alloc: Global,
    command: Command,
    reader: Reader,
    token: Token,
    bytes: &[u8],
) -> Result<Reader, StmtKind>
    ensures { Gives result (step command reader token.kind bytes.now) }
{
    let Reader { place, program } = reader;
    match turn_at(alloc, command, place, &program, token.kind, bytes) {
        Ok(turn) => behind(program, turn),
        Err(kind) => Err(kind),
    }
}

fn fault_at(at: u32, kind: StmtKind) -> StmtFault
    ensures { result ≡ record { at = (if is_memory kind then 0 else at); kind = kind } }
{
    match kind {
        StmtKind::NoMemory => StmtFault { at: 0, kind },
        _ => StmtFault { at, kind },
    }
}

fn step_here(
    alloc: Global,
    command: Command,
    reader: Reader,
    token: Token,
    bytes: &[u8],
) -> Result<Reader, StmtFault>
    ensures { GivesAt result (here token.start (step command reader token.kind bytes.now)) }
{
    match step(alloc, command, reader, token, bytes) {
        Ok(next) => Ok(next),
        Err(kind) => Err(fault_at(token.start, kind)),
    }
}

#[tactic(auto, unfolding(crate::specs::Turns::end_at))]
fn end_at(reader: Reader) -> Result<Program, StmtKind>
    ensures { Gives result (end_at reader.place reader.program) }
{
    match reader.place {
        Place::Start => Err(StmtKind::NoProc),
        Place::Statement(_) => Ok(reader.program),
        _ => Err(StmtKind::MissingSemicolon),
    }
}

fn end_here(end: u32, reader: Reader) -> Result<Program, StmtFault>
    ensures { GivesAt result (here end (end_at reader.place reader.program)) }
{
    match end_at(reader) {
        Ok(program) => Ok(program),
        Err(kind) => Err(fault_at(end, kind)),
    }
}

/// The program of the tokens.
fn read(
    alloc: Global,
    text: &[u8],
    command: Command,
    tokens: &[Token],
) -> Result<Program, StmtFault>
    requires fits { length text.now < 2 ^ 32 }
    requires within { All (IsWithin text.now) tokens.now }
    ensures { GivesAt result (read command (length text.now) start (lexemes text.now tokens.now)) }
{
    let mut reader = start(alloc);
    for token in tokens {
        let bytes = &text[token.start as usize..token.end as usize];
        reader = step_here(alloc, command, reader, *token, bytes)?;
    }
    end_here(text.len() as u32, reader)
}

fn token_fault(fault: TextFault) -> StmtFault
    ensures { result ≡ fault_of fault }
{
    match fault {
        TextFault::BadByte(at) => StmtFault {
            at,
            kind: StmtKind::BadByte,
        },
        TextFault::OpenComment(at) => StmtFault {
            at,
            kind: StmtKind::OpenComment,
        },
        TextFault::OpenQuote(at) => StmtFault {
            at,
            kind: StmtKind::OpenQuote,
        },
        TextFault::NoMemory => StmtFault {
            at: 0,
            kind: StmtKind::NoMemory,
        },
    }
}

fn answer(alloc: Global, text: &[u8], command: Command) -> Result<Program, StmtFault>
    ensures { Told command text.now result }
{
    if text.len() > MOST {
        return Err(StmtFault {
            at: MOST as u32,
            kind: StmtKind::TooLong,
        });
    }
    match tokens(alloc, text) {
        Err(fault) => Err(token_fault(fault)),
        Ok(tokens) => read(alloc, text, command, &tokens),
    }
}

/// The program of a text under a command, or the first fault of the text and its place: exactly where the text is in no
/// program of the grammar. The kinds of faults stand at `StmtKind`. Out of memory, the place is 0.
///
/// A text of tokens is read in one pass from left to right.
pub fn read_program(alloc: Global, text: &[u8], command: Command) -> Result<Program, StmtFault>
    ensures found { IfOk result (λ p. HasProgram command text.now p) }
    ensures only { (p : Program) → HasProgram command text.now p → MatchResult result (λ q. q ≡ p) (λ f. f ≡ fault_at 0 NoMemory) }
    ensures fault { IfErr result (λ f. (f ≡ fault_at 0 NoMemory) ⊎ HasFault command text.now f) }
{
    answer(alloc, text, command)
}

/// A law: a text has one program or one first fault under a command, and not both.
pub fn one_answer()
    ensures programs { (c : Command) (text : List ℕ) (p q : Program) → HasProgram c text p → HasProgram c text q → p ≡ q }
    ensures faults { (c : Command) (text : List ℕ) (f g : StmtFault) → HasFault c text f → HasFault c text g → f ≡ g }
    ensures either { (c : Command) (text : List ℕ) (p : Program) (f : StmtFault) → HasProgram c text p → HasFault c text f → ⊥ }
{}
