//! The whole call.
ghost use Rattle.std.specs.Prelude.{true, ◌≡◌, ◌≤◌, ℕ, List, Option, is_some, IfOk, IfErr, IfSome, MatchResult, OnOk, map};
ghost use Rattle.nf_frac.specs.Amounts.{IsAmount};
ghost use Rattle.nf_io.specs.Held.{Held};
ghost use Rattle.std.specs.Io.KnownBytes.{Consumes, IsAtEnd};
ghost use Rattle.std.specs.String.{string_bytes};
ghost use Rattle.nf_program.specs.declared.program.Command.{Command as Commands};
ghost use Rattle.nf_program.specs.declared.program.Command.TheVariants.{Check, Run};
ghost use Rattle.nf_program.specs.Grammar.{HasProgram};
ghost use Rattle.nf_top.specs.Data.{IsProblemOf, Sets as SetBytes};
ghost use Rattle.nf_top.specs.Headline.{AcceptsTheValid, ClaimIsProved, OverflowsInStageTwo, RefusesNoProgram, RunIsExplained, RunsTheAccepted, StoresProof};
ghost use Rattle.nf_top.specs.Outcome.{Accepts, AllFetched, AreHeld, Call, Comes, Input, IsDue, Lists, NamesSets, NoneMissed, ReadsProgram, RunsOn, call_of, call_with, input_of};
ghost use Rattle.nf_top.specs.Steps.{SawLibrary, SawSource, Stops, lent_name, names_of};
ghost use Rattle.nf_top.specs.Words.{IsCommand};

use crate::check::judge;
use crate::lines;
use crate::problem::pose;
use crate::program::{SetNames, names_for_check, names_for_run, program_of};
use crate::refusal::{Refusal, Stop};
use crate::run::run;
use crate::sets::load_tables;
use crate::status::Status;
use crate::words::command_of;
use nf_io::{
    Library, MOST_PROGRAM_BYTES, PutFault, ReadAllFault, Sink, Source, Text, read_all, write_all,
};
use nf_prob::Problem;
use nf_program::{Command, Program, StmtFault, StmtKind};
use nf_run::HaltLine;
use std::alloc::{AllocError, Global};

/// The fault of a text of more bytes.
const TOO_LONG: StmtFault = StmtFault {
    at: MOST_PROGRAM_BYTES as u32,
    kind: StmtKind::TooLong,
};

// The text of the source, for a command.
fn source_text<S: Source>(alloc: Global, program: &mut S) -> Result<Text, Stop>
    ensures faults { S.faults program.old ≤ S.faults program.new }
    ensures quiet { S.quiet program.new ≡ S.quiet program.old }
    ensures calm { S.quiet program.old ≡ true → S.faults program.new ≡ S.faults program.old }
    ensures taken { IfOk result (λ t. Consumes (S.left program.old) (S.left program.new) t) }
    ensures ended { IfOk result (λ _. IsAtEnd (S.left program.new)) }
    ensures stops { IfErr result (λ stop. (i : Input) (c : Commands) →
        SawSource i (S.left program.old) (S.left program.new) (S.faults program.old) (S.faults program.new) → IsCommand c i.words → AllFetched i → Stops i stop) }
{
    match read_all(alloc, program, MOST_PROGRAM_BYTES) {
        Ok(text) => Ok(text),
        Err(ReadAllFault::Failed) => Err(Stop::Refused(Refusal::ReadFault)),
        Err(ReadAllFault::TooLong) => Err(Stop::Refused(Refusal::NoProgram(TOO_LONG))),
        Err(ReadAllFault::NoMemory) => Err(Stop::NoMemory),
    }
}

// The program of the source, for a command.
fn source_program<S: Source>(
    alloc: Global,
    command: Command,
    source: &mut S,
) -> Result<Program, Stop>
    ensures calm { S.quiet source.old ≡ true → S.faults source.new ≡ S.faults source.old }
    ensures read { IfOk result (λ p. (text : List ℕ) × HasProgram command text p) }
    ensures reads { IfOk result (λ p. (i : Input) →
        SawSource i (S.left source.old) (S.left source.new) (S.faults source.old) (S.faults source.new) → IsCommand command i.words → ReadsProgram i command p) }
    ensures stops { IfErr result (λ stop. (i : Input) →
        SawSource i (S.left source.old) (S.left source.new) (S.faults source.old) (S.faults source.new) → IsCommand command i.words → AllFetched i → Stops i stop) }
{
    let text = source_text(alloc, source)?;
    program_of(alloc, text.bytes(), command)
}

// What the certificate in the data sets of a program of `check` claims, if it is accepted.
fn judge_sets<L: Library>(
    alloc: Global,
    program: &Program,
    names: SetNames<'_>,
    library: &mut L,
) -> Result<HaltLine, Stop>
    requires demand { IfSome program.now.proc.demand IsAmount }
    requires certdata { is_some (lent_name names.certdata) ≡ true }
    ensures held { L.held library.new ≡ L.held library.old }
    ensures stores { L.store_faults library.new ≡ L.store_faults library.old }
    ensures library_calm { L.quiet_fetches library.old ≡ true → L.fetch_faults library.new ≡ L.fetch_faults library.old }
    ensures ok { IfOk result (λ line. (i : Input) →
        SawLibrary i (L.held library.old) (L.fetch_faults library.old) (L.fetch_faults library.new) (L.misses library.old) (L.misses library.new) →
        (n : NamesSets i Check (names_of names.entry)) → n.program ≡ program.now → Accepts i line) }
    ensures stops { IfErr result (λ stop. (i : Input) →
        SawLibrary i (L.held library.old) (L.fetch_faults library.old) (L.fetch_faults library.new) (L.misses library.old) (L.misses library.new) →
        (n : NamesSets i Check (names_of names.entry)) → n.program ≡ program.now → Stops i stop) }
{
    let tables = load_tables(alloc, names, library)?;
    judge(alloc, program, &tables)
}

// What `check` returns: what the certificate that is accepted claims, or why it stops.
fn check_answer<S: Source, L: Library>(
    alloc: Global,
    words: &[String],
    source: &mut S,
    library: &mut L,
) -> Result<HaltLine, Stop>
    requires command { IsCommand Check (map string_bytes words.now) }
    ensures held { L.held library.new ≡ L.held library.old }
    ensures stores { L.store_faults library.new ≡ L.store_faults library.old }
    ensures source_calm { S.quiet source.old ≡ true → S.faults source.new ≡ S.faults source.old }
    ensures library_calm { L.quiet_fetches library.old ≡ true → L.fetch_faults library.new ≡ L.fetch_faults library.old }
    ensures answer { let input : Input = input_of words.now S.left S.faults source.old source.new L.held L.fetch_faults L.misses library.old library.new in
        MatchResult result (Accepts input) (Stops input) }
{
    let program = source_program(alloc, Command::Check, source)?;
    let Some(names) = names_for_check(&program) else {
        return Err(Stop::Refused(Refusal::NotStanding));
    };
    judge_sets(alloc, &program, names, library)
}

// A program and the problem that it is run on.
#[derive(Drop)]
struct Loaded {
    program: Program,
    problem: Problem,
}

// The problem of the data sets that a program of `run` names.
fn load_problem<L: Library>(
    alloc: Global,
    program: &Program,
    names: SetNames<'_>,
    library: &mut L,
) -> Result<Problem, Stop>
    requires demand { IfSome program.now.proc.demand IsAmount }
    ensures held { L.held library.new ≡ L.held library.old }
    ensures stores { L.store_faults library.new ≡ L.store_faults library.old }
    ensures quiet_stores { L.quiet_stores library.new ≡ L.quiet_stores library.old }
    ensures library_calm { L.quiet_fetches library.old ≡ true → L.fetch_faults library.new ≡ L.fetch_faults library.old }
    ensures all { OnOk result (NoneMissed (L.fetch_faults library.old) (L.fetch_faults library.new) (L.misses library.old) (L.misses library.new)) }
    ensures posed { IfOk result (λ p. (s : SetBytes) × AreHeld (L.held library.old) (names_of names.entry) s × IsProblemOf program.now s p) }
    ensures stops { IfErr result (λ stop. (i : Input) →
        SawLibrary i (L.held library.old) (L.fetch_faults library.old) (L.fetch_faults library.new) (L.misses library.old) (L.misses library.new) →
        (n : NamesSets i Run (names_of names.entry)) → n.program ≡ program.now → Stops i stop) }
{
    let tables = load_tables(alloc, names, library)?;
    pose(alloc, program, &tables)
}

// What a run is of, or why it stops before the first statement.
fn run_input<S: Source, L: Library>(
    alloc: Global,
    words: &[String],
    source: &mut S,
    library: &mut L,
) -> Result<Loaded, Stop>
    requires command { IsCommand Run (map string_bytes words.now) }
    ensures held { L.held library.new ≡ L.held library.old }
    ensures stores { L.store_faults library.new ≡ L.store_faults library.old }
    ensures quiet_stores { L.quiet_stores library.new ≡ L.quiet_stores library.old }
    ensures source_calm { S.quiet source.old ≡ true → S.faults source.new ≡ S.faults source.old }
    ensures library_calm { L.quiet_fetches library.old ≡ true → L.fetch_faults library.new ≡ L.fetch_faults library.old }
    ensures input { let input : Input = input_of words.now S.left S.faults source.old source.new L.held L.fetch_faults L.misses library.old library.new in
        MatchResult result (λ l. RunsOn input l.program l.problem) (Stops input) }
{
    let program = source_program(alloc, Command::Run, source)?;
    let Some(names) = names_for_run(&program) else {
        return Err(Stop::Refused(Refusal::NotStanding));
    };
    let problem = load_problem(alloc, &program, names, library)?;
    Ok(Loaded { program, problem })
}

// Writes the last line of the listing, and returns the status that it reports.
fn conclude<K: Sink>(listing: &mut K, line: Result<Text, AllocError>, status: Status) -> Status
    ensures calm { K.quiet listing.old ≡ true → K.faults listing.new ≡ K.faults listing.old }
    ensures comes { (input : Input) (due : List ℕ) (held : Option Held) (stores stores_after : ℕ) →
        let call : Call = call_with input (K.written listing.old) (K.written listing.new) (K.faults listing.old) (K.faults listing.new) held stores stores_after in
        IfOk line (λ t. t ≡ due) → IsDue input due → held ≡ input.held → (Lists call due → Comes call status) → Comes call result }
{
    let Ok(line) = line else {
        return Status::NoMemory;
    };
    match write_all(listing, line.bytes()) {
        Ok(()) => status,
        Err(PutFault::Failed) => Status::WriteFault,
        Err(PutFault::NoMemory) => Status::NoMemory,
    }
}

// Does what `check` says.
fn check_words<S: Source, L: Library, K: Sink>(
    alloc: Global,
    words: &[String],
    program: &mut S,
    library: &mut L,
    listing: &mut K,
) -> Status
    requires command { IsCommand Check (map string_bytes words.now) }
    ensures held { L.held library.new ≡ L.held library.old }
    ensures stores { L.store_faults library.new ≡ L.store_faults library.old }
    ensures source_calm { S.quiet program.old ≡ true → S.faults program.new ≡ S.faults program.old }
    ensures library_calm { L.quiet_fetches library.old ≡ true → L.fetch_faults library.new ≡ L.fetch_faults library.old }
    ensures listing_calm { K.quiet listing.old ≡ true → K.faults listing.new ≡ K.faults listing.old }
    ensures comes { Comes (call_of words.now S.left S.faults program.old program.new L.held L.fetch_faults L.store_faults L.misses library.old library.new K.written K.faults listing.old listing.new) result }
{
    match check_answer(alloc, words, program, library) {
        Ok(line) => conclude(listing, lines::accepted(alloc, line), Status::Finished),
        Err(Stop::Refused(refusal)) => { conclude(listing, refusal.line(alloc), refusal.status()) }
        Err(Stop::NoMemory) => Status::NoMemory,
    }
}

// Does what `run` says.
fn run_words<S: Source, L: Library, K: Sink>(
    alloc: Global,
    words: &[String],
    program: &mut S,
    library: &mut L,
    listing: &mut K,
) -> Status
    requires command { IsCommand Run (map string_bytes words.now) }
    ensures stores_calm { L.quiet_stores library.old ≡ true → L.store_faults library.new ≡ L.store_faults library.old }
    ensures source_calm { S.quiet program.old ≡ true → S.faults program.new ≡ S.faults program.old }
    ensures library_calm { L.quiet_fetches library.old ≡ true → L.fetch_faults library.new ≡ L.fetch_faults library.old }
    ensures listing_calm { K.quiet listing.old ≡ true → K.faults listing.new ≡ K.faults listing.old }
    ensures comes { Comes (call_of words.now S.left S.faults program.old program.new L.held L.fetch_faults L.store_faults L.misses library.old library.new K.written K.faults listing.old listing.new) result }
{
    match run_input(alloc, words, program, library) {
        Ok(loaded) => run(alloc, &loaded.problem, &loaded.program, listing, library),
        Err(Stop::Refused(refusal)) => { conclude(listing, refusal.line(alloc), refusal.status()) }
        Err(Stop::NoMemory) => Status::NoMemory,
    }
}

// Does what the words say.
fn obey<S: Source, L: Library, K: Sink>(
    alloc: Global,
    words: &[String],
    program: &mut S,
    library: &mut L,
    listing: &mut K,
) -> Status
    ensures comes { Comes (call_of words.now S.left S.faults program.old program.new L.held L.fetch_faults L.store_faults L.misses library.old library.new K.written K.faults listing.old listing.new) result }
    ensures held { (IsCommand Run (map string_bytes words.now) → ⊥) → L.held library.new ≡ L.held library.old }
    ensures stores { (IsCommand Run (map string_bytes words.now) → ⊥) → L.store_faults library.new ≡ L.store_faults library.old }
    ensures stores_calm { L.quiet_stores library.old ≡ true → L.store_faults library.new ≡ L.store_faults library.old }
    ensures source_calm { S.quiet program.old ≡ true → S.faults program.new ≡ S.faults program.old }
    ensures library_calm { L.quiet_fetches library.old ≡ true → L.fetch_faults library.new ≡ L.fetch_faults library.old }
    ensures listing_calm { K.quiet listing.old ≡ true → K.faults listing.new ≡ K.faults listing.old }
{
    match command_of(words) {
        Some(Command::Check) => check_words(alloc, words, program, library, listing),
        Some(Command::Run) => run_words(alloc, words, program, library, listing),
        Some(Command::Again | Command::Export) => unreachable!(),
        None => conclude(listing, Refusal::Usage.line(alloc), Status::Usage),
    }
}

/// Does what the words say, and returns how it ended. Today the words are `check` or `run`.
///
/// `check` reads a program from the source, fetches its data sets from the library, and accepts the certificate of CERTDATA
/// exactly if it is valid for the problem of ARCDATA, NODEDATA and CONDATA; the listing then has `ACCEPTED` with what the
/// certificate claims. `run` reads a program, fetches ARCDATA, NODEDATA and CONDATA, and obeys its statements on their
/// problem; the listing has the lines of each RUN, statement by statement, and after them that of an operation that
/// overflows 128 bits, which is one of stage two, so that a program without CONDATA has none. At the end `run` stores the
/// certificate of the last verdict, if the program names CERTOUT=, and the listing says so. No other set is fetched or
/// stored.
///
/// Otherwise the listing has the line of one refusal, the first in this order: the words; the source; the program's text;
/// what the command takes of the language; the fetches; the tables; the roles of their columns; the data; the size of the
/// problem; and for `check` the table of the certificate; its validity, or an operation that overflows. What is written is
/// always the front of that listing: `WriteFault` comes if a put failed in it, or the store, and `NoMemory` if memory ran
/// out, there or before.
pub fn netflow<S: Source, L: Library, K: Sink>(
    alloc: Global,
    words: &[String],
    program: &mut S,
    library: &mut L,
    listing: &mut K,
) -> Status
    ensures comes { Comes (call_of words.now S.left S.faults program.old program.new L.held L.fetch_faults L.store_faults L.misses library.old library.new K.written K.faults listing.old listing.new) result }
    ensures accepted { result ≡ Status.Finished → IsCommand Check (map string_bytes words.now) → ClaimIsProved (call_of words.now S.left S.faults program.old program.new L.held L.fetch_faults L.store_faults L.misses library.old library.new K.written K.faults listing.old listing.new) }
    ensures planned { result ≡ Status.Finished → IsCommand Run (map string_bytes words.now) → RunIsExplained (call_of words.now S.left S.faults program.old program.new L.held L.fetch_faults L.store_faults L.misses library.old library.new K.written K.faults listing.old listing.new) }
    ensures stored { result ≡ Status.Finished → IsCommand Run (map string_bytes words.now) → StoresProof (call_of words.now S.left S.faults program.old program.new L.held L.fetch_faults L.store_faults L.misses library.old library.new K.written K.faults listing.old listing.new) }
    ensures range { result ≡ Status.RangePassed → IsCommand Run (map string_bytes words.now) → OverflowsInStageTwo (call_of words.now S.left S.faults program.old program.new L.held L.fetch_faults L.store_faults L.misses library.old library.new K.written K.faults listing.old listing.new) }
    ensures complete { AcceptsTheValid (call_of words.now S.left S.faults program.old program.new L.held L.fetch_faults L.store_faults L.misses library.old library.new K.written K.faults listing.old listing.new) result }
    ensures ran { RunsTheAccepted (call_of words.now S.left S.faults program.old program.new L.held L.fetch_faults L.store_faults L.misses library.old library.new K.written K.faults listing.old listing.new) result }
    ensures refused { RefusesNoProgram (call_of words.now S.left S.faults program.old program.new L.held L.fetch_faults L.store_faults L.misses library.old library.new K.written K.faults listing.old listing.new) result }
    ensures held { (IsCommand Run (map string_bytes words.now) → ⊥) → L.held library.new ≡ L.held library.old }
    ensures stores { (IsCommand Run (map string_bytes words.now) → ⊥) → L.store_faults library.new ≡ L.store_faults library.old }
    ensures stores_calm { L.quiet_stores library.old ≡ true → L.store_faults library.new ≡ L.store_faults library.old }
    ensures source_calm { S.quiet program.old ≡ true → S.faults program.new ≡ S.faults program.old }
    ensures library_calm { L.quiet_fetches library.old ≡ true → L.fetch_faults library.new ≡ L.fetch_faults library.old }
    ensures listing_calm { K.quiet listing.old ≡ true → K.faults listing.new ≡ K.faults listing.old }
{
    obey(alloc, words, program, library, listing)
}
