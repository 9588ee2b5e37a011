//! `export`: the DIMACS text of the problem of a program, listed.
ghost use Rattle.std.specs.Prelude.{true, ◌≡◌, ℕ, String, List, IfErr, IfOk, IfSome, MatchResult, OnOk};
ghost use Rattle.nf_frac.specs.Amounts.{IsAmount};
ghost use Rattle.nf_dimacs_writer.specs.Refusal.{refusal_of};
ghost use Rattle.nf_dimacs_writer.specs.Written.{dimacs_text};
ghost use Rattle.nf_top.specs.Data.{IsProblemOf, Sets as SetBytes};
ghost use Rattle.nf_top.specs.Outcome.{AreHeld, Input, NoneMissed, call_of, input_of};
ghost use Rattle.nf_top.specs.Steps.{SawLibrary};
ghost use Rattle.nf_exchange.specs.Export.{ExportEnds, IsExported, NamesSets, PosesProblem};
ghost use Rattle.nf_exchange.specs.Promises.{ExportsTheProblem, HasExported, MayEndExport, RefusesNoProblem, RefusesNoProgram};
ghost use Rattle.nf_exchange.specs.Steps.{Stops, names_of};

use crate::ending::conclude;
use crate::problem::pose;
use crate::program::{SetNames, set_names, source_program};
use crate::refusal::{Refusal, Stop};
use crate::sets::load_tables;
use nf_dimacs_writer::{ExportFault, write_dimacs};
use nf_io::{Library, Sink, Source, Text};
use nf_prob::Problem;
use nf_program::Program;
use nf_top::Status;
use std::alloc::Global;

// The problem of the data sets that a program names.
fn load_problem<L: Library>(
    alloc: Global,
    program: &Program,
    names: SetNames<'_>,
    library: &mut L,
) -> Result<Problem, Stop>
    requires demand { IfSome program.now.proc.demand IsAmount }
    ensures held { L.held library.new ≡ L.held library.old }
    ensures stores { L.store_faults library.new ≡ L.store_faults library.old }
    ensures calm { L.quiet_fetches library.old ≡ true → L.fetch_faults library.new ≡ L.fetch_faults library.old }
    ensures all { OnOk result (NoneMissed (L.fetch_faults library.old) (L.fetch_faults library.new) (L.misses library.old) (L.misses library.new)) }
    ensures posed { IfOk result (λ p. (s : SetBytes) × AreHeld (L.held library.old) (names_of names.entry) s × IsProblemOf program.now s p) }
    ensures stops { IfErr result (λ stop. (i : Input) →
        SawLibrary i (L.held library.old) (L.fetch_faults library.old) (L.fetch_faults library.new) (L.misses library.old) (L.misses library.new) →
        (n : NamesSets i (names_of names.entry)) → n.program ≡ program.now → Stops i stop) }
{
    let tables = load_tables(alloc, names, library)?;
    pose(alloc, program, &tables)
}

// The text of a problem.
fn text_of(alloc: Global, problem: &Problem) -> Result<Text, Stop>
    ensures ok { IfOk result (λ text. (i : Input) → PosesProblem i problem.now → IsExported i text) }
    ensures stops { IfErr result (λ stop. (i : Input) → PosesProblem i problem.now → Stops i stop) }
{
    match write_dimacs(alloc, problem) {
        Ok(text) => Ok(text),
        Err(ExportFault::NoMemory) => Err(Stop::NoMemory),
        Err(fault) => Err(Stop::Refused(Refusal::NoText(fault))),
    }
}

// The problem of the program of the source.
fn source_problem<S: Source, L: Library>(
    alloc: Global,
    source: &mut S,
    library: &mut L,
) -> Result<Problem, Stop>
    ensures held { L.held library.new ≡ L.held library.old }
    ensures stores { L.store_faults library.new ≡ L.store_faults library.old }
    ensures source_calm { S.quiet source.old ≡ true → S.faults source.new ≡ S.faults source.old }
    ensures library_calm { L.quiet_fetches library.old ≡ true → L.fetch_faults library.new ≡ L.fetch_faults library.old }
    ensures answer { (words : List (String Global)) →
        let input : Input = input_of words S.left S.faults source.old source.new L.held L.fetch_faults L.misses library.old library.new in
        MatchResult result (PosesProblem input) (Stops input) }
{
    let program = source_program(alloc, source)?;
    let Some(names) = set_names(&program) else {
        return Err(Stop::Refused(Refusal::NotStanding));
    };
    load_problem(alloc, &program, names, library)
}

// The text of the problem of the program of the source.
fn source_export<S: Source, L: Library>(
    alloc: Global,
    source: &mut S,
    library: &mut L,
) -> Result<Text, Stop>
    ensures held { L.held library.new ≡ L.held library.old }
    ensures stores { L.store_faults library.new ≡ L.store_faults library.old }
    ensures source_calm { S.quiet source.old ≡ true → S.faults source.new ≡ S.faults source.old }
    ensures library_calm { L.quiet_fetches library.old ≡ true → L.fetch_faults library.new ≡ L.fetch_faults library.old }
    ensures answer { (words : List (String Global)) →
        let input : Input = input_of words S.left S.faults source.old source.new L.held L.fetch_faults L.misses library.old library.new in
        MatchResult result (IsExported input) (Stops input) }
{
    let problem = source_problem(alloc, source, library)?;
    text_of(alloc, &problem)
}

// Lists the text, or the line of a refusal.
fn export_source<S: Source, L: Library, K: Sink>(
    alloc: Global,
    source: &mut S,
    library: &mut L,
    listing: &mut K,
) -> Status
    ensures held { L.held library.new ≡ L.held library.old }
    ensures stores { L.store_faults library.new ≡ L.store_faults library.old }
    ensures source_calm { S.quiet source.old ≡ true → S.faults source.new ≡ S.faults source.old }
    ensures library_calm { L.quiet_fetches library.old ≡ true → L.fetch_faults library.new ≡ L.fetch_faults library.old }
    ensures listing_calm { K.quiet listing.old ≡ true → K.faults listing.new ≡ K.faults listing.old }
    ensures ends { (words : List (String Global)) → ExportEnds (call_of words S.left S.faults source.old source.new L.held L.fetch_faults L.store_faults L.misses library.old library.new K.written K.faults listing.old listing.new) result }
{
    match source_export(alloc, source, library) {
        Ok(text) => conclude(listing, Ok(text), Status::Finished),
        Err(Stop::Refused(refusal)) => { conclude(listing, refusal.line(alloc), refusal.status()) }
        Err(Stop::NoMemory) => Status::NoMemory,
    }
}

/// Reads a program, fetches its data sets, lists the DIMACS text of their problem, which is minimised, and returns how that
/// ended. It never ends with `RangePassed`.
///
/// Otherwise the listing has the line of one refusal, the first in this order: the source; the program's text; what `export`
/// accepts of the language; the fetches of ARCDATA, NODEDATA and CONDATA; the tables; the roles of their columns; the data;
/// the size of the problem; and the first reason why the problem has no text. What is written is always the front of that
/// listing. Nothing is stored.
pub fn export<S: Source, L: Library, K: Sink>(
    alloc: Global,
    source: &mut S,
    library: &mut L,
    listing: &mut K,
) -> Status
    ensures held { L.held library.new ≡ L.held library.old }
    ensures stores { L.store_faults library.new ≡ L.store_faults library.old }
    ensures source_calm { S.quiet source.old ≡ true → S.faults source.new ≡ S.faults source.old }
    ensures library_calm { L.quiet_fetches library.old ≡ true → L.fetch_faults library.new ≡ L.fetch_faults library.old }
    ensures listing_calm { K.quiet listing.old ≡ true → K.faults listing.new ≡ K.faults listing.old }
    ensures ends { (words : List (String Global)) → ExportEnds (call_of words S.left S.faults source.old source.new L.held L.fetch_faults L.store_faults L.misses library.old library.new K.written K.faults listing.old listing.new) result }
    ensures exported { (words : List (String Global)) → result ≡ Status.Finished → HasExported (call_of words S.left S.faults source.old source.new L.held L.fetch_faults L.store_faults L.misses library.old library.new K.written K.faults listing.old listing.new) }
    ensures complete { (words : List (String Global)) → ExportsTheProblem (call_of words S.left S.faults source.old source.new L.held L.fetch_faults L.store_faults L.misses library.old library.new K.written K.faults listing.old listing.new) result }
    ensures no_problem { (words : List (String Global)) → RefusesNoProblem (call_of words S.left S.faults source.old source.new L.held L.fetch_faults L.store_faults L.misses library.old library.new K.written K.faults listing.old listing.new) result }
    ensures no_program { (words : List (String Global)) → RefusesNoProgram (call_of words S.left S.faults source.old source.new L.held L.fetch_faults L.store_faults L.misses library.old library.new K.written K.faults listing.old listing.new) result }
    ensures status { MayEndExport result }
{
    export_source(alloc, source, library, listing)
}
