//! The run of a program on its problem.
ghost use Rattle.std.specs.Prelude.{true, ◌≡◌, ◌≤◌, ℕ, List, Option, IfSome};
ghost use Rattle.std.specs.Io.KnownBytes.{Appends};
ghost use Rattle.std.specs.Str.{IsUtf8};
ghost use Rattle.nf_io.specs.Held.{Held};
ghost use Rattle.nf_model.specs.Program.{LinearProgram};
ghost use Rattle.nf_program.specs.declared.program.Program.{Program as ProgramRead};
ghost use Rattle.nf_run.specs.Runs.{IsCut};
ghost use Rattle.nf_run.specs.Setting.{IsPlain};
ghost use Rattle.nf_run.specs.Stops.{are_standing};
ghost use Rattle.nf_no_range.specs.Law.{IsOfStageTwo};
ghost use Rattle.nf_top.specs.Outcome.{Call, Comes, Input, RunsOn, call_with};

use crate::lines;
use crate::program::text_of;
use crate::status::Status;
use nf_frac::Passed;
use nf_io::{Library, PutFault, Sink, write_all};
use nf_prob::Problem;
use nf_program::Program;
use nf_run::{RunFault, run_program};
use std::alloc::Global;

// Tells an operation of a run that passes 128 bits, behind the lines of the statements before it.
fn tell_range<K: Sink>(
    alloc: Global,
    stage: u8,
    pivots: u64,
    passed: Passed,
    listing: &mut K,
) -> Status
    ensures calm { K.quiet listing.old ≡ true → K.faults listing.new ≡ K.faults listing.old }
    ensures comes { (input : Input) (program : ProgramRead) (problem : LinearProgram) (front : List ℕ) (written : Option (List ℕ)) (faults : ℕ) (held : Option Held) (stores stores_after : ℕ) →
        let call : Call = call_with input written (K.written listing.new) faults (K.faults listing.new) held stores stores_after in
        RunsOn input program problem → IsCut problem program.proc.session program.acts front stage pivots passed → IsOfStageTwo problem stage passed
        → Appends written (K.written listing.old) front → faults ≤ K.faults listing.old → held ≡ input.held → Comes call result }
{
    let Ok(line) = lines::step_range(alloc, stage, pivots, &passed) else {
        return Status::NoMemory;
    };
    match write_all(listing, line.bytes()) {
        Ok(()) => Status::RangePassed,
        Err(PutFault::Failed) => Status::WriteFault,
        Err(PutFault::NoMemory) => Status::NoMemory,
    }
}

/// Obeys the statements of a program on its problem, and answers how that ended. Where an operation passes 128 bits, the
/// last line of the listing tells it. The certificate of the last verdict is stored in the library, where the program
/// names a data set for it.
pub(crate) fn run<K: Sink, L: Library>(
    alloc: Global,
    problem: &Problem,
    program: &Program,
    listing: &mut K,
    library: &mut L,
) -> Status
    requires plain { IsPlain problem.now }
    requires acts { are_standing program.now.acts ≡ true }
    requires certout { IfSome program.now.proc.certout IsUtf8 }
    ensures fetches { L.fetch_faults library.new ≡ L.fetch_faults library.old }
    ensures misses { (q : List ℕ) → L.misses library.new q ≡ L.misses library.old q }
    ensures calm { K.quiet listing.old ≡ true → K.faults listing.new ≡ K.faults listing.old }
    ensures stores_calm { L.quiet_stores library.old ≡ true → L.store_faults library.new ≡ L.store_faults library.old }
    ensures comes { (input : Input) (stores : ℕ) →
        let call : Call = call_with input (K.written listing.old) (K.written listing.new) (K.faults listing.old) (K.faults listing.new) (L.held library.new) stores (L.store_faults library.new) in
        RunsOn input program.now problem.now → L.held library.old ≡ input.held → L.store_faults library.old ≡ stores → Comes call result }
{
    // a problem of nodes and side rows overflows in stage two only
    let _rows = problem.rows();
    let (options, acts) = (&program.proc.session, program.acts.items());
    let certout = text_of(&program.proc.certout);
    let fault = match run_program(alloc, problem, options, acts, certout, listing, library) {
        Ok(()) => return Status::Finished,
        Err(fault) => fault,
    };
    match fault {
        RunFault::Range {
            stage,
            pivots,
            passed,
        } => tell_range(alloc, stage, pivots, passed, listing),
        RunFault::Write => Status::WriteFault,
        RunFault::NoMemory => Status::NoMemory,
    }
}
