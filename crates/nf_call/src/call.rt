//! The whole call.
ghost use Rattle.std.specs.Prelude.{true, ◌≡◌, map};
ghost use Rattle.std.specs.String.{string_bytes};
ghost use Rattle.nf_program.specs.declared.program.Command.TheVariants.{Check, Run};
ghost use Rattle.nf_top.specs.Headline.{AcceptsTheValid, ClaimIsProved, RefusesNoProgram, RunIsExplained, RunsTheAccepted, StoresProof};
ghost use Rattle.nf_top.specs.Outcome.{call_of};
ghost use Rattle.nf_top.specs.Words.{IsCommand};
ghost use Rattle.nf_command.specs.Words.{AsksPlain, AsksSample};
ghost use Rattle.nf_command.specs.declared.plain.PlainCommand.TheVariants.{Import, Export};
ghost use Rattle.nf_command.specs.declared.size.SampleSize.{SampleSize};
ghost use Rattle.nf_exchange.specs.Promises.{ExportsTheProblem, HasExported, HasImported, ImportsTheText};
ghost use Rattle.nf_call.specs.Call.{Comes, IsUnknown, StoresNothing};

use crate::sample::sample;
use crate::usage::list_usage;
use nf_command::{PlainCommand, command_asked, sample_asked};
use nf_exchange::{export, import};
use nf_io::{Library, Sink, Source};
use nf_top::Status;
use std::alloc::Global;

/// Does what the words say, and returns how it ended. They are `run`, or `check`, or `sample` with four numbers, or `import`,
/// or `export`.
///
/// `run` and `check` are done as `nf_top::netflow` says. `sample SEED NODES ARCS CONS` makes a problem of these sizes, runs it
/// with CERTOUT= and checks the certificate, all over a library in memory; the listing has the summary: the numbers, the lines
/// of the RUN and `CHECK ACCEPTED`. The source and the library are left as they were. `import` and `export` are done as
/// `nf_exchange` says. Other words are `Usage`: the listing has the line that says how netflow is used, and nothing else is
/// done.
pub fn netflow<S: Source, L: Library, K: Sink>(
    alloc: Global,
    words: &[String],
    program: &mut S,
    library: &mut L,
    listing: &mut K,
) -> Status
    ensures comes { Comes (call_of words.now S.left S.faults program.old program.new L.held L.fetch_faults L.store_faults L.misses library.old library.new K.written K.faults listing.old listing.new) result }
    ensures accepted { result ≡ Status.Finished → IsCommand Check (map string_bytes words.now) → ClaimIsProved (call_of words.now S.left S.faults program.old program.new L.held L.fetch_faults L.store_faults L.misses library.old library.new K.written K.faults listing.old listing.new) }
    ensures planned { result ≡ Status.Finished → IsCommand Run (map string_bytes words.now) → RunIsExplained (call_of words.now S.left S.faults program.old program.new L.held L.fetch_faults L.store_faults L.misses library.old library.new K.written K.faults listing.old listing.new) }
    ensures stored { result ≡ Status.Finished → IsCommand Run (map string_bytes words.now) → StoresProof (call_of words.now S.left S.faults program.old program.new L.held L.fetch_faults L.store_faults L.misses library.old library.new K.written K.faults listing.old listing.new) }
    ensures complete { AcceptsTheValid (call_of words.now S.left S.faults program.old program.new L.held L.fetch_faults L.store_faults L.misses library.old library.new K.written K.faults listing.old listing.new) result }
    ensures ran { RunsTheAccepted (call_of words.now S.left S.faults program.old program.new L.held L.fetch_faults L.store_faults L.misses library.old library.new K.written K.faults listing.old listing.new) result }
    ensures refused { RefusesNoProgram (call_of words.now S.left S.faults program.old program.new L.held L.fetch_faults L.store_faults L.misses library.old library.new K.written K.faults listing.old listing.new) result }
    ensures usage { result ≡ Status.Usage → IsUnknown (map string_bytes words.now) }
    ensures imported { result ≡ Status.Finished → AsksPlain Import (map string_bytes words.now) → HasImported (call_of words.now S.left S.faults program.old program.new L.held L.fetch_faults L.store_faults L.misses library.old library.new K.written K.faults listing.old listing.new) }
    ensures imports { AsksPlain Import (map string_bytes words.now) → ImportsTheText (call_of words.now S.left S.faults program.old program.new L.held L.fetch_faults L.store_faults L.misses library.old library.new K.written K.faults listing.old listing.new) result }
    ensures exported { result ≡ Status.Finished → AsksPlain Export (map string_bytes words.now) → HasExported (call_of words.now S.left S.faults program.old program.new L.held L.fetch_faults L.store_faults L.misses library.old library.new K.written K.faults listing.old listing.new) }
    ensures exports { AsksPlain Export (map string_bytes words.now) → ExportsTheProblem (call_of words.now S.left S.faults program.old program.new L.held L.fetch_faults L.store_faults L.misses library.old library.new K.written K.faults listing.old listing.new) result }
    ensures untouched { (n : SampleSize) → AsksSample n (map string_bytes words.now) → (program.new ≡ program.old) × (library.new ≡ library.old) }
    ensures held { StoresNothing (map string_bytes words.now) → L.held library.new ≡ L.held library.old }
    ensures stores { StoresNothing (map string_bytes words.now) → L.store_faults library.new ≡ L.store_faults library.old }
    ensures stores_calm { L.quiet_stores library.old ≡ true → L.store_faults library.new ≡ L.store_faults library.old }
    ensures source_calm { S.quiet program.old ≡ true → S.faults program.new ≡ S.faults program.old }
    ensures library_calm { L.quiet_fetches library.old ≡ true → L.fetch_faults library.new ≡ L.fetch_faults library.old }
    ensures listing_calm { K.quiet listing.old ≡ true → K.faults listing.new ≡ K.faults listing.old }
{
    match sample_asked(alloc, words) {
        Ok(Some(size)) => sample(alloc, size, listing),
        Ok(None) => match command_asked(words) {
            Some(PlainCommand::Import) => import(alloc, program, library, listing),
            Some(PlainCommand::Export) => export(alloc, program, library, listing),
            Some(PlainCommand::Run) => nf_top::netflow(alloc, words, program, library, listing),
            Some(PlainCommand::Check) => nf_top::netflow(alloc, words, program, library, listing),
            None => list_usage(listing),
        },
        Err(_) => Status::NoMemory,
    }
}
