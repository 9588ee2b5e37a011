//! Whether the words ask for a sample.
ghost use Rattle.std.specs.Prelude.{true, false, ◌≡◌, ◌≢◌, ◌∷◌, [], ℕ, List, None, IfOk, MatchOption, OnOk, codes, map};
ghost use Rattle.std.specs.List.{list_any};
ghost use Rattle.std.specs.String.{string_bytes};
ghost use Rattle.nf_command.specs.Line.{HasWords, is_flag};
ghost use Rattle.nf_command.specs.Words.{AreNumbers, AsksSample};

use crate::line::command_line;
use crate::size::{SampleSize, size_of};
use clap::ArgMatches;
use clap::error::ErrorKind;
use std::alloc::{AllocError, Global};

// Whether a word begins with `-`.
fn is_flag(word: &str) -> bool
    ensures { result ≡ is_flag word.now }
{
    match word.as_bytes() {
        [first, ..] => *first == b'-',
        [] => false,
    }
}

// Whether one of the words begins with `-`: no command has such a word.
fn has_flag(words: &[String]) -> bool
    ensures { result ≡ list_any (λ s. is_flag (string_bytes s)) words.now }
{
    words.iter().any(|word| is_flag(word.as_str()))
}

// Whether the words are `sample` and four more.
fn has_form(words: &[String]) -> bool
    ensures five { result ≡ true → (a b c d : List ℕ) × (map string_bytes words.now ≡ codes "sample" ∷ a ∷ b ∷ c ∷ d ∷ []) }
    ensures form { (a b c d : List ℕ) → map string_bytes words.now ≡ codes "sample" ∷ a ∷ b ∷ c ∷ d ∷ [] → result ≡ true }
{
    match words {
        [command, _, _, _, _] => command.as_str() == "sample",
        _ => false,
    }
}

// What words come to that `clap` refuses for a reason of this kind: nothing is read, or memory ran out.
fn unread<'a>(kind: ErrorKind) -> Result<Option<ArgMatches<'a>>, AllocError>
    ensures none { IfOk result (λ m. m ≡ None) }
    ensures refused { OnOk result (kind ≢ ErrorKind.OutOfMemory) }
{
    match kind {
        ErrorKind::OutOfMemory => Err(AllocError),
        _ => Ok(None),
    }
}

// What `clap` reads in the words, or None if they are not those of a command.
fn matches_of<'a>(alloc: Global, words: &'a [String]) -> Result<Option<ArgMatches<'a>>, AllocError>
    ensures { IfOk result (λ m. (a b c d : List ℕ) → map string_bytes words.entry.now ≡ codes "sample" ∷ a ∷ b ∷ c ∷ d ∷ []
        → list_any is_flag (a ∷ b ∷ c ∷ d ∷ []) ≡ false → MatchOption m ⊥ (λ m. HasWords m a b c d)) }
{
    match command_line(alloc)?.try_get_matches_from(words) {
        Ok(matches) => Ok(Some(matches)),
        Err(error) => unread(error.kind()),
    }
}

// The sample that the words of `sample` ask for.
fn size_in(matches: &ArgMatches<'_>) -> Option<SampleSize>
    ensures { (a b c d : List ℕ) → HasWords matches.now a b c d → MatchOption result ((n : SampleSize) → AreNumbers n a b c d → ⊥) (λ n. AreNumbers n a b c d) }
{
    let sample = matches.subcommand_matches("sample")?;
    size_of(
        sample.get_str("SEED")?,
        sample.get_str("NODES")?,
        sample.get_str("ARCS")?,
        sample.get_str("CONS")?,
    )
}

// The sample that the words ask for, by what `clap` read in them.
fn size_read(words: &[String], read: &Option<ArgMatches<'_>>) -> Option<SampleSize>
    requires no_flag { list_any (λ s. is_flag (string_bytes s)) words.now ≡ false }
    requires read { (a b c d : List ℕ) → map string_bytes words.now ≡ codes "sample" ∷ a ∷ b ∷ c ∷ d ∷ []
        → list_any is_flag (a ∷ b ∷ c ∷ d ∷ []) ≡ false → MatchOption read.now ⊥ (λ m. HasWords m a b c d) }
    ensures { MatchOption result ((n : SampleSize) → AsksSample n (map string_bytes words.now) → ⊥) (λ n. AsksSample n (map string_bytes words.now)) }
{
    match read {
        Some(matches) => {
            if has_form(words) {
                size_in(matches)
            } else {
                None
            }
        }
        None => None,
    }
}

/// The sample that the words ask for, or None if they ask for none. `AllocError` if out of memory.
///
/// They are read with `clap`, but for words of which one begins with `-`, which are those of no command.
pub fn sample_asked(alloc: Global, words: &[String]) -> Result<Option<SampleSize>, AllocError>
    ensures { IfOk result (λ asked. MatchOption asked ((n : SampleSize) → AsksSample n (map string_bytes words.now) → ⊥) (λ n. AsksSample n (map string_bytes words.now))) }
{
    if has_flag(words) {
        return Ok(None);
    }
    let read = matches_of(alloc, words)?;
    Ok(size_read(words, &read))
}
