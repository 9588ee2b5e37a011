//! The words after the program's name.
ghost use Rattle.std.specs.Prelude.{[], ◌∷◌, MatchOption, map};
ghost use Rattle.std.specs.String.{string_bytes};
ghost use Rattle.nf_program.specs.declared.program.Command.{Command as Commands};
ghost use Rattle.nf_top.specs.Words.{IsCommand};

use nf_program::Command;

/// The command that the words are, if they are one.
pub(crate) fn command_of(words: &[String]) -> Option<Command>
    ensures { MatchOption result ((c : Commands) → IsCommand c (map string_bytes words.now) → ⊥) (λ c. IsCommand c (map string_bytes words.now)) }
{
    match words {
        [word] => command_named(word.as_str()),
        _ => None,
    }
}

// The command of one word.
fn command_named(word: &str) -> Option<Command>
    ensures { MatchOption result ((c : Commands) → IsCommand c (word.now ∷ []) → ⊥) (λ c. IsCommand c (word.now ∷ [])) }
{
    if word == "check" {
        Some(Command::Check)
    } else if word == "run" {
        Some(Command::Run)
    } else {
        None
    }
}
