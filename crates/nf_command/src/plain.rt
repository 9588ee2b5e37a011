//! The commands of one word.
ghost use Rattle.std.specs.Prelude.{[], ◌∷◌, MatchOption, map};
ghost use Rattle.std.specs.String.{string_bytes};
ghost use Rattle.nf_command.specs.declared.plain.PlainCommand.{PlainCommand as Commands};
ghost use Rattle.nf_command.specs.Words.{AsksPlain};

/// A command of one word.
#[derive(Clone, Copy, Debug, PartialEq, Eq)]
pub enum PlainCommand {
    Run,
    Check,
    Import,
    Export,
}

/// The command that the words are, or None if they are not the one word of a command.
pub fn command_asked(words: &[String]) -> Option<PlainCommand>
    ensures { MatchOption result ((c : Commands) → AsksPlain c (map string_bytes words.now) → ⊥) (λ c. AsksPlain c (map string_bytes words.now)) }
{
    match words {
        [word] => command_named(word.as_str()),
        _ => None,
    }
}

// The command of one word.
fn command_named(word: &str) -> Option<PlainCommand>
    ensures { MatchOption result ((c : Commands) → AsksPlain c (word.now ∷ []) → ⊥) (λ c. AsksPlain c (word.now ∷ [])) }
{
    match word {
        "run" => Some(PlainCommand::Run),
        "check" => Some(PlainCommand::Check),
        "import" => Some(PlainCommand::Import),
        "export" => Some(PlainCommand::Export),
        _ => None,
    }
}
