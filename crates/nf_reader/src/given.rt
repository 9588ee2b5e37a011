//! The options that a statement has so far.
ghost use Rattle.std.specs.Prelude.{◌≡◌, nat_eq};
ghost use Rattle.std.specs.List.{list_any};
ghost use Rattle.nf_program.specs.Settings.{key_of, is_session, is_session_setting, is_output, is_warm, is_warm_setting, option_key};

use nf_program::settings::Setting;
use nf_program::words::{FlagOption, OptionWord};

/// Whether the option is among those given.
pub fn is_given(option: OptionWord, given: &[Setting]) -> bool
    ensures { result ≡ list_any (λ s. nat_eq (key_of s) (option_key option)) given.now }
{
    let key = option.key();
    given.iter().any(|s| s.word().key() == key)
}

/// Whether the option is one of the session.
pub fn is_session(option: OptionWord) -> bool
    ensures { result ≡ is_session option }
{
    match option {
        OptionWord::Count(_) | OptionWord::Switch(_, _) | OptionWord::Rule(_) => true,
        _ => false,
    }
}

/// Whether the option stores a table.
pub fn is_output(option: OptionWord) -> bool
    ensures { result ≡ is_output option }
{
    match option {
        OptionWord::Output(_) => true,
        _ => false,
    }
}

/// Whether the option is WARM.
pub fn is_warm(option: OptionWord) -> bool
    ensures { result ≡ is_warm option }
{
    match option {
        OptionWord::Flag(FlagOption::Warm) => true,
        _ => false,
    }
}

/// Whether a session option is among those given.
pub fn has_session(given: &[Setting]) -> bool
    ensures { result ≡ list_any is_session_setting given.now }
{
    given.iter().any(|s| is_session(s.word()))
}

/// Whether WARM is among those given.
pub fn has_warm(given: &[Setting]) -> bool
    ensures { result ≡ list_any is_warm_setting given.now }
{
    given.iter().any(|s| is_warm(s.word()))
}
