//! What a value of a saved table says.
ghost use Rattle.std.specs.Prelude.{◌≡◌, ◌<◌, ◌≤◌, ◌^◌, IfSome, SomeIff, true, option_map};
ghost use Rattle.std.specs.Str.{str_eq_ignore_ascii_case};
ghost use Rattle.nf_frac.specs.Digits.{are_digits, decimal_value, is_numeral};
ghost use Rattle.nf_basis.specs.Names.{stage_by};
ghost use Rattle.nf_saved.specs.Values.{artificial_said, count_from, flag_said, last_said, place_said, rule_said, says_none, stage_said, version_said};

use nf_basis::Place;
use nf_print::Last;
use nf_program::PriceType;
use nf_saved::SavedArtificial;
use std::str;

// The first number out of range.
const LIMIT: u128 = 1 << 127;

// Whether a text is digits without leading zeros.
fn is_numeral(text: &[u8]) -> bool
    ensures { result ≡ is_numeral text.now }
{
    match text {
        [b'0'] => true,
        [b'0', ..] => false,
        _ => are_digits(text),
    }
}

// Whether a text is one digit or more.
fn are_digits(text: &[u8]) -> bool
    ensures { result ≡ are_digits text.now }
{
    !text.is_empty() && text.iter().all(|byte| byte.is_ascii_digit())
}

// The number that digits write, if it is in range.
fn number(digits: &[u8]) -> Option<u128>
    requires { are_digits digits.now ≡ true }
    ensures { SomeIff result (decimal_value digits.now < 2 ^ 127) (decimal_value digits.now) }
{
    let Ok(text) = str::from_utf8(digits) else {
        return None;
    };
    match text.parse::<u128>() {
        Ok(number) if number < LIMIT => Some(number),
        _ => None,
    }
}

// A count: digits without leading zeros, at least and at most so much.
#[tactic(auto, unfolding(nf_saved::specs::Values::count_from))]
pub(crate) fn count(value: &[u8], least: u64, most: u64) -> Option<u64>
    ensures count { result ≡ count_from least most value.now }
    ensures within { IfSome result (λ n. (least ≤ n) × (n ≤ most)) }
{
    if !is_numeral(value) {
        return None;
    }
    match number(value) {
        Some(n) if least as u128 <= n && n <= most as u128 => Some(n as u64),
        _ => None,
    }
}

// Whether there is a queue: version 2 has one, and version 1 none.
#[tactic(auto, unfolding(nf_saved::specs::Values::version_said))]
pub(crate) fn version(value: &[u8]) -> Option<bool>
    ensures { result ≡ version_said value.now }
{
    if value == b"2".as_slice() {
        Some(true)
    } else if value == b"1".as_slice() {
        Some(false)
    } else {
        None
    }
}

// Whether the stage is stage two.
#[tactic(auto, unfolding(nf_saved::specs::Values::stage_said))]
pub(crate) fn stage(value: &[u8], has_two: bool) -> Option<bool>
    ensures { option_map stage_by result ≡ stage_said has_two value.now }
{
    if value == b"1".as_slice() {
        Some(false)
    } else if value == b"2".as_slice() && has_two {
        Some(true)
    } else {
        None
    }
}

// Whether something is set.
#[tactic(auto, unfolding(nf_saved::specs::Values::flag_said))]
pub(crate) fn flag(value: &[u8]) -> Option<bool>
    ensures { result ≡ flag_said value.now }
{
    if value == b"1".as_slice() {
        Some(true)
    } else if value == b"0".as_slice() {
        Some(false)
    } else {
        None
    }
}

// A rule of pricing; QUEUE only in version 2.
#[tactic(auto, unfolding(nf_saved::specs::Values::rule_said))]
pub(crate) fn rule(value: &[u8], queued: bool) -> Option<PriceType>
    ensures { result ≡ rule_said queued value.now }
{
    if value == b"FIRST".as_slice() {
        Some(PriceType::First)
    } else if value == b"BEST".as_slice() {
        Some(PriceType::Best)
    } else if value == b"BLAND".as_slice() {
        Some(PriceType::Bland)
    } else if queued && value == b"QUEUE".as_slice() {
        Some(PriceType::Queue)
    } else if queued && value == b"Q".as_slice() {
        Some(PriceType::Queue)
    } else {
        None
    }
}

// A last halt; the end of stage one only if stage two is to come.
#[tactic(auto, unfolding(nf_saved::specs::Values::last_said))]
pub(crate) fn last(value: &[u8], to_come: bool) -> Option<Last>
    ensures { result ≡ last_said to_come value.now }
{
    if value == b"NONE".as_slice() {
        Some(Last::Unset)
    } else if value == b"OPTIMAL".as_slice() {
        Some(Last::Optimal)
    } else if value == b"INFEASIBLE".as_slice() {
        Some(Last::Infeasible)
    } else if value == b"UNBOUNDED".as_slice() {
        Some(Last::Unbounded)
    } else if value == b"LIMIT".as_slice() {
        Some(Last::Limit)
    } else if value == b"PAUSE".as_slice() {
        Some(Last::Pause)
    } else if value == b"FEASIBLE".as_slice() {
        Some(Last::Feasible)
    } else if to_come && value == b"STAGEONE".as_slice() {
        Some(Last::StageOne)
    } else if value == b"PIVOT".as_slice() {
        Some(Last::Pivot)
    } else {
        None
    }
}

// An artificial's sign, and whether it is basic.
#[tactic(auto, unfolding(nf_saved::specs::Values::artificial_said))]
pub(crate) fn artificial(value: &[u8]) -> Option<SavedArtificial>
    ensures { result ≡ artificial_said value.now }
{
    if value == b"+B".as_slice() {
        Some(SavedArtificial {
            negative: false,
            basic: true,
        })
    } else if value == b"+L".as_slice() {
        Some(SavedArtificial {
            negative: false,
            basic: false,
        })
    } else if value == b"-B".as_slice() {
        Some(SavedArtificial {
            negative: true,
            basic: true,
        })
    } else if value == b"-L".as_slice() {
        Some(SavedArtificial {
            negative: true,
            basic: false,
        })
    } else {
        None
    }
}

// Whether a word is this one, in any case.
fn is_word(name: &str, word: &[u8]) -> bool
    ensures { result ≡ str_eq_ignore_ascii_case name.now word.now }
{
    name.as_bytes().eq_ignore_ascii_case(word)
}

// A place, in any case.
#[tactic(auto, unfolding(nf_saved::specs::Values::place_said))]
pub(crate) fn place(word: &[u8]) -> Option<Place>
    ensures { result ≡ place_said word.now }
{
    if is_word("LOWERBD", word) {
        Some(Place::Lower)
    } else if is_word("UPPERBD", word) {
        Some(Place::Upper)
    } else if is_word("BASIC", word) {
        Some(Place::Basic)
    } else if is_word("ABSENT", word) {
        Some(Place::Absent)
    } else if is_word("ZERO", word) {
        Some(Place::Zero)
    } else {
        None
    }
}

// Whether a word says that there is no status, in any case.
pub(crate) fn is_none(word: &[u8]) -> bool
    ensures { result ≡ says_none word.now }
{
    is_word("NONE", word)
}
