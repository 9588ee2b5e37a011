//! The values of options, from tokens.
ghost use Rattle.std.specs.Prelude.{◌≡◌, ◌<◌, ◌≤◌, ◌^◌, length, option_map};
ghost use Rattle.std.specs.Result.{result_ok};
ghost use Rattle.std.specs.List.{list_all};
ghost use Rattle.nf_frac.specs.Amounts.{amount_read};
ghost use Rattle.nf_program.specs.Values.{inside, is_name_byte};
ghost use Rattle.nf_program.specs.ReadValues.{set_name_of, column_of, node_name, node_of, amount_of, infinite, bound_of, digits_from, count_of, least_of, most_of, count_for, type_of, rule_of};

use crate::items::Name;
use crate::program::{Bound, ConType, PriceType};
use crate::words::{CountOption, con_type_of, price_type_of};
use nf_frac::{Amount, read_amount};
use nf_text::TokenKind;

/// The name of a data set: a word of at most 32 bytes, in lower case.
#[tactic(auto, unfolding(crate::specs::ReadValues::set_name_of))]
pub fn set_name_of(kind: TokenKind, bytes: &[u8]) -> Option<Name>
    ensures { result ≡ set_name_of kind bytes.now }
{
    match kind {
        TokenKind::Word => match Name::new(bytes) {
            Some(name) => Some(name.lowered()),
            None => None,
        },
        _ => None,
    }
}

/// What stands between the quotes.
fn inside(bytes: &[u8]) -> &[u8]
    ensures { result.now ≡ inside bytes.now }
{
    if bytes.len() < 2 {
        &[]
    } else {
        &bytes[1..bytes.len() - 1]
    }
}

/// The name of a column: a word or a quoted text of 1 to 32 bytes.
#[tactic(auto, unfolding(crate::specs::ReadValues::column_of))]
pub fn column_of(kind: TokenKind, bytes: &[u8]) -> Option<Name>
    ensures { result ≡ column_of kind bytes.now }
{
    match kind {
        TokenKind::Word => Name::new(bytes),
        TokenKind::Quoted => Name::new(inside(bytes)),
        _ => None,
    }
}

fn is_name_byte(b: u8) -> bool
    ensures { result ≡ is_name_byte b }
{
    b.is_ascii_alphabetic()
        || b.is_ascii_digit()
        || b == b'_'
        || b == b' '
        || b == b'.'
        || b == b'-'
}

fn are_name_bytes(bytes: &[u8]) -> bool
    ensures { result ≡ list_all is_name_byte bytes.now }
{
    bytes.iter().all(|b| is_name_byte(*b))
}

fn node_name(bytes: &[u8]) -> Option<Name>
    ensures { result ≡ node_name bytes.now }
{
    if are_name_bytes(bytes) {
        Name::new(bytes)
    } else {
        None
    }
}

/// The name of a node: a word, a number, or a quoted text that is a name.
#[tactic(auto, unfolding(crate::specs::ReadValues::node_of))]
pub fn node_of(kind: TokenKind, bytes: &[u8]) -> Option<Name>
    ensures { result ≡ node_of kind bytes.now }
{
    match kind {
        TokenKind::Word | TokenKind::Number => node_name(bytes),
        TokenKind::Quoted => node_name(inside(bytes)),
        _ => None,
    }
}

fn amount_in(bytes: &[u8]) -> Option<Amount>
    ensures { result ≡ result_ok (amount_read bytes.now) }
{
    match read_amount(bytes) {
        Ok(amount) => Some(amount),
        Err(_) => None,
    }
}

/// An amount.
#[tactic(auto, unfolding(crate::specs::ReadValues::amount_of))]
pub fn amount_of(kind: TokenKind, bytes: &[u8]) -> Option<Amount>
    ensures { result ≡ amount_of kind bytes.now }
{
    match kind {
        TokenKind::Number => amount_in(bytes),
        _ => None,
    }
}

fn infinite(word: &[u8]) -> Option<Bound>
    ensures { result ≡ infinite word.now }
{
    if "INF".as_bytes().eq_ignore_ascii_case(word) {
        Some(Bound::Infinite)
    } else {
        None
    }
}

/// An upper bound: an amount, or the word INF.
#[tactic(auto, unfolding(crate::specs::ReadValues::bound_of))]
pub fn bound_of(kind: TokenKind, bytes: &[u8]) -> Option<Bound>
    ensures { result ≡ bound_of kind bytes.now }
{
    match kind {
        TokenKind::Number => match amount_in(bytes) {
            Some(amount) => Some(Bound::Finite(amount)),
            None => None,
        },
        TokenKind::Word => infinite(bytes),
        _ => None,
    }
}

fn digits(bytes: &[u8]) -> Option<u32>
    requires { length bytes.now ≤ 9 }
    ensures { result ≡ digits_from 0 bytes.now }
{
    let mut n: u32 = 0;
    for b in bytes {
        if !b.is_ascii_digit() {
            return None;
        }
        n = 10 * n + (*b - b'0') as u32;
    }
    Some(n)
}

/// A count: one to nine digits.
#[tactic(auto, unfolding(crate::specs::ReadValues::count_of))]
pub fn count_of(kind: TokenKind, bytes: &[u8]) -> Option<u32>
    ensures { result ≡ count_of kind bytes.now }
{
    match kind {
        TokenKind::Number => {
            if bytes.is_empty() || bytes.len() > 9 {
                None
            } else {
                digits(bytes)
            }
        }
        _ => None,
    }
}

fn least_of(option: CountOption) -> u32
    ensures { result ≡ least_of option }
{
    match option {
        CountOption::QueueSize1 | CountOption::QueueSize2 => 1,
        _ => 0,
    }
}

fn most_of(option: CountOption) -> u32
    ensures { result ≡ most_of option }
{
    match option {
        CountOption::QueueSize1 | CountOption::QueueSize2 => 999,
        _ => 999_999_999,
    }
}

/// A count of this option: QUEUESIZE1= and QUEUESIZE2= accept 1 to 999.
#[tactic(auto, unfolding(crate::specs::ReadValues::count_for))]
pub fn count_for(option: CountOption, kind: TokenKind, bytes: &[u8]) -> Option<u32>
    ensures { result ≡ count_for option kind bytes.now }
{
    match count_of(kind, bytes) {
        Some(n) => {
            if least_of(option) <= n && n <= most_of(option) {
                Some(n)
            } else {
                None
            }
        }
        None => None,
    }
}

/// The type of a constraint, by one of its words.
#[tactic(auto, unfolding(crate::specs::ReadValues::type_of))]
pub fn type_of(kind: TokenKind, bytes: &[u8]) -> Option<ConType>
    ensures { result ≡ type_of kind bytes.now }
{
    match kind {
        TokenKind::Word => con_type_of(bytes),
        _ => None,
    }
}

/// A pricing rule.
#[tactic(auto, unfolding(crate::specs::ReadValues::rule_of))]
pub fn rule_of(kind: TokenKind, bytes: &[u8]) -> Option<PriceType>
    ensures { result ≡ rule_of kind bytes.now }
{
    match kind {
        TokenKind::Word => price_type_of(bytes),
        _ => None,
    }
}
