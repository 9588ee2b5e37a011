//! Reading a text from left to right.

ghost use Rattle.std.specs.Prelude.{◌≡◌, ◌<◌, ◌≤◌, ◌+◌, ◌^◌, length, slice_index, drop, All, IfSome, IfOk, IfErr, OnOk, ◌++◌, ◌⊎◌, ℕ, List, ◌==◌, ◌&&◌};
ghost use Rattle.nf_text.specs.declared.token.Token.{Token};
ghost use Rattle.nf_text.specs.declared.token.TextFault.{TextFault};
ghost use Rattle.nf_text.specs.declared.token.TextFault.TheVariants.{NoMemory};
ghost use Rattle.nf_text.specs.Tokens.{AreTokens, HasFault, IsWithin, IsStuck, Taken, token_at};
ghost use Rattle.nf_text.specs.Next.{next, comment_len, after_minus, comes, ends_quote};
ghost use Rattle.nf_text.specs.Bytes.{class_of};

use crate::bytes::{Class, Run, class_of, run_len};
use crate::token::{TextFault, Token, TokenKind};
use std::alloc::Global;

fn is_end(a: u8, b: u8) -> bool
    ensures { result ≡ (a == 42 && b == 47) }
{
    a == b'*' && b == b'/'
}

/// How many bytes there are up to and with the first `*/`.
fn comment_len(bytes: &[u8]) -> Option<usize>
    ensures value { result ≡ comment_len bytes.now }
    ensures within { IfSome result (λ n. n ≤ length bytes.now) }
{
    for i in 1..bytes.len() {
        if is_end(bytes[i - 1], bytes[i]) {
            return Some(i + 1);
        }
    }
    None
}

fn after_minus(at: u32, first: u8, rest: &[u8]) -> Result<(Option<TokenKind>, usize), TextFault>
    requires { length rest.now < 2 ^ 32 }
    ensures { result ≡ after_minus (class_of first) at rest.now }
{
    match class_of(first) {
        Class::Digit => Ok((Some(TokenKind::Number), 2 + run_len(Run::Number, rest))),
        _ => Err(TextFault::BadByte(at)),
    }
}

fn comes(mark: u8, bytes: &[u8]) -> bool
    ensures { result ≡ comes mark bytes.now }
{
    bytes.iter().any(|b| *b == mark)
}

/// Behind the mark and n bytes that may stand in quotes: the end of the quoted text, or its fault.
fn ends_quote(
    at: u32,
    mark: u8,
    n: usize,
    end: u8,
    more: &[u8],
) -> Result<(Option<TokenKind>, usize), TextFault>
    requires { at + 1 + n < 2 ^ 32 }
    ensures { result ≡ ends_quote at mark n end more.now }
{
    if end == mark {
        Ok((Some(TokenKind::Quoted), 2 + n))
    } else if comes(mark, more) {
        Err(TextFault::BadByte(at + 1 + n as u32))
    } else {
        Err(TextFault::OpenQuote(at))
    }
}

/// The kind and the length of the piece that the byte and those after it begin with.
fn next(at: u32, first: u8, rest: &[u8]) -> Result<(Option<TokenKind>, usize), TextFault>
    requires { at + 1 + length rest.now < 2 ^ 32 }
    ensures { result ≡ next at first rest.now }
{
    match class_of(first) {
        Class::Space => Ok((None, 1)),
        Class::Letter => Ok((Some(TokenKind::Word), 1 + run_len(Run::Word, rest))),
        Class::Digit => Ok((Some(TokenKind::Number), 1 + run_len(Run::Number, rest))),
        Class::Mark => {
            let n = run_len(Run::Quoted(first), rest);
            match rest.split_at(n).1 {
                [] => Err(TextFault::OpenQuote(at)),
                [end, more @ ..] => ends_quote(at, first, n, *end, more),
            }
        }
        Class::Minus => match rest {
            [] => Err(TextFault::BadByte(at)),
            [digit, more @ ..] => after_minus(at, *digit, more),
        },
        Class::Slash => match rest {
            [b'*', inside @ ..] => match comment_len(inside) {
                Some(n) => Ok((None, 2 + n)),
                None => Err(TextFault::OpenComment(at)),
            },
            _ => Err(TextFault::BadByte(at)),
        },
        Class::EqualsSign => Ok((Some(TokenKind::Equals), 1)),
        Class::Semicolon => Ok((Some(TokenKind::Semicolon), 1)),
        Class::Other => Err(TextFault::BadByte(at)),
    }
}

/// The kind and the length of the piece at the front of the text, which begins here.
fn piece(at: u32, text: &[u8]) -> Result<(Option<TokenKind>, usize), TextFault>
    requires some { 0 < length text.now }
    requires fits { at + length text.now < 2 ^ 32 }
    ensures taken { IfOk result (λ r. Taken text.now r.0 r.1) }
    ensures len { IfOk result (λ r. (0 < r.1) × (r.1 ≤ length text.now)) }
    ensures stuck { IfErr result (λ f. IsStuck at text.now f) }
{
    next(at, text[0], text.split_at(1).1)
}

fn add(
    tokens: &mut Vec<Token>,
    kind: Option<TokenKind>,
    start: u32,
    end: u32,
) -> Result<(), TextFault>
    ensures ok { OnOk result (tokens.new.items ≡ tokens.old.items ++ token_at kind start end) }
    ensures err { IfErr result (λ f. f ≡ NoMemory) }
{
    if let Some(kind) = kind {
        tokens.push(Token { kind, start, end })?;
    }
    Ok(())
}

/// The tokens of a text of at most 1,048,576 bytes, in their order: slices of it that cover all but white space and
/// comments. Or the first fault in the text: `BadByte`, `OpenComment` or `OpenQuote`.
///
/// A quoted text with a bad byte in it is `BadByte` where its mark comes again, else `OpenQuote`.
pub fn tokens(alloc: Global, text: &[u8]) -> Result<Vec<Token>, TextFault>
    requires size { length text.now ≤ 1048576 }
    ensures found { IfOk result (λ ts. AreTokens text.now ts.items) }
    ensures within { IfOk result (λ ts. All (IsWithin text.now) ts.items) }
    ensures fault { IfErr result (λ f. (f ≡ NoMemory) ⊎ HasFault text.now f) }
{
    let mut tokens = Vec::new(alloc);
    let mut at: u32 = 0;
    let mut rest = text;
    while !rest.is_empty() {
        let (kind, len) = piece(at, rest)?;
        let end = at + len as u32;
        add(&mut tokens, kind, at, end)?;
        rest = rest.split_at(len).1;
        at = end;
    }
    Ok(tokens)
}

/// A law: a text has one list of tokens or one first fault, and not both.
pub fn one_reading()
    ensures tokens { (text : List ℕ) (ts us : List Token) → AreTokens text ts → AreTokens text us → ts ≡ us }
    ensures faults { (text : List ℕ) (f g : TextFault) → HasFault text f → HasFault text g → f ≡ g }
    ensures either { (text : List ℕ) (ts : List Token) (f : TextFault) → AreTokens text ts → HasFault text f → ⊥ }
{}
