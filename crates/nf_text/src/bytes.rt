//! What the bytes of a text are.

ghost use Rattle.std.specs.Prelude.{◌≡◌, ◌≤◌, length};
ghost use Rattle.std.specs.List.{prefix_len};
ghost use Rattle.nf_text.specs.Bytes.{class_of, is_word_byte, is_number_byte, may_stand};
ghost use Rattle.nf_text.specs.Runs.{goes_on};

/// What a byte is, where a token begins.
#[derive(Clone, Copy, Debug, PartialEq, Eq)]
pub enum Class {
    Space,
    Letter,
    Digit,
    Mark,
    Minus,
    Slash,
    EqualsSign,
    Semicolon,
    Other,
}

/// The class of the byte.
pub fn class_of(b: u8) -> Class
    ensures { result ≡ class_of b }
{
    match b {
        b' ' | b'\t' | b'\r' | b'\n' => Class::Space,
        b'a'..=b'z' | b'A'..=b'Z' | b'_' => Class::Letter,
        b'0'..=b'9' => Class::Digit,
        b'\'' | b'"' => Class::Mark,
        b'-' => Class::Minus,
        b'/' => Class::Slash,
        b'=' => Class::EqualsSign,
        b';' => Class::Semicolon,
        _ => Class::Other,
    }
}

/// What goes on: a word, a number, or a text in these quotes.
#[derive(Clone, Copy, Debug, PartialEq, Eq)]
pub enum Run {
    Word,
    Number,
    Quoted(u8),
}

fn goes_on(run: Run, b: u8) -> bool
    ensures { result ≡ goes_on run b }
{
    match run {
        Run::Word => b.is_ascii_alphabetic() || b == b'_' || b.is_ascii_digit(),
        Run::Number => b.is_ascii_digit() || b == b'.',
        Run::Quoted(mark) => 32 <= b && b <= 126 && b != mark,
    }
}

/// How many bytes at the front belong to the run.
pub fn run_len(run: Run, bytes: &[u8]) -> usize
    ensures len { result ≡ prefix_len (goes_on run) bytes.now }
    ensures within { result ≤ length bytes.now }
{
    let mut n = 0;
    while n < bytes.len() && goes_on(run, bytes[n]) {
        n += 1;
    }
    n
}
