//! The lines of a text and the fields of a line, one by one.
ghost use Rattle.std.specs.Prelude.{◌≡◌, ◌<◌, ◌++◌, ◌∷◌, [], IfSome, MatchOption, length, position};
ghost use Rattle.nf_dimacs.specs.Lines.{fields_of, is_blank, is_feed, lines_of, with_bytes, without_return};

use std::marker::Model;

/// What is left of a text, seen as its lines.
#[derive(Drop)]
pub(crate) struct Lines<'a> {
    rest: &'a [u8],
}

impl<'a> Model for Lines<'a> {
    ghost use Rattle.std.specs.Prelude.{List, ℕ};

    ghost Value = { List (List ℕ) };

    ghost use Rattle.nf_dimacs.specs.Lines.{lines_of};

    ghost view = { λ l. lines_of l.rest.now };
}

impl<'a> Lines<'a> {
    /// The lines of a text.
    pub(crate) fn new(text: &'a [u8]) -> Self
        ensures { result ≡ lines_of text.now }
    {
        Lines { rest: text }
    }

    /// Takes off the first line: its bytes up to a line feed and a carriage return before it, or up to the end of the text.
    pub(crate) fn advance(&mut self) -> Option<&'a [u8]>
        ensures { MatchOption result (self.old ≡ []) (λ line. self.old ≡ line.now ∷ self.new) }
    {
        if self.rest.is_empty() {
            return None;
        }
        let (line, rest) = cut_line(self.rest);
        self.rest = rest;
        Some(line)
    }
}

// The first line of a text that has bytes, and what follows it.
fn cut_line(text: &[u8]) -> (&[u8], &[u8])
    requires { 0 < length text.now }
    ensures { lines_of text.now ≡ result.0.now ∷ lines_of result.1.now }
{
    match feed_place(text) {
        None => (text, &[]),
        Some(at) => (without_return(&text[..at]), &text[at + 1..]),
    }
}

// Where the first line feed is.
fn feed_place(text: &[u8]) -> Option<usize>
    ensures place { result ≡ position is_feed text.now }
    ensures within { IfSome result (λ at. at < length text.now) }
{
    text.iter().position(|byte| *byte == b'\n')
}

// The bytes without a carriage return at their end.
fn without_return(line: &[u8]) -> &[u8]
    ensures { result.now ≡ without_return line.now }
{
    if !line.is_empty() && line[line.len() - 1] == b'\r' {
        &line[..line.len() - 1]
    } else {
        line
    }
}

/// What is left of a line, seen as its fields.
#[derive(Drop)]
pub(crate) struct Fields<'a> {
    rest: &'a [u8],
}

impl<'a> Model for Fields<'a> {
    ghost use Rattle.std.specs.Prelude.{List, ℕ};

    ghost Value = { List (List ℕ) };

    ghost use Rattle.nf_dimacs.specs.Lines.{fields_of};

    ghost view = { λ f. fields_of f.rest.now };
}

impl<'a> Fields<'a> {
    /// The fields of a line.
    pub(crate) fn new(line: &'a [u8]) -> Self
        ensures { result ≡ fields_of line.now }
    {
        Fields { rest: line }
    }

    /// Takes off the first field.
    pub(crate) fn advance(&mut self) -> Option<&'a [u8]>
        ensures { MatchOption result (self.old ≡ []) (λ field. self.old ≡ field.now ∷ self.new) }
    {
        while !self.rest.is_empty() {
            let (field, rest) = cut_field(self.rest);
            self.rest = rest;
            if !field.is_empty() {
                return Some(field);
            }
        }
        None
    }
}

// The bytes before the first space or tab, and those after it.
fn cut_field(line: &[u8]) -> (&[u8], &[u8])
    ensures fields { fields_of line.now ≡ with_bytes result.0.now ++ fields_of result.1.now }
    ensures shorter { 0 < length line.now → length result.1.now < length line.now }
{
    match blank_place(line) {
        None => (line, &[]),
        Some(at) => (&line[..at], &line[at + 1..]),
    }
}

// Where the first space or tab is.
fn blank_place(line: &[u8]) -> Option<usize>
    ensures place { result ≡ position is_blank line.now }
    ensures within { IfSome result (λ at. at < length line.now) }
{
    line.iter().position(|byte| *byte == b' ' || *byte == b'\t')
}
