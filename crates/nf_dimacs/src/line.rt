//! What a line says.
ghost use Rattle.std.specs.Prelude.{◌≡◌, codes};
ghost use Rattle.std.specs.Str.{bytes_eq};
ghost use Rattle.nf_dimacs.specs.Lines.{fields_of};
ghost use Rattle.nf_dimacs.specs.Says.{arc_line, arc_read, begins_with, is_letter, line_by, line_of, node_line, problem_line, size_read, supply_read};

use crate::lines::Fields;
use crate::number::number;

/// What a `p` line says.
#[derive(Clone, Copy, Debug, PartialEq, Eq)]
pub struct Size {
    pub nodes: i32,
    pub arcs: i32,
}

/// What an `n` line says.
#[derive(Clone, Copy, Debug, PartialEq, Eq)]
pub struct Supply {
    pub node: i32,
    pub flow: i32,
}

/// What an `a` line says.
#[derive(Clone, Copy, Debug, PartialEq, Eq)]
pub struct Arc {
    pub tail: i32,
    pub head: i32,
    pub lower: i32,
    pub capacity: i32,
    pub cost: i32,
}

/// What a line says, by its first field and the number of its fields. With None one of its fields is no number.
#[derive(Clone, Copy, Debug, PartialEq, Eq)]
pub enum Line {
    /// No field, or a comment.
    Skipped,
    /// `p min NODES ARCS`.
    Problem(Option<Size>),
    /// `n ID FLOW`.
    Node(Option<Supply>),
    /// `a SRC DST LOW CAP COST`.
    Arc(Option<Arc>),
    /// Anything else.
    Bad,
}

impl Line {
    /// What a line says.
    pub(crate) fn of(line: &[u8]) -> Line
        ensures { result ≡ line_of (fields_of line.now) }
    {
        let mut fields = Fields::new(line);
        match fields.advance() {
            None => Line::Skipped,
            Some(first) => line_by(first, fields),
        }
    }
}

fn begins_with(field: &[u8], letter: u8) -> bool
    ensures { result ≡ begins_with letter field.now }
{
    match field {
        [] => false,
        [first, ..] => *first == letter,
    }
}

fn is_letter(field: &[u8], letter: u8) -> bool
    ensures { result ≡ is_letter letter field.now }
{
    match field {
        [only] => *only == letter,
        _ => false,
    }
}

// What a line says by its first field, of which the other fields are to come.
fn line_by(first: &[u8], fields: Fields<'_>) -> Line
    ensures { result ≡ line_by first.now fields.entry }
{
    if begins_with(first, b'c') {
        Line::Skipped
    } else if is_letter(first, b'p') {
        problem_line(fields)
    } else if is_letter(first, b'n') {
        node_line(fields)
    } else if is_letter(first, b'a') {
        arc_line(fields)
    } else {
        Line::Bad
    }
}

fn problem_line(fields: Fields<'_>) -> Line
    ensures { result ≡ problem_line fields.entry }
{
    let mut fields = fields;
    let Some(word) = fields.advance() else {
        return Line::Bad;
    };
    let Some(nodes) = fields.advance() else {
        return Line::Bad;
    };
    let Some(arcs) = fields.advance() else {
        return Line::Bad;
    };
    if fields.advance().is_some() || !is_min(word) {
        return Line::Bad;
    }
    Line::Problem(size_read(nodes, arcs))
}

fn is_min(word: &[u8]) -> bool
    ensures { result ≡ bytes_eq word.now (codes "min") }
{
    word == b"min".as_slice()
}

fn size_read(nodes: &[u8], arcs: &[u8]) -> Option<Size>
    ensures { result ≡ size_read nodes.now arcs.now }
{
    let nodes = number(nodes)?;
    let arcs = number(arcs)?;
    Some(Size { nodes, arcs })
}

fn node_line(fields: Fields<'_>) -> Line
    ensures { result ≡ node_line fields.entry }
{
    let mut fields = fields;
    let Some(node) = fields.advance() else {
        return Line::Bad;
    };
    let Some(flow) = fields.advance() else {
        return Line::Bad;
    };
    if fields.advance().is_some() {
        return Line::Bad;
    }
    Line::Node(supply_read(node, flow))
}

fn supply_read(node: &[u8], flow: &[u8]) -> Option<Supply>
    ensures { result ≡ supply_read node.now flow.now }
{
    let node = number(node)?;
    let flow = number(flow)?;
    Some(Supply { node, flow })
}

fn arc_line(fields: Fields<'_>) -> Line
    ensures { result ≡ arc_line fields.entry }
{
    let mut fields = fields;
    let Some(tail) = fields.advance() else {
        return Line::Bad;
    };
    let Some(head) = fields.advance() else {
        return Line::Bad;
    };
    let Some(lower) = fields.advance() else {
        return Line::Bad;
    };
    let Some(capacity) = fields.advance() else {
        return Line::Bad;
    };
    let Some(cost) = fields.advance() else {
        return Line::Bad;
    };
    if fields.advance().is_some() {
        return Line::Bad;
    }
    Line::Arc(arc_read(tail, head, lower, capacity, cost))
}

fn arc_read(tail: &[u8], head: &[u8], lower: &[u8], capacity: &[u8], cost: &[u8]) -> Option<Arc>
    ensures { result ≡ arc_read tail.now head.now lower.now capacity.now cost.now }
{
    let tail = number(tail)?;
    let head = number(head)?;
    let lower = number(lower)?;
    let capacity = number(capacity)?;
    let cost = number(cost)?;
    Some(Arc {
        tail,
        head,
        lower,
        capacity,
        cost,
    })
}
