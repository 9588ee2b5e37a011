//! Reading a text line by line.
ghost use Rattle.std.specs.Prelude.{◌≡◌, ◌≤◌, ◌<◌, ◌≤ℤ◌, ◌-◌, ◌+◌, ◌^◌, ◌++◌, ◌∷◌, ◌⊎◌, List, [], None, Some, length, IfOk, IfErr, OnOk, unsigned_abs, pos, replicate, slice_set};
ghost use Rattle.std.specs.Option.{is_some, option_map};
ghost use Rattle.nf_io.specs.Held.{most_bytes};
ghost use Rattle.nf_dimacs.specs.declared.line.Line.{Line};
ghost use Rattle.nf_dimacs.specs.Faults.{arc_fault, end_fault, ends_fault, fault_at, fault_in, is_node, line_fault, node_fault, problem_fault, size_fault, sums_fault, supply_fault};
ghost use Rattle.nf_dimacs.specs.Kinds.{no_memory};
ghost use Rattle.nf_dimacs.specs.Progress.{HasRead, IsSmall, Say, given_at};
ghost use Rattle.nf_dimacs.specs.Says.{said_by};

use crate::fault::{DimacsFault, DimacsKind};
use crate::line::{Arc, Line, Size, Supply};
use crate::lines::Lines;
use std::alloc::{AllocError, Global};

const MOST_NODES: i32 = 20_000;

const MOST_ARCS: i32 = 200_000;

/// What the lines of a text up to one say together: their number, the counts of the `p` line, the supply of each node if
/// it is given one, the arcs, and what the supplies add up to.
#[derive(Drop)]
pub(crate) struct Reading {
    pub(crate) lines: u32,
    pub(crate) size: Option<Size>,
    pub(crate) supplies: Vec<Option<i32>>,
    pub(crate) arcs: Vec<Arc>,
    pub(crate) balance: i64,
}

/// What the lines of a text say, if no line has a fault and all of them have none.
pub(crate) fn read_lines(alloc: Global, text: &[u8]) -> Result<Reading, DimacsFault>
    requires size { length text.now ≤ most_bytes }
    ensures sound { OnOk result (fault_in (said_by text.now) ≡ None) }
    ensures read { IfOk result (HasRead (said_by text.now)) }
    ensures fault { IfErr result (λ f. (f ≡ no_memory) ⊎ (fault_in (said_by text.now) ≡ Some f)) }
{
    let mut lines = Lines::new(text);
    let mut reading = Reading::new(alloc);
    while let Some(line) = lines.advance() {
        reading.read(alloc, &Line::of(line))?;
    }
    reading.end()?;
    Ok(reading)
}

impl Reading {
    fn new(alloc: Global) -> Reading
        ensures read { HasRead [] result }
        ensures small { IsSmall result.balance result.lines }
    {
        Reading {
            lines: 0,
            size: None,
            supplies: Vec::new(alloc),
            arcs: Vec::new(alloc),
            balance: 0,
        }
    }

    // Reads one more line.
    fn read(&mut self, alloc: Global, line: &Line) -> Result<(), DimacsFault>
        requires few { self.old.lines < 2 ^ 31 }
        requires small { IsSmall self.old.balance self.old.lines }
        ensures sound { OnOk result (line_fault self.old.size (given_at self.old.supplies.items) line.now ≡ None) }
        ensures read { OnOk result ((before : List Line) → HasRead before self.old → HasRead (before ++ line.now ∷ []) self.new) }
        ensures small { OnOk result (IsSmall self.new.balance self.new.lines) }
        ensures fault { IfErr result (λ f. (f ≡ no_memory) ⊎ (option_map (fault_at (self.old.lines + 1)) (line_fault self.old.size (given_at self.old.supplies.items) line.now) ≡ Some f)) }
    {
        if let Some(kind) = self.fault(line) {
            return Err(DimacsFault {
                line: self.lines + 1,
                kind,
            });
        }
        self.add(alloc, line)?;
        self.lines += 1;
        Ok(())
    }

    // The fault of the next line.
    fn fault(&self, line: &Line) -> Option<DimacsKind>
        ensures { result ≡ line_fault self.now.size (given_at self.now.supplies.items) line.now }
    {
        match line {
            Line::Skipped => None,
            Line::Bad => Some(DimacsKind::BadLine),
            Line::Problem(counts) => problem_fault(&self.size, counts),
            Line::Node(supply) => node_fault(&self.size, &self.supplies, supply),
            Line::Arc(arc) => arc_fault(&self.size, arc),
        }
    }

    // Adds what a line without fault says.
    fn add(&mut self, alloc: Global, line: &Line) -> Result<(), AllocError>
        requires few { self.old.lines < 2 ^ 31 }
        requires small { IsSmall self.old.balance self.old.lines }
        requires sound { line_fault self.old.size (given_at self.old.supplies.items) line.now ≡ None }
        ensures say { OnOk result ((before : List Line) → Say before self.old.size self.old.supplies.items self.old.arcs.items self.old.balance
            → Say (before ++ line.now ∷ []) self.new.size self.new.supplies.items self.new.arcs.items self.new.balance) }
        ensures small { OnOk result (IsSmall self.new.balance (self.old.lines + 1)) }
        ensures lines { self.new.lines ≡ self.old.lines }
    {
        match line {
            Line::Problem(Some(size)) => {
                self.supplies = no_supplies(alloc, size)?;
                self.size = Some(*size);
                Ok(())
            }
            Line::Node(Some(supply)) => {
                give(&mut self.supplies, supply);
                self.balance += i64::from(supply.flow);
                Ok(())
            }
            Line::Arc(Some(arc)) => {
                self.arcs.push(*arc)?;
                Ok(())
            }
            Line::Skipped => Ok(()),
            // These have a fault.
            _ => Ok(()),
        }
    }

    // The fault of all lines.
    fn end(&self) -> Result<(), DimacsFault>
        requires few { self.now.lines < 2 ^ 31 }
        ensures sound { OnOk result (end_fault self.now.size (length self.now.arcs.items) self.now.balance ≡ None) }
        ensures fault { IfErr result (λ f. option_map (fault_at (self.now.lines + 1)) (end_fault self.now.size (length self.now.arcs.items) self.now.balance) ≡ Some f) }
    {
        match end_fault(&self.size, self.arcs.len(), self.balance) {
            None => Ok(()),
            Some(kind) => Err(DimacsFault {
                line: self.lines + 1,
                kind,
            }),
        }
    }
}

// No supply for any node.
fn no_supplies(alloc: Global, size: &Size) -> Result<Vec<Option<i32>>, AllocError>
    ensures { IfOk result (λ v. v.items ≡ replicate (unsigned_abs size.now.nodes) None) }
{
    vec![in alloc; None; size.nodes.unsigned_abs() as usize]
}

// Gives a node its supply.
fn give(supplies: &mut [Option<i32>], supply: &Supply)
    requires some { pos 1 ≤ℤ supply.now.node }
    ensures { supplies.new ≡ slice_set supplies.old (unsigned_abs supply.now.node - 1) (Some supply.now.flow) }
{
    let place = supply.node as usize - 1;
    if place < supplies.len() {
        supplies[place] = Some(supply.flow);
    }
}

fn problem_fault(earlier: &Option<Size>, size: &Option<Size>) -> Option<DimacsKind>
    ensures { result ≡ problem_fault earlier.now size.now }
{
    match (earlier, size) {
        (Some(_), _) => Some(DimacsKind::BadLine),
        (None, None) => Some(DimacsKind::Number),
        (None, Some(size)) => size_fault(size),
    }
}

fn size_fault(size: &Size) -> Option<DimacsKind>
    ensures { result ≡ size_fault size.now }
{
    if size.nodes < 0 || size.arcs < 0 {
        Some(DimacsKind::Number)
    } else if size.nodes > MOST_NODES || size.arcs > MOST_ARCS {
        Some(DimacsKind::LimitPassed)
    } else {
        None
    }
}

fn is_node(size: &Size, node: i32) -> bool
    ensures { result ≡ is_node size.now node }
{
    1 <= node && node <= size.nodes
}

fn node_fault(
    size: &Option<Size>,
    supplies: &[Option<i32>],
    supply: &Option<Supply>,
) -> Option<DimacsKind>
    ensures { result ≡ node_fault size.now (given_at supplies.now) supply.now }
{
    match (size, supply) {
        (None, _) => Some(DimacsKind::BadLine),
        (Some(_), None) => Some(DimacsKind::Number),
        (Some(size), Some(supply)) => supply_fault(size, supplies, supply.node),
    }
}

fn supply_fault(size: &Size, supplies: &[Option<i32>], node: i32) -> Option<DimacsKind>
    ensures { result ≡ supply_fault size.now (given_at supplies.now node) node }
{
    if !is_node(size, node) {
        Some(DimacsKind::Node)
    } else if is_given(supplies, node) {
        Some(DimacsKind::RepeatedNode)
    } else {
        None
    }
}

// Whether a node has a supply.
fn is_given(supplies: &[Option<i32>], node: i32) -> bool
    requires some { pos 1 ≤ℤ node }
    ensures { result ≡ is_some (given_at supplies.now node) }
{
    let place = node as usize - 1;
    place < supplies.len() && supplies[place].is_some()
}

fn arc_fault(size: &Option<Size>, arc: &Option<Arc>) -> Option<DimacsKind>
    ensures { result ≡ arc_fault size.now arc.now }
{
    match (size, arc) {
        (None, _) => Some(DimacsKind::BadLine),
        (Some(_), None) => Some(DimacsKind::Number),
        (Some(size), Some(arc)) => ends_fault(size, arc),
    }
}

fn ends_fault(size: &Size, arc: &Arc) -> Option<DimacsKind>
    ensures { result ≡ ends_fault size.now arc.now }
{
    if !is_node(size, arc.tail) || !is_node(size, arc.head) {
        Some(DimacsKind::Node)
    } else if arc.capacity < 0 {
        Some(DimacsKind::Negative)
    } else if arc.capacity < arc.lower {
        Some(DimacsKind::Crossed)
    } else {
        None
    }
}

fn end_fault(size: &Option<Size>, arcs: usize, total: i64) -> Option<DimacsKind>
    ensures { result ≡ end_fault size.now arcs total }
{
    match size {
        None => Some(DimacsKind::NoProblem),
        Some(size) => sums_fault(size, arcs, total),
    }
}

fn sums_fault(size: &Size, arcs: usize, total: i64) -> Option<DimacsKind>
    ensures { result ≡ sums_fault size.now arcs total }
{
    if arcs != size.arcs.unsigned_abs() as usize {
        Some(DimacsKind::WrongCount)
    } else if total != 0 {
        Some(DimacsKind::Unbalanced)
    } else {
        None
    }
}
