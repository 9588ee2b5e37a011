//! What PRINT prints of a problem and of a state.
ghost use Rattle.std.specs.Prelude.{◌≡◌, ◌++◌, IfOk, OnOk};
ghost use Rattle.nf_labels.specs.Labels.{AreLabelsOf};
ghost use Rattle.nf_basis.specs.Kept.{IsStateOf};
ghost use Rattle.nf_results.specs.Results.{AreResults};
ghost use Rattle.nf_print.specs.Parts.{PrintsProblem, PrintsResults, part_text, parts_text};

use crate::parts::{Part, part_table};
use nf_basis::State;
use nf_io::Text;
use nf_labels::Labels;
use nf_out::{ArcFigures, RowFigures};
use nf_prob::Problem;
use nf_results::Results;
use nf_table::write_table;
use std::alloc::{AllocError, Global};

/// PRINT ARCS, NONARCS, NODES, CONSTRAINTS, or all four for SOLUTION: each part's word, and below it its table with the
/// numbers of the state that the results are of.
///
/// `AllocError` if out of memory.
pub fn print_results(
    alloc: Global,
    p: &Problem,
    labels: &Labels,
    state: &State,
    results: &Results,
    parts: &[Part],
) -> Result<Text, AllocError>
    requires labels { AreLabelsOf labels.now p.now }
    requires state { IsStateOf p.now state.now }
    requires results { AreResults p.now state.now.standing results.now }
    ensures text { IfOk result (PrintsResults p.now labels.now state.now.standing results.now.best parts.now) }
{
    let (arcs, rows) = (results.by_arc(), results.by_row());
    print_parts(alloc, p, labels, state, &arcs, &rows, true, parts)
}

/// PRINT PROBLEM: the four parts with the columns that hold in each state. The state may be any of the problem.
///
/// `AllocError` if out of memory.
pub fn print_problem(
    alloc: Global,
    p: &Problem,
    labels: &Labels,
    state: &State,
) -> Result<Text, AllocError>
    requires labels { AreLabelsOf labels.now p.now }
    requires state { IsStateOf p.now state.now }
    ensures text { IfOk result (PrintsProblem p.now labels.now) }
{
    let (arcs, rows) = (ArcFigures::new(&[], &[], &[]), RowFigures::new(&[], &[]));
    print_parts(alloc, p, labels, state, &arcs, &rows, false, Part::all())
}

// The texts of these parts, one after another.
fn print_parts(
    alloc: Global,
    p: &Problem,
    labels: &Labels,
    state: &State,
    arcs: &ArcFigures,
    rows: &RowFigures,
    full: bool,
    parts: &[Part],
) -> Result<Text, AllocError>
    requires labels { AreLabelsOf labels.now p.now }
    requires state { IsStateOf p.now state.now }
    ensures { IfOk result (λ t. t ≡ parts_text p.now labels.now state.now.standing arcs.now rows.now full parts.now) }
{
    let mut text = Vec::new(alloc);
    for part in parts {
        add_part(alloc, &mut text, p, labels, state, arcs, rows, full, *part)?;
    }
    Ok(Text::from_vec(text))
}

// Adds the text of a part.
fn add_part(
    alloc: Global,
    text: &mut Vec<u8>,
    p: &Problem,
    labels: &Labels,
    state: &State,
    arcs: &ArcFigures,
    rows: &RowFigures,
    full: bool,
    part: Part,
) -> Result<(), AllocError>
    requires labels { AreLabelsOf labels.now p.now }
    requires state { IsStateOf p.now state.now }
    ensures { OnOk result (text.new.items ≡ text.old.items ++ part_text p.now labels.now state.now.standing arcs.now rows.now full part) }
{
    let table = part_table(alloc, p, labels, state, arcs, rows, full, part)?;
    let csv = write_table(alloc, &table)?;
    text.extend_from_slice(part.word().as_bytes())?;
    text.extend_from_slice(csv.bytes())?;
    Ok(())
}
