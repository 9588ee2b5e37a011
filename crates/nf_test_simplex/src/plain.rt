// Every number of a basis, computed again plainly: by the definitions, from the columns as the problem has them.
ghost use Rattle.std.specs.Prelude.{◌≡◌, ◌<◌, ◌≤◌, length, IfOk};
ghost use Rattle.nf_prob.specs.Numbers.{IsNumber};
ghost use Rattle.nf_simplex.specs.Standing.{rows_of};
ghost use Rattle.nf_basis.specs.Kept.{IsStateOf};

use crate::start::{is_present, rows_in};
use nf_basis::{Basis, Col, Phase, Place, State};
use nf_frac::{Frac, Steps};
use nf_prob::Problem;
use nf_sums::add_product;
use std::alloc::Global;
use std::cmp::Ordering;
use std::sync::ledger::Ledger;
use std::test::Fail;

// What a combination of columns is to give: the unit column of a row, or a column.
#[derive(Clone, Copy)]
enum Target {
    Unit(u32),
    Column(Col),
}

// What an arc has in a row.
fn arc_entry(p: &Problem, j: u32, row: u32) -> Frac
    requires number { IsNumber j (length p.now.columns) }
{
    for entry in p.entries(j) {
        if entry.row == row {
            return entry.value;
        }
    }
    Frac::zero()
}

// What a column has in a row; an artificial has 1 in its own, or -1.
fn entry_at(p: &Problem, state: &State, col: Col, row: u32) -> Frac
    requires state { IsStateOf p.now state.now }
    requires row { (0 < row) × (row ≤ rows_of p.now state.now.standing) }
{
    match col {
        Col::Given(j) if 0 < j && j <= p.columns() => arc_entry(p, j, row),
        Col::Artificial(i) if i == row => {
            Frac::from_whole(if state.negative(row) { -1 } else { 1 })
        }
        _ => Frac::zero(),
    }
}

// What the target has in a row.
fn due_at(p: &Problem, state: &State, target: Target, row: u32) -> Frac
    requires state { IsStateOf p.now state.now }
    requires row { (0 < row) × (row ≤ rows_of p.now state.now.standing) }
{
    match target {
        Target::Unit(i) if i == row => Frac::from_whole(1),
        Target::Unit(_) => Frac::zero(),
        Target::Column(col) => entry_at(p, state, col, row),
    }
}

// What the weighted basic columns give in a row.
fn combined_at<L: Ledger>(
    p: &Problem,
    state: &State,
    basics: &[Col],
    weights: &[Frac],
    row: u32,
    steps: &mut Steps<L>,
) -> Result<Frac, Fail>
    requires state { IsStateOf p.now state.now }
    requires row { (0 < row) × (row ≤ rows_of p.now state.now.standing) }
{
    let mut total = Frac::zero();
    for (slot, col) in basics.iter().enumerate() {
        let Some(weight) = weights.get(slot) else {
            return Err(Fail::new("no weight"));
        };
        total = add_product(total, entry_at(p, state, *col, row), *weight, steps)?;
    }
    Ok(total)
}

// Fails unless the weighted basic columns give the target, row by row.
fn check_weights<L: Ledger>(
    p: &Problem,
    state: &State,
    basics: &[Col],
    weights: &[Frac],
    target: Target,
    steps: &mut Steps<L>,
) -> Result<(), Fail>
    requires state { IsStateOf p.now state.now }
{
    let rows = rows_in(p, state);
    for row in 0..rows {
        let total = combined_at(p, state, basics, weights, row + 1, steps)?;
        if total != due_at(p, state, target, row + 1) {
            return Err(Fail::new("the weights do not give the column"));
        }
    }
    Ok(())
}

// Writes the weights that the basis has for a target. A column that the stage lacks has none.
fn write_weights<B: Basis, L: Ledger>(
    p: &Problem,
    basis: &mut B,
    target: Target,
    out: &mut [Frac],
    steps: &mut Steps<L>,
) -> Result<bool, Fail>
    requires numbers { B.HasNumbers p.now basis.old }
    requires places { length out.old ≡ rows_of p.now (B.standing basis.old) }
    ensures numbers { IfOk result (λ _. B.HasNumbers p.now basis.new) }
    ensures standing { IfOk result (λ _. B.standing basis.new ≡ B.standing basis.old) }
{
    match target {
        Target::Unit(row) => {
            if row == 0 || rows_in(p, basis.state()) < row {
                return Err(Fail::new("no such row"));
            }
            basis.inverse_column(p, row, out, steps)?;
            Ok(true)
        }
        Target::Column(col) => {
            if !is_present(p, basis.state(), col) {
                return Ok(false);
            }
            basis.column(p, col, out, steps)?;
            Ok(true)
        }
    }
}

// Fails unless the weights that the basis has for a target give it.
fn check_target<B: Basis, L: Ledger>(
    p: &Problem,
    basis: &mut B,
    basics: &[Col],
    target: Target,
    out: &mut [Frac],
    steps: &mut Steps<L>,
) -> Result<(), Fail>
    requires numbers { B.HasNumbers p.now basis.old }
    requires places { length out.old ≡ rows_of p.now (B.standing basis.old) }
    ensures numbers { IfOk result (λ _. B.HasNumbers p.now basis.new) }
    ensures standing { IfOk result (λ _. B.standing basis.new ≡ B.standing basis.old) }
{
    if write_weights(p, basis, target, out, steps)? {
        check_weights(p, basis.state(), basics, out, target, steps)?;
    }
    Ok(())
}

// Fails unless those for all targets do.
fn check_targets<B: Basis, L: Ledger>(
    p: &Problem,
    basis: &mut B,
    basics: &[Col],
    targets: &[Target],
    out: &mut [Frac],
    steps: &mut Steps<L>,
) -> Result<(), Fail>
    requires numbers { B.HasNumbers p.now basis.old }
    requires places { length out.old ≡ rows_of p.now (B.standing basis.old) }
    ensures numbers { IfOk result (λ _. B.HasNumbers p.now basis.new) }
    ensures standing { IfOk result (λ _. B.standing basis.new ≡ B.standing basis.old) }
{
    for target in targets {
        check_target(p, basis, basics, *target, out, steps)?;
    }
    Ok(())
}

// What a column costs in a phase.
fn cost(p: &Problem, col: Col, phase: Phase) -> Frac {
    match (col, phase) {
        (Col::Given(j), Phase::Two) if 0 < j && j <= p.columns() => p.cost(j),
        (Col::Artificial(_), Phase::One) => Frac::from_whole(1),
        _ => Frac::zero(),
    }
}

// What the duals give at a column.
fn dual_sum<L: Ledger>(
    p: &Problem,
    state: &State,
    col: Col,
    duals: &[Frac],
    steps: &mut Steps<L>,
) -> Result<Frac, Fail>
    requires state { IsStateOf p.now state.now }
    requires places { length duals.now ≡ rows_of p.now state.now.standing }
{
    let mut total = Frac::zero();
    let rows = rows_in(p, state);
    for row in 0..rows {
        total = add_product(
            total,
            duals[row as usize],
            entry_at(p, state, col, row + 1),
            steps,
        )?;
    }
    Ok(total)
}

// Fails unless the duals of a phase give the costs of the basic columns.
fn check_duals<B: Basis, L: Ledger>(
    p: &Problem,
    basis: &mut B,
    basics: &[Col],
    phase: Phase,
    out: &mut [Frac],
    steps: &mut Steps<L>,
) -> Result<(), Fail>
    requires numbers { B.HasNumbers p.now basis.old }
    requires places { length out.old ≡ rows_of p.now (B.standing basis.old) }
    ensures numbers { IfOk result (λ _. B.HasNumbers p.now basis.new) }
    ensures standing { IfOk result (λ _. B.standing basis.new ≡ B.standing basis.old) }
{
    basis.duals(p, phase, out, steps)?;
    let state = basis.state();
    for col in basics {
        let total = dual_sum(p, state, *col, out, steps)?;
        if total != cost(p, *col, phase) {
            return Err(Fail::new("the duals do not give the cost"));
        }
    }
    Ok(())
}

// The bounds of a column: a given one has its own, and a slack or an artificial 0 alone.
fn bounds(p: &Problem, col: Col) -> (Option<Frac>, Option<Frac>) {
    match col {
        Col::Given(j) if 0 < j && j <= p.columns() => (p.lower(j), p.upper(j)),
        _ => (Some(Frac::zero()), None),
    }
}

fn is_at(bound: Option<Frac>, value: Frac) -> bool {
    match bound {
        Some(bound) => value == bound,
        None => false,
    }
}

fn is_within(value: Frac, lower: Option<Frac>, upper: Option<Frac>) -> bool {
    let above = match lower {
        Some(lower) => value.cmp(lower) != Ordering::Less,
        None => true,
    };
    let below = match upper {
        Some(upper) => value.cmp(upper) != Ordering::Greater,
        None => true,
    };
    above && below
}

// Whether a value is one that a column may have in this place.
fn is_in_place(value: Frac, place: Place, lower: Option<Frac>, upper: Option<Frac>) -> bool {
    match place {
        Place::Lower => is_at(lower, value),
        Place::Upper => is_at(upper, value),
        Place::Zero => lower.is_none() && upper.is_none() && value == Frac::zero(),
        Place::Basic => is_within(value, lower, upper),
        Place::Absent => false,
    }
}

// Fails unless the columns that are not basic stand at their bounds, and the others within them.
fn check_bounds<B: Basis>(p: &Problem, basis: &B, columns: &[Col]) -> Result<(), Fail>
    requires numbers { B.HasNumbers p.now basis.now }
{
    for col in columns {
        if is_present(p, basis.state(), *col) {
            let (lower, upper) = bounds(p, *col);
            let place = basis.state().place(*col);
            if !is_in_place(basis.value(p, *col), place, lower, upper) {
                return Err(Fail::new("a value is not at its bound"));
            }
        }
    }
    Ok(())
}

// What the values sum to in a row.
fn value_sum<B: Basis, L: Ledger>(
    p: &Problem,
    basis: &B,
    columns: &[Col],
    row: u32,
    steps: &mut Steps<L>,
) -> Result<Frac, Fail>
    requires numbers { B.HasNumbers p.now basis.now }
    requires row { (0 < row) × (row ≤ rows_of p.now (B.standing basis.now)) }
{
    let mut total = Frac::zero();
    for col in columns {
        if is_present(p, basis.state(), *col) {
            let entry = entry_at(p, basis.state(), *col, row);
            total = add_product(total, entry, basis.value(p, *col), steps)?;
        }
    }
    Ok(total)
}

// Fails unless the values meet the right sides.
fn check_rows<B: Basis, L: Ledger>(
    p: &Problem,
    basis: &B,
    columns: &[Col],
    steps: &mut Steps<L>,
) -> Result<(), Fail>
    requires numbers { B.HasNumbers p.now basis.now }
{
    let rows = rows_in(p, basis.state()).min(p.rows());
    for row in 0..rows {
        let total = value_sum(p, basis, columns, row + 1, steps)?;
        if total != p.right(row + 1) {
            return Err(Fail::new("the values do not meet a row"));
        }
    }
    Ok(())
}

// The basic columns by slot.
fn basic_columns<B: Basis>(
    alloc: Global,
    p: &Problem,
    basis: &B,
    rows: u32,
) -> Result<Vec<Col>, Fail>
    requires numbers { B.HasNumbers p.now basis.now }
    requires rows { rows ≡ rows_of p.now (B.standing basis.now) }
{
    let mut basics = Vec::new(alloc);
    for slot in 0..rows {
        basics.push(basis.basic_at(slot))?;
    }
    Ok(basics)
}

// The names of all columns but slacks.
fn all_columns(alloc: Global, p: &Problem) -> Result<Vec<Col>, Fail> {
    let mut columns = Vec::new(alloc);
    let given = p.columns();
    for k in 0..given + p.rows() {
        columns.push(if k < given {
            Col::Given(k + 1)
        } else {
            Col::Artificial(k - given + 1)
        })?;
    }
    Ok(columns)
}

// The unit columns of the stage's rows, and all columns but slacks.
fn all_targets(alloc: Global, columns: &[Col], rows: u32) -> Result<Vec<Target>, Fail> {
    let mut targets = Vec::new(alloc);
    for col in columns {
        match *col {
            Col::Artificial(i) if i <= rows => targets.push(Target::Unit(i))?,
            _ => {}
        }
        targets.push(Target::Column(*col))?;
    }
    Ok(targets)
}

// Fails unless the inverse columns, the entries of these columns and the duals of both phases are right.
fn check_inverse<B: Basis, L: Ledger>(
    alloc: Global,
    p: &Problem,
    basis: &mut B,
    columns: &[Col],
    steps: &mut Steps<L>,
) -> Result<(), Fail>
    requires numbers { B.HasNumbers p.now basis.old }
    ensures numbers { IfOk result (λ _. B.HasNumbers p.now basis.new) }
    ensures standing { IfOk result (λ _. B.standing basis.new ≡ B.standing basis.old) }
{
    let rows = rows_in(p, basis.state());
    let basics = basic_columns(alloc, p, basis, rows)?;
    let targets = all_targets(alloc, columns, rows)?;
    let mut room = vec![in alloc; Frac::zero(); rows as usize]?;
    let (basics, out) = (basics.as_slice(), room.as_mut_slice());
    check_targets(p, basis, basics, targets.as_slice(), out, steps)?;
    check_duals(p, basis, basics, Phase::One, out, steps)?;
    check_duals(p, basis, basics, Phase::Two, out, steps)
}

/// Fails unless all numbers of a basis are right: the inverse columns, the entries of each column, the duals of both
/// phases, and the values.
pub(crate) fn check_numbers<B: Basis, L: Ledger>(
    alloc: Global,
    p: &Problem,
    basis: &mut B,
    steps: &mut Steps<L>,
) -> Result<(), Fail>
    requires numbers { B.HasNumbers p.now basis.old }
    ensures numbers { IfOk result (λ _. B.HasNumbers p.now basis.new) }
    ensures standing { IfOk result (λ _. B.standing basis.new ≡ B.standing basis.old) }
{
    let columns = all_columns(alloc, p)?;
    check_bounds(p, basis, columns.as_slice())?;
    check_rows(p, basis, columns.as_slice(), steps)?;
    check_inverse(alloc, p, basis, columns.as_slice(), steps)
}
