// The ray of a state that has ended unbounded: what the columns do while the picked one moves.
ghost use Rattle.std.specs.Prelude.{◌≡◌, ◌≢◌, ◌<◌, ◌≤◌, ℕ, length, IfOk};
ghost use Rattle.nf_num.specs.Rational.{neg_ℚ, zero_ℚ};
ghost use Rattle.nf_model.specs.Program.{at};
ghost use Rattle.nf_simplex.specs.Standing.{Standing, rows_of};
ghost use Rattle.nf_simplex.specs.Step.{signed};
ghost use Rattle.nf_simplex.specs.Verdicts.{AreMoves};
ghost use Rattle.nf_basis.specs.Kept.{IsNonbasic, IsPresent, IsStateOf, number};
ghost use Rattle.nf_basis.specs.Names.{col_of};
ghost use Rattle.nf_basis.specs.Numbers.{AreEntriesBySlot, in_slot};
ghost use Rattle.nf_certify.specs.Moving.{ArePut, IsPutAt};

use crate::lists::list;
use nf_basis::{Basis, Col, State};
use nf_frac::Frac;
use nf_prob::{Fracs, Problem};
use std::alloc::{AllocError, Global};

/// How many rows the stage of a state has.
pub(crate) fn stage_rows(p: &Problem, state: &State) -> u32
    ensures rows { result ≡ rows_of p.now state.now.standing }
{
    if state.stage() == 1 {
        p.nodes()
    } else {
        p.rows()
    }
}

// A number as the picked column's move counts it: negated where that moves down.
fn turned(down: bool, f: Frac) -> Frac
    ensures { result ≡ signed down f }
{
    if down { f.neg() } else { f }
}

// Puts what a column does in its place, where it is a given column.
fn put(p: &Problem, col: Col, moved: Frac, moves: &mut [Frac])
    requires present { (s : Standing) × IsPresent p.now s col }
    requires places { length moves.old ≡ length p.now.columns }
    ensures put { IsPutAt (number p.now col) moved moves.old moves.new }
{
    let _columns = p.columns();
    if let Col::Given(j) = col {
        moves[j as usize - 1] = moved;
    }
}

// Puts what the basic columns do while the picked one moves by 1: minus their entries in it, as its move counts them.
fn put_basics<B: Basis>(p: &Problem, basis: &B, down: bool, entries: &[Frac], moves: &mut [Frac])
    requires numbers { B.HasNumbers p.now basis.now }
    requires entries { length entries.now ≡ rows_of p.now (B.standing basis.now) }
    requires places { length moves.old ≡ length p.now.columns }
    ensures put { ArePut p.now (B.slots basis.now) down entries.now moves.old (rows_of p.now (B.standing basis.now)) moves.new }
{
    for slot in 0..stage_rows(p, basis.state()) {
        let moved = turned(down, entries[slot as usize].neg());
        put(p, basis.basic_at(slot), moved, moves);
    }
}

// Puts what each given column does while a nonbasic column moves by 1 in this direction.
fn put_all<B: Basis>(
    p: &Problem,
    basis: &B,
    column: Col,
    down: bool,
    entries: &[Frac],
    moves: &mut [Frac],
)
    requires numbers { B.HasNumbers p.now basis.now }
    requires nonbasic { IsNonbasic p.now (B.standing basis.now) column }
    requires places { length entries.now ≡ rows_of p.now (B.standing basis.now) }
    requires entries { AreEntriesBySlot p.now (B.standing basis.now) (B.slots basis.now) column entries.now }
    requires columns { length moves.old ≡ length p.now.columns }
    requires zeros { (j : ℕ) → at moves.old j ≡ zero_ℚ }
    ensures moves { AreMoves p.now (B.standing basis.now) (col_of column) down moves.new }
{
    let whole = turned(down, Frac::from_whole(1));
    put(p, column, whole, moves);
    put_basics(p, basis, down, entries, moves);
}

// A list of zeros.
fn zeros(alloc: Global, count: usize) -> Result<Vec<Frac>, AllocError>
    ensures long { IfOk result (λ v. length v.items ≡ count) }
    ensures zeros { IfOk result (λ v. (j : ℕ) → at v.items j ≡ zero_ℚ) }
{
    let zeros = vec![in alloc; Frac::zero(); count]?;
    Ok(zeros)
}

/// What the given columns do while a nonbasic column moves by 1 in this direction: it moves itself, the basic columns by
/// minus their entries in it, and the others stand.
pub(crate) fn moves<B: Basis>(
    alloc: Global,
    p: &Problem,
    basis: &B,
    column: Col,
    down: bool,
    entries: &[Frac],
) -> Result<Fracs, AllocError>
    requires numbers { B.HasNumbers p.now basis.now }
    requires nonbasic { IsNonbasic p.now (B.standing basis.now) column }
    requires places { length entries.now ≡ rows_of p.now (B.standing basis.now) }
    requires entries { AreEntriesBySlot p.now (B.standing basis.now) (B.slots basis.now) column entries.now }
    ensures { IfOk result (AreMoves p.now (B.standing basis.now) (col_of column) down) }
{
    let mut moves = zeros(alloc, p.columns() as usize)?;
    put_all(p, basis, column, down, entries, moves.as_mut_slice());
    let ray = list(alloc, moves.as_slice())?;
    Ok(ray)
}
