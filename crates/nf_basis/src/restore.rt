//! The dense basis of a state: from the artificials, the wanted columns enter one by one.
ghost use Rattle.std.specs.Prelude.{◌≡◌, ◌≢◌, ℕ, suc, ◌+◌, ◌-◌, ◌<◌, ◌≤◌, ◌^◌, false, length, Some, None, IfOk, IfErr, IfSome};
ghost use Rattle.nf_num.specs.Rational.{zero_ℚ};
ghost use Rattle.nf_model.specs.Program.{at};
ghost use Rattle.nf_prob.specs.Numbers.{IsNumber};
ghost use Rattle.nf_inverse.specs.Exchanged.{IsExchanged};
ghost use Rattle.nf_simplex.specs.Layout.{layout_of};
ghost use Rattle.nf_simplex.specs.Columns.{all_columns, col_at};
ghost use Rattle.nf_simplex.specs.Place as model;
ghost use Rattle.nf_simplex.specs.Place.{count_basic};
ghost use Rattle.nf_simplex.specs.Standing.{IsBasisOf, is_negative, place_at, rows_of};
ghost use Rattle.nf_basis.specs.Names.{col_of, named};
ghost use Rattle.nf_basis.specs.Kept.{IsPresent, IsStateOf, number};
ghost use Rattle.nf_basis.specs.Dense.{HasParts, bound_at};
ghost use Rattle.nf_basis.specs.Loading.{AreArtificials, HasTaken, ListsBelow, is_taken};
ghost use Rattle.nf_basis.specs.Products.{AreProducts};
ghost use Rattle.nf_basis.specs.Restoring.{IsFaultOf};

use crate::at_bounds::rests_at_bounds;
use crate::basis::RestoreFault;
use crate::col::{Col, Place};
use crate::columns::{or_zero, weights_of};
use crate::slots::slot_of;
use crate::state::State;
use crate::weights::Weights;
use nf_frac::{Frac, Passed, Steps};
use nf_inverse::Inverse;
use nf_prob::Problem;
use nf_sums::is_zero;
use std::alloc::{AllocError, Global};
use std::sync::ledger::Ledger;

impl From<AllocError> for RestoreFault {
    ghost use Rattle.std.specs.Prelude.{◌≡◌};
    ghost use Rattle.nf_basis.specs.declared.basis.RestoreFault.TheVariants as fault;

    ghost from_gives = { λ _ e. e ≡ fault.NoMemory };

    fn from(_: AllocError) -> RestoreFault {
        RestoreFault::NoMemory
    }
}

impl From<Passed> for RestoreFault {
    ghost use Rattle.std.specs.Prelude.{◌≡◌};
    ghost use Rattle.nf_basis.specs.declared.basis.RestoreFault.TheVariants as fault;

    ghost from_gives = { λ passed e. e ≡ fault.Passed passed };

    fn from(passed: Passed) -> RestoreFault {
        RestoreFault::Passed(passed)
    }
}

/// A basis on the way from the artificials to a state's basic columns.
#[derive(Drop)]
pub(crate) struct Load {
    pub(crate) slots: Vec<Col>,
    // Whether a slot has a wanted column.
    pub(crate) taken: Vec<bool>,
    pub(crate) inverse: Inverse,
    pub(crate) work: Vec<Frac>,
}

// The column with a number, from 0.
fn column_at(p: &Problem, at: usize) -> Col
    requires within { at < all_columns (layout_of p.now) }
    ensures column { col_of result ≡ col_at (layout_of p.now) at }
    ensures named { 0 < named result }
    ensures number { number p.now result ≡ at }
{
    let (columns, sides) = (p.columns() as usize, (p.rows() - p.nodes()) as usize);
    if at < columns {
        return Col::Given(at as u32 + 1);
    }
    if at < columns + sides {
        return Col::Slack(p.nodes() + (at - columns) as u32 + 1);
    }
    Col::Artificial((at - columns - sides) as u32 + 1)
}

/// How many rows the stage of a state has.
pub(crate) fn stage_rows(p: &Problem, state: &State) -> u32
    ensures rows { result ≡ rows_of p.now state.now.standing }
    ensures few { result ≤ 2 ^ 30 }
{
    let rows = p.rows();
    if state.stage() == 2 {
        return rows;
    }
    p.nodes()
}

/// The column with a number, where it is basic.
pub(crate) fn wanted(p: &Problem, state: &State, at: usize) -> Option<Col>
    requires state { IsStateOf p.now state.now }
    requires within { at < all_columns (layout_of p.now) }
    ensures basic { IfSome result (λ c. (number p.now c ≡ at) × IsPresent p.now state.now.standing c × (place_at state.now.standing at ≡ model.Basic)) }
    ensures none { result ≡ None → place_at state.now.standing at ≢ model.Basic }
{
    let col = column_at(p, at);
    match state.place(col) {
        Place::Basic => Some(col),
        _ => None,
    }
}

fn artificials(alloc: Global, rows: u32) -> Result<Vec<Col>, AllocError>
    ensures { IfOk result (λ slots. AreArtificials rows slots.items) }
{
    let mut slots = Vec::new(alloc);
    for row in 0..rows {
        slots.push(Col::Artificial(row + 1))?;
    }
    Ok(slots)
}

// The own slot of an artificial that still stands there.
fn own_slot(col: Col, taken: &[bool]) -> Option<usize>
    requires named { 0 < named col }
    ensures own { IfSome result (λ k. (k < length taken.now) × (is_taken taken.now k ≡ false) × (col ≡ Col.Artificial (suc k))) }
    ensures none { result ≡ None → (k : ℕ) → k < length taken.now → is_taken taken.now k ≡ false → col ≡ Col.Artificial (suc k) → ⊥ }
{
    let Col::Artificial(i) = col else {
        return None;
    };
    let own = i as usize - 1;
    if own < taken.len() && !taken[own] {
        return Some(own);
    }
    None
}

// A slot that is not taken and has an entry other than 0.
fn free_slot(entries: &[Frac], taken: &[bool]) -> Option<usize>
    requires places { length taken.now ≡ length entries.now }
    ensures free { IfSome result (λ k. (k < length taken.now) × (is_taken taken.now k ≡ false) × (at entries.now k ≢ zero_ℚ)) }
    ensures none { result ≡ None → (k : ℕ) → k < length taken.now → is_taken taken.now k ≡ false → at entries.now k ≡ zero_ℚ }
{
    for (slot, entry) in entries.iter().enumerate() {
        if !taken[slot] && !is_zero(*entry) {
            return Some(slot);
        }
    }
    None
}

impl Load {
    // The artificials of the state's stage with its signs, none of them taken.
    fn new(alloc: Global, p: &Problem, state: &State) -> Result<Load, AllocError>
        requires state { IsStateOf p.now state.now }
        ensures { IfOk result (HasTaken p.now state.now.standing 0) }
    {
        let rows = stage_rows(p, state);
        let size = rows as usize;
        let negative = |k: usize| -> bool
            requires within { k < length state.now.standing.negative }
            requires few { length state.now.standing.negative ≤ 2 ^ 30 }
            ensures { result ≡ is_negative state.entry.now.standing k }
        { state.negative(k as u32 + 1) };
        Ok(Load {
            slots: artificials(alloc, rows)?,
            taken: vec![in alloc; false; size]?,
            inverse: Inverse::signs(alloc, size, negative)?,
            work: vec![in alloc; Frac::zero(); size]?,
        })
    }

    // The basic columns below a number, each with the entry in its slot.
    fn weights_below(
        &self,
        alloc: Global,
        p: &Problem,
        state: &State,
        end: usize,
    ) -> Result<Weights, AllocError>
        requires state { IsStateOf p.now state.now }
        requires taken { HasTaken p.now state.now.standing end self.now }
        requires within { end ≤ all_columns (layout_of p.now) }
        ensures { IfOk result (ListsBelow p.now state.now.standing end self.now.slots.items self.now.work.items) }
    {
        let mut weights = Weights::new(alloc);
        for at in 0..end {
            let Some(col) = wanted(p, state, at) else {
                continue;
            };
            if let Some(slot) = slot_of(self.slots.as_slice(), col) {
                weights.push(col, self.work[slot])?;
            }
        }
        Ok(weights)
    }

    // Brings a wanted column in by an exchange.
    fn enter<L: Ledger>(
        &mut self,
        alloc: Global,
        p: &Problem,
        state: &State,
        at: usize,
        col: Col,
        steps: &mut Steps<L>,
    ) -> Result<(), RestoreFault>
        requires state { IsStateOf p.now state.now }
        requires taken { HasTaken p.now state.now.standing at self.old }
        requires number { number p.now col ≡ at }
        requires present { IsPresent p.now state.now.standing col }
        requires basic { place_at state.now.standing at ≡ model.Basic }
        requires outside { (k : ℕ) → k < length self.old.taken.items → is_taken self.old.taken.items k ≡ false → col ≡ Col.Artificial (suc k) → ⊥ }
        ensures taken { IfOk result (λ _. HasTaken p.now state.now.standing (at + 1) self.new) }
        ensures fault { IfErr result (IsFaultOf p.now state.now.standing) }
    {
        weights_of(
            &self.inverse,
            p,
            state,
            col,
            self.work.as_mut_slice(),
            steps,
        )?;
        let Some(slot) = free_slot(self.work.as_slice(), self.taken.as_slice()) else {
            let weights = self.weights_below(alloc, p, state, at)?;
            return Err(RestoreFault::Dependent {
                column: col,
                weights,
            });
        };
        self.inverse.exchange(self.work.as_slice(), slot, steps)?;
        self.slots[slot] = col;
        self.taken[slot] = true;
        Ok(())
    }

    // Takes the wanted column with a number: in its own slot, where it is an artificial that stands there, or by an
    // exchange.
    fn take<L: Ledger>(
        &mut self,
        alloc: Global,
        p: &Problem,
        state: &State,
        at: usize,
        col: Col,
        steps: &mut Steps<L>,
    ) -> Result<(), RestoreFault>
        requires state { IsStateOf p.now state.now }
        requires taken { HasTaken p.now state.now.standing at self.old }
        requires number { number p.now col ≡ at }
        requires present { IsPresent p.now state.now.standing col }
        requires basic { place_at state.now.standing at ≡ model.Basic }
        ensures taken { IfOk result (λ _. HasTaken p.now state.now.standing (at + 1) self.new) }
        ensures fault { IfErr result (IsFaultOf p.now state.now.standing) }
    {
        if let Some(own) = own_slot(col, self.taken.as_slice()) {
            self.taken[own] = true;
            return Ok(());
        }
        self.enter(alloc, p, state, at, col, steps)
    }

    // Takes all wanted columns, by number.
    fn take_all<L: Ledger>(
        &mut self,
        alloc: Global,
        p: &Problem,
        state: &State,
        steps: &mut Steps<L>,
    ) -> Result<(), RestoreFault>
        requires state { IsStateOf p.now state.now }
        requires taken { HasTaken p.now state.now.standing 0 self.old }
        ensures taken { IfOk result (λ _. HasTaken p.now state.now.standing (all_columns (layout_of p.now)) self.new) }
        ensures fault { IfErr result (IsFaultOf p.now state.now.standing) }
    {
        let (rows, sides) = (p.rows() as usize, (p.rows() - p.nodes()) as usize);
        for at in 0..p.columns() as usize + sides + rows {
            if let Some(col) = wanted(p, state, at) {
                self.take(alloc, p, state, at, col, steps)?;
            }
        }
        Ok(())
    }

    // The values of the basic columns by slot, once all are taken.
    fn values<L: Ledger>(
        &self,
        alloc: Global,
        p: &Problem,
        state: &State,
        steps: &mut Steps<L>,
    ) -> Result<Vec<Frac>, RestoreFault>
        requires state { IsStateOf p.now state.now }
        requires taken { HasTaken p.now state.now.standing (all_columns (layout_of p.now)) self.now }
        requires as_many { count_basic (all_columns (layout_of p.now)) (place_at state.now.standing) ≡ rows_of p.now state.now.standing }
        ensures parts { IfOk result (λ v. HasParts p.now state.now.standing self.now.slots.items self.now.inverse v.items) }
        ensures fault { IfErr result (IsFaultOf p.now state.now.standing) }
    {
        let mut rests = vec![in alloc; Frac::zero(); self.inverse.size()]?;
        rests_at_bounds(p, state, &mut rests, steps)?;
        let known = rests.as_slice();
        let mut values = vec![in alloc; Frac::zero(); self.inverse.size()]?;
        let entry = |row: usize| -> (usize, Frac)
            requires { row < length known.now }
            ensures { (result.0 ≡ row) × (result.1 ≡ at known.entry.now row) }
        { (row, known[row]) };
        self.inverse
            .column(self.inverse.size(), entry, values.as_mut_slice(), steps)?;
        Ok(values)
    }
}

/// The number at which a given column stands, and 0 where it is basic or absent.
pub(crate) fn number_at(p: &Problem, state: &State, j: u32) -> Frac
    requires state { IsStateOf p.now state.now }
    requires column { IsNumber j (length p.now.columns) }
    ensures { result ≡ bound_at p.now state.now.standing (j - 1) }
{
    match state.place(Col::Given(j)) {
        Place::Lower => or_zero(p.lower(j)),
        Place::Upper => or_zero(p.upper(j)),
        Place::Zero | Place::Basic | Place::Absent => Frac::zero(),
    }
}

/// The slots, the inverse and the values of the basis of a state with as many basic columns as rows, with room for a
/// column.
///
/// `Dependent` exactly where the basic columns are dependent; `Passed` only at an operation of one of the bases that are
/// made of wanted basic columns and artificials.
pub(crate) fn load_basis<L: Ledger>(
    alloc: Global,
    p: &Problem,
    state: &State,
    steps: &mut Steps<L>,
) -> Result<(Load, Vec<Frac>), RestoreFault>
    requires state { IsStateOf p.now state.now }
    requires as_many { count_basic (all_columns (layout_of p.now)) (place_at state.now.standing) ≡ rows_of p.now state.now.standing }
    ensures parts { IfOk result (λ r. HasParts p.now state.now.standing r.0.slots.items r.0.inverse r.1.items) }
    ensures room { IfOk result (λ r. length r.0.work.items ≡ rows_of p.now state.now.standing) }
    ensures fault { IfErr result (IsFaultOf p.now state.now.standing) }
{
    let mut load = Load::new(alloc, p, state)?;
    load.take_all(alloc, p, state, steps)?;
    let values = load.values(alloc, p, state, steps)?;
    Ok((load, values))
}

/// Why a state that is no basis gives none: what its load by exchanges returns.
pub fn refusal<L: Ledger>(
    alloc: Global,
    p: &Problem,
    state: &State,
    steps: &mut Steps<L>,
) -> RestoreFault
    requires state { IsStateOf p.now state.now }
    requires as_many { count_basic (all_columns (layout_of p.now)) (place_at state.now.standing) ≡ rows_of p.now state.now.standing }
    requires none { IsBasisOf p.now state.now.standing → ⊥ }
    ensures fault { IsFaultOf p.now state.now.standing result }
{
    match load_basis(alloc, p, state, steps) {
        Ok(_) => unreachable!(),
        Err(fault) => fault,
    }
}
