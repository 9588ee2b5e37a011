//! The dense basis of the start of stage two.
ghost use Rattle.std.specs.Prelude.{◌≡◌, ◌≢◌, ℕ, ◌+◌, ◌-◌, ◌<◌, ◌≤◌, ◌^◌, IfOk, IfErr, length};
ghost use Rattle.nf_num.specs.Rational.{ℚ, zero_ℚ};
ghost use Rattle.nf_model.specs.Program.{at, row_sum};
ghost use Rattle.nf_inverse.specs.Weights.{weight};
ghost use Rattle.nf_prob.specs.Arising.{RowTerms};
ghost use Rattle.nf_prob.specs.Numbers.{IsNumber};
ghost use Rattle.nf_prob.specs.Stored.{row_entry};
ghost use Rattle.nf_sums.specs.Terms.{PassesIn, with_sign};
ghost use Rattle.nf_simplex.specs.Layout.{layout_of};
ghost use Rattle.nf_simplex.specs.Moves.{IsSecondState};
ghost use Rattle.nf_simplex.specs.StageOf.{StageOne, StageTwo};
ghost use Rattle.nf_simplex.specs.Starts.{second_rest};
ghost use Rattle.nf_simplex.specs.Standing.{Standing, IsInverseColumnOf, rows_of};
ghost use Rattle.nf_basis.specs.Arising.{StateTerms};
ghost use Rattle.nf_basis.specs.Dense.{HoldsNumbers};
ghost use Rattle.nf_basis.specs.Kept.{IsPresent, IsStateOf};
ghost use Rattle.nf_basis.specs.Numbers.{IsInverseColumnBySlot, ListBasics, in_slot, slot_number};
ghost use Rattle.nf_stage_two.specs.Starting.{IsSecondFaultOf};
ghost use Rattle.nf_stage_two.specs.Wide as wide;
ghost use Rattle.nf_stage_two.specs.Wide.{AreSpread, AreWideSlots, AreWideValues, HasWideWeight, IsOwnColumn, IsWideBelow, is_own_turned};

use crate::start::side_rest;
use nf_basis::{Basis, Col, DenseBasis, Place, StartFault, State};
use nf_frac::{Frac, Passed, Steps};
use nf_inverse::Inverse;
use nf_prob::{Problem, RowKind};
use nf_sums::sum_products;
use std::alloc::{AllocError, Global};
use std::sync::ledger::Ledger;

/// The dense basis of `state`, the start of stage two after the state of `first`, a basis of stage one, for at most
/// 1,000 rows. Its inverse is block triangular: the inverse of `first`, and for each side row the negated products of the
/// row with it. `first` is as it was.
///
/// `Passed` only where an operation of such a product, or of a side row's rest, passes 128 bits. `first` is then not used
/// again.
pub fn widen<B: Basis, L: Ledger>(
    alloc: Global,
    p: &Problem,
    first: &mut B,
    state: State,
    steps: &mut Steps<L>,
) -> Result<DenseBasis, StartFault>
    requires numbers { B.HasNumbers p.now first.old }
    requires one { (B.standing first.old).stage ≡ StageOne }
    requires state { IsStateOf p.now state }
    requires second { IsSecondState p.now (B.standing first.old) (B.values p.now first.old) state.standing }
    requires few { length p.now.rows ≤ 1000 }
    ensures numbers { IfOk result (HoldsNumbers p.now) }
    ensures standing { IfOk result (λ b. b.state.standing ≡ state.standing) }
    ensures first { IfOk result (λ _. B.HasNumbers p.now first.new) }
    ensures first_standing { IfOk result (λ _. B.standing first.new ≡ B.standing first.old) }
    ensures first_slots { IfOk result (λ _. B.slots first.new ≡ B.slots first.old) }
    ensures first_values { IfOk result (λ _. B.values p.now first.new ≡ B.values p.now first.old) }
    ensures fault { IfErr result (IsSecondFaultOf p.now (B.standing first.old)) }
{
    let slots = wide_slots(alloc, p, first, &state)?;
    let values = wide_values(alloc, p, first, &state, slots.as_slice(), steps)?;
    let inverse = wide_inverse(alloc, p, first, &state, slots.as_slice(), steps)?;
    let basis = DenseBasis::of_parts(alloc, state, slots, inverse, values)?;
    Ok(basis)
}

// ---- slots
// The basic column of side row q, which counts from 0.
fn own_column(p: &Problem, state: &State, q: u32) -> Col
    requires side { p.now.nodes + q < length p.now.rows }
    requires few { length p.now.rows ≤ 2 ^ 30 }
    requires state { IsStateOf p.now state.now }
    requires stage { state.now.standing.stage ≡ StageTwo }
    ensures { IsOwnColumn p.now state.now.standing q result }
{
    let i = p.nodes() + q + 1;
    if state.place(Col::Slack(i)) == Place::Basic {
        return Col::Slack(i);
    }
    Col::Artificial(i)
}

// The columns of the first basis, and for each side row its own basic column.
fn wide_slots<B: Basis>(
    alloc: Global,
    p: &Problem,
    first: &B,
    state: &State,
) -> Result<Vec<Col>, AllocError>
    requires numbers { B.HasNumbers p.now first.now }
    requires one { (B.standing first.now).stage ≡ StageOne }
    requires state { IsStateOf p.now state.now }
    requires stage { state.now.standing.stage ≡ StageTwo }
    ensures { IfOk result (λ v. AreWideSlots p.now state.now.standing (B.slots first.now) v.items) }
{
    let mut slots = Vec::new(alloc);
    for k in 0..p.rows() {
        slots.push(wide_slot(p, first, state, k))?;
    }
    Ok(slots)
}

// The column in a slot.
fn wide_slot<B: Basis>(p: &Problem, first: &B, state: &State, k: u32) -> Col
    requires numbers { B.HasNumbers p.now first.now }
    requires one { (B.standing first.now).stage ≡ StageOne }
    requires state { IsStateOf p.now state.now }
    requires stage { state.now.standing.stage ≡ StageTwo }
    requires within { k < length p.now.rows }
    requires few { length p.now.rows ≤ 2 ^ 30 }
    ensures first_one { k < p.now.nodes → result ≡ in_slot (B.slots first.now) k }
    ensures own_one { (q : ℕ) → k ≡ p.now.nodes + q → IsOwnColumn p.now state.now.standing q result }
{
    if k < p.nodes() {
        return first.basic_at(k);
    }
    own_column(p, state, k - p.nodes())
}

// Whether the entry of a slack or an artificial is -1.
fn is_turned(p: &Problem, state: &State, col: Col) -> bool
    requires state { IsStateOf p.now state.now }
    requires present { IsPresent p.now state.now.standing col }
    ensures { result ≡ wide.is_turned p.now state.now.standing col }
{
    match col {
        Col::Given(_) => false,
        Col::Slack(i) => match p.kind(i) {
            RowKind::Eq | RowKind::Le => false,
            RowKind::Ge => true,
        },
        Col::Artificial(i) => state.negative(i),
    }
}

// A number, or it negated.
fn signed(negative: bool, a: Frac) -> Frac
    ensures { result ≡ with_sign negative a }
{
    if negative { a.neg() } else { a }
}

// ---- values
// The value of the column in a slot.
fn wide_value<B: Basis, L: Ledger>(
    p: &Problem,
    first: &B,
    state: &State,
    slots: &[Col],
    k: u32,
    steps: &mut Steps<L>,
) -> Result<Frac, Passed>
    requires numbers { B.HasNumbers p.now first.now }
    requires one { (B.standing first.now).stage ≡ StageOne }
    requires state { IsStateOf p.now state.now }
    requires listed { ListBasics p.now state.now.standing slots.now }
    requires stage { state.now.standing.stage ≡ StageTwo }
    requires slots { AreWideSlots p.now state.now.standing (B.slots first.now) slots.now }
    requires within { k < length p.now.rows }
    requires few { length p.now.rows ≤ 2 ^ 30 }
    ensures first_one { k < p.now.nodes → IfOk result (λ v. v ≡ B.values p.now first.now (slot_number p.now slots.now k)) }
    ensures own_one { (q : ℕ) → k ≡ p.now.nodes + q → IfOk result (λ v. v ≡ with_sign (is_own_turned p.now state.now.standing slots.now q) (second_rest (layout_of p.now) (B.values p.now first.now) (p.now.nodes + q))) }
    ensures passed { IfErr result (PassesIn (StateTerms p.now (B.standing first.now))) }
{
    let col = slots[k as usize];
    if k < p.nodes() {
        return Ok(first.value(p, col));
    }
    let lacks = side_rest(p, first, k - p.nodes(), steps)?;
    Ok(signed(is_turned(p, state, col), lacks))
}

// The values of the columns by slot.
fn wide_values<B: Basis, L: Ledger>(
    alloc: Global,
    p: &Problem,
    first: &B,
    state: &State,
    slots: &[Col],
    steps: &mut Steps<L>,
) -> Result<Vec<Frac>, StartFault>
    requires numbers { B.HasNumbers p.now first.now }
    requires one { (B.standing first.now).stage ≡ StageOne }
    requires state { IsStateOf p.now state.now }
    requires stage { state.now.standing.stage ≡ StageTwo }
    requires listed { ListBasics p.now state.now.standing slots.now }
    requires slots { AreWideSlots p.now state.now.standing (B.slots first.now) slots.now }
    ensures values { IfOk result (λ v. AreWideValues p.now state.now.standing (B.values p.now first.now) (second_rest (layout_of p.now) (B.values p.now first.now)) slots.now v.items) }
    ensures fault { IfErr result (IsSecondFaultOf p.now (B.standing first.now)) }
{
    let mut values = vec![in alloc; Frac::zero(); p.rows() as usize]?;
    for k in 0..p.rows() {
        values[k as usize] = wide_value(p, first, state, slots, k, steps)?;
    }
    Ok(values)
}

// ---- the inverse
// Puts the weights by slot of the given columns to their numbers. The others have 0.
fn spread_weights(p: &Problem, slots: &[Col], by_slot: &[Frac], spread: &mut [Frac])
    requires slots { length by_slot.now ≤ length slots.now }
    requires distinct { (k i : ℕ) → k < length by_slot.now → i < length by_slot.now → slot_number p.now slots.now k ≡ slot_number p.now slots.now i → k ≡ i }
    requires given { (k j : ℕ) → k < length by_slot.now → in_slot slots.now k ≡ Col.Given j → IsNumber j (length p.now.columns) }
    requires places { length spread.old ≡ length p.now.columns }
    requires others { (j : ℕ) → j < length p.now.columns → ((k : ℕ) → k < length by_slot.now → slot_number p.now slots.now k ≢ j) → at spread.old j ≡ zero_ℚ }
    ensures { AreSpread p.now slots.now (length by_slot.now) by_slot.now spread.new }
{
    for k in 0..by_slot.len() {
        if let Col::Given(j) = slots[k] {
            spread[j as usize - 1] = by_slot[k];
        }
    }
}

// What weights of the given columns come to in row i.
fn sum_of_row<L: Ledger>(
    p: &Problem,
    i: u32,
    weights: &[Frac],
    steps: &mut Steps<L>,
) -> Result<Frac, Passed>
    requires row { IsNumber i (length p.now.rows) }
    requires places { length weights.now ≡ length p.now.columns }
    ensures value { IfOk result (λ s. s ≡ row_sum p.now weights.now (i - 1)) }
    ensures passed { IfErr result (PassesIn (RowTerms p.now weights.now)) }
{
    let entries = p.row_entries(i);
    let factors = |k: usize| -> (Frac, Frac)
        requires place { k < length entries.now }
        requires column { IsNumber (row_entry entries.now k).column (length weights.now) }
        ensures { (result.0 ≡ (row_entry entries.entry.now k).value) × (result.1 ≡ at weights.entry.now ((row_entry entries.entry.now k).column - 1)) }
    { (entries[k].value, weights[entries[k].column as usize - 1]) };
    let sum = sum_products(entries.len(), factors, steps)?;
    Ok(sum)
}

// The weight of a slot at a node row, from those of the first basis by slot and by given column.
fn wide_weight<L: Ledger>(
    p: &Problem,
    state: &State,
    slots: &[Col],
    by_slot: &[Frac],
    spread: &[Frac],
    k: u32,
    steps: &mut Steps<L>,
) -> Result<Frac, Passed>
    requires state { IsStateOf p.now state.now }
    requires stage { state.now.standing.stage ≡ StageTwo }
    requires listed { ListBasics p.now state.now.standing slots.now }
    requires within { k < length p.now.rows }
    requires few { length p.now.rows ≤ 2 ^ 30 }
    requires by_slot { length by_slot.now ≡ p.now.nodes }
    requires places { length spread.now ≡ length p.now.columns }
    ensures weight { (v : ℕ → ℚ) → ((i : ℕ) → i < p.now.nodes → at by_slot.now i ≡ v (slot_number p.now slots.now i)) → ((j : ℕ) → j < length p.now.columns → at spread.now j ≡ v j) → IfOk result (HasWideWeight p.now state.now.standing slots.now v k) }
    ensures passed { IfErr result (PassesIn (RowTerms p.now spread.now)) }
{
    if k < p.nodes() {
        return Ok(by_slot[k as usize]);
    }
    let sum = sum_of_row(p, k + 1, spread, steps)?;
    Ok(signed(!is_turned(p, state, slots[k as usize]), sum))
}

// Puts the weights of all slots at a node row into the inverse.
fn put_column<L: Ledger>(
    p: &Problem,
    state: &State,
    slots: &[Col],
    by_slot: &[Frac],
    spread: &[Frac],
    row: u32,
    inverse: &mut Inverse,
    steps: &mut Steps<L>,
) -> Result<(), Passed>
    requires state { IsStateOf p.now state.now }
    requires stage { state.now.standing.stage ≡ StageTwo }
    requires listed { ListBasics p.now state.now.standing slots.now }
    requires within { row < p.now.nodes }
    requires by_slot { length by_slot.now ≡ p.now.nodes }
    requires places { length spread.now ≡ length p.now.columns }
    requires size { length inverse.old ≡ length p.now.rows }
    ensures size { length inverse.new ≡ length inverse.old }
    ensures weights { (v : ℕ → ℚ) → ((i : ℕ) → i < p.now.nodes → at by_slot.now i ≡ v (slot_number p.now slots.now i)) → ((j : ℕ) → j < length p.now.columns → at spread.now j ≡ v j) → IfOk result (λ _. (k : ℕ) → k < length p.now.rows → HasWideWeight p.now state.now.standing slots.now v k (weight inverse.new k row)) }
    ensures others { (k r : ℕ) → r ≢ row → weight inverse.new k r ≡ weight inverse.old k r }
    ensures passed { IfErr result (PassesIn (RowTerms p.now spread.now)) }
{
    for k in 0..p.rows() {
        let weight = wide_weight(p, state, slots, by_slot, spread, k, steps)?;
        inverse.put(k as usize, row as usize, weight);
    }
    Ok(())
}

// The inverse: the side rows' own columns with their signs, and then one column after another for the node rows.
fn wide_inverse<B: Basis, L: Ledger>(
    alloc: Global,
    p: &Problem,
    first: &mut B,
    state: &State,
    slots: &[Col],
    steps: &mut Steps<L>,
) -> Result<Inverse, StartFault>
    requires numbers { B.HasNumbers p.now first.old }
    requires one { (B.standing first.old).stage ≡ StageOne }
    requires state { IsStateOf p.now state.now }
    requires second { IsSecondState p.now (B.standing first.old) (B.values p.now first.old) state.now.standing }
    requires listed { ListBasics p.now state.now.standing slots.now }
    requires slots { AreWideSlots p.now state.now.standing (B.slots first.old) slots.now }
    ensures first { IfOk result (λ _. B.HasNumbers p.now first.new) }
    ensures first_standing { IfOk result (λ _. B.standing first.new ≡ B.standing first.old) }
    ensures first_slots { IfOk result (λ _. B.slots first.new ≡ B.slots first.old) }
    ensures first_values { IfOk result (λ _. B.values p.now first.new ≡ B.values p.now first.old) }
    ensures inverse { IfOk result (IsWideBelow p.now (B.standing first.old) state.now.standing slots.now p.now.nodes) }
    ensures fault { IfErr result (IsSecondFaultOf p.now (B.standing first.old)) }
{
    let turned = |k: usize| -> bool
        requires within { k < length slots.now }
        requires state { IsStateOf p.now state.now }
        requires listed { ListBasics p.now state.now.standing slots.now }
        ensures { result ≡ wide.is_turned p.entry.now state.entry.now.standing (in_slot slots.entry.now k) }
    { is_turned(p, state, slots[k]) };
    let mut inverse = Inverse::signs(alloc, p.rows() as usize, turned)?;
    let mut by_slot = vec![in alloc; Frac::zero(); p.nodes() as usize]?;
    let mut spread = vec![in alloc; Frac::zero(); p.columns() as usize]?;
    for row in 0..p.nodes() {
        first.inverse_column(p, row + 1, by_slot.as_mut_slice(), steps)?;
        spread_weights(p, slots, by_slot.as_slice(), spread.as_mut_slice());
        put_column(
            p,
            state,
            slots,
            by_slot.as_slice(),
            spread.as_slice(),
            row,
            &mut inverse,
            steps,
        )?;
    }
    Ok(inverse)
}
