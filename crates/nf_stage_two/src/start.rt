//! The start of stage two.
ghost use Rattle.std.specs.Prelude.{◌≡◌, ℕ, ◌+◌, ◌-◌, ◌<◌, ◌≤◌, ◌^◌, ◌↔◌, IfOk, IfErr, IsTrue, length};
ghost use Rattle.nf_num.specs.Rational.{ℚ, zero_ℚ, ◌<ℚ◌};
ghost use Rattle.nf_prob.specs.Numbers.{IsNumber};
ghost use Rattle.nf_sums.specs.Terms.{PassesIn};
ghost use Rattle.nf_simplex.specs.Layout.{layout_of};
ghost use Rattle.nf_simplex.specs.Moves.{IsSecondState};
ghost use Rattle.nf_simplex.specs.StageOf.{StageOne, StageTwo};
ghost use Rattle.nf_simplex.specs.Standing.{IsFeasibleState, Standing};
ghost use Rattle.nf_simplex.specs.Starts as starts;
ghost use Rattle.nf_simplex.specs.Starts.{TakesSlack, second_number, second_rest};
ghost use Rattle.nf_basis.specs.Arising.{StateTerms};
ghost use Rattle.nf_basis.specs.Kept.{IsStateOf};
ghost use Rattle.nf_stage_two.specs.Starting.{IsMidway, IsSecondFaultOf};

use nf_basis::{Basis, Col, Place, StartFault, State, is_below_zero, rest};
use nf_frac::{Frac, Passed, Steps};
use nf_prob::{Problem, RowKind};
use std::alloc::Global;
use std::sync::ledger::Ledger;

/// The start of stage two after the state of a basis of stage one: the arcs and the artificials of the node rows stand
/// as they are. A nonarc variable is at its lower bound, else at its upper bound, else at zero. For each side row its
/// slack is basic where the slack's vector, its value and then its weights, is lexicographically positive; else its
/// artificial is, with the sign -1 where the row's rest is negative. After a lexicographically feasible state it is one
/// too.
///
/// `Passed` only where an operation of a side row's rest passes 128 bits.
pub fn start_two<B: Basis, L: Ledger>(
    alloc: Global,
    p: &Problem,
    basis: &B,
    steps: &mut Steps<L>,
) -> Result<State, StartFault>
    requires numbers { B.HasNumbers p.now basis.now }
    requires stage { (B.standing basis.now).stage ≡ StageOne }
    ensures state { IfOk result (IsStateOf p.now) }
    ensures second { IfOk result (λ s. IsSecondState p.now (B.standing basis.now) (B.values p.now basis.now) s.standing) }
    ensures feasible { IsFeasibleState p.now (B.standing basis.now) → IfOk result (λ s. IsFeasibleState p.now s.standing) }
    ensures fault { IfErr result (IsSecondFaultOf p.now (B.standing basis.now)) }
{
    let mut state = State::new(alloc, p, 2)?;
    keep_arcs(p, basis.state(), &mut state);
    keep_nodes(p, basis.state(), &mut state);
    for q in 0..p.rows() - p.nodes() {
        let lacks = side_rest(p, basis, q, steps)?;
        start_row(p, q, lacks, &mut state);
    }
    Ok(state)
}

// Puts the arcs where they stand in the first state.
fn keep_arcs(p: &Problem, first: &State, state: &mut State)
    requires first { IsStateOf p.now first.now }
    requires one { first.now.standing.stage ≡ StageOne }
    requires state { IsStateOf p.now state.old }
    requires midway { (x : ℕ → ℚ) → IsMidway p.now first.now.standing x 0 0 0 state.old.standing }
    ensures state { IsStateOf p.now state.new }
    ensures midway { (x : ℕ → ℚ) → IsMidway p.now first.now.standing x p.now.arcs 0 0 state.new.standing }
{
    for j in 0..p.arcs() {
        let arc = Col::Given(j + 1);
        state.set_place(p, arc, first.place(arc));
    }
}

// Gives the artificials of the node rows the places and signs that they have in the first state.
fn keep_nodes(p: &Problem, first: &State, state: &mut State)
    requires first { IsStateOf p.now first.now }
    requires one { first.now.standing.stage ≡ StageOne }
    requires state { IsStateOf p.now state.old }
    requires midway { (x : ℕ → ℚ) → IsMidway p.now first.now.standing x p.now.arcs 0 0 state.old.standing }
    ensures state { IsStateOf p.now state.new }
    ensures midway { (x : ℕ → ℚ) → IsMidway p.now first.now.standing x p.now.arcs p.now.nodes 0 state.new.standing }
{
    for i in 0..p.nodes() {
        let artificial = Col::Artificial(i + 1);
        state.set_place(p, artificial, first.place(artificial));
        state.set_negative(i + 1, first.negative(i + 1));
    }
}

// What side row q, which counts from 0, lacks at the start of stage two.
pub(crate) fn side_rest<B: Basis, L: Ledger>(
    p: &Problem,
    basis: &B,
    q: u32,
    steps: &mut Steps<L>,
) -> Result<Frac, Passed>
    requires numbers { B.HasNumbers p.now basis.now }
    requires stage { (B.standing basis.now).stage ≡ StageOne }
    requires side { p.now.nodes + q < length p.now.rows }
    requires few { length p.now.rows ≤ 2 ^ 30 }
    ensures value { IfOk result (λ r. r ≡ second_rest (layout_of p.now) (B.values p.now basis.now) (p.now.nodes + q)) }
    ensures passed { IfErr result (PassesIn (StateTerms p.now (B.standing basis.now))) }
{
    let number = |j: u32| -> Frac
        requires numbers { B.HasNumbers p.now basis.now }
        requires stage { (B.standing basis.now).stage ≡ StageOne }
        requires column { IsNumber j (length p.now.columns) }
        ensures { result ≡ second_number (layout_of p.entry.now) (B.values p.entry.now basis.entry.now) (j - 1) }
    { started_number(p, basis, j) };
    let lacks = rest(p, p.nodes() + q + 1, number, steps)?;
    Ok(lacks)
}

// The number of a given column at the start of stage two.
fn started_number<B: Basis>(p: &Problem, basis: &B, j: u32) -> Frac
    requires numbers { B.HasNumbers p.now basis.now }
    requires stage { (B.standing basis.now).stage ≡ StageOne }
    requires column { IsNumber j (length p.now.columns) }
    ensures { result ≡ second_number (layout_of p.now) (B.values p.now basis.now) (j - 1) }
{
    if j <= p.arcs() {
        return basis.value(p, Col::Given(j));
    }
    nonarc_number(p.lower(j), p.upper(j))
}

// The number at which a nonarc variable with these bounds starts: its lower bound, else its upper bound, else 0.
fn nonarc_number(lower: Option<Frac>, upper: Option<Frac>) -> Frac
    ensures { result ≡ starts.nonarc_number lower upper }
{
    match (lower, upper) {
        (Some(lower), _) => lower,
        (None, Some(upper)) => upper,
        (None, None) => Frac::zero(),
    }
}

// Whether the vector of a side row's slack is positive: its value is the rest, or the rest negated, and at 0 its weight
// in the row's inverse column tells.
fn takes_slack(kind: RowKind, below: bool) -> bool
    ensures { (lacks : ℚ) → IsTrue below ↔ (lacks <ℚ zero_ℚ) → IsTrue result ↔ TakesSlack kind lacks }
{
    match kind {
        RowKind::Eq => false,
        RowKind::Le => !below,
        RowKind::Ge => below,
    }
}

// Makes the slack of a side row basic, or its artificial with its sign.
fn start_row(p: &Problem, q: u32, lacks: Frac, state: &mut State)
    requires side { p.now.nodes + q < length p.now.rows }
    requires few { length p.now.rows ≤ 2 ^ 30 }
    requires state { IsStateOf p.now state.old }
    requires stage { state.old.standing.stage ≡ StageTwo }
    ensures state { IsStateOf p.now state.new }
    ensures midway { (s : Standing) (x : ℕ → ℚ) → lacks ≡ second_rest (layout_of p.now) x (p.now.nodes + q) → IsMidway p.now s x p.now.arcs p.now.nodes q state.old.standing → IsMidway p.now s x p.now.arcs p.now.nodes (q + 1) state.new.standing }
{
    let i = p.nodes() + q + 1;
    let below = is_below_zero(lacks);
    if takes_slack(p.kind(i), below) {
        state.set_place(p, Col::Slack(i), Place::Basic);
        return;
    }
    state.set_place(p, Col::Artificial(i), Place::Basic);
    state.set_negative(i, below);
}
