// The duals that a tree keeps.
ghost use Rattle.std.specs.Prelude.{◌≡◌, ◌≢◌, ℕ, suc, ◌+◌, ◌*◌, ◌<◌, ◌≤◌, ◌⊎◌, false, true, length, IfOk, IfErr};
ghost use Rattle.nf_num.specs.Rational.{ℚ, zero_ℚ, one_ℚ, neg_ℚ, ◌*ℚ◌, inv_ℚ};
ghost use Rattle.nf_model.specs.Program.{at};
ghost use Rattle.nf_sums.specs.Terms.{PassesIn};
ghost use Rattle.nf_simplex.specs.Place as model;
ghost use Rattle.nf_simplex.specs.StageOf.{StageOne};
ghost use Rattle.nf_simplex.specs.Standing.{IsBasisOf, costs_of};
ghost use Rattle.nf_basis.specs.Names.{phase_of};
ghost use Rattle.nf_basis.specs.Kept.{IsBoundOf, IsNonbasic, IsPresent, IsStateOf};
ghost use Rattle.nf_basis.specs.Numbers.{AreDualsByRow, AreEntriesBySlot, ListBasics, in_slot, slot_number};
ghost use Rattle.nf_basis.specs.Arising.{StateTerms};
ghost use Rattle.nf_basis.specs.Duals.{after_pivot};
ghost use Rattle.nf_tree.specs.Duals.{KeepsDuals};
ghost use Rattle.nf_tree.specs.Links.{IsTreeOf};

use crate::below::raise_below;
use crate::ends::{column_in, number_in};
use crate::potentials::{potentials, turned};
use crate::reduced::reduced_cost;
use nf_basis::{Col, Phase, State, cost};
use nf_frac::{Frac, Passed, Steps};
use nf_links::Links;
use nf_prob::Problem;
use nf_sums::is_zero;
use std::alloc::{AllocError, Global};
use std::cmp::Ordering;
use std::sync::ledger::Ledger;

/// The duals of a phase by row. The first call that asks for them finds them; from then on each pivot changes those of
/// the subtree that it moves.
#[derive(Drop)]
pub struct Duals {
    pub(crate) known: bool,
    pub(crate) by_row: Vec<Frac>,
}

// The costs of the columns in the slots.
fn cost_all(p: &Problem, state: &State, slots: &[Col], phase: Phase, out: &mut Vec<Frac>)
    requires state { IsStateOf p.now state.now }
    requires present { (k : ℕ) → k < length slots.now → IsPresent p.now state.now.standing (in_slot slots.now k) }
    requires places { length out.old.items ≡ length slots.now }
    ensures long { length out.new.items ≡ length out.old.items }
    ensures costs { (i : ℕ) → i < length slots.now → at out.new.items i ≡ costs_of p.now (phase_of phase) (slot_number p.now slots.now i) }
{
    for i in 0..slots.len() {
        let col = column_in(slots, i);
        out[i] = cost(p, state, col, phase);
    }
}

// A number divided by 1 or -1.
fn over_unit(number: Frac, unit: Frac) -> Frac
    requires unit { (unit ≡ one_ℚ) ⊎ (unit ≡ neg_ℚ one_ℚ) }
    ensures { result ≡ number *ℚ inv_ℚ unit }
{
    match unit.sign() {
        Ordering::Less => number.neg(),
        Ordering::Equal => number,
        Ordering::Greater => number,
    }
}

impl Duals {
    /// Room for the duals of n nodes.
    pub(crate) fn unknown(alloc: Global, n: u32) -> Result<Duals, AllocError>
        ensures { IfOk result (λ d. (d.known ≡ false) × (length d.by_row.items ≡ n)) }
    {
        let by_row = vec![in alloc; Frac::zero(); n as usize]?;
        Ok(Duals {
            known: false,
            by_row,
        })
    }

    // Finds the duals, where they are not known: the potentials for the costs of the phase. `work` is room for the costs.
    fn find<L: Ledger>(
        &mut self,
        p: &Problem,
        state: &State,
        slots: &[Col],
        order: &[usize],
        links: &Links,
        phase: Phase,
        work: &mut Vec<Frac>,
        steps: &mut Steps<L>,
    ) -> Result<(), Passed>
        requires state { IsStateOf p.now state.now }
        requires stage { state.now.standing.stage ≡ StageOne }
        requires listed { ListBasics p.now state.now.standing slots.now }
        requires tree { IsTreeOf p.now state.now.standing slots.now order.now links.now }
        requires kept { KeepsDuals p.now state.now.standing phase self.old }
        requires room { length work.old.items ≡ p.now.nodes }
        ensures kept { IfOk result (λ _. KeepsDuals p.now state.now.standing phase self.new) }
        ensures known { IfOk result (λ _. self.new.known ≡ true) }
        ensures room { length work.new.items ≡ p.now.nodes }
        ensures passed { IfErr result (PassesIn (StateTerms p.now state.now.standing)) }
        ensures cost { steps.new ≤ steps.old + 2 * p.now.nodes }
    {
        if self.known {
            return Ok(());
        }
        cost_all(p, state, slots, phase, work);
        potentials(
            p,
            state,
            slots,
            order,
            links,
            work.as_slice(),
            self.by_row.as_mut_slice(),
            steps,
        )?;
        self.known = true;
        Ok(())
    }

    /// The duals, by row. `work` is room for a column.
    pub(crate) fn read<L: Ledger>(
        &mut self,
        p: &Problem,
        state: &State,
        slots: &[Col],
        order: &[usize],
        links: &Links,
        phase: Phase,
        work: &mut Vec<Frac>,
        out: &mut [Frac],
        steps: &mut Steps<L>,
    ) -> Result<(), Passed>
        requires state { IsStateOf p.now state.now }
        requires stage { state.now.standing.stage ≡ StageOne }
        requires listed { ListBasics p.now state.now.standing slots.now }
        requires tree { IsTreeOf p.now state.now.standing slots.now order.now links.now }
        requires kept { KeepsDuals p.now state.now.standing phase self.old }
        requires room { length work.old.items ≡ p.now.nodes }
        requires places { length out.old ≡ p.now.nodes }
        ensures kept { IfOk result (λ _. KeepsDuals p.now state.now.standing phase self.new) }
        ensures duals { IfOk result (λ _. AreDualsByRow p.now state.now.standing phase out.new) }
        ensures room { length work.new.items ≡ p.now.nodes }
        ensures passed { IfErr result (PassesIn (StateTerms p.now state.now.standing)) }
        ensures cost { steps.new ≤ steps.old + 2 * p.now.nodes }
    {
        self.find(p, state, slots, order, links, phase, work, steps)?;
        out.copy_from_slice(self.by_row.as_slice());
        Ok(())
    }

    /// Changes known duals by a pivot from `state`, in which a column with these entries enters for the one in a slot:
    /// its reduced cost, or that negated, comes to the duals of the nodes below the leaving column. The tree and the
    /// slots are those before the pivot.
    pub(crate) fn pivot<L: Ledger>(
        &mut self,
        p: &Problem,
        state: &State,
        slots: &[Col],
        order: &[usize],
        links: &Links,
        phase: Phase,
        entering: Col,
        slot: usize,
        entries: &[Frac],
        steps: &mut Steps<L>,
    ) -> Result<(), Passed>
        requires state { IsStateOf p.now state.now }
        requires stage { state.now.standing.stage ≡ StageOne }
        requires basis { IsBasisOf p.now state.now.standing }
        requires listed { ListBasics p.now state.now.standing slots.now }
        requires tree { IsTreeOf p.now state.now.standing slots.now order.now links.now }
        requires kept { KeepsDuals p.now state.now.standing phase self.old }
        requires entering { IsNonbasic p.now state.now.standing entering }
        requires within { slot < p.now.nodes }
        requires entries { AreEntriesBySlot p.now state.now.standing slots.now entering entries.now }
        requires long { length entries.now ≡ p.now.nodes }
        requires entry { at entries.now slot ≢ zero_ℚ }
        ensures kept { (to : model.Place) → IsBoundOf p.now (in_slot slots.now slot) to → IfOk result (λ _. KeepsDuals p.now (after_pivot p.now state.now.standing entering (in_slot slots.now slot) to) phase self.new) }
        ensures passed { IfErr result (PassesIn (StateTerms p.now state.now.standing)) }
        ensures cost { steps.new ≤ steps.old + 3 * p.now.nodes + 2 }
    {
        if !self.known {
            return Ok(());
        }
        let _rows = p.rows();
        let paid = cost(p, state, entering, phase);
        let d = reduced_cost(p, state, entering, paid, self.by_row.as_slice(), steps)?;
        if is_zero(d) {
            return Ok(());
        }
        let node = slot as u32 + 1;
        let change = over_unit(turned(p, state, slots, node, d), number_in(entries, slot));
        raise_below(
            p,
            state,
            slots,
            order,
            links,
            node,
            change,
            self.by_row.as_mut_slice(),
            steps,
        )?;
        Ok(())
    }
}
