//! The duals that a dense basis keeps.
ghost use Rattle.std.specs.Prelude.{◌≡◌, ◌+◌, ◌*◌, ◌<◌, ◌≤◌, false, true, length, IfOk, IfErr};
ghost use Rattle.nf_sums.specs.Terms.{PassesIn};
ghost use Rattle.nf_simplex.specs.Place as model;
ghost use Rattle.nf_simplex.specs.Standing.{IsBasisOf, costs_of, rows_of};
ghost use Rattle.nf_basis.specs.declared.col.Col.{Col as Column};
ghost use Rattle.nf_basis.specs.Names.{phase_of};
ghost use Rattle.nf_basis.specs.Kept.{IsPresent, IsStateOf};
ghost use Rattle.nf_basis.specs.Numbers.{AreDualsByRow, ListBasics, in_slot, slot_number};
ghost use Rattle.nf_basis.specs.Arising.{StateTerms};
ghost use Rattle.nf_basis.specs.Dense.{IsInverseOf};
ghost use Rattle.nf_basis.specs.Duals.{IsPivotRow, KeepsDuals, after_pivot};

use crate::col::{Col, Phase};
use crate::columns::cost;
use crate::reduced::reduced_cost;
use crate::state::State;
use nf_frac::{Frac, Passed, Steps};
use nf_inverse::{Inverse, add_multiple};
use nf_prob::Problem;
use std::alloc::{AllocError, Global};
use std::sync::ledger::Ledger;

/// The duals of a phase by row of the stage. The first call that asks for them finds them; from then on each pivot
/// changes them.
#[derive(Drop)]
pub struct Duals {
    pub(crate) known: bool,
    pub(crate) by_row: Vec<Frac>,
}

impl Duals {
    /// Room for the duals of so many rows.
    pub(crate) fn unknown(alloc: Global, rows: usize) -> Result<Duals, AllocError>
        ensures { IfOk result (λ d. (d.known ≡ false) × (length d.by_row.items ≡ rows)) }
    {
        let by_row = vec![in alloc; Frac::zero(); rows]?;
        Ok(Duals {
            known: false,
            by_row,
        })
    }

    // Finds the duals, where they are not known, from the inverse of the basic columns.
    fn find<L: Ledger>(
        &mut self,
        p: &Problem,
        state: &State,
        slots: &[Col],
        inverse: &Inverse,
        phase: Phase,
        steps: &mut Steps<L>,
    ) -> Result<(), Passed>
        requires state { IsStateOf p.now state.now }
        requires basis { IsBasisOf p.now state.now.standing }
        requires listed { ListBasics p.now state.now.standing slots.now }
        requires inverse { IsInverseOf p.now state.now.standing slots.now inverse.now }
        requires kept { KeepsDuals p.now state.now.standing phase self.old }
        ensures kept { IfOk result (λ _. KeepsDuals p.now state.now.standing phase self.new) }
        ensures known { IfOk result (λ _. self.new.known ≡ true) }
        ensures passed { IfErr result (PassesIn (StateTerms p.now state.now.standing)) }
        ensures cost { steps.new ≤ steps.old + length inverse.now * (2 * length inverse.now) }
    {
        if self.known {
            return Ok(());
        }
        let costs = |slot: usize| -> Frac
            requires within { slot < length slots.now }
            requires state { IsStateOf p.now state.now }
            requires present { IsPresent p.now state.now.standing (in_slot slots.now slot) }
            ensures { result ≡ costs_of p.entry.now (phase_of phase) (slot_number p.entry.now slots.entry.now slot) }
        { cost(p, state, slots[slot], phase) };
        inverse.duals(costs, self.by_row.as_mut_slice(), steps)?;
        self.known = true;
        Ok(())
    }

    /// The duals, by row.
    pub(crate) fn read<L: Ledger>(
        &mut self,
        p: &Problem,
        state: &State,
        slots: &[Col],
        inverse: &Inverse,
        phase: Phase,
        out: &mut [Frac],
        steps: &mut Steps<L>,
    ) -> Result<(), Passed>
        requires state { IsStateOf p.now state.now }
        requires basis { IsBasisOf p.now state.now.standing }
        requires listed { ListBasics p.now state.now.standing slots.now }
        requires inverse { IsInverseOf p.now state.now.standing slots.now inverse.now }
        requires kept { KeepsDuals p.now state.now.standing phase self.old }
        requires places { length out.old ≡ rows_of p.now state.now.standing }
        ensures kept { IfOk result (λ _. KeepsDuals p.now state.now.standing phase self.new) }
        ensures duals { IfOk result (λ _. AreDualsByRow p.now state.now.standing phase out.new) }
        ensures passed { IfErr result (PassesIn (StateTerms p.now state.now.standing)) }
        ensures cost { steps.new ≤ steps.old + length inverse.now * (2 * length inverse.now) }
    {
        self.find(p, state, slots, inverse, phase, steps)?;
        out.copy_from_slice(self.by_row.as_slice());
        Ok(())
    }

    /// Changes known duals by a pivot from `state`: to each dual comes the entering column's reduced cost times the
    /// weight, at its row, of the column's slot after the pivot. A weight of 0 takes no step.
    pub(crate) fn pivot<L: Ledger>(
        &mut self,
        p: &Problem,
        state: &State,
        entering: Col,
        phase: Phase,
        weights: &[Frac],
        steps: &mut Steps<L>,
    ) -> Result<(), Passed>
        requires state { IsStateOf p.now state.now }
        requires present { IsPresent p.now state.now.standing entering }
        requires kept { KeepsDuals p.now state.now.standing phase self.old }
        requires places { length weights.now ≡ rows_of p.now state.now.standing }
        ensures kept { (l : Column) (a : model.Place) → IsPivotRow p.now state.now.standing entering l a weights.now → IfOk result (λ _. KeepsDuals p.now (after_pivot p.now state.now.standing entering l a) phase self.new) }
        ensures passed { (l : Column) (a : model.Place) → IsPivotRow p.now state.now.standing entering l a weights.now → IfErr result (PassesIn (StateTerms p.now state.now.standing)) }
        ensures cost { steps.new ≤ steps.old + (4 * length weights.now + 1) }
    {
        if !self.known {
            return Ok(());
        }
        let paid = cost(p, state, entering, phase);
        let change = reduced_cost(p, state, entering, paid, self.by_row.as_slice(), steps)?;
        add_multiple(self.by_row.as_mut_slice(), weights, change, steps)?;
        Ok(())
    }
}
