//! The plain basis: the whole inverse of the basic columns.
ghost use Rattle.std.specs.Prelude.{◌≡◌, ℕ, ◌<◌, length, slice_index_or, IfOk};
ghost use Rattle.nf_model.specs.Program.{LinearProgram, at};
ghost use Rattle.nf_basis.specs.Kept.{IsStateOf};
ghost use Rattle.nf_basis.specs.Dense.{HasParts, HoldsNumbers};
ghost use Rattle.nf_basis.specs.Numbers.{AreSlotsBelow, in_slot};
ghost use Rattle.nf_inverse.specs.Weights.{weight};

use crate::basis::{Basis, RestoreFault};
use crate::col::{Col, Phase, Place};
use crate::columns::{bound, weights_of};
use crate::duals::Duals;
use crate::moves::{exchange, other_bound, shift};
use crate::restore::{Load, load_basis};
use crate::slots::slot_of;
use crate::state::State;
use nf_frac::{Frac, Passed, Steps};
use nf_inverse::Inverse;
use nf_prob::Problem;
use std::alloc::{AllocError, Global};
use std::sync::ledger::Ledger;

/// A basis with the whole inverse of its basic columns, for at most 1,000 rows: the product form (G. B. Dantzig and
/// W. Orchard-Hays, 1954), in exact fractions. Its unit is `16 * (m + 1) * (m + 1)` for m rows.
#[derive(Drop)]
pub struct DenseBasis {
    state: State,
    slots: Vec<Col>,
    // Of the basic columns, by slot.
    values: Vec<Frac>,
    inverse: Inverse,
    // Room for a column.
    work: Vec<Frac>,
    // The duals of phase one, and of phase two.
    one: Duals,
    two: Duals,
}

/// The value of a column that stands in a slot.
pub fn value_in_slot(slots: &[Col], values: &[Frac], col: Col) -> Frac
    requires places { length values.now ≡ length slots.now }
    ensures { (k : ℕ) → k < length slots.now → in_slot slots.now k ≡ col → (i : ℕ) × (i < length slots.now) × (in_slot slots.now i ≡ col) × (result ≡ at values.now i) }
{
    match slot_of(slots, col) {
        Some(slot) => values[slot],
        None => Frac::zero(),
    }
}

// The weights of chosen slots at a row.
fn weights_at(inverse: &Inverse, row: usize, chosen: &[u32], out: &mut [Frac])
    requires row { row < length inverse.now }
    requires chosen { AreSlotsBelow (length inverse.now) chosen.now }
    requires places { length out.old ≡ length chosen.now }
    ensures { (k : ℕ) → k < length chosen.now → at out.new k ≡ weight inverse.now (slice_index_or chosen.now k 0) row }
{
    for k in 0..chosen.len() {
        out[k] = inverse.weight(chosen[k] as usize, row);
    }
}

impl DenseBasis {
    /// The basis of a state with these columns in its slots, the inverse of these columns and their values by slot.
    /// `AllocError` where there is no memory for a column and the duals of both phases.
    pub fn of_parts(
        alloc: Global,
        state: State,
        slots: Vec<Col>,
        inverse: Inverse,
        values: Vec<Frac>,
    ) -> Result<DenseBasis, AllocError>
        ensures numbers { (p : LinearProgram) → IsStateOf p state → HasParts p state.standing slots.items inverse values.items → IfOk result (HoldsNumbers p) }
        ensures standing { IfOk result (λ b. b.state.standing ≡ state.standing) }
    {
        let rows = values.len();
        Ok(DenseBasis {
            state,
            slots,
            values,
            inverse,
            work: vec![in alloc; Frac::zero(); rows]?,
            one: Duals::unknown(alloc, rows)?,
            two: Duals::unknown(alloc, rows)?,
        })
    }
}

impl Basis for DenseBasis {
    ghost use Rattle.std.specs.Prelude.{ℕ, List, ◌≤◌};
    ghost use Rattle.nf_basis.specs.Dense.{HoldsNumbers, dense_unit, spread_values};
    ghost use Rattle.nf_simplex.specs.Layout.{layout_of};
    ghost use Rattle.nf_simplex.specs.StageOf.{rows_in};

    ghost standing = { λ b. b.state.standing };

    ghost slots = { λ b. b.slots.items };

    ghost values = { λ p b. spread_values p b.state.standing b.slots.items b.values.items };

    ghost HasNumbers = { HoldsNumbers };

    ghost Takes = { λ p n. rows_in (layout_of p) n ≤ 1000 };

    ghost unit = { dense_unit };

    ghost sound = { λ p b h. record { problem = h.state.problem; state = h.state.fits; basis = h.parts.basics.basis; listed = h.parts.basics.listed; values = h.parts.basics.values } };

    fn restore<L: Ledger>(
        alloc: Global,
        p: &Problem,
        state: State,
        steps: &mut Steps<L>,
    ) -> Result<Self, RestoreFault> {
        let (load, values) = load_basis(alloc, p, &state, steps)?;
        let Load {
            slots,
            taken: _,
            inverse,
            work: _,
        } = load;
        let basis = DenseBasis::of_parts(alloc, state, slots, inverse, values)?;
        Ok(basis)
    }

    fn state(&self) -> &State {
        &self.state
    }

    fn basic_at(&self, slot: u32) -> Col {
        self.slots[slot as usize]
    }

    fn value(&self, p: &Problem, col: Col) -> Frac {
        match self.state.place(col) {
            Place::Lower => bound(p, &self.state, col, Place::Lower),
            Place::Upper => bound(p, &self.state, col, Place::Upper),
            Place::Zero => Frac::zero(),
            Place::Basic => value_in_slot(self.slots.as_slice(), self.values.as_slice(), col),
            // No present column is absent.
            Place::Absent => Frac::zero(),
        }
    }

    fn column<L: Ledger>(
        &mut self,
        p: &Problem,
        col: Col,
        out: &mut [Frac],
        steps: &mut Steps<L>,
    ) -> Result<(), Passed> {
        weights_of(&self.inverse, p, &self.state, col, out, steps)?;
        Ok(())
    }

    fn duals<L: Ledger>(
        &mut self,
        p: &Problem,
        phase: Phase,
        out: &mut [Frac],
        steps: &mut Steps<L>,
    ) -> Result<(), Passed> {
        let (state, slots) = (&self.state, self.slots.as_slice());
        match phase {
            Phase::One => self
                .one
                .read(p, state, slots, &self.inverse, Phase::One, out, steps),
            Phase::Two => self
                .two
                .read(p, state, slots, &self.inverse, Phase::Two, out, steps),
        }
    }

    fn inverse_column<L: Ledger>(
        &mut self,
        p: &Problem,
        row: u32,
        out: &mut [Frac],
        steps: &mut Steps<L>,
    ) -> Result<(), Passed> {
        self.inverse.inverse_column(row as usize - 1, out);
        Ok(())
    }

    fn inverse_weights<L: Ledger>(
        &mut self,
        p: &Problem,
        row: u32,
        chosen: &[u32],
        out: &mut [Frac],
        steps: &mut Steps<L>,
    ) -> Result<(), Passed> {
        weights_at(&self.inverse, row as usize - 1, chosen, out);
        Ok(())
    }

    fn pivot<L: Ledger>(
        &mut self,
        p: &Problem,
        entering: Col,
        slot: u32,
        to: Place,
        steps: &mut Steps<L>,
    ) -> Result<(), Passed> {
        let at = slot as usize;
        exchange(
            p,
            &self.state,
            self.slots.as_slice(),
            &mut self.inverse,
            self.values.as_mut_slice(),
            self.work.as_mut_slice(),
            entering,
            at,
            to,
            steps,
        )?;
        let weights = self.inverse.row(at);
        self.one
            .pivot(p, &self.state, entering, Phase::One, weights, steps)?;
        self.two
            .pivot(p, &self.state, entering, Phase::Two, weights, steps)?;
        let leaving = self.slots[at];
        self.state.set_place(p, entering, Place::Basic);
        self.state.set_place(p, leaving, to);
        self.slots[at] = entering;
        Ok(())
    }

    fn flip<L: Ledger>(
        &mut self,
        p: &Problem,
        entering: Col,
        steps: &mut Steps<L>,
    ) -> Result<(), Passed> {
        shift(
            p,
            &self.state,
            self.slots.as_slice(),
            &self.inverse,
            self.values.as_mut_slice(),
            self.work.as_mut_slice(),
            entering,
            steps,
        )?;
        let to = other_bound(self.state.place(entering));
        self.state.set_place(p, entering, to);
        Ok(())
    }
}
