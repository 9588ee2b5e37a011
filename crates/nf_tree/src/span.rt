// The spanning tree of a list of keys, with all the room that a rebuild needs.
ghost use Rattle.std.specs.Prelude.{◌≡◌, ℕ, suc, ◌+◌, ◌*◌, ◌^◌, ◌<◌, ◌≤◌, length, set, slice_index, IfOk, IsTrue};
ghost use Rattle.nf_simplex.specs.StageOf.{StageOne};
ghost use Rattle.nf_basis.specs.Kept.{IsPresent, IsStateOf};
ghost use Rattle.nf_basis.specs.Numbers.{in_slot};
ghost use Rattle.nf_grove.specs.Grove.{AreJoined};
ghost use Rattle.nf_tree.specs.Links.{AreEndsOf, HasSpan, SpansKeys};

use crate::ends::{column_in, head_of, name_of, tail_of};
use crate::plant::{arrange_ends, take_names};
use nf_basis::{Col, State};
use nf_frac::Steps;
use nf_grove::{Adjacent, Grove, rebuild};
use nf_prob::Problem;
use std::alloc::{AllocError, Global};
use std::sync::ledger::Ledger;

/// The ends and names of keys, and their tree.
#[derive(Drop)]
pub struct Span {
    pub(crate) tails: Vec<usize>,
    pub(crate) heads: Vec<usize>,
    pub(crate) names: Vec<u32>,
    // Room for a list of ends.
    pub(crate) spare: Vec<usize>,
    pub(crate) out: Adjacent,
    pub(crate) into: Adjacent,
    pub(crate) grove: Grove,
}

impl Span {
    /// Room for n keys. `AllocError` if memory runs out.
    pub(crate) fn new(alloc: Global, n: u32) -> Result<Span, AllocError>
        ensures { IfOk result (HasSpan n) }
    {
        let size = n as usize;
        Ok(Span {
            tails: vec![in alloc; 0; size]?,
            heads: vec![in alloc; 0; size]?,
            names: vec![in alloc; 0; size]?,
            spare: vec![in alloc; 0; size]?,
            out: Adjacent::new(alloc, n)?,
            into: Adjacent::new(alloc, n)?,
            grove: Grove::new(alloc, n)?,
        })
    }

    // Writes down the ends and names of the keys.
    fn take(&mut self, p: &Problem, state: &State, keys: &[Col])
        requires state { IsStateOf p.now state.now }
        requires stage { state.now.standing.stage ≡ StageOne }
        requires keys { length keys.now ≡ p.now.nodes }
        requires present { (q : ℕ) → q < p.now.nodes → IsPresent p.now state.now.standing (in_slot keys.now q) }
        requires room { HasSpan p.now.nodes self.old }
        ensures room { HasSpan p.now.nodes self.new }
        ensures ends { AreEndsOf p.now state.now.standing keys.now p.now.nodes self.new.tails.items self.new.heads.items self.new.names.items }
        ensures tails_within { (q : ℕ) → q < p.now.nodes → slice_index self.new.tails.items q ≤ p.now.nodes }
        ensures heads_within { (q : ℕ) → q < p.now.nodes → slice_index self.new.heads.items q ≤ p.now.nodes }
    {
        for q in 0..keys.len() {
            let key = column_in(keys, q);
            self.tails[q] = tail_of(p, state, key) as usize;
            self.heads[q] = head_of(p, state, key) as usize;
            self.names[q] = name_of(p, state, key);
        }
    }

    /// Makes all links anew as those of the tree of these keys, in any order; false if they do not join all vertices.
    pub(crate) fn rebuild<L: Ledger>(
        &mut self,
        p: &Problem,
        state: &State,
        keys: &[Col],
        steps: &mut Steps<L>,
    ) -> bool
        requires state { IsStateOf p.now state.now }
        requires stage { state.now.standing.stage ≡ StageOne }
        requires keys { length keys.now ≡ p.now.nodes }
        requires present { (q : ℕ) → q < p.now.nodes → IsPresent p.now state.now.standing (in_slot keys.now q) }
        requires room { HasSpan p.now.nodes self.old }
        ensures room { HasSpan p.now.nodes self.new }
        ensures ends { AreEndsOf p.now state.now.standing keys.now p.now.nodes self.new.tails.items self.new.heads.items self.new.names.items }
        ensures joined { AreJoined p.now.nodes self.new.tails.items self.new.heads.items → IsTrue result }
        ensures tree { IsTrue result → SpansKeys p.now state.now.standing keys.now self.new }
        ensures cost { steps.new ≤ steps.old + 32 * suc p.now.nodes }
    {
        self.take(p, state, keys);
        self.regrow(p, state, keys, steps)
    }

    /// The same where the ends and names of the keys are there already.
    pub(crate) fn regrow<L: Ledger>(
        &mut self,
        p: &Problem,
        state: &State,
        keys: &[Col],
        steps: &mut Steps<L>,
    ) -> bool
        requires state { IsStateOf p.now state.now }
        requires stage { state.now.standing.stage ≡ StageOne }
        requires keys { length keys.now ≡ p.now.nodes }
        requires present { (q : ℕ) → q < p.now.nodes → IsPresent p.now state.now.standing (in_slot keys.now q) }
        requires room { HasSpan p.now.nodes self.old }
        requires ends { AreEndsOf p.now state.now.standing keys.now p.now.nodes self.old.tails.items self.old.heads.items self.old.names.items }
        ensures room { HasSpan p.now.nodes self.new }
        ensures ends { AreEndsOf p.now state.now.standing keys.now p.now.nodes self.new.tails.items self.new.heads.items self.new.names.items }
        ensures joined { AreJoined p.now.nodes self.new.tails.items self.new.heads.items → IsTrue result }
        ensures tree { IsTrue result → SpansKeys p.now state.now.standing keys.now self.new }
        ensures cost { steps.new ≤ steps.old + 32 * suc p.now.nodes }
    {
        let _rows = p.rows();
        rebuild(
            self.tails.as_slice(),
            self.heads.as_slice(),
            self.names.as_slice(),
            &mut self.out,
            &mut self.into,
            &mut self.grove,
            steps,
        )
    }

    /// Puts the ends and the name of each node's key into the slot of the node, where the columns in the slots are the
    /// keys so put.
    pub(crate) fn follow<L: Ledger>(
        &mut self,
        p: &Problem,
        state: &State,
        keys: &[Col],
        slots: &[Col],
        steps: &mut Steps<L>,
    )
        requires keys { length keys.now ≡ p.now.nodes }
        requires room { HasSpan p.now.nodes self.old }
        requires spans { SpansKeys p.now state.now.standing keys.now self.old }
        requires slots { (i : ℕ) → i < p.now.nodes → in_slot slots.now i ≡ in_slot keys.now (slice_index self.old.grove.key.items (suc i)) }
        ensures room { HasSpan p.now.nodes self.new }
        ensures grove { self.new.grove ≡ self.old.grove }
        ensures ends { AreEndsOf p.now state.now.standing slots.now p.now.nodes self.new.tails.items self.new.heads.items self.new.names.items }
        ensures cost { steps.new ≤ steps.old + p.now.nodes }
    {
        let _rows = p.rows();
        let key = self.grove.key.as_slice();
        arrange_ends(key, &mut self.tails, &mut self.spare);
        arrange_ends(key, &mut self.heads, &mut self.spare);
        take_names(&self.grove.links, &mut self.names, steps);
    }

    /// Puts the ends and the name of a column into a slot.
    pub(crate) fn put(&mut self, p: &Problem, state: &State, slots: &[Col], slot: usize, col: Col)
        requires state { IsStateOf p.now state.now }
        requires stage { state.now.standing.stage ≡ StageOne }
        requires room { HasSpan p.now.nodes self.old }
        requires present { IsPresent p.now state.now.standing col }
        requires within { slot < p.now.nodes }
        requires slots { length slots.now ≡ p.now.nodes }
        requires ends { AreEndsOf p.now state.now.standing slots.now p.now.nodes self.old.tails.items self.old.heads.items self.old.names.items }
        ensures room { HasSpan p.now.nodes self.new }
        ensures grove { self.new.grove ≡ self.old.grove }
        ensures ends { AreEndsOf p.now state.now.standing (set slots.now slot col) p.now.nodes self.new.tails.items self.new.heads.items self.new.names.items }
    {
        self.tails[slot] = tail_of(p, state, col) as usize;
        self.heads[slot] = head_of(p, state, col) as usize;
        self.names[slot] = name_of(p, state, col);
    }
}
