//! Room for the ratio test.
ghost use Rattle.std.specs.Prelude.{◌≡◌, IfOk};

use nf_frac::Frac;
use std::alloc::{AllocError, Global};
use std::marker::Model;

/// Three lists, with a place for each row of a stage: the entries of the column that enters, the weights of an inverse
/// column in the slots that tie, and these slots, with one place more for the column that enters itself. It is seen as how many rows
/// there are.
#[derive(Drop)]
pub struct Work3 {
    pub(crate) entries: Vec<Frac>,
    pub(crate) weights: Vec<Frac>,
    pub(crate) ties: Vec<u32>,
}

impl Model for Work3 {
    ghost use Rattle.std.specs.Prelude.{◌≡◌, ℕ, suc, length};

    ghost Value = { ℕ };

    ghost view = { λ w. length w.entries.items };

    ghost invariant = { λ w. (length w.weights.items ≡ length w.entries.items) × (length w.ties.items ≡ suc (length w.entries.items)) };
}

impl Work3 {
    /// Room for a stage of `m` rows. `AllocError` where there is no memory.
    pub fn new(alloc: Global, m: u32) -> Result<Work3, AllocError>
        ensures { IfOk result (λ w. w ≡ m) }
    {
        let rows = m as usize;
        Ok(Work3 {
            entries: vec![in alloc; Frac::zero(); rows]?,
            weights: vec![in alloc; Frac::zero(); rows]?,
            ties: vec![in alloc; 0; rows + 1]?,
        })
    }
}
