//! Which variables have coefficients in which constraints.
ghost use Rattle.std.specs.Prelude.{◌≡◌, ◌++◌, ◌∷◌, [], false, not, length, IfOk, OnOk};
ghost use Rattle.nf_cons_sparse.specs.Sparse.{has_pair};

use indexmap::IndexSet;
use std::alloc::{AllocError, Global};
use std::marker::Model;

/// Constraints and variables by their numbers, in pairs, in the order in which they were added.
pub struct Pairs {
    set: IndexSet<(usize, usize)>,
}

// A function of its own, so that the proofs of callers do not go through its parts.
impl Drop for Pairs {
    fn drop(self) {
        let Pairs { set: _ } = self;
    }
}

impl Model for Pairs {
    ghost use Rattle.std.specs.Prelude.{List, ℕ};
    ghost use Rattle.nf_cons_sparse.specs.PairsInside.{pairs_inside};

    ghost Value = { List (ℕ × ℕ) };

    ghost view = { pairs_inside };
}

impl Pairs {
    pub(crate) fn new(alloc: Global) -> Pairs
        ensures { result ≡ [] }
    {
        Pairs {
            set: IndexSet::new(alloc),
        }
    }

    /// How many pairs there are.
    pub(crate) fn len(&self) -> usize
        ensures { result ≡ length self.now }
    {
        self.set.len()
    }

    /// Adds a pair, if it is new.
    pub(crate) fn add(&mut self, row: usize, variable: usize) -> Result<bool, AllocError>
        ensures is_new { IfOk result (λ b. b ≡ not (has_pair (row, variable) self.old)) }
        ensures added { OnOk result (has_pair (row, variable) self.old ≡ false → self.new ≡ self.old ++ (row, variable) ∷ []) }
    {
        let (_, is_new) = self.set.insert_full((row, variable))?;
        Ok(is_new)
    }
}
