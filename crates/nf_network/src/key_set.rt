//! A set of arcs, each by its ends and its name.
ghost use Rattle.std.specs.Prelude.{◌≡◌, [], ◌∷◌, ◌++◌, false, not, IfOk, OnOk};
ghost use Rattle.nf_network.specs.Keys.{has_key};

use indexmap::IndexSet;
use nf_cells::Name;
use std::alloc::{AllocError, Global};
use std::marker::Model;

// An arc by the numbers of its ends and its name.
type ArcKey = (usize, usize, Name);

/// Arcs in the order in which they were added.
pub(crate) struct KeySet {
    set: IndexSet<ArcKey>,
}

// A function of its own, so that the proofs of callers do not go through its parts.
impl Drop for KeySet {
    fn drop(self) {
        let KeySet { set: _ } = self;
    }
}

impl Model for KeySet {
    ghost use Rattle.std.specs.Prelude.{List};
    ghost use Rattle.nf_network.specs.Keys.{Key};
    ghost use Rattle.nf_network.specs.KeysInside.{set_inside};

    ghost Value = { List Key };

    ghost view = { set_inside };
}

impl KeySet {
    /// No arcs.
    pub(crate) fn new(alloc: Global) -> KeySet
        ensures { result ≡ [] }
    {
        KeySet {
            set: IndexSet::new(alloc),
        }
    }

    /// Adds an arc, if it is new.
    pub(crate) fn add(&mut self, tail: usize, head: usize, name: Name) -> Result<bool, AllocError>
        ensures is_new { IfOk result (λ b. b ≡ not (has_key (record { tail = tail; head = head; name = name }) self.old)) }
        ensures added { OnOk result (has_key (record { tail = tail; head = head; name = name }) self.old ≡ false
            → self.new ≡ self.old ++ record { tail = tail; head = head; name = name } ∷ []) }
    {
        let (_, is_new) = self.set.insert_full((tail, head, name))?;
        Ok(is_new)
    }
}
