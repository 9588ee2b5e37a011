// Room to work in: the duals of both phases, and the ratio test's lists.
ghost use Rattle.std.specs.Prelude.{◌≡◌, IfOk};

use nf_frac::Frac;
use nf_ratio::Work3;
use std::alloc::{AllocError, Global};
use std::marker::Model;

// A place in each list for each row of a stage. It is seen as how many there are.
#[derive(Drop)]
pub(crate) struct Room {
    pub(crate) one: Vec<Frac>,
    pub(crate) two: Vec<Frac>,
    pub(crate) work: Work3,
}

impl Model for Room {
    ghost use Rattle.std.specs.Prelude.{◌≡◌, ℕ, length};

    ghost Value = { ℕ };

    ghost view = { λ r. r.work };

    ghost invariant = { λ r. (length r.one.items ≡ r.work) × (length r.two.items ≡ r.work) };
}

impl Room {
    pub(crate) fn new(alloc: Global, rows: u32) -> Result<Room, AllocError>
        ensures { IfOk result (λ r. r ≡ rows) }
    {
        Ok(Room {
            one: vec![in alloc; Frac::zero(); rows as usize]?,
            two: vec![in alloc; Frac::zero(); rows as usize]?,
            work: Work3::new(alloc, rows)?,
        })
    }
}
