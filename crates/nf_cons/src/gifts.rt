//! The costs or bounds that rows of one type give nonarc variables.
ghost use Rattle.std.specs.Prelude.{◌≡◌, ◌++◌, ◌∷◌, [], true, false, not, IfOk, OnOk, OnErr};
ghost use Rattle.nf_cons.specs.Terms.{gift_to, is_given};

use crate::value::Value;
use indexmap::IndexMap;
use std::alloc::{AllocError, Global};
use std::marker::Model;

/// What rows of one type give variables, each at most once, with the row.
pub struct Gifts {
    map: IndexMap<usize, (Value, u32)>,
}

// A function of its own, so that the proofs of callers do not go through its parts.
impl Drop for Gifts {
    fn drop(self) {
        let Gifts { map: _ } = self;
    }
}

impl Model for Gifts {
    ghost use Rattle.std.specs.Prelude.{List};
    ghost use Rattle.nf_cons.specs.Terms.{Gift};
    ghost use Rattle.nf_cons.specs.GiftsInside.{gifts_inside};

    ghost Value = { List Gift };

    ghost view = { gifts_inside };
}

impl Gifts {
    pub fn new(alloc: Global) -> Gifts
        ensures { result ≡ [] }
    {
        Gifts {
            map: IndexMap::new(alloc),
        }
    }

    /// What a variable is given, and in which row.
    pub fn get(&self, variable: usize) -> Option<(Value, u32)>
        ensures { result ≡ gift_to variable self.now }
    {
        match self.map.get(&variable) {
            Some(gift) => Some(*gift),
            None => None,
        }
    }

    /// Gives a variable a value in a row. Returns false, and gives nothing, if it was given one before.
    pub fn give(&mut self, variable: usize, value: Value, row: u32) -> Result<bool, AllocError>
        ensures is_new { IfOk result (λ b. b ≡ not (is_given variable self.old)) }
        ensures added { OnOk result (is_given variable self.old ≡ false → self.new ≡ self.old ++ (variable, (value, row)) ∷ []) }
        ensures given { OnOk result (is_given variable self.old ≡ true → self.new ≡ self.old) }
        ensures unchanged { OnErr result (self.new ≡ self.old) }
    {
        if self.get(variable).is_some() {
            return Ok(false);
        }
        let Ok(_) = self.map.insert(variable, (value, row)) else {
            return Err(AllocError);
        };
        Ok(true)
    }
}
