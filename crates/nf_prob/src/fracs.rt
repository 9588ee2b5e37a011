// Lists of fractions.
ghost use Rattle.std.specs.Prelude.{◌≡◌, List, [], ◌∷◌, ◌++◌, IfOk, IfErr};

use nf_frac::Frac;
use std::alloc::{AllocError, Global};
use std::marker::Model;

/// A list of fractions. It is seen as a list of rational numbers.
#[derive(Drop)]
pub struct Fracs {
    items: Vec<Frac>,
}

impl Model for Fracs {
    ghost use Rattle.std.specs.Prelude.{List};
    ghost use Rattle.std.specs.Coded.{codes};
    ghost use Rattle.nf_num.specs.Rational.{ℚ};
    ghost use Rattle.nf_num.proofs.Coding.{ℚ_code};

    ghost Value = { List ℚ };

    ghost coded = { Prim.hlevel (codes, ℚ_code) };

    ghost view = { λ s. s.items.items };
}

impl Fracs {
    /// The empty list.
    pub fn new(alloc: Global) -> Fracs
        ensures { result ≡ [] }
    {
        Fracs {
            items: Vec::new(alloc),
        }
    }

    /// Adds one at the end. `AllocError` where there is no memory: the list is as it was.
    pub fn push(&mut self, f: Frac) -> Result<(), AllocError>
        ensures added { IfOk result (λ _. self.new ≡ self.old ++ f ∷ []) }
        ensures kept { IfErr result (λ _. self.new ≡ self.old) }
    {
        self.items.push(f)?;
        Ok(())
    }

    /// The fractions in their order.
    pub fn items(&self) -> &[Frac]
        ensures { result.now ≡ self.now }
    {
        self.items.as_slice()
    }
}
