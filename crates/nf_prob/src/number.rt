// A number as a column stores it.
ghost use Rattle.std.specs.Prelude.{◌≡◌, IfOk};

use nf_frac::Frac;
use std::alloc::{AllocError, Global};
use std::marker::Model;

// A number in 16 bytes, half of what a `Frac` takes: those of the data mostly have few digits. It is seen as a rational
// number.
#[derive(Drop)]
pub(crate) struct Number {
    parts: Parts,
}

// The fields lie as they are written: the denominator fills the gap behind the tag.
#[derive(Drop)]
enum Parts {
    Small { den: u32, num: i64 },
    Wide(Box<Frac>),
}

impl Model for Number {
    ghost use Rattle.nf_num.specs.Rational.{ℚ};
    ghost use Rattle.nf_num.proofs.Coding.{ℚ_code};

    ghost Value = { ℚ };

    ghost coded = { ℚ_code };

    ghost use Rattle.nf_prob.specs.Parts.{number_of, IsReduced};

    ghost view = { λ n. number_of n.parts };

    ghost invariant = { λ n. IsReduced n.parts };
}

impl Number {
    // `AllocError` where the number does not fit into 16 bytes and there is no memory for it.
    pub(crate) fn new(alloc: Global, value: Frac) -> Result<Number, AllocError>
        ensures { IfOk result (λ n. n ≡ value) }
    {
        let parts = match (i64::try_from(value.num()), u32::try_from(value.den())) {
            (Ok(num), Ok(den)) => Parts::Small { den, num },
            _ => Parts::Wide(Box::new(alloc, value)?),
        };
        Ok(Number { parts })
    }

    // The same of a number that may be missing, as an upper bound may.
    pub(crate) fn new_option(
        alloc: Global,
        value: Option<Frac>,
    ) -> Result<Option<Number>, AllocError>
        ensures { IfOk result (λ n. n ≡ value) }
    {
        match value {
            Some(value) => Ok(Some(Number::new(alloc, value)?)),
            None => Ok(None),
        }
    }

    // Each step of the simplex method asks for the costs and bounds of many columns, so this computes nothing.
    #[inline]
    pub(crate) fn get(&self) -> Frac
        ensures { result ≡ self.now }
    {
        match &self.parts {
            Parts::Small { den, num } => Frac::from_parts(i128::from(*num), u128::from(*den)),
            Parts::Wide(value) => **value,
        }
    }
}
