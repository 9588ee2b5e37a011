// A column that may enter, by the sign of its reduced cost.
ghost use Rattle.std.specs.Prelude.{◌≢◌, IfNone, IfSome};
ghost use Rattle.nf_num.specs.Rational.{zero_ℚ, ◌<ℚ◌};
ghost use Rattle.nf_simplex.specs.Pricing.{HasWrongSign};
ghost use Rattle.nf_basis.specs.Names.{place_of};
ghost use Rattle.nf_price.specs.Wanted.{IsMoveBy};

use nf_basis::Place;
use nf_frac::Frac;
use std::cmp::Ordering;

// A column that a phase wants, by number; the magnitude of its reduced cost, and whether it moves down.
#[derive(Clone, Copy)]
pub(crate) struct Candidate {
    pub(crate) number: u32,
    pub(crate) size: Frac,
    pub(crate) down: bool,
}

impl Candidate {
    // The column with a number that stands here, where its reduced cost has the wrong sign.
    pub(crate) fn of(k: u32, place: Place, d: Frac) -> Option<Candidate>
        ensures wrong { IfSome result (λ c. HasWrongSign (place_of place) d) }
        ensures moves { IfSome result (IsMoveBy k d) }
        ensures right { IfNone result (HasWrongSign (place_of place) d → ⊥) }
    {
        match place {
            Place::Lower => Candidate::rising(k, d),
            Place::Upper => Candidate::falling(k, d),
            Place::Zero => Candidate::moving(k, d),
            Place::Basic | Place::Absent => None,
        }
    }

    // From zero it moves up or down, where its reduced cost is not 0.
    fn moving(k: u32, d: Frac) -> Option<Candidate>
        ensures other { IfSome result (λ c. d ≢ zero_ℚ) }
        ensures moves { IfSome result (IsMoveBy k d) }
        ensures right { IfNone result (d ≢ zero_ℚ → ⊥) }
    {
        match Candidate::rising(k, d) {
            Some(c) => Some(c),
            None => Candidate::falling(k, d),
        }
    }

    // It moves up where its reduced cost is negative.
    fn rising(k: u32, d: Frac) -> Option<Candidate>
        ensures below { IfSome result (λ c. d <ℚ zero_ℚ) }
        ensures moves { IfSome result (IsMoveBy k d) }
        ensures right { IfNone result (d <ℚ zero_ℚ → ⊥) }
    {
        match d.sign() {
            Ordering::Less => Some(Candidate {
                number: k,
                size: d.neg(),
                down: false,
            }),
            Ordering::Equal | Ordering::Greater => None,
        }
    }

    // It moves down where its reduced cost is positive.
    fn falling(k: u32, d: Frac) -> Option<Candidate>
        ensures above { IfSome result (λ c. zero_ℚ <ℚ d) }
        ensures moves { IfSome result (IsMoveBy k d) }
        ensures right { IfNone result (zero_ℚ <ℚ d → ⊥) }
    {
        match d.sign() {
            Ordering::Less | Ordering::Equal => None,
            Ordering::Greater => Some(Candidate {
                number: k,
                size: d,
                down: true,
            }),
        }
    }
}
