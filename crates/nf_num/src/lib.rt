//! The rational numbers that contracts speak of. They exist in contracts alone: definitions in specs/, their laws and
//! the tools that close equations (`ring`) and inequalities (`linear_le`) in proofs/. A program that computes takes
//! `Frac` of nf_frac. Each function here does nothing; its contract is a law.
#![tactic(auto)]

ghost use Rattle.nf_num.specs.Field.{AreQuotients, IsOrderedField, SumsExchange};

/// The rationals are an ordered field.
pub fn ordered_field()
    ensures { IsOrderedField }
{}

/// The rationals are the quotients of whole numbers, each in lowest terms.
pub fn quotients()
    ensures { AreQuotients }
{}

/// The order of two sums, one inside the other, does not matter.
pub fn sums_exchanged()
    ensures { SumsExchange }
{}
