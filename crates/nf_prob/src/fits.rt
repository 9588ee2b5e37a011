// Tests of one number against bounds, a row or a sign.
ghost use Rattle.std.specs.Prelude.{◌≡◌, ◌≢◌, ◌↔◌, None, Some, IsTrue, MatchOption};
ghost use Rattle.nf_num.specs.Rational.{ℚ, zero_ℚ, ◌≤ℚ◌, ◌<ℚ◌};
ghost use Rattle.nf_model.specs.Certificate.{IsComplementary, IsSigned, IsSignedByBounds};
ghost use Rattle.nf_model.specs.Farkas.{IsBounded};
ghost use Rattle.nf_model.specs.Program.{IsAtLeast, IsAtMost, Stands};
ghost use Rattle.nf_model.specs.Ray.{IsUnstopped};
ghost use Rattle.nf_prob.specs.Highest.{highest};

use nf_frac::Frac;
use nf_model::RowKind;
use std::cmp::Ordering;

fn is_le(a: Frac, b: Frac) -> bool
    ensures { IsTrue result ↔ (a ≤ℚ b) }
{
    match a.cmp(b) {
        Ordering::Less => true,
        Ordering::Equal => true,
        Ordering::Greater => false,
    }
}

pub(crate) fn is_less(a: Frac, b: Frac) -> bool
    ensures { IsTrue result ↔ (a <ℚ b) }
{
    match a.cmp(b) {
        Ordering::Less => true,
        Ordering::Equal => false,
        Ordering::Greater => false,
    }
}

fn is_equal(a: Frac, b: Frac) -> bool
    ensures { IsTrue result ↔ (a ≡ b) }
{
    a == b
}

pub(crate) fn is_at_least(lower: Option<Frac>, v: Frac) -> bool
    ensures { IsTrue result ↔ IsAtLeast lower v }
{
    match lower {
        None => true,
        Some(l) => is_le(l, v),
    }
}

pub(crate) fn is_at_most(upper: Option<Frac>, v: Frac) -> bool
    ensures { IsTrue result ↔ IsAtMost upper v }
{
    match upper {
        None => true,
        Some(u) => is_le(v, u),
    }
}

pub(crate) fn stands(kind: RowKind, sum: Frac, right: Frac) -> bool
    ensures { IsTrue result ↔ Stands kind sum right }
{
    match kind {
        RowKind::Eq => is_equal(sum, right),
        RowKind::Le => is_le(sum, right),
        RowKind::Ge => is_le(right, sum),
    }
}

fn stands_at(bound: Option<Frac>, v: Frac) -> bool
    ensures { IsTrue result ↔ (bound ≡ Some v) }
{
    match bound {
        None => false,
        Some(b) => is_equal(b, v),
    }
}

// A reduced cost against the bounds and the value of its column.
pub(crate) fn cost_fits(d: Frac, lower: Option<Frac>, upper: Option<Frac>, v: Frac) -> bool
    ensures { IsTrue result ↔ IsSignedByBounds d lower upper v }
{
    match d.sign() {
        Ordering::Less => stands_at(upper, v),
        Ordering::Equal => true,
        Ordering::Greater => stands_at(lower, v),
    }
}

pub(crate) fn is_signed(kind: RowKind, y: Frac) -> bool
    ensures { IsTrue result ↔ IsSigned kind y }
{
    match kind {
        RowKind::Eq => true,
        RowKind::Le => is_le(y, Frac::zero()),
        RowKind::Ge => is_le(Frac::zero(), y),
    }
}

// A dual against the kind, the sum and the right side of its row.
pub(crate) fn dual_fits(kind: RowKind, sum: Frac, right: Frac, y: Frac) -> bool
    ensures { IsTrue result ↔ IsComplementary kind sum right y }
{
    match kind {
        RowKind::Eq => true,
        _ => is_signed(kind, y) && (is_equal(y, Frac::zero()) || is_equal(sum, right)),
    }
}

// Where a number times `w` is greatest within these bounds, or None where it has no greatest value.
pub(crate) fn place_of_greatest(lower: Option<Frac>, upper: Option<Frac>, w: Frac) -> Option<Frac>
    ensures { MatchOption result (IsBounded lower upper w → ⊥) (λ place. IsBounded lower upper w × (place ≡ highest lower upper w)) }
{
    match w.sign() {
        Ordering::Less => lower,
        Ordering::Equal => Some(Frac::zero()),
        Ordering::Greater => upper,
    }
}

fn is_missing(bound: Option<Frac>) -> bool
    ensures { IsTrue result ↔ (bound ≡ None) }
{
    match bound {
        None => true,
        Some(_) => false,
    }
}

// Whether no bound stops a move by any multiple of `d`.
pub(crate) fn is_unstopped(d: Frac, lower: Option<Frac>, upper: Option<Frac>) -> bool
    ensures { IsTrue result ↔ IsUnstopped d lower upper }
{
    match d.sign() {
        Ordering::Less => is_missing(lower),
        Ordering::Equal => true,
        Ordering::Greater => is_missing(upper),
    }
}
