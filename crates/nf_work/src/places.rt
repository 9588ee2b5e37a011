//! Changes of whole places of an inverse: new weights in one, and two that are exchanged.
ghost use Rattle.std.specs.Prelude.{◌≡◌, ◌≢◌, ℕ, ◌<◌, length};
ghost use Rattle.nf_inverse.specs.Weights.{weight};
ghost use Rattle.nf_work.specs.Causes.{numbers};
ghost use Rattle.nf_work.specs.Swapped.{AreSwapped};

use nf_frac::Frac;
use nf_inverse::Inverse;

/// Puts as many weights in place of those of `place`.
pub(crate) fn put_weights(inverse: &mut Inverse, place: usize, weights: &[Frac])
    requires place { place < length inverse.old }
    requires as_many { length weights.now ≡ length inverse.old }
    ensures size { length inverse.new ≡ length inverse.old }
    ensures there { (r : ℕ) → r < length inverse.old → weight inverse.new place r ≡ numbers weights.now r }
    ensures others { (a r : ℕ) → a ≢ place → weight inverse.new a r ≡ weight inverse.old a r }
{
    for row in 0..inverse.size() {
        inverse.put(place, row, weights[row]);
    }
}

/// Exchanges the weights of two places.
pub(crate) fn swap(inverse: &mut Inverse, a: usize, b: usize)
    requires first { a < length inverse.old }
    requires second { b < length inverse.old }
    ensures size { length inverse.new ≡ length inverse.old }
    ensures swapped { AreSwapped inverse.old inverse.new a b }
{
    for row in 0..inverse.size() {
        swap_weights(inverse, a, b, row);
    }
}

// Exchanges the weights of two places at a row.
fn swap_weights(inverse: &mut Inverse, a: usize, b: usize, row: usize)
    requires first { a < length inverse.old }
    requires second { b < length inverse.old }
    requires row { row < length inverse.old }
    ensures size { length inverse.new ≡ length inverse.old }
    ensures first { weight inverse.new a row ≡ weight inverse.old b row }
    ensures second { weight inverse.new b row ≡ weight inverse.old a row }
    ensures other_rows { (s r : ℕ) → r ≢ row → weight inverse.new s r ≡ weight inverse.old s r }
    ensures other_places { (s r : ℕ) → s ≢ a → s ≢ b → weight inverse.new s r ≡ weight inverse.old s r }
{
    let (first, second) = (inverse.weight(a, row), inverse.weight(b, row));
    inverse.put(a, row, second);
    inverse.put(b, row, first);
}
