// Duals by which no column has a reduced cost of phase one.
ghost use Rattle.std.specs.Prelude.{◌≡◌, ◌<◌, ◌≤◌, length, IsTrue};
ghost use Rattle.nf_num.specs.Rational.{zero_ℚ};
ghost use Rattle.nf_model.specs.Program.{at};
ghost use Rattle.nf_price.specs.Level.{IsLevel};

use nf_frac::Frac;
use nf_prob::Problem;

// Whether the duals are one number on all node rows, and 0 on the side rows.
pub(crate) fn is_level(p: &Problem, duals: &[Frac]) -> bool
    requires nodes { p.now.nodes ≤ length duals.now }
    ensures { IsTrue result → IsLevel p.now duals.now }
{
    let nodes = p.nodes() as usize;
    for i in 0..duals.len() {
        if !is_same(duals[i], level_at(duals, nodes, i)) {
            return false;
        }
    }
    true
}

// What the dual in a place is, where all are level: that of the first node, and 0 after the nodes.
fn level_at(duals: &[Frac], nodes: usize, place: usize) -> Frac
    requires within { place < length duals.now }
    ensures node { place < nodes → result ≡ at duals.now 0 }
    ensures side { nodes ≤ place → result ≡ zero_ℚ }
{
    if place < nodes {
        duals[0]
    } else {
        Frac::zero()
    }
}

// Whether two numbers are equal.
fn is_same(a: Frac, b: Frac) -> bool
    ensures { IsTrue result → a ≡ b }
{
    a == b
}
