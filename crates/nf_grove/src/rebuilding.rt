// The links of a tree, made anew.
ghost use Rattle.std.specs.Prelude.{◌≡◌, ℕ, suc, ◌+◌, ◌*◌, ◌^◌, ◌<◌, ◌≤◌, length, slice_index, IsTrue};
ghost use Rattle.nf_grove.specs.Grove.{AreJoined};
ghost use Rattle.nf_grove.specs.Room.{HasEnds, HasLists};
ghost use Rattle.nf_grove.specs.Tree.{IsTreeIn};

use crate::adjacent::Adjacent;
use crate::finish::{name_keys, string, weigh};
use crate::grove::Grove;
use crate::walk::grow;
use nf_frac::Steps;
use nf_links::Field;
use std::sync::ledger::Ledger;

/// Makes the links of the grove those of the tree of these keys, whatever they were before, and returns true, if the keys
/// join all nodes with the root 0; else it returns false, and the links mean nothing. Key q leads from vertex `tails[q]`
/// to vertex `heads[q]`, and its name in the links is `names[q]`. There are as many keys as nodes, in any order.
///
/// Each vertex is visited once and each key looked at twice, in at most `32 * (n + 1)` steps.
pub fn rebuild<L: Ledger>(
    tails: &[usize],
    heads: &[usize],
    names: &[u32],
    out: &mut Adjacent,
    into: &mut Adjacent,
    grove: &mut Grove,
    steps: &mut Steps<L>,
) -> bool
    requires few { length tails.now ≤ 2 ^ 30 }
    requires heads { length heads.now ≡ length tails.now }
    requires names { length names.now ≡ length tails.now }
    requires tails_within { (q : ℕ) → q < length tails.now → slice_index tails.now q ≤ length tails.now }
    requires heads_within { (q : ℕ) → q < length tails.now → slice_index heads.now q ≤ length tails.now }
    requires out { HasEnds (length tails.now) out.old }
    requires into { HasEnds (length tails.now) into.old }
    requires lists { HasLists (length tails.now) grove.old }
    ensures out { HasEnds (length tails.now) out.new }
    ensures into { HasEnds (length tails.now) into.new }
    ensures lists { HasLists (length tails.now) grove.new }
    ensures joined { AreJoined (length tails.now) tails.now heads.now → IsTrue result }
    ensures tree { IsTrue result → IsTreeIn tails.now heads.now names.now grove.new }
    ensures cost { steps.new ≤ steps.old + 32 * suc (length tails.now) }
{
    let nodes = tails.len();
    grow(
        tails,
        heads,
        out.first.as_mut_slice(),
        out.next.as_mut_slice(),
        into.first.as_mut_slice(),
        into.next.as_mut_slice(),
        grove,
        steps,
    );
    if grove.visited <= nodes {
        return false;
    }
    grove.links.set(Field::Pred, 0, 0, steps);
    name_keys(nodes, names, grove.key.as_slice(), &mut grove.links, steps);
    string(nodes, grove.order.as_slice(), &mut grove.links, steps);
    weigh(nodes, grove.order.as_slice(), &mut grove.links, steps);
    true
}
