// The choice of the key columns: each link that closes no cycle with those chosen before.
ghost use Rattle.std.specs.Prelude.{◌≡◌, ◌≢◌, ℕ, suc, ◌<◌, ◌≤◌, ◌^◌, true, false, length, IfOk};
ghost use Rattle.std.specs.List.{All};
ghost use Rattle.nf_view.specs.Keys.{both_ways, joined, kept_from};
ghost use Rattle.nf_view.specs.Parts.{IsBetween, IsUnion, LeadsDown};

use crate::links::Link;
use std::alloc::{AllocError, Global};

// Each of the vertices 0 to n is a part of its own.
fn each_alone(alloc: Global, n: u32) -> Result<Vec<u32>, AllocError>
    requires few { n < 2 ^ 31 }
    ensures room { IfOk result (λ above. length above.items ≡ suc n) }
    ensures down { IfOk result (λ above. LeadsDown above.items) }
    ensures alone { IfOk result (λ above. IsUnion (λ v. v) above.items) }
{
    let mut above = Vec::new(alloc);
    for v in 0..n + 1 {
        above.push(v)?;
    }
    Ok(above)
}

// The name of the part of v, which is the least of its vertices. The ways to it are halved (R. E. Tarjan and J. van
// Leeuwen, 1984: path halving).
fn part_of(above: &mut Vec<u32>, v: u32) -> u32
    requires down { LeadsDown above.old.items }
    requires within { v < length above.old.items }
    ensures down { LeadsDown above.new.items }
    ensures room { length above.new.items ≡ length above.old.items }
    ensures within { result ≤ v }
    ensures named { (part : ℕ → ℕ) → IsUnion part above.old.items → IsUnion part above.new.items × (result ≡ part v) × (part result ≡ result) }
{
    let mut at = v;
    let mut next = above[at as usize];
    while next != at {
        let up = above[next as usize];
        above[at as usize] = up;
        at = up;
        next = above[at as usize];
    }
    at
}

// Whether the ends of a link are in two parts, which are one then.
fn unite(above: &mut Vec<u32>, link: Link) -> bool
    requires down { LeadsDown above.old.items }
    requires begins { link.«from» < length above.old.items }
    requires ends { link.to < length above.old.items }
    ensures down { LeadsDown above.new.items }
    ensures room { length above.new.items ≡ length above.old.items }
    ensures two { (part : ℕ → ℕ) → IsUnion part above.old.items → result ≡ true → (part link.«from» ≢ part link.to) × IsUnion (joined part link) above.new.items }
    ensures one { (part : ℕ → ℕ) → IsUnion part above.old.items → result ≡ false → (part link.«from» ≡ part link.to) × IsUnion part above.new.items }
{
    let one = part_of(above, link.from);
    let other = part_of(above, link.to);
    if one == other {
        return false;
    }
    let (low, high) = (one.min(other), one.max(other));
    above[high as usize] = low;
    true
}

// The links that close no cycle with those kept before them, in both directions, over the vertices 0 to n.
pub(crate) fn keep(alloc: Global, n: u32, links: &[Link]) -> Result<Vec<Link>, AllocError>
    requires few { n < 2 ^ 31 }
    requires between { All (IsBetween n) links.now }
    ensures kept { IfOk result (λ v. v.items ≡ both_ways (kept_from (λ v. v) links.now)) }
    ensures between { IfOk result (λ v. All (IsBetween n) v.items) }
{
    let mut above = each_alone(alloc, n)?;
    let mut kept = Vec::new(alloc);
    for link in links {
        if unite(&mut above, *link) {
            kept.push(*link)?;
            kept.push(link.turned())?;
        }
    }
    Ok(kept)
}
