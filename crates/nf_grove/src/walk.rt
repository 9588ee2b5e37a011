// The depth-first search from the root over the keys: a vertex is visited, and the nodes at the other ends of its keys
// wait on a stack.
ghost use Rattle.std.specs.Prelude.{◌≡◌, ◌≢◌, ℕ, suc, ◌+◌, ◌-◌, ◌*◌, ◌^◌, ◌<◌, ◌≤◌, ◌⊎◌, length, slice_index};
ghost use Rattle.nf_grove.specs.Grove.{AreLinked, AreJoined, IsScanned, IsGrove, HasRoom, IsCurrent, Keeps};

use crate::adjacent::link;
use crate::grove::Grove;
use nf_frac::Steps;
use nf_links::Field;
use std::sync::ledger::Ledger;

// Meets node u for the first time, by key q from v, which was visited last: u waits, with v as its predecessor.
fn meet<L: Ledger>(
    tails: &[usize],
    heads: &[usize],
    g: &mut Grove,
    v: usize,
    u: usize,
    q: usize,
    steps: &mut Steps<L>,
)
    requires grove { IsGrove (length tails.now) tails.now heads.now g.old }
    requires current { IsCurrent g.old v }
    requires from { v ≤ length tails.now }
    requires node { u ≤ length tails.now }
    requires unmet { slice_index g.old.seat.items u ≡ 0 }
    requires key { q < length tails.now }
    requires joins { ((slice_index tails.now q ≡ u) × (slice_index heads.now q ≡ v)) ⊎ ((slice_index tails.now q ≡ v) × (slice_index heads.now q ≡ u)) }
    ensures grove { IsGrove (length tails.now) tails.now heads.now g.new }
    ensures current { IsCurrent g.new v }
    ensures keeps { Keeps g.old g.new }
    ensures here { 0 < slice_index g.new.seat.items u }
    ensures more { g.new.waiting ≡ g.old.waiting + 1 }
    ensures cost { steps.new ≡ steps.old + 3 }
{
    let height = g.waiting;
    g.links.set(Field::Pred, u as u32, v as u32, steps);
    let below = g.links.get(Field::Depth, v as u32, steps);
    g.links.set(Field::Depth, u as u32, below + 1, steps);
    g.seat[u] = tails.len() + 2 + height;
    g.stack[height] = u;
    g.key[u] = q;
    g.waiting = height + 1;
}

// Visits the node on top of the stack.
fn visit(tails: &[usize], heads: &[usize], g: &mut Grove) -> usize
    requires grove { IsGrove (length tails.now) tails.now heads.now g.old }
    requires some { 0 < g.old.waiting }
    requires begun { 0 < g.old.visited }
    ensures grove { IsGrove (length tails.now) tails.now heads.now g.new }
    ensures current { IsCurrent g.new result }
    ensures node { result ≤ length tails.now }
    ensures more { g.new.visited ≡ g.old.visited + 1 }
    ensures waited { 0 < slice_index g.old.seat.items result }
    ensures fewer { g.new.waiting + 1 ≡ g.old.waiting }
    ensures others { (v : ℕ) → v ≢ result → slice_index g.new.seat.items v ≡ slice_index g.old.seat.items v }
{
    let height = g.waiting - 1;
    let v = g.stack[height];
    let place = g.visited;
    g.waiting = height;
    g.order[place] = v;
    g.visited = place + 1;
    g.seat[v] = place + 1;
    v
}

// Meets all nodes at the other end of the keys that have v at this end.
fn scan<L: Ledger>(
    at: &[usize],
    other: &[usize],
    first: &[usize],
    next: &[usize],
    tails: &[usize],
    heads: &[usize],
    g: &mut Grove,
    v: usize,
    steps: &mut Steps<L>,
)
    requires grove { IsGrove (length tails.now) tails.now heads.now g.old }
    requires current { IsCurrent g.old v }
    requires from { v ≤ length tails.now }
    requires firsts { length first.now ≡ suc (length tails.now) }
    requires nexts { length next.now ≡ length tails.now }
    requires linked { AreLinked at.now first.now next.now (length tails.now) }
    requires sides { ((at.now ≡ tails.now) × (other.now ≡ heads.now)) ⊎ ((at.now ≡ heads.now) × (other.now ≡ tails.now)) }
    ensures grove { IsGrove (length tails.now) tails.now heads.now g.new }
    ensures current { IsCurrent g.new v }
    ensures keeps { Keeps g.old g.new }
    ensures scanned { (q : ℕ) → q < length tails.now → slice_index at.now q ≡ v → 0 < slice_index g.new.seat.items (slice_index other.now q) }
    ensures cost { steps.new + 3 * g.old.waiting ≡ steps.old + 3 * g.new.waiting }
{
    let mut cursor = first[v];
    while cursor > 0 {
        let q = cursor - 1;
        let u = other[q];
        if g.seat[u] == 0 {
            meet(tails, heads, g, v, u, q, steps);
        }
        cursor = next[q];
    }
}

// Visits the root, with no other vertex met.
fn begin<L: Ledger>(tails: &[usize], heads: &[usize], g: &mut Grove, steps: &mut Steps<L>)
    requires room { HasRoom (length tails.now) tails.now heads.now g.old }
    ensures grove { IsGrove (length tails.now) tails.now heads.now g.new }
    ensures current { IsCurrent g.new 0 }
    ensures visited { g.new.visited ≡ 1 }
    ensures none_waits { g.new.waiting ≡ 0 }
    ensures cost { steps.new ≡ steps.old + 1 }
{
    for v in 0..g.seat.len() {
        g.seat[v] = 0;
    }
    g.seat[0] = 1;
    g.order[0] = 0;
    g.links.set(Field::Depth, 0, 0, steps);
    g.visited = 1;
    g.waiting = 0;
}

// Visits all vertices that the keys join with the root.
pub(crate) fn grow<L: Ledger>(
    tails: &[usize],
    heads: &[usize],
    out_first: &mut [usize],
    out_next: &mut [usize],
    in_first: &mut [usize],
    in_next: &mut [usize],
    g: &mut Grove,
    steps: &mut Steps<L>,
)
    requires room { HasRoom (length tails.now) tails.now heads.now g.old }
    requires out_firsts { length out_first.old ≡ suc (length tails.now) }
    requires out_nexts { length out_next.old ≡ length tails.now }
    requires in_firsts { length in_first.old ≡ suc (length tails.now) }
    requires in_nexts { length in_next.old ≡ length tails.now }
    ensures grove { IsGrove (length tails.now) tails.now heads.now g.new }
    ensures none_waits { g.new.waiting ≡ 0 }
    ensures cost { steps.new ≤ steps.old + 4 * suc (length tails.now) }
    ensures all_met { AreJoined (length tails.now) tails.now heads.now → (v : ℕ) → v ≤ length tails.now → 0 < slice_index g.new.seat.items v }
{
    link(tails, out_first, out_next);
    link(heads, in_first, in_next);
    begin(tails, heads, g, steps);
    let mut v = 0;
    'walk: loop {
        scan(tails, heads, out_first, out_next, tails, heads, g, v, steps);
        scan(heads, tails, in_first, in_next, tails, heads, g, v, steps);
        if g.waiting == 0 {
            break;
        }
        v = visit(tails, heads, g);
    }
}
