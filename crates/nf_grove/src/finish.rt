// What is left to do after the walk: names of keys, the thread, and sizes.
ghost use Rattle.std.specs.Prelude.{◌≡◌, ℕ, suc, ◌+◌, ◌*◌, ◌^◌, ◌<◌, ◌≤◌, length, slice_index};
ghost use Rattle.nf_links.specs.Map.{HasVertices};
ghost use Rattle.nf_grove.specs.Kept.{KeepsAllButArcs, KeepsAllButSizes, KeepsAllButThread};
ghost use Rattle.nf_grove.specs.Order.{IsOrder, IsThread};
ghost use Rattle.nf_grove.specs.Sizes.{AreSizes, AreSummed};

use nf_frac::Steps;
use nf_links::{Field, Links};
use std::sync::ledger::Ledger;

/// Gives each of the nodes 1 to n the name of its key; the root gets 0.
pub(crate) fn name_keys<L: Ledger>(
    nodes: usize,
    names: &[u32],
    key: &[usize],
    links: &mut Links,
    steps: &mut Steps<L>,
)
    requires few { nodes ≤ 2 ^ 30 }
    requires names { length names.now ≡ nodes }
    requires keys { length key.now ≡ suc nodes }
    requires within { (i : ℕ) → i < nodes → slice_index key.now (suc i) < nodes }
    requires vertices { HasVertices nodes links.old }
    ensures vertices { HasVertices nodes links.new }
    ensures arcs { (i : ℕ) → i < nodes → slice_index links.new.arc (suc i) ≡ slice_index names.now (slice_index key.now (suc i)) }
    ensures root { slice_index links.new.arc 0 ≡ 0 }
    ensures kept { KeepsAllButArcs links.old links.new }
    ensures cost { steps.new ≡ steps.old + suc nodes }
{
    links.set(Field::Arc, 0, 0, steps);
    for i in 0..nodes {
        links.set(Field::Arc, i as u32 + 1, names[key[i + 1]], steps);
    }
}

/// Threads the vertices in this order, the last one to the root.
pub(crate) fn string<L: Ledger>(
    nodes: usize,
    order: &[usize],
    links: &mut Links,
    steps: &mut Steps<L>,
)
    requires few { nodes ≤ 2 ^ 30 }
    requires orders { length order.now ≡ suc nodes }
    requires ordered { IsOrder nodes (slice_index links.old.pred) (slice_index order.now) }
    requires vertices { HasVertices nodes links.old }
    ensures vertices { HasVertices nodes links.new }
    ensures thread { IsThread nodes (slice_index links.new.thread) (slice_index order.now) }
    ensures kept { KeepsAllButThread links.old links.new }
    ensures cost { steps.new ≡ steps.old + suc nodes }
{
    for k in 0..nodes {
        links.set(Field::Thread, order[k] as u32, order[k + 1] as u32, steps);
    }
    links.set(Field::Thread, order[nodes] as u32, 0, steps);
}

// Each vertex counts for one.
fn count_one_each<L: Ledger>(nodes: usize, links: &mut Links, steps: &mut Steps<L>)
    requires few { nodes ≤ 2 ^ 30 }
    requires vertices { HasVertices nodes links.old }
    ensures vertices { HasVertices nodes links.new }
    ensures ones { (v : ℕ) → v ≤ nodes → slice_index links.new.size v ≡ 1 }
    ensures kept { KeepsAllButSizes links.old links.new }
    ensures cost { steps.new ≡ steps.old + suc nodes }
{
    for v in 0..nodes + 1 {
        links.set(Field::Size, v as u32, 1, steps);
    }
}

// Adds the size so far of the vertex at place k of the order to that of its predecessor.
fn add_up<L: Ledger>(
    nodes: usize,
    order: &[usize],
    k: usize,
    links: &mut Links,
    steps: &mut Steps<L>,
)
    requires few { nodes ≤ 2 ^ 30 }
    requires orders { length order.now ≡ suc nodes }
    requires ordered { IsOrder nodes (slice_index links.old.pred) (slice_index order.now) }
    requires vertices { HasVertices nodes links.old }
    requires some { 0 < k }
    requires within { k ≤ nodes }
    requires summed { AreSummed nodes (slice_index links.old.pred) (slice_index order.now) (slice_index links.old.size) k }
    ensures vertices { HasVertices nodes links.new }
    ensures summed { (j : ℕ) → k ≡ suc j → AreSummed nodes (slice_index links.new.pred) (slice_index order.now) (slice_index links.new.size) j }
    ensures kept { KeepsAllButSizes links.old links.new }
    ensures cost { steps.new ≡ steps.old + 4 }
{
    let v = order[k] as u32;
    let before = links.get(Field::Pred, v, steps);
    let own = links.get(Field::Size, v, steps);
    let so_far = links.get(Field::Size, before, steps);
    links.set(Field::Size, before, so_far + own, steps);
}

/// Gives each vertex its size: from the last vertex of the order to the first, each size is added to that of the
/// predecessor.
pub(crate) fn weigh<L: Ledger>(
    nodes: usize,
    order: &[usize],
    links: &mut Links,
    steps: &mut Steps<L>,
)
    requires few { nodes ≤ 2 ^ 30 }
    requires orders { length order.now ≡ suc nodes }
    requires ordered { IsOrder nodes (slice_index links.old.pred) (slice_index order.now) }
    requires vertices { HasVertices nodes links.old }
    ensures vertices { HasVertices nodes links.new }
    ensures sizes { AreSizes nodes (slice_index links.new.pred) (slice_index links.new.size) }
    ensures kept { KeepsAllButSizes links.old links.new }
    ensures cost { steps.new ≡ steps.old + suc nodes + 4 * nodes }
{
    count_one_each(nodes, links, steps);
    let mut k = nodes;
    while k > 0 {
        add_up(nodes, order, k, links, steps);
        k -= 1;
    }
}
