// Subtrees: their sizes, siblings by number, and the preorder.
ghost use Rattle.std.specs.Prelude.{◌≡◌, ◌==◌, ℕ, suc, ◌<◌, ◌≤◌, ◌^◌, length, slice_index, if◌then◌else◌, IfOk};
ghost use Rattle.nf_view.specs.Order.{HasChildren, IsOrder};
ghost use Rattle.nf_view.specs.Sizes.{AreSizes};
ghost use Rattle.nf_view.specs.View.{IsPreorder};

use std::alloc::{AllocError, Global};

// The sizes of the subtrees: from the last vertex of the order to the first, each is added to its predecessor.
pub(crate) fn subtree_sizes(
    alloc: Global,
    n: u32,
    pred: &[u32],
    order: &[u32],
) -> Result<Vec<u32>, AllocError>
    requires few { n < 2 ^ 31 }
    requires preds { length pred.now ≡ suc n }
    requires orders { length order.now ≡ suc n }
    requires ordered { IsOrder n (slice_index pred.now) (slice_index order.now) }
    ensures room { IfOk result (λ size. length size.items ≡ suc n) }
    ensures sizes { IfOk result (λ size. AreSizes n (slice_index pred.now) (slice_index size.items)) }
{
    let mut size = vec![in alloc; 1; n as usize + 1]?;
    let mut k = n as usize;
    while k > 0 {
        let v = order[k] as usize;
        let before = pred[v] as usize;
        let both = size[before] + size[v];
        size[before] = both;
        k -= 1;
    }
    Ok(size)
}

// Children by number: the first child of each vertex, and the next sibling of each child. 0 is none.
#[derive(Drop)]
pub(crate) struct Children {
    pub first: Vec<u32>,
    pub sibling: Vec<u32>,
}

// Links children by number.
fn link_children(alloc: Global, n: u32, pred: &[u32]) -> Result<Children, AllocError>
    requires few { n < 2 ^ 31 }
    requires preds { length pred.now ≡ suc n }
    requires within { (v : ℕ) → 0 < v → v ≤ n → slice_index pred.now v ≤ n }
    ensures { IfOk result (λ c. HasChildren n (slice_index pred.now) c.first.items c.sibling.items 0) }
{
    let mut first = vec![in alloc; 0; n as usize + 1]?;
    let mut sibling = vec![in alloc; 0; n as usize + 1]?;
    let mut w = n;
    while w > 0 {
        let before = pred[w as usize] as usize;
        let later = first[before];
        sibling[w as usize] = later;
        first[before] = w;
        w -= 1;
    }
    Ok(Children { first, sibling })
}

// The number, or if it is 0 the other.
fn or_else(c: u32, other: u32) -> u32
    ensures { result ≡ (if c == 0 then other else c) }
{
    if c == 0 { other } else { c }
}

// What comes after each vertex: what comes after its subtree is found along the order, in which its predecessor is before
// it.
fn thread(
    alloc: Global,
    n: u32,
    pred: &[u32],
    order: &[u32],
    children: &Children,
) -> Result<Vec<u32>, AllocError>
    requires few { n < 2 ^ 31 }
    requires preds { length pred.now ≡ suc n }
    requires orders { length order.now ≡ suc n }
    requires children { HasChildren n (slice_index pred.now) children.now.first.items children.now.sibling.items 0 }
    requires ordered { IsOrder n (slice_index pred.now) (slice_index order.now) }
    ensures room { IfOk result (λ next. length next.items ≡ suc n) }
    ensures preorder { IfOk result (λ next. IsPreorder n (slice_index pred.now) (slice_index next.items)) }
{
    let mut after = vec![in alloc; 0; n as usize + 1]?;
    let mut next = vec![in alloc; 0; n as usize + 1]?;
    next[0] = children.first[0];
    let mut k = 1;
    while k <= n as usize {
        let v = order[k] as usize;
        let follows = or_else(children.sibling[v], after[pred[v] as usize]);
        after[v] = follows;
        next[v] = or_else(children.first[v], follows);
        k += 1;
    }
    Ok(next)
}

// The next vertex after each in the preorder from the root with children by number, and 0 after the last.
pub(crate) fn next_in_preorder(
    alloc: Global,
    n: u32,
    pred: &[u32],
    order: &[u32],
) -> Result<Vec<u32>, AllocError>
    requires few { n < 2 ^ 31 }
    requires preds { length pred.now ≡ suc n }
    requires orders { length order.now ≡ suc n }
    requires ordered { IsOrder n (slice_index pred.now) (slice_index order.now) }
    requires within { (v : ℕ) → 0 < v → v ≤ n → slice_index pred.now v ≤ n }
    ensures room { IfOk result (λ next. length next.items ≡ suc n) }
    ensures preorder { IfOk result (λ next. IsPreorder n (slice_index pred.now) (slice_index next.items)) }
{
    let children = link_children(alloc, n, pred)?;
    thread(alloc, n, pred, order, &children)
}
