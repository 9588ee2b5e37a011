// The keys of a tree, put into the slots of their nodes.
ghost use Rattle.std.specs.Prelude.{◌≡◌, ℕ, suc, ◌+◌, ◌^◌, ◌<◌, ◌≤◌, length, slice_index};
ghost use Rattle.nf_model.specs.Program.{at};
ghost use Rattle.nf_basis.specs.Numbers.{in_slot};

use crate::ends::{column_in, number_in};
use nf_basis::Col;
use nf_frac::{Frac, Steps};
use nf_links::{Field, Links};
use std::sync::ledger::Ledger;

/// Copies the columns in the slots, and their values.
pub(crate) fn copy(slots: &[Col], values: &[Frac], keys: &mut Vec<Col>, work: &mut Vec<Frac>)
    requires columns { length keys.old.items ≡ length slots.now }
    requires numbers { length work.old.items ≡ length slots.now }
    requires values { length values.now ≡ length slots.now }
    ensures long_keys { length keys.new.items ≡ length slots.now }
    ensures long_work { length work.new.items ≡ length slots.now }
    ensures keys { (q : ℕ) → q < length slots.now → in_slot keys.new.items q ≡ in_slot slots.now q }
    ensures work { (q : ℕ) → q < length slots.now → at work.new.items q ≡ at values.now q }
{
    for q in 0..slots.len() {
        keys[q] = column_in(slots, q);
        work[q] = number_in(values, q);
    }
}

/// Puts each node's key into the slot of the node.
pub(crate) fn arrange(keys: &[Col], key: &[usize], slots: &mut Vec<Col>)
    requires places { length key.now ≡ suc (length keys.now) }
    requires within { (i : ℕ) → i < length keys.now → slice_index key.now (suc i) < length keys.now }
    requires slots { length slots.old.items ≡ length keys.now }
    ensures long { length slots.new.items ≡ length keys.now }
    ensures slots { (i : ℕ) → i < length keys.now → in_slot slots.new.items i ≡ in_slot keys.now (slice_index key.now (suc i)) }
{
    for i in 0..keys.len() {
        slots[i] = column_in(keys, key[i + 1]);
    }
}

/// Puts the number of each node's key into the slot of the node.
pub(crate) fn arrange_numbers(numbers: &[Frac], key: &[usize], values: &mut Vec<Frac>)
    requires places { length key.now ≡ suc (length numbers.now) }
    requires within { (i : ℕ) → i < length numbers.now → slice_index key.now (suc i) < length numbers.now }
    requires values { length values.old.items ≡ length numbers.now }
    ensures long { length values.new.items ≡ length numbers.now }
    ensures values { (i : ℕ) → i < length numbers.now → at values.new.items i ≡ at numbers.now (slice_index key.now (suc i)) }
{
    for i in 0..numbers.len() {
        values[i] = number_in(numbers, key[i + 1]);
    }
}

// Copies a list of ends.
fn copy_ends(ends: &[usize], spare: &mut Vec<usize>)
    requires room { length spare.old.items ≡ length ends.now }
    ensures long { length spare.new.items ≡ length ends.now }
    ensures ends { (q : ℕ) → q < length ends.now → slice_index spare.new.items q ≡ slice_index ends.now q }
{
    for q in 0..ends.len() {
        spare[q] = ends[q];
    }
}

// Puts the end of each node's key into the slot of the node.
fn place_ends(ends: &[usize], key: &[usize], slots: &mut Vec<usize>)
    requires places { length key.now ≡ suc (length ends.now) }
    requires within { (i : ℕ) → i < length ends.now → slice_index key.now (suc i) < length ends.now }
    requires slots { length slots.old.items ≡ length ends.now }
    ensures long { length slots.new.items ≡ length ends.now }
    ensures ends { (i : ℕ) → i < length ends.now → slice_index slots.new.items i ≡ slice_index ends.now (slice_index key.now (suc i)) }
{
    for i in 0..ends.len() {
        slots[i] = ends[key[i + 1]];
    }
}

/// Puts the end of each node's key into the slot of the node. `spare` is room for a list of ends.
pub(crate) fn arrange_ends(key: &[usize], ends: &mut Vec<usize>, spare: &mut Vec<usize>)
    requires places { length key.now ≡ suc (length ends.old.items) }
    requires within { (i : ℕ) → i < length ends.old.items → slice_index key.now (suc i) < length ends.old.items }
    requires room { length spare.old.items ≡ length ends.old.items }
    ensures long { length ends.new.items ≡ length ends.old.items }
    ensures room { length spare.new.items ≡ length ends.old.items }
    ensures ends { (i : ℕ) → i < length ends.old.items → slice_index ends.new.items i ≡ slice_index ends.old.items (slice_index key.now (suc i)) }
{
    copy_ends(ends.as_slice(), spare);
    place_ends(spare.as_slice(), key, ends);
}

/// Reads the names of the nodes' keys from the links.
pub(crate) fn take_names<L: Ledger>(links: &Links, names: &mut Vec<u32>, steps: &mut Steps<L>)
    requires few { length names.old.items < 2 ^ 31 }
    requires arcs { length links.now.arc ≡ suc (length names.old.items) }
    ensures long { length names.new.items ≡ length names.old.items }
    ensures names { (i : ℕ) → i < length names.old.items → slice_index names.new.items i ≡ slice_index links.now.arc (suc i) }
    ensures cost { steps.new ≤ steps.old + length names.old.items }
{
    for i in 0..names.len() {
        names[i] = links.get(Field::Arc, i as u32 + 1, steps);
    }
}
