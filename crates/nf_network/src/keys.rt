//! The arcs, each by its ends and its name.
ghost use Rattle.std.specs.Prelude.{◌≡◌, ◌<◌, ◌^◌, get_or, [], ◌∷◌, ◌++◌, length, IfErr, IfOk, OnOk};
ghost use Rattle.nf_labels.specs.Labels.{no_labels};
ghost use Rattle.nf_network.specs.Excess.{joined_below};
ghost use Rattle.nf_network.specs.Keys.{no_key};
ghost use Rattle.nf_network.specs.Making.{name_at};

use nf_labels::Labels;
use std::alloc::{AllocError, Global};
use std::marker::Model;

/// The arcs in their order. Their names stand in the labels that the problem gets, so that none is copied.
#[derive(Drop)]
pub struct ArcKeys {
    ends: Vec<(usize, usize)>,
    labels: Labels,
}

impl Model for ArcKeys {
    ghost use Rattle.std.specs.Prelude.{List};
    ghost use Rattle.nf_network.specs.Keys.{Key};
    ghost use Rattle.nf_network.specs.KeysInside.{HasOneNameEach, keys_inside};

    ghost Value = { List Key };

    ghost view = { keys_inside };

    ghost invariant = { HasOneNameEach };
}

impl ArcKeys {
    /// No arcs, with room for so many and for so many cells of ID columns.
    pub(crate) fn with_room(alloc: Global, arcs: usize, ids: usize) -> Result<ArcKeys, AllocError>
        ensures { IfOk result (λ keys. keys ≡ []) }
    {
        Ok(ArcKeys {
            ends: Vec::with_capacity(alloc, arcs)?,
            labels: Labels::with_capacity(alloc, arcs, ids)?,
        })
    }

    pub fn len(&self) -> usize
        ensures { result ≡ length self.now }
    {
        self.ends.len()
    }

    /// The numbers of an arc's ends, the tail first.
    pub(crate) fn ends(&self, i: usize) -> (usize, usize)
        requires { i < length self.now }
        ensures tail { result.0 ≡ (get_or self.now i no_key).tail }
        ensures head { result.1 ≡ (get_or self.now i no_key).head }
    {
        self.ends[i]
    }

    /// The number of the last arc's tail, if there is an arc.
    pub(crate) fn last_tail(&self) -> Option<usize> {
        self.ends.last().map(|ends| ends.0)
    }

    /// The name of an arc.
    pub(crate) fn name(&self, i: usize) -> &[u8]
        requires { i < length self.now }
        ensures { result.now ≡ (get_or self.now i no_key).name }
    {
        self.labels.column(i as u32 + 1)
    }

    /// Adds an arc. `AllocError` where there is no memory: the arcs are as they were.
    pub(crate) fn push(&mut self, tail: usize, head: usize, name: &[u8]) -> Result<(), AllocError>
        requires room { length self.old < 2 ^ 30 }
        ensures added { OnOk result (self.new ≡ self.old ++ record { tail = tail; head = head; name = name.now } ∷ []) }
        ensures kept { IfErr result (λ _. self.new ≡ self.old) }
    {
        self.ends.push((tail, head))?;
        match self.labels.push_arc(name) {
            Ok(()) => Ok(()),
            Err(fault) => {
                self.ends.pop();
                Err(fault)
            }
        }
    }

    /// The labels, so far of the arcs alone.
    pub(crate) fn into_labels(self) -> Labels
        ensures { result ≡ record no_labels { columns = joined_below (length self) (name_at self); own_arcs = length self } }
    {
        self.labels
    }
}
