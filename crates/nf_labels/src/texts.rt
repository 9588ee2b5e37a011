//! Lists of texts.
ghost use Rattle.std.specs.Prelude.{◌≡◌, ◌<◌, ◌≤◌, [], ◌∷◌, ◌++◌, ◌-◌, length, get_or, take, IfErr, IfOk, OnOk};

use std::alloc::{AllocError, Global};
use std::marker::Model;

// Where text i begins, by where each ends.
fn begin(ends: &[usize], i: usize) -> usize
    requires { i ≤ length ends.now }
    ensures { result ≡ get_or (0 ∷ ends.now) i 0 }
{
    if i == 0 { 0 } else { ends[i - 1] }
}

/// Texts, one behind another in one buffer, so that none has memory of its own. They are numbered from 0.
#[derive(Drop)]
pub(crate) struct Texts {
    bytes: Vec<u8>,
    // Where each ends. It begins where the one before it ends.
    ends: Vec<usize>,
}

impl Model for Texts {
    ghost use Rattle.std.specs.Prelude.{List, ℕ};
    ghost use Rattle.nf_labels.specs.Texts.{FillTheBytes, texts_inside};

    ghost Value = { List (List ℕ) };

    ghost view = { texts_inside };

    ghost invariant = { FillTheBytes };
}

impl Texts {
    pub(crate) fn new(alloc: Global) -> Texts
        ensures { result ≡ [] }
    {
        Texts {
            bytes: Vec::new(alloc),
            ends: Vec::new(alloc),
        }
    }

    /// No texts, with memory for so many of them beside their bytes. `AllocError` where there is none.
    pub(crate) fn with_capacity(alloc: Global, texts: usize) -> Result<Texts, AllocError>
        ensures { IfOk result (λ t. t ≡ []) }
    {
        Ok(Texts {
            bytes: Vec::new(alloc),
            ends: Vec::with_capacity(alloc, texts)?,
        })
    }

    pub(crate) fn len(&self) -> usize
        ensures { result ≡ length self.now }
    {
        self.ends.len()
    }

    /// Adds a text at the end. `AllocError` where there is no memory: the texts are as they were.
    pub(crate) fn push(&mut self, text: &[u8]) -> Result<(), AllocError>
        ensures added { OnOk result (self.new ≡ self.old ++ text.now ∷ []) }
        ensures kept { IfErr result (λ _. self.new ≡ self.old) }
    {
        let start = self.bytes.len();
        self.bytes.extend_from_slice(text)?;
        match self.ends.push(self.bytes.len()) {
            Ok(()) => Ok(()),
            Err(fault) => {
                self.bytes.truncate(start);
                Err(fault.into())
            }
        }
    }

    /// Takes the last text away, if there is one.
    pub(crate) fn pop(&mut self)
        ensures { self.new ≡ take (length self.old - 1) self.old }
    {
        self.ends.pop();
        let end = begin(&self.ends, self.ends.len());
        self.bytes.truncate(end);
    }

    pub(crate) fn get(&self, i: usize) -> &[u8]
        requires { i < length self.now }
        ensures { result.now ≡ get_or self.now i [] }
    {
        &self.bytes[begin(&self.ends, i)..self.ends[i]]
    }
}
