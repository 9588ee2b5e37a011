//! Lists of names, each once.
ghost use Rattle.std.specs.Prelude.{◌≡◌, ◌<◌, [], length, get_or, IfErr, IfOk, OnOk};
ghost use Rattle.nf_cells.specs.Names.{place_of, with_name, number_of};

use crate::kept::{Name, Sought};
use indexmap::IndexSet;
use std::alloc::{AllocError, Global};
use std::marker::Model;

/// Names, each once, in the order in which they were first seen. They are numbered from 0.
#[derive(Drop)]
pub struct Names {
    alloc: Global,
    set: IndexSet<Name>,
}

impl Model for Names {
    ghost use Rattle.std.specs.Prelude.{List};
    ghost use Rattle.nf_cells.specs.Names.{Name};

    ghost Value = { List Name };

    ghost view = { λ n. n.set.keys };
}

impl Names {
    /// No names.
    pub fn new(alloc: Global) -> Names
        ensures empty { result ≡ [] }
    {
        Names {
            alloc,
            set: IndexSet::new(alloc),
        }
    }

    /// How many names there are.
    pub fn len(&self) -> usize
        ensures length { result ≡ length self.now }
    {
        self.set.len()
    }

    /// The number of a name, or `None` where it is not there.
    pub fn find(&self, name: &[u8]) -> Option<usize>
        ensures number { result ≡ number_of name.now self.now }
    {
        self.set.get_index_of(Sought { bytes: name })
    }

    /// The number of a name, which is added at the end if it is new.
    ///
    /// `AllocError` if there is no memory for it: the names are as they were.
    pub fn number(&mut self, name: &[u8]) -> Result<usize, AllocError>
        ensures place { IfOk result (λ i. i ≡ place_of name.now self.old) }
        ensures names { OnOk result (self.new ≡ with_name self.old name.now) }
        ensures kept { IfErr result (λ _. self.new ≡ self.old) }
    {
        if let Some(i) = self.find(name) {
            return Ok(i);
        }
        let (i, _) = self.set.insert_full(Name::from_slice(self.alloc, name)?)?;
        Ok(i)
    }

    /// The name of a number.
    pub fn get(&self, i: usize) -> &[u8]
        requires there { i < length self.now }
        ensures name { result.now ≡ get_or self.now i [] }
    {
        match self.set.get_index(i) {
            Some(name) => name.as_slice(),
            None => &[],
        }
    }
}
