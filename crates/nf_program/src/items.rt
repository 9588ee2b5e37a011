//! Names, and lists of what a program says.
ghost use Rattle.std.specs.Prelude.{List};

use std::alloc::{AllocError, Global};
use std::marker::Model;

/// A list, in the order written.
#[derive(Drop)]
pub struct Items<T> {
    items: Vec<T>,
}

impl<T> Model for Items<T> {
    ghost Value = { List T };

    ghost view = { λ s. s.items.items };
}

impl<T: Drop> Items<T> {
    ghost use Rattle.std.specs.Prelude.{◌≡◌, List, [], ◌∷◌, ◌++◌, OnOk, OnErr};
    ghost use Rattle.nf_program.specs.Programs.{is_empty};

    /// A list without items.
    pub fn new(alloc: Global) -> Self
        ensures { result ≡ [] }
    {
        Items {
            items: Vec::new(alloc),
        }
    }

    /// Adds an item at the end. Out of memory, the list stays as it was.
    pub fn push(&mut self, item: T) -> Result<(), AllocError>
        ensures added { OnOk result (self.new ≡ self.old ++ item ∷ []) }
        ensures kept { OnErr result (self.new ≡ self.old) }
    {
        self.items.push(item)?;
        Ok(())
    }

    /// Whether there is no item.
    pub fn is_empty(&self) -> bool
        ensures { result ≡ is_empty self.now }
    {
        self.items.is_empty()
    }

    /// The items.
    pub fn items(&self) -> &[T]
        ensures { result.now ≡ self.now }
    {
        self.items.as_slice()
    }
}

/// The most bytes of a name.
const MOST: usize = 32;

/// The name of a data set, a column or a node: a list of 1 to 32 bytes.
///
/// It holds no memory of its own. The bytes after the name are 0.
#[derive(Clone, Copy)]
pub struct Name {
    all: [u8; 32],
    len: usize,
}

impl Model for Name {
    ghost use Rattle.std.specs.Prelude.{ℕ, List};
    ghost use Rattle.nf_program.specs.Names.{bytes_of, from_bytes, IsName, gives_back};

    ghost Value = { List ℕ };

    ghost view = { bytes_of };

    ghost invariant = { IsName };

    ghost inverse = { from_bytes };

    ghost inverse_ok = { gives_back };
}

impl Name {
    ghost use Rattle.std.specs.Prelude.{◌≡◌};
    ghost use Rattle.nf_program.specs.Values.{lowered};
    ghost use Rattle.nf_program.specs.ReadValues.{name_of};

    /// The name of these bytes; None if they are none or more than 32.
    pub fn new(bytes: &[u8]) -> Option<Name>
        ensures { result ≡ name_of bytes.now }
    {
        if bytes.is_empty() || bytes.len() > MOST {
            return None;
        }
        let mut all = [0; 32];
        for i in 0..bytes.len() {
            all[i] = bytes[i];
        }
        Some(Name {
            all,
            len: bytes.len(),
        })
    }

    /// The name in lower case.
    pub fn lowered(self) -> Name
        ensures { result ≡ lowered self }
    {
        let mut all = [0; 32];
        for i in 0..self.len {
            all[i] = self.all[i].to_ascii_lowercase();
        }
        Name { all, len: self.len }
    }

    /// The bytes of the name, 1 to 32.
    pub fn bytes(&self) -> &[u8]
        ensures bytes { result.now ≡ self.now }
    {
        &self.all[..self.len]
    }
}
