//! A name as lists and keys keep it.
ghost use Rattle.std.specs.Prelude.{◌≡◌, ◌++◌, IfErr, IfOk, OnOk};
ghost use Rattle.std.specs.Str.{str_to_ascii_lowercase};

use indexmap::Equivalent;
use smallvec::SmallVec;
use std::alloc::{AllocError, Global};
use std::cmp::{Eq, PartialEq};
use std::hash::{Hash, Hasher};
use std::marker::Model;

/// The bytes of a name. 24 of them need no memory of their own, and they are hashed in one piece.
#[derive(Drop)]
pub struct Name {
    bytes: SmallVec<u8, 24>,
}

impl Model for Name {
    ghost use Rattle.std.specs.Prelude.{ℕ, List};

    ghost Value = { List ℕ };

    ghost view = { λ n. n.bytes.items };
}

impl Name {
    /// A name of these bytes. `AllocError` where they are more than 24 and there is no memory for them.
    pub fn from_slice(alloc: Global, bytes: &[u8]) -> Result<Name, AllocError>
        ensures bytes { IfOk result (λ n. n ≡ bytes.now) }
    {
        Ok(Name {
            bytes: SmallVec::from_slice(alloc, bytes)?,
        })
    }

    /// A name of these bytes in small ASCII letters. `AllocError` if they are more than 24 and there is no memory for them.
    pub fn lowered(alloc: Global, bytes: &[u8]) -> Result<Name, AllocError>
        ensures bytes { IfOk result (λ n. n ≡ str_to_ascii_lowercase bytes.now) }
    {
        let mut name = Name::from_slice(alloc, bytes)?;
        name.bytes.as_mut_slice().make_ascii_lowercase();
        Ok(name)
    }

    /// Adds bytes at the end. `AllocError` if they are more than 24 then and there is no memory for them: the name is as
    /// it was.
    pub fn extend_from_slice(&mut self, bytes: &[u8]) -> Result<(), AllocError>
        ensures bytes { OnOk result (self.new ≡ self.old ++ bytes.now) }
        ensures kept { IfErr result (λ _. self.new ≡ self.old) }
    {
        self.bytes.extend_from_slice(bytes)
    }

    /// Its bytes.
    pub fn as_slice(&self) -> &[u8]
        ensures bytes { result.now ≡ self.now }
    {
        self.bytes.as_slice()
    }
}

impl PartialEq for Name {
    ghost use Rattle.std.specs.Cmp as Cmp;
    ghost use Rattle.std.specs.Cmp.Lexicographic.{nat_list_eq_equiv};
    ghost use Rattle.std.specs.Str.{bytes_eq};

    ghost eq = { bytes_eq };

    ghost laws = { Cmp.partial_equiv_from_equiv nat_list_eq_equiv };

    fn eq(&self, other: &Name) -> bool {
        self.as_slice() == other.as_slice()
    }
}

impl Eq for Name {
    ghost use Rattle.std.specs.Cmp.Lexicographic.{nat_list_eq_equiv};

    ghost laws = { nat_list_eq_equiv };
}

impl Hash for Name {
    ghost use Rattle.std.specs.Prelude.{[], ◌∷◌};
    ghost use Rattle.std.specs.Cmp.Lexicographic.{bytes_decides};
    ghost use Rattle.std.proofs.Common.{ap};

    ghost hash_input = { λ n. n ∷ [] };

    ghost respects_eq = { λ m n same. ap (λ bytes. bytes ∷ []) ((bytes_decides m n).0 same) };

    fn hash<H: Hasher>(&self, state: &mut H) {
        state.write(self.as_slice());
    }
}

/// A name that is looked for, by its bytes alone.
#[derive(Clone, Copy)]
pub(crate) struct Sought<'a> {
    pub(crate) bytes: &'a [u8],
}

impl<'a> PartialEq for Sought<'a> {
    ghost use Rattle.std.specs.Cmp as Cmp;
    ghost use Rattle.std.specs.Cmp.{on_per};
    ghost use Rattle.std.specs.Cmp.Lexicographic.{nat_list_eq_equiv};
    ghost use Rattle.std.specs.Str.{bytes_eq};

    ghost eq = { λ a b. bytes_eq a.bytes.now b.bytes.now };

    ghost laws = { on_per (λ a. a.bytes.now) (Cmp.partial_equiv_from_equiv nat_list_eq_equiv) };

    fn eq(&self, other: &Sought<'a>) -> bool {
        self.bytes == other.bytes
    }
}

impl<'a> Eq for Sought<'a> {
    ghost use Rattle.std.specs.Cmp.{on_equiv};
    ghost use Rattle.std.specs.Cmp.Lexicographic.{nat_list_eq_equiv};

    ghost laws = { on_equiv (λ a. a.bytes.now) nat_list_eq_equiv };
}

impl<'a> Hash for Sought<'a> {
    ghost use Rattle.std.specs.Prelude.{[], ◌∷◌};
    ghost use Rattle.std.specs.Cmp.Lexicographic.{bytes_decides};
    ghost use Rattle.std.proofs.Common.{ap};

    ghost hash_input = { λ a. a.bytes.now ∷ [] };

    ghost respects_eq = { λ a b same. ap (λ bytes. bytes ∷ []) ((bytes_decides a.bytes.now b.bytes.now).0 same) };

    fn hash<H: Hasher>(&self, state: &mut H) {
        state.write(self.bytes);
    }
}

impl<'a> Equivalent<Name> for Sought<'a> {
    ghost use Rattle.std.specs.Prelude.{[], ◌∷◌};
    ghost use Rattle.std.specs.Cmp.Lexicographic.{bytes_decides, nat_list_eq_equiv};
    ghost use Rattle.std.specs.Str.{bytes_eq};
    ghost use Rattle.std.proofs.Common.{ap};

    ghost equivalent = { λ a n. bytes_eq a.bytes.now n };

    ghost respects_hash = { λ a n same. ap (λ bytes. bytes ∷ []) ((bytes_decides a.bytes.now n).0 same) };

    ghost respects_eq = { λ a m n. nat_list_eq_equiv.congr a.bytes.now m n };

    fn equivalent(&self, name: &Name) -> bool {
        self.bytes == name.as_slice()
    }
}
