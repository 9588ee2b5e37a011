//! The variables of CONDATA by their names.
ghost use Rattle.std.specs.Prelude.{◌≡◌, ◌≤◌, ◌<◌, ◌+◌, ◌^◌, ◌++◌, ◌∷◌, [], None, false, IfOk, MatchResult, OnErr, OnOk, get_or, length};
ghost use Rattle.std.specs.Bool.{nat_lt};
ghost use Rattle.nf_cells.specs.Names.{has_name, place_of};
ghost use Rattle.nf_cons.specs.Naming.{IsSound, IsNumbered, faults_now, limit_faults, with_nonarc};
ghost use Rattle.nf_cons.specs.Bounds.{no_home};
ghost use Rattle.nf_cons.specs.Places.{IsFaultOf, first_of};
ghost use Rattle.nf_cons.specs.Variables.{most_nonarcs};

use crate::arcs::ArcNames;
use crate::fault::at;
use crate::places::{Home, PlacedFault};
use nf_cells::{Names, is_name};
use nf_network::is_excess;
use nf_roles::DataKind;
use std::alloc::{AllocError, Global};
use std::marker::Model;

const MOST_NONARCS: usize = 5_000;

/// The variables: the arcs of ARCDATA, and after them the nonarc variables in the order in which they were first seen,
/// each with its first place. They are numbered from 0.
pub struct Variables {
    arcs: ArcNames,
    nonarcs: Names,
    homes: Vec<Home>,
}

// A function of its own, so that the proofs of callers do not go through its parts.
impl Drop for Variables {
    fn drop(self) {
        let Variables {
            arcs: _,
            nonarcs: _,
            homes: _,
        } = self;
    }
}

impl Model for Variables {
    ghost use Rattle.nf_cons.specs.Naming.{VariableList};

    ghost Value = { VariableList };

    ghost view = { λ v. record { arcs = v.arcs; nonarcs = v.nonarcs; homes = v.homes.items } };
}

impl Variables {
    pub fn new(alloc: Global, arcs: ArcNames) -> Variables
        ensures { result ≡ record { arcs = arcs; nonarcs = []; homes = [] } }
    {
        Variables {
            arcs,
            nonarcs: Names::new(alloc),
            homes: Vec::new(alloc),
        }
    }

    /// Whether a variable is an arc.
    pub fn is_arc(&self, variable: usize) -> bool
        ensures { result ≡ nat_lt variable self.now.arcs.count }
    {
        variable < self.arcs.len()
    }

    /// How many arcs there are.
    pub fn arcs(&self) -> usize
        ensures { result ≡ self.now.arcs.count }
    {
        self.arcs.len()
    }

    /// How many nonarc variables there are.
    pub fn nonarcs(&self) -> usize
        ensures { result ≡ length self.now.nonarcs }
    {
        self.nonarcs.len()
    }

    /// The name of a nonarc variable, by its number among them.
    pub fn nonarc(&self, k: usize) -> &[u8]
        requires { k < length self.now.nonarcs }
        ensures { result.now ≡ get_or self.now.nonarcs k [] }
    {
        self.nonarcs.get(k)
    }

    /// Where a nonarc variable stands first.
    pub fn home(&self, k: usize) -> Home
        requires { k < length self.now.homes }
        ensures { result ≡ get_or self.now.homes k no_home }
    {
        self.homes[k]
    }

    /// The number of the variable of a name, which is added if it is new. No earlier column has the name, unless it is
    /// taken. After a fault nothing has changed.
    pub fn number(&mut self, name: &[u8], is_taken: bool, home: Home) -> Result<usize, PlacedFault>
        requires sound { IsSound self.old }
        ensures answer { MatchResult result (IsNumbered self.old is_taken (record { variable = name.now; home = home }) self.new)
            (IsFaultOf (first_of (faults_now self.old is_taken (record { variable = name.now; home = home })))) }
        ensures unchanged { OnErr result (self.new ≡ self.old) }
    {
        let found = self.arcs.find(name);
        if found.is_none() && !is_name(name) {
            return Err(at(home.place, DataKind::BadName));
        }
        if is_excess(name) {
            return Err(at(home.place, DataKind::ReservedName));
        }
        if is_taken {
            return Err(at(home.place, DataKind::AmbiguousName));
        }
        match found {
            Some(arc) => {
                if arc.is_shared {
                    return Err(at(home.place, DataKind::AmbiguousName));
                }
                Ok(arc.number)
            }
            None => self.add(name, home),
        }
    }

    // The number of a nonarc variable, which is added if it is new.
    fn add(&mut self, name: &[u8], home: Home) -> Result<usize, PlacedFault>
        requires sound { IsSound self.old }
        ensures answer { MatchResult result
            (λ n. (first_of (limit_faults self.old name.now home) ≡ None) × (n ≡ self.old.arcs.count + place_of name.now self.old.nonarcs)
            × (self.new ≡ with_nonarc self.old (record { variable = name.now; home = home })))
            (IsFaultOf (first_of (limit_faults self.old name.now home))) }
        ensures unchanged { OnErr result (self.new ≡ self.old) }
    {
        if let Some(number) = self.nonarcs.find(name) {
            return Ok(self.arcs.len() + number);
        }
        if self.nonarcs.len() >= MOST_NONARCS {
            return Err(at(home.place, DataKind::LimitPassed));
        }
        match self.append(name, home) {
            Ok(number) => Ok(number),
            Err(_) => Err(at(home.place, DataKind::NoMemory)),
        }
    }

    // Adds a nonarc variable that is new. If its name finds no memory, its home is taken away again.
    fn append(&mut self, name: &[u8], home: Home) -> Result<usize, AllocError>
        requires new { has_name name.now self.old.nonarcs ≡ false }
        requires few_nonarcs { length self.old.nonarcs ≤ most_nonarcs }
        requires few_arcs { self.old.arcs.count < 2 ^ 32 }
        ensures number { IfOk result (λ n. n ≡ self.old.arcs.count + length self.old.nonarcs) }
        ensures added { OnOk result (self.new ≡ record self.old { nonarcs = self.old.nonarcs ++ name.now ∷ []; homes = self.old.homes ++ home ∷ [] }) }
        ensures unchanged { OnErr result (self.new ≡ self.old) }
    {
        self.homes.push(home)?;
        match self.nonarcs.number(name) {
            Ok(number) => Ok(self.arcs.len() + number),
            Err(fault) => {
                let _ = self.homes.pop();
                Err(fault)
            }
        }
    }
}
