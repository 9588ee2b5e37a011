//! The nodes, each with what it was given.
ghost use Rattle.std.specs.Prelude.{◌≡◌, ◌<◌, [], None, Some, true, length, get_or, IfOk, OnOk, MatchResult};
ghost use Rattle.nf_cells.specs.Values.{cell_now};
ghost use Rattle.nf_cells.specs.Names.{number_of, place_of, is_once, with_name};
ghost use Rattle.nf_roles.specs.First.{first_of, IsFaultOf};
ghost use Rattle.nf_network.specs.Arcs.{said, same_supply};
ghost use Rattle.nf_network.specs.Faults.{node_faults, gift_faults, is_other};
ghost use Rattle.nf_network.specs.Nodes.{NodeList, with_node, given_at};
ghost use Rattle.nf_network.specs.Given.{IsEven, IsNamed, IsGiven};

use crate::excess::is_excess;
use nf_cells::{Cell, Names, Supply};
use nf_program::Role;
use nf_roles::{CellFault, DataKind};
use std::alloc::{AllocError, Global};
use std::marker::Model;

const MOST_NODES: usize = 20_000;

/// The nodes, numbered in the order in which they were first seen, each with what it was given.
pub struct Nodes {
    names: Names,
    given: Vec<Option<Supply>>,
}

// A function of its own, so that the proofs of callers do not go through its parts.
impl Drop for Nodes {
    fn drop(self) {
        let Nodes { names: _, given: _ } = self;
    }
}

impl Model for Nodes {
    ghost use Rattle.nf_network.specs.Nodes.{NodeList};

    ghost Value = { NodeList };

    ghost view = { λ n. record { names = n.names; given = n.given.items } };
}

pub(crate) fn no_memory(role: Role) -> CellFault
    ensures { result ≡ record { role = role; kind = DataKind.NoMemory } }
{
    CellFault {
        role,
        kind: DataKind::NoMemory,
    }
}

fn same(a: Supply, b: Supply) -> bool
    ensures { result ≡ same_supply a b }
{
    match (a, b) {
        (Supply::Amount(v), Supply::Amount(w)) => v.thousandths == w.thousandths,
        (Supply::OpenSupply, Supply::OpenSupply) | (Supply::OpenDemand, Supply::OpenDemand) => true,
        _ => false,
    }
}

// The number of a name, which is added if it is new. A guess that is right spares the look-up.
fn number_of(names: &mut Names, name: &[u8], guess: Option<usize>) -> Result<usize, AllocError>
    requires { is_once names.old ≡ true }
    ensures place { IfOk result (λ i. i ≡ place_of name.now names.old) }
    ensures names { OnOk result (names.new ≡ with_name names.old name.now) }
{
    match guess {
        Some(number) if number < names.len() && names.get(number) == name => Ok(number),
        _ => names.number(name),
    }
}

impl Nodes {
    pub fn new(alloc: Global) -> Nodes
        ensures { result ≡ record { names = []; given = [] } }
    {
        Nodes {
            names: Names::new(alloc),
            given: Vec::new(alloc),
        }
    }

    /// How many nodes there are.
    pub(crate) fn len(&self) -> usize
        ensures { result ≡ length self.now.names }
    {
        self.names.len()
    }

    /// The number of a node, from 0, where it is there.
    pub(crate) fn find(&self, name: &[u8]) -> Option<usize>
        ensures { result ≡ number_of name.now self.now.names }
    {
        self.names.find(name)
    }

    /// The name of a node.
    pub(crate) fn name_of(&self, number: usize) -> &[u8]
        requires { number < length self.now.names }
        ensures { result.now ≡ get_or self.now.names number [] }
    {
        self.names.get(number)
    }

    /// The value of a node, where it is given one.
    pub(crate) fn value(&self, number: usize) -> Option<Supply>
        requires even { IsEven self.now }
        requires number { number < length self.now.names }
        ensures { result ≡ get_or self.now.given number None }
    {
        self.given[number]
    }

    /// The number of the node that a cell names, from 0. It is added if it is new. A guess of the number spares its
    /// look-up where it is right.
    pub fn name(
        &mut self,
        role: Role,
        cell: Cell<&[u8]>,
        guess: Option<usize>,
    ) -> Result<usize, CellFault>
        requires even { IsEven self.old }
        requires once { is_once self.old.names ≡ true }
        ensures { MatchResult result (IsNamed role self.old (cell_now cell.entry) self.new)
            (IsFaultOf (first_of (node_faults role self.old.names (cell_now cell.entry)))) }
    {
        let Cell::Is(name) = cell else {
            return Err(CellFault {
                role,
                kind: DataKind::BadName,
            });
        };
        if is_excess(name) {
            return Err(CellFault {
                role,
                kind: DataKind::ReservedName,
            });
        }
        let Ok(number) = number_of(&mut self.names, name, guess) else {
            return Err(no_memory(role));
        };
        if self.names.len() > MOST_NODES {
            return Err(CellFault {
                role,
                kind: DataKind::LimitPassed,
            });
        }
        if number < self.given.len() {
            return Ok(number);
        }
        let Ok(()) = self.given.push(None) else {
            return Err(no_memory(role));
        };
        Ok(number)
    }

    /// Gives a node what a cell says.
    pub fn give(&mut self, number: usize, role: Role, cell: Cell<Supply>) -> Result<(), CellFault>
        requires even { IsEven self.old }
        requires number { number < length self.old.names }
        ensures { MatchResult result (λ _. IsGiven role self.old number cell self.new)
            (λ f. first_of (gift_faults role (get_or self.old.given number None) cell) ≡ Some f) }
    {
        match cell {
            Cell::Missing => Ok(()),
            Cell::Bad => Err(CellFault {
                role,
                kind: DataKind::Amount,
            }),
            Cell::Is(value) => {
                if let Some(before) = self.given[number]
                    && !same(before, value)
                {
                    return Err(CellFault {
                        role,
                        kind: DataKind::TwoSupplies,
                    });
                }
                self.given[number] = Some(value);
                Ok(())
            }
        }
    }
}
