//! The names of the arcs of ARCDATA.
ghost use Rattle.std.specs.Prelude.{◌≡◌, ◌≤◌, ◌<◌, ◌^◌, IfOk, OnOk, length};
ghost use Rattle.nf_cons.specs.ArcList.{AreArcs, IsEven, arc_named, no_arcs, with_arc};
ghost use Rattle.nf_cons.specs.Variables.{arcs_of};

use crate::found::NamedArc;
use nf_cells::Names;
use nf_labels::Labels;
use std::alloc::{AllocError, Global};
use std::marker::Model;

/// The names of the arcs, each once, with its arcs.
pub struct ArcNames {
    names: Names,
    arcs: Vec<NamedArc>,
    count: usize,
}

// A function of its own, so that the proofs of callers do not go through its parts.
impl Drop for ArcNames {
    fn drop(self) {
        let ArcNames {
            names: _,
            arcs: _,
            count: _,
        } = self;
    }
}

impl Model for ArcNames {
    ghost use Rattle.nf_cons.specs.ArcList.{ArcList};

    ghost Value = { ArcList };

    ghost view = { λ a. record { names = a.names; found = a.arcs.items; count = a.count } };
}

impl ArcNames {
    fn new(alloc: Global) -> ArcNames
        ensures { result ≡ no_arcs }
    {
        ArcNames {
            names: Names::new(alloc),
            arcs: Vec::new(alloc),
            count: 0,
        }
    }

    /// How many arcs there are.
    pub fn len(&self) -> usize
        ensures { result ≡ self.now.count }
    {
        self.count
    }

    /// The arcs of a name, where there is one.
    pub fn find(&self, name: &[u8]) -> Option<NamedArc>
        requires even { IsEven self.now }
        ensures { result ≡ arc_named self.now name.now }
    {
        match self.names.find(name) {
            Some(i) => Some(self.arcs[i]),
            None => None,
        }
    }

    // Adds an arc by its name.
    fn push(&mut self, name: &[u8]) -> Result<(), AllocError>
        requires few { self.old.count < 2 ^ 32 }
        ensures { OnOk result (self.new ≡ with_arc self.old name.now) }
    {
        let i = self.names.number(name)?;
        if i < self.arcs.len() {
            self.arcs[i].is_shared = true;
        } else {
            self.arcs.push(NamedArc {
                number: self.count,
                is_shared: false,
            })?;
        }
        self.count += 1;
        Ok(())
    }
}

/// The names of the arcs of ARCDATA, which come first among the columns.
pub fn arc_names(alloc: Global, labels: &Labels) -> Result<ArcNames, AllocError>
    requires { labels.now.own_arcs ≤ length labels.now.columns }
    ensures arcs { IfOk result (AreArcs (arcs_of labels.now)) }
    ensures few { IfOk result (λ a. a.count < 2 ^ 32) }
{
    let mut arcs = ArcNames::new(alloc);
    for k in 0..labels.own_arcs() {
        arcs.push(labels.column(k + 1))?;
    }
    Ok(arcs)
}
