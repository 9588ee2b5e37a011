// The basic columns that join vertices: arcs, and the artificials of nodes, which join them to the root.
ghost use Rattle.std.specs.Prelude.{◌≡◌, ◌<◌, ◌≤◌, ◌++◌, IfOk};
ghost use Rattle.std.specs.List.{All};
ghost use Rattle.nf_basis.specs.Kept.{IsPresent, IsStateOf, place_in};
ghost use Rattle.nf_view.specs.Keys.{basic_arcs, basic_links, basic_roots, is_basic, turned};
ghost use Rattle.nf_view.specs.Parts.{IsBetween};

use nf_basis::{Col, Place, State};
use nf_prob::Problem;
use std::alloc::{AllocError, Global};

/// A way from one vertex to another along a column. The root is vertex 0, and the node with number i is vertex i. `arc` is
/// the number of the arc, and 0 for an artificial.
#[derive(Clone, Copy, Debug, PartialEq, Eq)]
pub struct Link {
    pub arc: u32,
    pub from: u32,
    pub to: u32,
}

impl Link {
    // The same in the other direction.
    pub(crate) fn turned(self) -> Link
        ensures { result ≡ turned self }
    {
        Link {
            arc: self.arc,
            from: self.to,
            to: self.from,
        }
    }
}

// Whether a column of the stage is basic.
fn basic(p: &Problem, state: &State, col: Col) -> bool
    requires state { IsStateOf p.now state.now }
    requires present { IsPresent p.now state.now.standing col }
    ensures { result ≡ is_basic (place_in p.now state.now.standing col) }
{
    match state.place(col) {
        Place::Basic => true,
        _ => false,
    }
}

// The links of the basic arcs by number.
fn list_arcs(alloc: Global, p: &Problem, state: &State) -> Result<Vec<Link>, AllocError>
    requires state { IsStateOf p.now state.now }
    ensures links { IfOk result (λ v. v.items ≡ basic_arcs p.now state.now.standing p.now.arcs) }
    ensures between { IfOk result (λ v. All (IsBetween p.now.nodes) v.items) }
{
    let mut links = Vec::new(alloc);
    for k in 0..p.arcs() {
        let j = k + 1;
        if basic(p, state, Col::Given(j)) {
            links.push(Link {
                arc: j,
                from: p.tail(j),
                to: p.head(j),
            })?;
        }
    }
    Ok(links)
}

// Adds the links of the basic artificials of nodes by number.
fn add_roots(links: &mut Vec<Link>, p: &Problem, state: &State) -> Result<(), AllocError>
    requires state { IsStateOf p.now state.now }
    requires between { All (IsBetween p.now.nodes) links.old.items }
    ensures links { IfOk result (λ _. links.new.items ≡ links.old.items ++ basic_roots p.now state.now.standing p.now.nodes) }
    ensures between { IfOk result (λ _. All (IsBetween p.now.nodes) links.new.items) }
{
    for i in 0..p.nodes() {
        if basic(p, state, Col::Artificial(i + 1)) {
            links.push(Link {
                arc: 0,
                from: 0,
                to: i + 1,
            })?;
        }
    }
    Ok(())
}

// The links of the basic arcs by number, and then of the basic artificials of nodes by number.
pub(crate) fn list_links(alloc: Global, p: &Problem, state: &State) -> Result<Vec<Link>, AllocError>
    requires state { IsStateOf p.now state.now }
    ensures links { IfOk result (λ v. v.items ≡ basic_links p.now state.now.standing) }
    ensures between { IfOk result (λ v. All (IsBetween p.now.nodes) v.items) }
{
    let mut links = list_arcs(alloc, p, state)?;
    add_roots(&mut links, p, state)?;
    Ok(links)
}
