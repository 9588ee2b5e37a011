//! The rows of ARCDATA and NODEDATA, each cell read by its role.
use nf_cells::{Bound, Cell, Supply};
use nf_frac::Amount;

/// What an arc has where its row does not say it.
#[derive(Clone, Copy, Debug)]
pub struct Defaults {
    pub cost: Amount,
    pub lower: Amount,
    pub upper: Bound,
}

/// The numbers of an arc.
#[derive(Clone, Copy, Debug)]
pub struct Figures {
    pub cost: Amount,
    pub lower: Amount,
    pub upper: Bound,
}

/// A row of ARCDATA.
#[derive(Clone, Copy)]
pub struct ArcRow<'a> {
    pub tail: Cell<&'a [u8]>,
    pub head: Cell<&'a [u8]>,
    pub name: Cell<&'a [u8]>,
    pub cost: Cell<Amount>,
    pub lower: Cell<Amount>,
    pub capacity: Cell<Bound>,
    pub supply: Cell<Supply>,
    pub demand: Cell<Supply>,
}

/// A row of NODEDATA.
#[derive(Clone, Copy)]
pub struct NodeRow<'a> {
    pub node: Cell<&'a [u8]>,
    pub supdem: Cell<Supply>,
}
