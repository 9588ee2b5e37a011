//! The names of the parts of a problem.
ghost use Rattle.std.specs.Prelude.{◌≡◌, ◌<◌, ◌≤◌, ◌+◌, ◌-◌, ◌*◌, ◌^◌, ℕ, List, [], ◌∷◌, ◌++◌, length, get_or, IfOk, OnOk, IfErr};
ghost use Rattle.nf_labels.specs.Labels.{LabelList, id_place, no_labels, no_node};

use crate::texts::Texts;
use std::alloc::{AllocError, Global};
use std::marker::Model;

// So that a table of all of them, and more columns, is within bounds.
const MOST_ID_COLUMNS: usize = 536_870_912;

/// The names of a problem's nodes, columns and constraints, the nodes' supplies as texts, and the ID columns of ARCDATA:
/// their headers, and their cells for each arc of ARCDATA.
///
/// Nodes, columns and rows count from 1, ID columns from 0. The calls that add one answer `AllocError` where there is no
/// memory, and the labels are then as they were. The other calls take no memory.
#[derive(Drop)]
pub struct Labels {
    nodes: Texts,
    supdems: Texts,
    columns: Texts,
    own_arcs: u32,
    constraints: Texts,
    id_headers: Texts,
    ids: Texts,
}

impl Model for Labels {
    ghost use Rattle.nf_labels.specs.Labels.{LabelList};
    ghost use Rattle.nf_labels.specs.Labelled.{AreFew, labels_inside};

    ghost Value = { LabelList };

    ghost view = { labels_inside };

    ghost invariant = { AreFew };
}

impl Labels {
    /// No labels.
    pub fn new(alloc: Global) -> Labels
        ensures empty { result ≡ no_labels }
    {
        Labels {
            nodes: Texts::new(alloc),
            supdems: Texts::new(alloc),
            columns: Texts::new(alloc),
            own_arcs: 0,
            constraints: Texts::new(alloc),
            id_headers: Texts::new(alloc),
            ids: Texts::new(alloc),
        }
    }

    /// No labels, with memory for so many columns and cells of ID columns beside their bytes.
    pub fn with_capacity(alloc: Global, columns: usize, ids: usize) -> Result<Labels, AllocError>
        ensures empty { IfOk result (λ l. l ≡ no_labels) }
    {
        Ok(Labels {
            nodes: Texts::new(alloc),
            supdems: Texts::new(alloc),
            columns: Texts::with_capacity(alloc, columns)?,
            own_arcs: 0,
            constraints: Texts::new(alloc),
            id_headers: Texts::new(alloc),
            ids: Texts::with_capacity(alloc, ids)?,
        })
    }

    /// Adds a node: its name, and its supply as a text.
    pub fn push_node(&mut self, name: &[u8], supdem: &[u8]) -> Result<(), AllocError>
        requires room { length self.old.nodes < 2 ^ 30 }
        ensures added { OnOk result (self.new ≡ record self.old { nodes = self.old.nodes ++ record { name = name.now; supdem = supdem.now } ∷ [] }) }
        ensures kept { IfErr result (λ _. self.new ≡ self.old) }
    {
        self.nodes.push(name)?;
        match self.supdems.push(supdem) {
            Ok(()) => Ok(()),
            Err(fault) => {
                self.nodes.pop();
                Err(fault)
            }
        }
    }

    /// Adds the column of an arc of ARCDATA, before all others.
    pub fn push_arc(&mut self, name: &[u8]) -> Result<(), AllocError>
        requires room { length self.old.columns < 2 ^ 30 }
        requires arcs_alone { self.old.own_arcs ≡ length self.old.columns }
        ensures added { OnOk result (self.new ≡ record self.old { columns = self.old.columns ++ name.now ∷ []; own_arcs = self.old.own_arcs + 1 }) }
        ensures kept { IfErr result (λ _. self.new ≡ self.old) }
    {
        self.columns.push(name)?;
        self.own_arcs += 1;
        Ok(())
    }

    /// Adds another column.
    pub fn push_column(&mut self, name: &[u8]) -> Result<(), AllocError>
        requires room { length self.old.columns < 2 ^ 30 }
        ensures added { OnOk result (self.new ≡ record self.old { columns = self.old.columns ++ name.now ∷ [] }) }
        ensures kept { IfErr result (λ _. self.new ≡ self.old) }
    {
        self.columns.push(name)?;
        Ok(())
    }

    /// Adds a constraint.
    pub fn push_constraint(&mut self, name: &[u8]) -> Result<(), AllocError>
        requires room { length self.old.constraints < 2 ^ 30 }
        ensures added { OnOk result (self.new ≡ record self.old { constraints = self.old.constraints ++ name.now ∷ [] }) }
        ensures kept { IfErr result (λ _. self.new ≡ self.old) }
    {
        self.constraints.push(name)?;
        Ok(())
    }

    /// Adds an ID column by its header. There is no memory for more than 2^29 of them.
    pub fn push_id_header(&mut self, name: &[u8]) -> Result<(), AllocError>
        ensures added { OnOk result (self.new ≡ record self.old { id_headers = self.old.id_headers ++ name.now ∷ [] }) }
        ensures kept { IfErr result (λ _. self.new ≡ self.old) }
    {
        if self.id_headers.len() >= MOST_ID_COLUMNS {
            return Err(AllocError);
        }
        self.id_headers.push(name)
    }

    /// Adds a cell of an ID column: arc by arc, and in an arc header by header.
    pub fn push_id(&mut self, cell: &[u8]) -> Result<(), AllocError>
        ensures added { OnOk result (self.new ≡ record self.old { ids = self.old.ids ++ cell.now ∷ [] }) }
        ensures kept { IfErr result (λ _. self.new ≡ self.old) }
    {
        self.ids.push(cell)?;
        Ok(())
    }

    /// The name of a node.
    pub fn node(&self, i: u32) -> &[u8]
        requires number { (0 < i) × (i ≤ length self.now.nodes) }
        ensures name { result.now ≡ (get_or self.now.nodes (i - 1) no_node).name }
    {
        self.nodes.get(i as usize - 1)
    }

    /// The supply of a node as a text: an amount in lowest terms, which is negative for a demand, `.S` or `.D`.
    pub fn supdem(&self, i: u32) -> &[u8]
        requires number { (0 < i) × (i ≤ length self.now.nodes) }
        ensures text { result.now ≡ (get_or self.now.nodes (i - 1) no_node).supdem }
    {
        self.supdems.get(i as usize - 1)
    }

    /// The name of a column.
    pub fn column(&self, j: u32) -> &[u8]
        requires number { (0 < j) × (j ≤ length self.now.columns) }
        ensures name { result.now ≡ get_or self.now.columns (j - 1) [] }
    {
        self.columns.get(j as usize - 1)
    }

    /// The name of a constraint, by the number of its row.
    pub fn constraint(&self, i: u32) -> &[u8]
        requires behind_nodes { length self.now.nodes < i }
        requires number { i - length self.now.nodes ≤ length self.now.constraints }
        ensures name { result.now ≡ get_or self.now.constraints (i - length self.now.nodes - 1) [] }
    {
        self.constraints.get(i as usize - self.nodes.len() - 1)
    }

    /// How many arcs of ARCDATA there are.
    pub fn own_arcs(&self) -> u32
        ensures number { result ≡ self.now.own_arcs }
        ensures few { result ≤ 2 ^ 30 }
    {
        self.own_arcs
    }

    /// How many ID columns there are.
    pub fn ids(&self) -> u32
        ensures number { result ≡ length self.now.id_headers }
        ensures few { result ≤ 2 ^ 29 }
    {
        self.id_headers.len() as u32
    }

    /// The header of an ID column.
    pub fn id_header(&self, c: u32) -> &[u8]
        requires column { c < length self.now.id_headers }
        ensures name { result.now ≡ get_or self.now.id_headers c [] }
    {
        self.id_headers.get(c as usize)
    }

    /// The cell of an arc of ARCDATA in an ID column.
    pub fn id(&self, j: u32, c: u32) -> &[u8]
        requires arc { (0 < j) × (j ≤ self.now.own_arcs) }
        requires column { c < length self.now.id_headers }
        requires there { id_place self.now j c < length self.now.ids }
        ensures cell { result.now ≡ get_or self.now.ids (id_place self.now j c) [] }
    {
        self.ids
            .get((j as usize - 1) * self.id_headers.len() + c as usize)
    }
}
