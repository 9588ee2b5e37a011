// A finished problem and what it tells.
ghost use Rattle.std.specs.Prelude.{◌≡◌, ◌<◌, ◌≤◌, ◌^◌, ◌-◌, ℕ, length, map};
ghost use Rattle.std.specs.List.{All};
ghost use Rattle.nf_model.specs.Problem.{IsProblem};
ghost use Rattle.nf_model.specs.Program.{column, row, lower_of, upper_of};
ghost use Rattle.nf_prob.specs.Lists.{AreGathered};
ghost use Rattle.nf_prob.specs.Numbers.{AreApart, IsNumber, entry_of, head_number, row_list, tail_number};
ghost use Rattle.nf_prob.specs.Stored.{IsStored, column_of, program_from, row_entry, stored_entry};

use crate::number::Number;
use crate::stored::{Entry, RowEntry, StoredColumn, StoredRow};
use nf_frac::Frac;
use nf_model::RowKind;
use std::marker::Model;

/// A problem: a linear program whose first rows are the nodes of a network and whose first columns are its arcs,
/// by columns and by rows. It is seen as a `LinearProgram`.
///
/// Numbers of columns, rows and nodes count from 1: `cost(j)` is the cost of column `j - 1` of the definitions.
/// No call of it takes memory.
#[derive(Drop)]
pub struct Problem {
    columns: Vec<StoredColumn>,
    rows: Vec<StoredRow>,
    by_row: Vec<Vec<RowEntry>>,
    nodes: u32,
    arcs: u32,
    maximize: bool,
}

impl Model for Problem {
    ghost use Rattle.nf_model.specs.Program.{LinearProgram};
    ghost use Rattle.nf_prob.specs.Coding.{program_code};
    ghost use Rattle.nf_prob.specs.Finished.{program_of, IsFinished};

    ghost Value = { LinearProgram };

    ghost coded = { program_code };

    ghost view = { program_of };

    ghost invariant = { IsFinished };
}

impl Problem {
    // The program of these columns and rows, with the same entries by row.
    pub(crate) fn of_lists(
        columns: Vec<StoredColumn>,
        rows: Vec<StoredRow>,
        by_row: Vec<Vec<RowEntry>>,
        nodes: u32,
        arcs: u32,
        maximize: bool,
    ) -> Problem
        requires stored { IsStored columns.items rows.items nodes arcs maximize }
        requires len { length by_row.items ≡ length rows.items }
        requires gathered { AreGathered (length rows.items) (map column_of columns.items) by_row.items }
        ensures { result ≡ program_from columns.items rows.items nodes arcs maximize }
    {
        Problem {
            columns,
            rows,
            by_row,
            nodes,
            arcs,
            maximize,
        }
    }

    /// How many columns there are, fewer than 2^31: arcs first, with the excess arcs, and then nonarc variables.
    pub fn columns(&self) -> u32
        ensures number { result ≡ length self.now.columns }
        ensures few { result ≤ 2 ^ 30 }
        ensures problem { IsProblem self.now }
    {
        self.columns.len() as u32
    }

    /// How many arcs there are.
    pub fn arcs(&self) -> u32
        ensures number { result ≡ self.now.arcs }
        ensures problem { IsProblem self.now }
    {
        self.arcs
    }

    /// How many rows there are, fewer than 2^31: nodes first, and then side rows.
    pub fn rows(&self) -> u32
        ensures number { result ≡ length self.now.rows }
        ensures few { result ≤ 2 ^ 30 }
        ensures problem { IsProblem self.now }
    {
        self.rows.len() as u32
    }

    /// How many nodes there are.
    pub fn nodes(&self) -> u32
        ensures number { result ≡ self.now.nodes }
        ensures problem { IsProblem self.now }
    {
        self.nodes
    }

    /// Whether the program maximises. The costs here are those of the minimised program all the same.
    pub fn maximize(&self) -> bool
        ensures { result ≡ self.now.maximizes }
    {
        self.maximize
    }

    /// What one unit of a column costs.
    pub fn cost(&self, j: u32) -> Frac
        requires number { IsNumber j (length self.now.columns) }
        ensures { result ≡ (column self.now (j - 1)).cost }
    {
        self.cost_at(j as usize - 1)
    }

    /// The lower bound of a column, if it has one.
    pub fn lower(&self, j: u32) -> Option<Frac>
        requires number { IsNumber j (length self.now.columns) }
        ensures { lower_of (column self.now (j - 1)) ≡ result }
    {
        self.lower_at(j as usize - 1)
    }

    /// The upper bound of a column, if it has one.
    pub fn upper(&self, j: u32) -> Option<Frac>
        requires number { IsNumber j (length self.now.columns) }
        ensures { upper_of (column self.now (j - 1)) ≡ result }
    {
        self.upper_at(j as usize - 1)
    }

    /// The number of the node that an arc leads from, and 0 for a nonarc variable.
    pub fn tail(&self, j: u32) -> u32
        requires number { IsNumber j (length self.now.columns) }
        ensures { result ≡ tail_number (column self.now (j - 1)).ends }
    {
        self.columns[j as usize - 1].tail
    }

    /// The number of the node that an arc leads to, and 0 for a nonarc variable.
    pub fn head(&self, j: u32) -> u32
        requires number { IsNumber j (length self.now.columns) }
        ensures { result ≡ head_number (column self.now (j - 1)).ends }
    {
        self.columns[j as usize - 1].head
    }

    /// The entries of a column, by row number: 1 at an arc's tail and -1 at its head, and the side rows' entries. No
    /// two are in one row.
    pub fn entries(&self, j: u32) -> &[Entry]
        requires number { IsNumber j (length self.now.columns) }
        ensures entries { map entry_of result.now ≡ (column self.now (j - 1)).entries }
        ensures in_range { All (λ e. IsNumber e.row (length self.now.rows)) result.now }
        ensures apart { AreApart (length result.now) (λ k. (stored_entry result.now k).row) }
        ensures problem { IsProblem self.now }
    {
        self.entries_at(j as usize - 1)
    }

    /// The entries of a row, by column number. No two are in one column.
    pub fn row_entries(&self, i: u32) -> &[RowEntry]
        requires number { IsNumber i (length self.now.rows) }
        ensures entries { result.now ≡ row_list self.now (i - 1) }
        ensures in_range { All (λ e. IsNumber e.column (length self.now.columns)) result.now }
        ensures apart { AreApart (length result.now) (λ k. (row_entry result.now k).column) }
        ensures problem { IsProblem self.now }
    {
        self.row_entries_at(i as usize - 1)
    }

    /// How a row's sum stands to its right side. A node's row is an equation.
    pub fn kind(&self, i: u32) -> RowKind
        requires number { IsNumber i (length self.now.rows) }
        ensures { result ≡ (row self.now (i - 1)).kind }
    {
        self.kind_at(i as usize - 1)
    }

    /// The right side of a row: at a node its supply, which is negative where it is a demand.
    pub fn right(&self, i: u32) -> Frac
        requires number { IsNumber i (length self.now.rows) }
        ensures { result ≡ (row self.now (i - 1)).right }
    {
        self.right_at(i as usize - 1)
    }
}

// The same, with numbers from 0, for the loops of this crate.
impl Problem {
    pub(crate) fn cost_at(&self, j: usize) -> Frac
        requires within { j < length self.now.columns }
        ensures { result ≡ (column self.now j).cost }
    {
        self.columns[j].cost.get()
    }

    pub(crate) fn lower_at(&self, j: usize) -> Option<Frac>
        requires within { j < length self.now.columns }
        ensures { lower_of (column self.now j) ≡ result }
    {
        self.columns[j].lower.as_ref().map(Number::get)
    }

    pub(crate) fn upper_at(&self, j: usize) -> Option<Frac>
        requires within { j < length self.now.columns }
        ensures { upper_of (column self.now j) ≡ result }
    {
        self.columns[j].upper.as_ref().map(Number::get)
    }

    pub(crate) fn entries_at(&self, j: usize) -> &[Entry]
        requires within { j < length self.now.columns }
        ensures entries { map entry_of result.now ≡ (column self.now j).entries }
        ensures numbered { All (λ e. 0 < e.row) result.now }
        ensures problem { IsProblem self.now }
    {
        self.columns[j].entries.as_slice()
    }

    pub(crate) fn row_entries_at(&self, i: usize) -> &[RowEntry]
        requires within { i < length self.now.rows }
        ensures entries { result.now ≡ row_list self.now i }
        ensures problem { IsProblem self.now }
    {
        self.by_row[i].as_slice()
    }

    pub(crate) fn kind_at(&self, i: usize) -> RowKind
        requires within { i < length self.now.rows }
        ensures { result ≡ (row self.now i).kind }
    {
        self.rows[i].kind
    }

    pub(crate) fn right_at(&self, i: usize) -> Frac
        requires within { i < length self.now.rows }
        ensures { result ≡ (row self.now i).right }
    {
        self.rows[i].right
    }
}
