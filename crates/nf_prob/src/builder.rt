// A problem while it is made.
ghost use Rattle.std.specs.Prelude.{◌≡◌, ◌≢◌, ◌⊎◌, ◌<◌, ◌≤◌, ◌-◌, ◌^◌, ℕ, List, [], ◌∷◌, length, map, None, IfOk, IfErr};
ghost use Rattle.std.specs.List.{All};
ghost use Rattle.nf_model.specs.Problem.{AreInOrder, RiseBetween};
ghost use Rattle.nf_prob.specs.Building.{AreEnds, HasRoom, IsNew, arcs_with, empty_program, end_entries, inserted, with_column, with_entry, with_node, with_row};
ghost use Rattle.nf_prob.specs.Numbers.{IsNumber, ends_of, entry_of};

use crate::lists::row_lists;
use crate::number::Number;
use crate::problem::Problem;
use crate::stored::{Entries, Entry, StoredColumn, StoredRow};
use nf_frac::Frac;
use nf_model::RowKind;
use std::alloc::{AllocError, Global};
use std::marker::Model;

/// A problem while it is made: nodes first, then side rows; arcs first, then nonarc variables. It is seen as the
/// `LinearProgram` so far.
///
/// Each number that it takes or gives counts from 1. `AllocError` where there is no memory: the program is then as
/// it was.
#[derive(Drop)]
pub struct ProblemBuilder {
    alloc: Global,
    columns: Vec<StoredColumn>,
    rows: Vec<StoredRow>,
    nodes: u32,
    arcs: u32,
    maximize: bool,
}

impl Model for ProblemBuilder {
    ghost use Rattle.nf_model.specs.Program.{LinearProgram};
    ghost use Rattle.nf_prob.specs.Coding.{program_code};
    ghost use Rattle.nf_prob.specs.Unfinished.{program_of, IsUnfinished};

    ghost Value = { LinearProgram };

    ghost coded = { program_code };

    ghost view = { program_of };

    ghost invariant = { IsUnfinished };
}

impl ProblemBuilder {
    /// A program without rows and columns.
    pub fn new(alloc: Global, maximize: bool) -> ProblemBuilder
        ensures { result ≡ empty_program maximize }
    {
        ProblemBuilder {
            alloc,
            columns: Vec::new(alloc),
            rows: Vec::new(alloc),
            nodes: 0,
            arcs: 0,
            maximize,
        }
    }

    /// A program without rows and columns, with memory for so many columns, so that none moves while they are added.
    /// `AllocError` where there is none.
    pub fn with_capacity(
        alloc: Global,
        maximize: bool,
        columns: usize,
    ) -> Result<ProblemBuilder, AllocError>
        ensures { IfOk result (λ b. b ≡ empty_program maximize) }
    {
        Ok(ProblemBuilder {
            alloc,
            columns: Vec::with_capacity(alloc, columns)?,
            rows: Vec::new(alloc),
            nodes: 0,
            arcs: 0,
            maximize,
        })
    }

    /// Adds a node with its supply, which is negative where it is a demand, and gives its number.
    pub fn add_node(&mut self, right: Frac) -> Result<u32, AllocError>
        requires no_side { self.old.nodes ≡ length self.old.rows }
        requires room { HasRoom self.old }
        ensures added { IfOk result (λ _. self.new ≡ with_node self.old right) }
        ensures number { IfOk result (λ i. i ≡ length self.new.rows) }
        ensures kept { IfErr result (λ _. self.new ≡ self.old) }
    {
        self.rows.push(StoredRow {
            kind: RowKind::Eq,
            right,
        })?;
        self.nodes += 1;
        Ok(self.rows.len() as u32)
    }

    /// Adds a side row and gives its number.
    pub fn add_row(&mut self, kind: RowKind, right: Frac) -> Result<u32, AllocError>
        requires room { HasRoom self.old }
        ensures added { IfOk result (λ _. self.new ≡ with_row self.old kind right) }
        ensures number { IfOk result (λ i. i ≡ length self.new.rows) }
        ensures kept { IfErr result (λ _. self.new ≡ self.old) }
    {
        self.rows.push(StoredRow { kind, right })?;
        Ok(self.rows.len() as u32)
    }

    /// Adds an arc from the node `tail` to the node `head`, with 1 at its tail and -1 at its head and nothing where
    /// they are one node; or, with `tail` and `head` 0, a nonarc variable. Gives the column's number.
    pub fn add_column(
        &mut self,
        tail: u32,
        head: u32,
        cost: Frac,
        lower: Option<Frac>,
        upper: Option<Frac>,
    ) -> Result<u32, AllocError>
        requires room { HasRoom self.old }
        requires ordered { AreInOrder lower upper }
        requires bounded { ends_of tail head ≢ None → lower ≢ None }
        requires ends { AreEnds self.old tail head }
        ensures added { IfOk result (λ _. self.new ≡ with_column self.old tail head cost lower upper) }
        ensures number { IfOk result (λ j. j ≡ length self.new.columns) }
        ensures kept { IfErr result (λ _. self.new ≡ self.old) }
    {
        let arcs = counted(self.arcs, tail);
        let entries = node_entries(self.alloc, tail, head)?;
        let cost = Number::new(self.alloc, cost)?;
        let lower = Number::new_option(self.alloc, lower)?;
        let upper = Number::new_option(self.alloc, upper)?;
        self.columns.push(StoredColumn {
            cost,
            lower,
            upper,
            tail,
            head,
            entries,
        })?;
        self.arcs = arcs;
        Ok(self.columns.len() as u32)
    }

    /// Adds an entry of a column in a side row.
    pub fn add_entry(&mut self, j: u32, row: u32, value: Frac) -> Result<(), AllocError>
        requires column { IsNumber j (length self.old.columns) }
        requires side_row { (self.old.nodes < row) × (row ≤ length self.old.rows) }
        requires is_new { IsNew self.old (j - 1) (row - 1) }
        ensures added { IfOk result (λ _. self.new ≡ with_entry self.old (j - 1) (row - 1) value) }
        ensures kept { IfErr result (λ _. self.new ≡ self.old) }
    {
        let column = &mut self.columns[j as usize - 1];
        insert_entry(&mut column.entries, Entry { row, value })?;
        Ok(())
    }

    /// The finished problem, which has the lists by row besides. `AllocError` where there is no memory.
    pub fn finish(self) -> Result<Problem, AllocError>
        ensures { IfOk result (λ p. p ≡ self) }
    {
        let by_row = row_lists(self.alloc, self.columns.as_slice(), self.rows.len())?;
        Ok(Problem::of_lists(
            self.columns,
            self.rows,
            by_row,
            self.nodes,
            self.arcs,
            self.maximize,
        ))
    }
}

// The number of arcs with one more column.
fn counted(arcs: u32, tail: u32) -> u32
    requires room { arcs < 2 ^ 30 }
    ensures { (head : ℕ) → result ≡ arcs_with (ends_of tail head) arcs }
{
    if tail == 0 { arcs } else { arcs + 1 }
}

// The node entries of a column with these ends.
fn node_entries(alloc: Global, tail: u32, head: u32) -> Result<Entries, AllocError>
    requires ends { ((0 < tail) × (0 < head)) ⊎ ((tail ≡ 0) × (head ≡ 0)) }
    ensures entries { IfOk result (λ v. map entry_of v.items ≡ end_entries (ends_of tail head)) }
    ensures numbered { IfOk result (λ v. All (λ e. 0 < e.row) v.items) }
{
    if tail == head {
        return Ok(Entries::new(alloc));
    }
    let one = Frac::from_whole(1);
    let from = Entry {
        row: tail,
        value: one,
    };
    let to = Entry {
        row: head,
        value: one.neg(),
    };
    if tail < head {
        pair(alloc, from, to)
    } else {
        pair(alloc, to, from)
    }
}

fn pair(alloc: Global, first: Entry, second: Entry) -> Result<Entries, AllocError>
    ensures { IfOk result (λ v. v.items ≡ first ∷ second ∷ []) }
{
    Entries::from_slice(alloc, &[first, second])
}

// Puts an entry in its place by row number. Rows mostly come in their order, so the place is looked for from the end.
fn insert_entry(entries: &mut Entries, e: Entry) -> Result<(), AllocError>
    requires numbered { All (λ e. 0 < e.row) entries.old.items }
    requires by_row { (n : ℕ) × RiseBetween 0 n (map entry_of entries.old.items) }
    requires number { 0 < e.row }
    requires is_new { All (λ d. d.row ≢ e.row - 1) (map entry_of entries.old.items) }
    ensures added { IfOk result (λ _. map entry_of entries.new.items ≡ inserted (map entry_of entries.old.items) (entry_of e)) }
    ensures numbered { All (λ e. 0 < e.row) entries.new.items }
    ensures kept { IfErr result (λ _. entries.new.items ≡ entries.old.items) }
{
    let mut k = entries.len();
    while k > 0 && e.row < entries.as_slice()[k - 1].row {
        k -= 1;
    }
    entries.insert(k, e)?;
    Ok(())
}
