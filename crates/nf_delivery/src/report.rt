//! Reports: what a statement has to be stored and printed.
ghost use Rattle.std.specs.Prelude.{◌≡◌, ◌≢◌, ◌≤◌, ◌++◌, ◌∷◌, [], false, length, IfOk, Ok, OnOk, OnErr};
ghost use Rattle.std.specs.String.{string_bytes};
ghost use Rattle.nf_io.specs.Held.{most_bytes};
ghost use Rattle.nf_table.specs.Reading.{table_read};
ghost use Rattle.nf_table.specs.Writing.{begins_with_mark, table_text};
ghost use Rattle.nf_delivery.specs.Lines.{saved_line};
ghost use Rattle.nf_delivery.specs.Sets.{name_of};

use crate::word::OutWord;
use nf_io::Text;
use nf_table::{Table, write_table};
use std::alloc::{AllocError, Global};

/// A data set to be stored.
#[derive(Drop)]
pub struct OutSet {
    /// The option that names it.
    pub word: OutWord,
    /// The name under which it is stored.
    pub name: String,
    /// Its text.
    pub text: Text,
    /// How many rows it has below its header.
    pub rows: u32,
}

impl OutSet {
    /// The text of a table, to be stored under a name. A text of at most 67,108,864 bytes is read back as the table.
    /// `AllocError` if out of memory.
    pub fn of_table(
        alloc: Global,
        word: OutWord,
        name: &str,
        table: &Table,
    ) -> Result<OutSet, AllocError>
        requires header { table.now.header ≢ [] }
        requires no_mark { begins_with_mark table.now ≡ false }
        requires hand { table.now.hand ≡ [] }
        ensures word { IfOk result (λ s. s.word ≡ word) }
        ensures name { IfOk result (λ s. name_of s ≡ name.now) }
        ensures text { IfOk result (λ s. s.text ≡ table_text table.now) }
        ensures rows { IfOk result (λ s. s.rows ≡ length table.now.rows) }
        ensures read_back { IfOk result (λ s. length s.text ≤ most_bytes → table_read s.text ≡ Ok table.now) }
    {
        let text = write_table(alloc, table)?;
        Ok(OutSet {
            word,
            name: String::from_str(alloc, name)?,
            text,
            rows: table.rows(),
        })
    }

    // The line that tells that it was stored.
    fn saved_line(&self, alloc: Global) -> Result<Text, AllocError>
        ensures { IfOk result (λ t. t ≡ saved_line self.now) }
    {
        let OutSet {
            word,
            name,
            rows,
            ..
        } = self;
        let line = format!(in alloc; "SAVED {word} {name} ROWS {rows}\n")?;
        Text::from_slice(alloc, line.as_bytes())
    }
}

/// What a statement has to be stored and printed: the sets are stored in their order, and then the text is written.
#[derive(Drop)]
pub struct Report {
    /// The sets, in the order in which they are stored.
    pub sets: Vec<OutSet>,
    /// The text, with a line for each set.
    pub text: Text,
}

impl Report {
    /// A report of nothing. It takes no memory.
    pub fn new(alloc: Global) -> Report
        ensures sets { result.sets.items ≡ [] }
        ensures text { result.text ≡ [] }
    {
        Report {
            sets: Vec::new(alloc),
            text: Text::new(alloc),
        }
    }

    /// Adds a text. `AllocError` if out of memory; the report is then as it was.
    pub fn print(&mut self, piece: &[u8]) -> Result<(), AllocError>
        ensures sets { self.new.sets ≡ self.old.sets }
        ensures text { OnOk result (self.new.text ≡ self.old.text ++ piece.now) }
        ensures err { OnErr result (self.new.text ≡ self.old.text) }
    {
        self.text.push(piece)
    }

    /// Adds a set, and the line that tells that it was stored. `AllocError` if out of memory; the report then has this
    /// set at most without its line.
    pub fn save(&mut self, alloc: Global, set: OutSet) -> Result<(), AllocError>
        ensures sets { OnOk result (self.new.sets.items ≡ self.old.sets.items ++ set ∷ []) }
        ensures text { OnOk result (self.new.text ≡ self.old.text ++ saved_line set) }
        ensures err { OnErr result (self.new.text ≡ self.old.text) }
    {
        let line = set.saved_line(alloc)?;
        self.sets.push(set)?;
        self.text.push(line.bytes())
    }
}
