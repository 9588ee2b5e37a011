//! The cells of output tables, added to the row in hand.
ghost use Rattle.std.specs.Prelude.{◌≡◌, ◌<◌, ◌≤◌, ◌^◌, [], OnOk, codes, decimal, length, if◌then◌else◌};
ghost use Rattle.std.specs.Str.{IsUtf8};
ghost use Rattle.nf_frac.specs.Texts.{frac_text};
ghost use Rattle.nf_model.specs.Program.{LinearProgram};
ghost use Rattle.nf_labels.specs.Labels.{AreLabelsOf};
ghost use Rattle.nf_table.specs.Making.{with_cell};
ghost use Rattle.nf_basis.specs.Names.{place_of};
ghost use Rattle.nf_out.specs.Words.{bound_text, node_name, place_word, unless_absent};

use itoa::Buffer;
use nf_basis::Place;
use nf_frac::Frac;
use nf_labels::Labels;
use nf_prob::Problem;
use nf_table::Table;
use std::alloc::AllocError;

// A word.
pub(crate) fn push_word(table: &mut Table, word: &str) -> Result<(), AllocError>
    requires room { length table.old.hand < 2 ^ 31 }
    ensures { OnOk result (table.new ≡ with_cell table.old word.now) }
{
    table.push_cell(word.as_bytes())
}

// A whole number.
pub(crate) fn push_count(table: &mut Table, n: u32) -> Result<(), AllocError>
    requires room { length table.old.hand < 2 ^ 31 }
    ensures { OnOk result (table.new ≡ with_cell table.old (decimal n)) }
{
    table.push_cell(Buffer::new().format(n).as_bytes())
}

// A fraction.
pub(crate) fn push_frac(table: &mut Table, x: Frac) -> Result<(), AllocError>
    requires room { length table.old.hand < 2 ^ 31 }
    ensures { OnOk result (table.new ≡ with_cell table.old (frac_text x)) }
{
    // Its parts are in range, so its text is one of ASCII.
    let _parts = (x.num(), x.den());
    let text = x.text();
    table.push_cell(text.bytes())
}

// A bound, or the word for none.
pub(crate) fn push_bound(
    table: &mut Table,
    bound: Option<Frac>,
    none: &str,
) -> Result<(), AllocError>
    requires room { length table.old.hand < 2 ^ 31 }
    ensures { OnOk result (table.new ≡ with_cell table.old (bound_text none.now bound)) }
{
    match bound {
        Some(x) => push_frac(table, x),
        None => push_word(table, none),
    }
}

// The name of a node by its number, and nothing for number 0.
pub(crate) fn push_node(
    table: &mut Table,
    p: &Problem,
    labels: &Labels,
    i: u32,
) -> Result<(), AllocError>
    requires labels { AreLabelsOf labels.now p.now }
    requires within { i ≤ p.now.nodes }
    requires room { length table.old.hand < 2 ^ 31 }
    ensures { OnOk result (table.new ≡ with_cell table.old (node_name labels.now i)) }
{
    if i == 0 {
        return table.push_cell(&[]);
    }
    table.push_cell(labels.node(i))
}

// The word for a place.
pub(crate) fn word_of(place: Place) -> &'static str
    ensures { result.now ≡ place_word (place_of place) }
{
    match place {
        Place::Lower => "LOWERBD",
        Place::Upper => "UPPERBD",
        Place::Zero => "ZERO",
        Place::Basic => "BASIC",
        Place::Absent => "ABSENT",
    }
}

// A number of a column, and nothing if the column is absent.
pub(crate) fn push_there(table: &mut Table, place: Place, x: Frac) -> Result<(), AllocError>
    requires room { length table.old.hand < 2 ^ 31 }
    ensures { OnOk result (table.new ≡ with_cell table.old (unless_absent (place_of place) (frac_text x))) }
{
    match place {
        Place::Absent => table.push_cell(&[]),
        Place::Lower | Place::Upper | Place::Zero | Place::Basic => push_frac(table, x),
    }
}
