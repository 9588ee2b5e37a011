// What a problem stores: entries, rows and columns. Numbers count from 1.
ghost use Rattle.std.specs.Prelude.{◌≡◌};

use crate::number::Number;
use nf_frac::Frac;
use nf_model::RowKind;
use smallvec::SmallVec;

/// What a column has in a row. The value comes first, so that an entry is copied by whole words.
#[derive(Clone, Copy, Debug, PartialEq, Eq)]
pub struct Entry {
    pub value: Frac,
    /// The row's number, from 1.
    pub row: u32,
}

// What a place of a `SmallVec` holds that has no entry yet.
impl Default for Entry {
    ghost use Rattle.nf_prob.specs.Blank.{blank_entry};

    ghost is_default = { λ e. e ≡ blank_entry };

    fn default() -> Entry {
        Entry {
            value: Frac::zero(),
            row: 0,
        }
    }
}

/// What a row has in a column. The value comes first, so that an entry is copied by whole words.
#[derive(Clone, Copy, Debug, PartialEq, Eq)]
pub struct RowEntry {
    pub value: Frac,
    /// The column's number, from 1.
    pub column: u32,
}

#[derive(Clone, Copy)]
pub(crate) struct StoredRow {
    pub(crate) kind: RowKind,
    pub(crate) right: Frac,
}

// The two entries of an arc need no memory of their own.
pub(crate) type Entries = SmallVec<Entry, 2>;

// Tail and head are numbers of nodes, and both 0 for a nonarc variable. The entries stand by row number, and come last,
// so that no bytes are lost before them.
#[derive(Drop)]
pub(crate) struct StoredColumn {
    pub(crate) cost: Number,
    pub(crate) lower: Option<Number>,
    pub(crate) upper: Option<Number>,
    pub(crate) tail: u32,
    pub(crate) head: u32,
    pub(crate) entries: Entries,
}
