//! The types of the rows of CONDATA, and what a cell says of them.
ghost use Rattle.std.specs.Prelude.{◌≡◌, slice_get};
ghost use Rattle.nf_cons.specs.Types.{default_type, row_types, same_type, side_kind, type_in, type_number, type_of};

use nf_cells::{Cell, is_missing, trimmed};
use nf_prob::RowKind;
use nf_program::ConType;
use nf_words::type_words;

/// The type of a row of CONDATA: of a constraint, or of a row that holds costs or bounds of nonarc variables.
#[derive(Clone, Copy, Debug, PartialEq, Eq)]
pub enum RowType {
    /// At most the right side.
    Le,
    /// At least the right side.
    Ge,
    /// The right side.
    Eq,
    /// Costs.
    Cost,
    /// Lower bounds.
    Lower,
    /// Upper bounds.
    Upper,
}

// The types, in the order of the kinds of their words.
const TYPES: [RowType; 6] = [
    RowType::Le,
    RowType::Ge,
    RowType::Eq,
    RowType::Cost,
    RowType::Lower,
    RowType::Upper,
];

// The type of a kind of words.
fn type_at(kind: u8) -> Option<RowType>
    ensures { result ≡ slice_get row_types kind }
{
    let at = kind as usize;
    if at < TYPES.len() {
        Some(TYPES[at])
    } else {
        None
    }
}

// The type that a word spells, without regard to case.
#[tactic(auto, unfolding(crate::specs::Types::type_of))]
fn type_of(word: &[u8]) -> Option<RowType>
    ensures { result ≡ type_of word.now }
{
    match type_words().find(word) {
        Some(kind) => type_at(kind.0),
        None => None,
    }
}

/// The type in a cell.
pub fn type_cell(cell: &[u8]) -> Cell<RowType>
    ensures { result ≡ type_in cell.now }
{
    let value = trimmed(cell);
    if is_missing(value) {
        return Cell::Missing;
    }
    match type_of(value) {
        Some(row_type) => Cell::Is(row_type),
        None => Cell::Bad,
    }
}

/// The type of a row that gives none: DEFCONTYPE, or LE.
pub fn default_type(option: Option<ConType>) -> RowType
    ensures { result ≡ default_type option }
{
    match option {
        Some(ConType::Le) | None => RowType::Le,
        Some(ConType::Ge) => RowType::Ge,
        Some(ConType::Eq) => RowType::Eq,
    }
}

/// How the side row of a constraint stands to its right side; a row of data is no row of the problem.
pub fn side_kind(row_type: RowType) -> Option<RowKind>
    ensures { result ≡ side_kind row_type }
{
    match row_type {
        RowType::Le => Some(RowKind::Le),
        RowType::Ge => Some(RowKind::Ge),
        RowType::Eq => Some(RowKind::Eq),
        RowType::Cost | RowType::Lower | RowType::Upper => None,
    }
}

/// Whether two types are the same.
pub fn is_same_type(a: RowType, b: RowType) -> bool
    ensures { result ≡ same_type a b }
{
    number(a) == number(b)
}

// The number of a type.
fn number(row_type: RowType) -> u8
    ensures { result ≡ type_number row_type }
{
    row_type as u8
}
