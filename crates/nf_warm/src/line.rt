//! The line of a refusal.
ghost use Rattle.std.specs.Prelude.{◌≡◌, IfOk};
ghost use Rattle.nf_warm.specs.Lines.{column_word, counted_word, refusal_line, set_word};

use nf_io::Text;
use nf_saved::{SavedColumn, SavedFault, SavedSet};
use std::alloc::{AllocError, Global};

// The option of PROC that names a table.
fn set_word(set: SavedSet) -> &'static str
    ensures { result.now ≡ set_word set }
{
    match set {
        SavedSet::Conin => "CONIN",
        SavedSet::Dualin => "DUALIN",
        SavedSet::Session => "SESSIONDATA",
    }
}

// What a line calls a table whose rows are not as many as they must be; SESSION if the basic columns are not.
fn counted_word(set: SavedSet) -> &'static str
    ensures { result.now ≡ counted_word set }
{
    match set {
        SavedSet::Session => "SESSION",
        SavedSet::Conin | SavedSet::Dualin => set_word(set),
    }
}

fn column_word(column: SavedColumn) -> &'static str
    ensures { result.now ≡ column_word column }
{
    match column {
        SavedColumn::Key => "_KEY_",
        SavedColumn::Number => "_NUMBER_",
        SavedColumn::Value => "_VALUE_",
        SavedColumn::Status => "_STATUS_",
        SavedColumn::Anumb => "_ANUMB_",
    }
}

/// The line by which saved tables with this fault are refused.
///
/// `AllocError` if out of memory.
pub fn refusal_line(alloc: Global, fault: SavedFault) -> Result<Text, AllocError>
    ensures text { IfOk result (λ t. t ≡ refusal_line fault) }
{
    match fault {
        SavedFault::NoColumn(set, column) => {
            let (set, column) = (set_word(set), column_word(column));
            Text::from_slice(
                alloc,
                format!(in alloc; "WARM REFUSED NO COLUMN {set} {column}\n")?.as_bytes(),
            )
        }
        SavedFault::BadSession(row) => {
            Text::from_slice(
                alloc,
                format!(in alloc; "WARM REFUSED BAD SESSION ROW {row}\n")?.as_bytes(),
            )
        }
        SavedFault::WrongCount(set) => {
            let set = counted_word(set);
            Text::from_slice(
                alloc,
                format!(in alloc; "WARM REFUSED WRONG COUNT {set}\n")?.as_bytes(),
            )
        }
        SavedFault::BadStatus(set, row) => {
            let set = set_word(set);
            Text::from_slice(
                alloc,
                format!(in alloc; "WARM REFUSED BAD STATUS {set} ROW {row}\n")?.as_bytes(),
            )
        }
    }
}
