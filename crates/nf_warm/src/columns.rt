//! The columns of the three tables that are looked at.
ghost use Rattle.std.specs.Prelude.{◌≡◌, ◌<◌, codes, length, IfOk};
ghost use Rattle.nf_table.specs.Grid.{column_of};
ghost use Rattle.nf_saved.specs.Reading.{column_read, columns_found};
ghost use Rattle.nf_warm.specs.Inside.{AreInside};

use nf_saved::{SavedColumn, SavedColumns, SavedFault, SavedSet};
use nf_table::Table;

// A column by its name, or that it is missing.
#[tactic(auto, unfolding(nf_saved::specs::Reading::column_read))]
fn column_in(
    table: &Table,
    set: SavedSet,
    column: SavedColumn,
    name: &str,
) -> Result<u32, SavedFault>
    ensures found { result ≡ column_read set column (column_of table.now.header name.now) }
    ensures inside { IfOk result (λ c. c < length table.now.header) }
{
    match table.column(name.as_bytes()) {
        Some(c) => Ok(c),
        None => Err(SavedFault::NoColumn(set, column)),
    }
}

// The six columns, or the first that is missing.
#[tactic(auto, unfolding(nf_saved::specs::Reading::columns_found, nf_saved::specs::Rows::and_then))]
pub(crate) fn find_columns(
    conin: &Table,
    dualin: &Table,
    session: &Table,
) -> Result<SavedColumns, SavedFault>
    ensures found { result ≡ columns_found conin.now.header dualin.now.header session.now.header }
    ensures inside { IfOk result (AreInside conin.now dualin.now session.now) }
{
    let key = column_in(session, SavedSet::Session, SavedColumn::Key, "_KEY_")?;
    let number = column_in(session, SavedSet::Session, SavedColumn::Number, "_NUMBER_")?;
    let value = column_in(session, SavedSet::Session, SavedColumn::Value, "_VALUE_")?;
    let status = column_in(conin, SavedSet::Conin, SavedColumn::Status, "_STATUS_")?;
    let anumb = column_in(conin, SavedSet::Conin, SavedColumn::Anumb, "_ANUMB_")?;
    let word = column_in(dualin, SavedSet::Dualin, SavedColumn::Status, "_STATUS_")?;
    Ok(SavedColumns {
        key,
        number,
        value,
        status,
        anumb,
        word,
    })
}
