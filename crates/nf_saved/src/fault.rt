//! What saved tables are read by, and why they give no session.

/// One of the three tables of a saved session.
#[derive(Clone, Copy, Debug, PartialEq, Eq)]
pub enum SavedSet {
    /// CONIN.
    Conin,
    /// DUALIN.
    Dualin,
    /// SESSIONDATA.
    Session,
}

/// A column that a saved table must have.
#[derive(Clone, Copy, Debug, PartialEq, Eq)]
pub enum SavedColumn {
    /// `_KEY_`.
    Key,
    /// `_NUMBER_`.
    Number,
    /// `_VALUE_`.
    Value,
    /// `_STATUS_`.
    Status,
    /// `_ANUMB_`.
    Anumb,
}

/// Why saved tables give no session: the first fault of their columns, rows and counts. Rows count from 1.
#[derive(Clone, Copy, Debug, PartialEq, Eq)]
pub enum SavedFault {
    /// The table lacks this column.
    NoColumn(SavedSet, SavedColumn),
    /// This row of SESSIONDATA is not the one that is due, or its value is not of its kind, or it is missing or too much.
    BadSession(u32),
    /// CONIN has not a row for each column, or DUALIN not one for each row of the problem, or, for `Session`, there are not
    /// as many basic columns as rows of the stage.
    WrongCount(SavedSet),
    /// This row has not its number, or a status that its column or row may not have.
    BadStatus(SavedSet, u32),
}

/// The artificial of a row, as a row of SESSIONDATA has it.
#[derive(Clone, Copy, Debug, PartialEq, Eq)]
pub struct SavedArtificial {
    /// Whether its sign is -1.
    pub negative: bool,
    /// Whether it is basic; else it is at its lower bound.
    pub basic: bool,
}

/// The columns of the three tables that are looked at, from 0: three of SESSIONDATA, two of CONIN, one of DUALIN.
#[derive(Clone, Copy, Debug, PartialEq, Eq)]
pub struct SavedColumns {
    /// `_KEY_` of SESSIONDATA.
    pub key: u32,
    /// `_NUMBER_` of SESSIONDATA.
    pub number: u32,
    /// `_VALUE_` of SESSIONDATA.
    pub value: u32,
    /// `_STATUS_` of CONIN.
    pub status: u32,
    /// `_ANUMB_` of CONIN.
    pub anumb: u32,
    /// `_STATUS_` of DUALIN.
    pub word: u32,
}
