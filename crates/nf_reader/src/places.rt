//! Where a reader stands in a program.
use nf_program::settings::Setting;
use nf_program::words::OptionWord;
use nf_program::{Items, NameList, PrintList, ProcOptions, Program, Role, ShowList, Statement};

/// A statement of options.
#[derive(Clone, Copy)]
pub enum Head {
    Proc,
    Reset,
    Save,
}

/// A statement that is its word alone.
#[derive(Clone, Copy)]
pub enum Plain {
    Pivot,
    Run,
    Quit,
}

/// What a reader waits for, with what it has read of the open statement.
#[derive(Drop)]
pub enum Place {
    /// The word PROC.
    Start,
    /// The word NETFLOW.
    Netflow,
    /// An option or the semicolon, after these options.
    Options(Head, Items<Setting>),
    /// `=` after this option's word.
    Equals(Head, Items<Setting>, OptionWord),
    /// The value of this option.
    Value(Head, Items<Setting>, OptionWord),
    /// A statement; true after QUIT.
    Statement(bool),
    /// A column name or the semicolon, after these names.
    Columns(Role, NameList),
    /// An item of PRINT or the semicolon, after these items.
    Print(PrintList),
    /// An item of SHOW or the semicolon, after these items.
    Show(ShowList),
    /// The semicolon.
    Alone(Plain),
}

/// What a token brings: another place in the open statement, or the statement's end.
#[derive(Drop)]
pub enum Turn {
    Goes(Place),
    Proc(ProcOptions),
    Role(Role, NameList),
    Act(Statement),
}

/// A reader: its place, and the program of the statements that have ended.
#[derive(Drop)]
pub struct Reader {
    pub place: Place,
    pub program: Program,
}
