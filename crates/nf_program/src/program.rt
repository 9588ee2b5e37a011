//! What a program says.
ghost use Rattle.nf_program.specs.declared.program.StmtKind.TheVariants.{NoMemory};
ghost use Rattle.std.specs.Prelude.{◌≡◌, Some};
ghost use Rattle.nf_program.specs.Kinds.{kind_word};
ghost use Rattle.nf_program.specs.Programs.{role_number, takes_list, print_number, show_number};

use crate::items::{Items, Name};
use nf_frac::Amount;
use std::alloc::AllocError;
use std::fmt;

/// The command that a program is read for.
#[derive(Clone, Copy, Debug, PartialEq, Eq)]
pub enum Command {
    /// Everything is obeyed.
    Run,
    /// A certificate is looked at: CERTDATA= is needed, and QUIT is the one act.
    Check,
    /// A saved basis is used on changed data: WARM is needed, and QUIT is the one act.
    Again,
    /// The problem is written as another text: QUIT is the one act.
    Export,
}

/// A program: its PROC statement, its role statements and its acts, each in the order written.
#[derive(Drop)]
pub struct Program {
    /// The options of PROC.
    pub proc: ProcOptions,
    /// The role statements, each role once.
    pub roles: RoleList,
    /// The acts; QUIT is the last one.
    pub acts: ActList,
}

/// Role statements with their column names, one or more for VAR and ID and one for each other role.
pub type RoleList = Items<(Role, NameList)>;

/// Column names.
pub type NameList = Items<Name>;

/// Acts.
pub type ActList = Items<Statement>;

/// The options of a RESET statement, each once.
pub type ResetList = Items<ResetOption>;

/// The items of a PRINT statement, each once and at least one.
pub type PrintList = Items<PrintItem>;

/// The items of a SHOW statement, each once and at least one.
pub type ShowList = Items<ShowItem>;

/// The options of a SAVE statement, each once and at least one.
pub type SaveList = Items<SaveItem>;

/// The options of PROC. ARCDATA= is always there. The names of data sets are in lower case.
#[derive(Clone, Copy)]
pub struct ProcOptions {
    /// ARCDATA=.
    pub arcdata: Option<Name>,
    /// NODEDATA=.
    pub nodedata: Option<Name>,
    /// CONDATA=.
    pub condata: Option<Name>,
    /// CERTDATA=.
    pub certdata: Option<Name>,
    /// CONIN=.
    pub conin: Option<Name>,
    /// DUALIN=.
    pub dualin: Option<Name>,
    /// SESSIONDATA=.
    pub sessiondata: Option<Name>,
    /// ARCOUT=.
    pub arcout: Option<Name>,
    /// NODEOUT=.
    pub nodeout: Option<Name>,
    /// CONOUT=.
    pub conout: Option<Name>,
    /// DUALOUT=.
    pub dualout: Option<Name>,
    /// SESSIONOUT=.
    pub sessionout: Option<Name>,
    /// CERTOUT=.
    pub certout: Option<Name>,
    /// SPARSECONDATA, which comes only with CONDATA=.
    pub sparsecondata: bool,
    /// THRUNET.
    pub thrunet: bool,
    /// MAXIMIZE.
    pub maximize: bool,
    /// WARM, which comes with CONIN=, DUALIN= and SESSIONDATA=, and without session options.
    pub warm: bool,
    /// MAXFLOW, which comes with SOURCE= and SINK=.
    pub maxflow: bool,
    /// SHORTPATH, which comes with SOURCE= and SINK=.
    pub shortpath: bool,
    /// DEFCOST=.
    pub defcost: Option<Amount>,
    /// DEFMINFLOW=.
    pub defminflow: Option<Amount>,
    /// DEFCAPACITY=.
    pub defcapacity: Option<Bound>,
    /// DEFCONTYPE=.
    pub defcontype: Option<ConType>,
    /// SOURCE=, a node.
    pub source: Option<Name>,
    /// SINK=, a node.
    pub sink: Option<Name>,
    /// SUPPLY=, which comes only with SOURCE=.
    pub supply: Option<Amount>,
    /// DEMAND=, which comes only with SINK=.
    pub demand: Option<Amount>,
    /// The session options.
    pub session: SessionOptions,
}

/// The session options. One that is not given has its default.
#[derive(Clone, Copy, Debug, PartialEq, Eq)]
pub struct SessionOptions {
    /// MAXIT1=, 1000000 if it is not given.
    pub maxit1: u32,
    /// MAXIT2=, 1000000 if it is not given.
    pub maxit2: u32,
    /// PAUSE1=, 0 if it is not given.
    pub pause1: u32,
    /// PAUSE2=, 0 if it is not given.
    pub pause2: u32,
    /// FEASIBLEPAUSE1.
    pub feasiblepause1: bool,
    /// FEASIBLEPAUSE2.
    pub feasiblepause2: bool,
    /// ENDPAUSE1.
    pub endpause1: bool,
    /// FUTURE1.
    pub future1: bool,
    /// FUTURE2.
    pub future2: bool,
    /// PRICETYPE1=, FIRST if it is not given.
    pub pricetype1: PriceType,
    /// PRICETYPE2=, FIRST if it is not given.
    pub pricetype2: PriceType,
    /// QUEUESIZE1=, 10 if it is not given.
    pub queuesize1: u32,
    /// QUEUESIZE2=, 10 if it is not given.
    pub queuesize2: u32,
}

/// An upper bound.
#[derive(Clone, Copy, Debug, PartialEq, Eq)]
pub enum Bound {
    /// An amount.
    Finite(Amount),
    /// INF.
    Infinite,
}

/// The type of a constraint.
#[derive(Clone, Copy, Debug, PartialEq, Eq)]
pub enum ConType {
    /// At most the right side.
    Le,
    /// At least the right side.
    Ge,
    /// The right side.
    Eq,
}

/// A pricing rule.
#[derive(Clone, Copy, Debug, PartialEq, Eq)]
pub enum PriceType {
    /// FIRST.
    First,
    /// BEST.
    Best,
    /// BLAND.
    Bland,
    /// QUEUE.
    Queue,
}

/// What a role statement names the column of. `ArcName` is NAME, and `ConKind` is TYPE.
#[derive(Clone, Copy, Debug, PartialEq, Eq)]
pub enum Role {
    TailNode,
    HeadNode,
    Cost,
    Capacity,
    Lo,
    ArcName,
    Supply,
    Demand,
    Node,
    Supdem,
    Var,
    ConKind,
    Rhs,
    Row,
    Column,
    Coef,
    Id,
}

impl Role {
    /// The number of the role in its list, from 0.
    pub fn number(self) -> u8
        ensures { result ≡ role_number self }
    {
        self as u8
    }

    /// Whether the role takes one column or more, as VAR and ID do.
    pub fn takes_list(self) -> bool
        ensures { result ≡ takes_list self }
    {
        match self {
            Role::Var | Role::Id => true,
            _ => false,
        }
    }
}

/// An act.
#[derive(Drop)]
pub enum Statement {
    Reset(ResetList),
    Pivot,
    Print(PrintList),
    Show(ShowList),
    Save(SaveList),
    Run,
    Quit,
}

/// An option of RESET. A NO form has false.
#[derive(Clone, Copy, Debug, PartialEq, Eq)]
pub enum ResetOption {
    Maxit1(u32),
    Maxit2(u32),
    Pause1(u32),
    Pause2(u32),
    FeasiblePause1(bool),
    FeasiblePause2(bool),
    EndPause1(bool),
    Future1(bool),
    Future2(bool),
    PriceType1(PriceType),
    PriceType2(PriceType),
    QueueSize1(u32),
    QueueSize2(u32),
}

/// An item of PRINT.
#[derive(Clone, Copy, Debug, PartialEq, Eq)]
pub enum PrintItem {
    Problem,
    Solution,
    Arcs,
    Nonarcs,
    Nodes,
    Constraints,
    Costranges,
    Rhsranges,
}

impl PrintItem {
    /// The number of the item in its list, from 0.
    pub fn number(self) -> u8
        ensures { result ≡ print_number self }
    {
        self as u8
    }
}

/// An item of SHOW.
#[derive(Clone, Copy, Debug, PartialEq, Eq)]
pub enum ShowItem {
    Status,
    Problem,
    Options,
}

impl ShowItem {
    /// The number of the item in its list, from 0.
    pub fn number(self) -> u8
        ensures { result ≡ show_number self }
    {
        self as u8
    }
}

/// A table that is stored.
#[derive(Clone, Copy, Debug, PartialEq, Eq)]
pub enum OutOption {
    Arcout,
    Nodeout,
    Conout,
    Dualout,
    Sessionout,
    Certout,
}

/// An option of SAVE: what is stored, and the data set's name in lower case.
#[derive(Clone, Copy)]
pub struct SaveItem {
    pub option: OutOption,
    pub name: Name,
}

/// A data set that is read, or PROC itself.
#[derive(Clone, Copy, Debug, PartialEq, Eq)]
pub enum SetName {
    Arcdata,
    Nodedata,
    Condata,
    Certdata,
    Conin,
    Dualin,
    Sessiondata,
    Proc,
}

/// The first fault of a text, and its place in bytes from 0.
#[derive(Clone, Copy, Debug, PartialEq, Eq)]
pub struct StmtFault {
    pub at: u32,
    pub kind: StmtKind,
}

/// What is wrong. If two kinds come at one place, the one that stands higher here is reported.
#[derive(Clone, Copy, Debug, PartialEq, Eq)]
pub enum StmtKind {
    /// A byte that begins no token, or that may not stand in quotes. The three faults of tokens come before all others.
    BadByte,
    /// A comment that is not closed, where it begins.
    OpenComment,
    /// A quoted text whose mark does not come again, where it begins.
    OpenQuote,
    /// More than 1,048,576 bytes. It comes before all else, and its place is 1048576.
    TooLong,
    /// The first token is not the word PROC, or there is none: that token, or the text's length.
    NoProc,
    /// The text ends inside a statement: the text's length.
    MissingSemicolon,
    /// A word in a statement's, option's or item's place that is in no list for it.
    UnknownWord,
    /// An option that is not for this statement, or that excludes one before it.
    OptionNotHere,
    /// An option, an item or a role statement once more.
    RepeatedOption,
    /// A token that is not of the sort that its place needs.
    WrongValue,
    /// An option that PROC may not end without: PROC's semicolon.
    MissingOption,
    /// Options of PROC that may not stand together: PROC's semicolon.
    WrongTogether,
    /// A statement that may not stand here.
    StatementOrder,
    /// There was no memory; the place is then 0.
    NoMemory,
}

impl fmt::Display for StmtKind {
    ghost output = { λ k. Some (kind_word k) };

    fn fmt<W: fmt::Write>(&self, f: &mut fmt::Formatter<W>) -> fmt::Result {
        match self {
            StmtKind::BadByte => write!(f, "BadByte"),
            StmtKind::OpenComment => write!(f, "OpenComment"),
            StmtKind::OpenQuote => write!(f, "OpenQuote"),
            StmtKind::TooLong => write!(f, "TooLong"),
            StmtKind::NoProc => write!(f, "NoProc"),
            StmtKind::MissingSemicolon => write!(f, "MissingSemicolon"),
            StmtKind::UnknownWord => write!(f, "UnknownWord"),
            StmtKind::OptionNotHere => write!(f, "OptionNotHere"),
            StmtKind::RepeatedOption => write!(f, "RepeatedOption"),
            StmtKind::WrongValue => write!(f, "WrongValue"),
            StmtKind::MissingOption => write!(f, "MissingOption"),
            StmtKind::WrongTogether => write!(f, "WrongTogether"),
            StmtKind::StatementOrder => write!(f, "StatementOrder"),
            StmtKind::NoMemory => write!(f, "NoMemory"),
        }
    }
}

impl From<AllocError> for StmtKind {
    ghost from_gives = { λ _ e. e ≡ NoMemory };

    fn from(_e: AllocError) -> StmtKind {
        StmtKind::NoMemory
    }
}
