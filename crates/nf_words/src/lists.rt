//! The eight tables.
ghost use Rattle.std.specs.Prelude.{◌≡◌};
ghost use Rattle.nf_words.specs.Lists.{statement_list, option_list, print_list, show_list, type_list, price_list, status_list, last_list};
ghost use Rattle.nf_words.specs.Views.{words};

use crate::table::{Entry, Kind, WordTable};

/// A table by its kinds: the number of each, and its spellings.
macro_rules! table {
    ($($kind:literal: $($spelling:literal)|+),* $(,)?) => {
        WordTable { entries: &[$($(Entry { spelling: $spelling, kind: Kind($kind) }),+),*] }
    };
}

/// The words that begin statements, PROC, the roles and the acts among them.
#[tactic(auto, unfolding(crate::specs::Lists::statement_list))]
pub fn statement_words() -> WordTable<33>
    ensures list { words result ≡ statement_list }
{
    table![
        0: "PROC",
        1: "TAILNODE" | "TAIL" | "FROM",
        2: "HEADNODE" | "HEAD" | "TO",
        3: "COST",
        4: "CAPACITY" | "CAPAC" | "UPPERBD",
        5: "LO" | "LOWERBD" | "MINFLOW",
        6: "NAME",
        7: "SUPPLY",
        8: "DEMAND",
        9: "NODE",
        10: "SUPDEM",
        11: "VAR",
        12: "TYPE",
        13: "RHS",
        14: "ROW",
        15: "COLUMN",
        16: "COEF",
        17: "ID",
        18: "RESET",
        19: "PIVOT",
        20: "PRINT",
        21: "SHOW",
        22: "SAVE",
        23: "RUN",
        24: "QUIT",
    ]
}

/// The options of PROC, RESET and SAVE, in the order in which PROC's canonical text has them.
#[tactic(auto, unfolding(crate::specs::Lists::option_list))]
pub fn option_words() -> WordTable<48>
    ensures list { words result ≡ option_list }
{
    table![
        0: "ARCDATA",
        1: "NODEDATA",
        2: "CONDATA",
        3: "CERTDATA",
        4: "CONIN",
        5: "DUALIN",
        6: "SESSIONDATA",
        7: "SPARSECONDATA",
        8: "THRUNET",
        9: "MAXIMIZE" | "MAX",
        10: "WARM",
        11: "MAXFLOW" | "MF",
        12: "SHORTPATH" | "SP",
        13: "DEFCOST",
        14: "DEFMINFLOW",
        15: "DEFCAPACITY",
        16: "DEFCONTYPE",
        17: "SOURCE",
        18: "SINK",
        19: "SUPPLY",
        20: "DEMAND",
        21: "ARCOUT",
        22: "NODEOUT",
        23: "CONOUT",
        24: "DUALOUT",
        25: "SESSIONOUT",
        26: "CERTOUT",
        27: "MAXIT1",
        28: "MAXIT2",
        29: "PAUSE1",
        30: "PAUSE2",
        31: "FEASIBLEPAUSE1",
        32: "NOFEASIBLEPAUSE1",
        33: "FEASIBLEPAUSE2",
        34: "NOFEASIBLEPAUSE2",
        35: "ENDPAUSE1",
        36: "NOENDPAUSE1",
        37: "FUTURE1",
        38: "NOFUTURE1",
        39: "FUTURE2",
        40: "NOFUTURE2",
        41: "PRICETYPE1",
        42: "PRICETYPE2",
        43: "QUEUESIZE1",
        44: "QUEUESIZE2",
    ]
}

/// The items of PRINT.
#[tactic(auto, unfolding(crate::specs::Lists::print_list))]
pub fn print_words() -> WordTable<8>
    ensures list { words result ≡ print_list }
{
    table![
        0: "PROBLEM",
        1: "SOLUTION",
        2: "ARCS",
        3: "NONARCS",
        4: "NODES",
        5: "CONSTRAINTS",
        6: "COSTRANGES",
        7: "RHSRANGES",
    ]
}

/// The items of SHOW.
#[tactic(auto, unfolding(crate::specs::Lists::show_list))]
pub fn show_words() -> WordTable<3>
    ensures list { words result ≡ show_list }
{
    table![0: "STATUS", 1: "PROBLEM", 2: "OPTIONS"]
}

/// The types of constraints, and of rows that hold data of variables.
#[tactic(auto, unfolding(crate::specs::Lists::type_list))]
pub fn type_words() -> WordTable<16>
    ensures list { words result ≡ type_list }
{
    table![
        0: "LE" | "L" | "<=" | "<",
        1: "GE" | "G" | ">=" | ">",
        2: "EQ" | "E" | "=",
        3: "COST",
        4: "LOWERBD" | "LO",
        5: "UPPERBD" | "CAPAC",
    ]
}

/// The pricing rules.
#[tactic(auto, unfolding(crate::specs::Lists::price_list))]
pub fn price_words() -> WordTable<5>
    ensures list { words result ≡ price_list }
{
    table![0: "FIRST", 1: "BEST", 2: "BLAND", 3: "QUEUE" | "Q"]
}

/// The statuses of columns and rows.
#[tactic(auto, unfolding(crate::specs::Lists::status_list))]
pub fn status_words() -> WordTable<6>
    ensures list { words result ≡ status_list }
{
    table![0: "LOWERBD", 1: "UPPERBD", 2: "BASIC", 3: "ABSENT", 4: "NONE", 5: "ZERO"]
}

/// The last halts of a session.
#[tactic(auto, unfolding(crate::specs::Lists::last_list))]
pub fn last_words() -> WordTable<9>
    ensures list { words result ≡ last_list }
{
    table![
        0: "NONE",
        1: "OPTIMAL",
        2: "INFEASIBLE",
        3: "UNBOUNDED",
        4: "LIMIT",
        5: "PAUSE",
        6: "FEASIBLE",
        7: "STAGEONE",
        8: "PIVOT",
    ]
}
