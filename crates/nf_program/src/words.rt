//! The words of statements, options and items.
ghost use Rattle.std.specs.Prelude.{◌≡◌, ◌<◌, slice_get};
ghost use Rattle.nf_program.specs.Words.{statement_of, option_of, print_of, show_of, con_type_of, price_type_of};

use crate::program::{ConType, OutOption, PriceType, PrintItem, Role, ShowItem};
use nf_words::{option_words, price_words, print_words, show_words, statement_words, type_words};

/// A word that begins a statement.
#[derive(Clone, Copy)]
pub enum StatementWord {
    Proc,
    Role(Role),
    Reset,
    Pivot,
    Print,
    Show,
    Save,
    Run,
    Quit,
}

/// An option's word, by the kind of its value.
#[derive(Clone, Copy)]
pub enum OptionWord {
    Input(InputOption),
    Flag(FlagOption),
    Amount(AmountOption),
    DefCapacity,
    DefConType,
    Node(NodeOption),
    Output(OutOption),
    Count(CountOption),
    /// A flag of the session; its NO form has false.
    Switch(SwitchOption, bool),
    Rule(RuleOption),
}

/// A data set that is read.
#[derive(Clone, Copy)]
pub enum InputOption {
    Arcdata,
    Nodedata,
    Condata,
    Certdata,
    Conin,
    Dualin,
    Sessiondata,
}

/// A flag of PROC.
#[derive(Clone, Copy)]
pub enum FlagOption {
    SparseConData,
    Thrunet,
    Maximize,
    Warm,
    MaxFlow,
    ShortPath,
}

/// An option of PROC with an amount.
#[derive(Clone, Copy)]
pub enum AmountOption {
    DefCost,
    DefMinFlow,
    Supply,
    Demand,
}

/// An option of PROC with a node.
#[derive(Clone, Copy)]
pub enum NodeOption {
    Source,
    Sink,
}

/// A session option with a count.
#[derive(Clone, Copy)]
pub enum CountOption {
    Maxit1,
    Maxit2,
    Pause1,
    Pause2,
    QueueSize1,
    QueueSize2,
}

/// A session option that is a flag.
#[derive(Clone, Copy)]
pub enum SwitchOption {
    FeasiblePause1,
    FeasiblePause2,
    EndPause1,
    Future1,
    Future2,
}

/// A session option with a rule.
#[derive(Clone, Copy)]
pub enum RuleOption {
    PriceType1,
    PriceType2,
}

/// The words of statements, in the order of their list.
const STATEMENTS: [StatementWord; 25] = [
    StatementWord::Proc,
    StatementWord::Role(Role::TailNode),
    StatementWord::Role(Role::HeadNode),
    StatementWord::Role(Role::Cost),
    StatementWord::Role(Role::Capacity),
    StatementWord::Role(Role::Lo),
    StatementWord::Role(Role::ArcName),
    StatementWord::Role(Role::Supply),
    StatementWord::Role(Role::Demand),
    StatementWord::Role(Role::Node),
    StatementWord::Role(Role::Supdem),
    StatementWord::Role(Role::Var),
    StatementWord::Role(Role::ConKind),
    StatementWord::Role(Role::Rhs),
    StatementWord::Role(Role::Row),
    StatementWord::Role(Role::Column),
    StatementWord::Role(Role::Coef),
    StatementWord::Role(Role::Id),
    StatementWord::Reset,
    StatementWord::Pivot,
    StatementWord::Print,
    StatementWord::Show,
    StatementWord::Save,
    StatementWord::Run,
    StatementWord::Quit,
];

/// The words of options, in the order of their list.
const OPTIONS: [OptionWord; 45] = [
    OptionWord::Input(InputOption::Arcdata),
    OptionWord::Input(InputOption::Nodedata),
    OptionWord::Input(InputOption::Condata),
    OptionWord::Input(InputOption::Certdata),
    OptionWord::Input(InputOption::Conin),
    OptionWord::Input(InputOption::Dualin),
    OptionWord::Input(InputOption::Sessiondata),
    OptionWord::Flag(FlagOption::SparseConData),
    OptionWord::Flag(FlagOption::Thrunet),
    OptionWord::Flag(FlagOption::Maximize),
    OptionWord::Flag(FlagOption::Warm),
    OptionWord::Flag(FlagOption::MaxFlow),
    OptionWord::Flag(FlagOption::ShortPath),
    OptionWord::Amount(AmountOption::DefCost),
    OptionWord::Amount(AmountOption::DefMinFlow),
    OptionWord::DefCapacity,
    OptionWord::DefConType,
    OptionWord::Node(NodeOption::Source),
    OptionWord::Node(NodeOption::Sink),
    OptionWord::Amount(AmountOption::Supply),
    OptionWord::Amount(AmountOption::Demand),
    OptionWord::Output(OutOption::Arcout),
    OptionWord::Output(OutOption::Nodeout),
    OptionWord::Output(OutOption::Conout),
    OptionWord::Output(OutOption::Dualout),
    OptionWord::Output(OutOption::Sessionout),
    OptionWord::Output(OutOption::Certout),
    OptionWord::Count(CountOption::Maxit1),
    OptionWord::Count(CountOption::Maxit2),
    OptionWord::Count(CountOption::Pause1),
    OptionWord::Count(CountOption::Pause2),
    OptionWord::Switch(SwitchOption::FeasiblePause1, true),
    OptionWord::Switch(SwitchOption::FeasiblePause1, false),
    OptionWord::Switch(SwitchOption::FeasiblePause2, true),
    OptionWord::Switch(SwitchOption::FeasiblePause2, false),
    OptionWord::Switch(SwitchOption::EndPause1, true),
    OptionWord::Switch(SwitchOption::EndPause1, false),
    OptionWord::Switch(SwitchOption::Future1, true),
    OptionWord::Switch(SwitchOption::Future1, false),
    OptionWord::Switch(SwitchOption::Future2, true),
    OptionWord::Switch(SwitchOption::Future2, false),
    OptionWord::Rule(RuleOption::PriceType1),
    OptionWord::Rule(RuleOption::PriceType2),
    OptionWord::Count(CountOption::QueueSize1),
    OptionWord::Count(CountOption::QueueSize2),
];

const PRINT_ITEMS: [PrintItem; 8] = [
    PrintItem::Problem,
    PrintItem::Solution,
    PrintItem::Arcs,
    PrintItem::Nonarcs,
    PrintItem::Nodes,
    PrintItem::Constraints,
    PrintItem::Costranges,
    PrintItem::Rhsranges,
];

const SHOW_ITEMS: [ShowItem; 3] = [ShowItem::Status, ShowItem::Problem, ShowItem::Options];

const CON_TYPES: [ConType; 3] = [ConType::Le, ConType::Ge, ConType::Eq];

const PRICE_TYPES: [PriceType; 4] = [
    PriceType::First,
    PriceType::Best,
    PriceType::Bland,
    PriceType::Queue,
];

/// What stands at the kind's place in the table.
fn entry<T: Copy>(table: &[T], kind: u8) -> Option<T>
    ensures { result ≡ slice_get table.now kind }
{
    let at = kind as usize;
    if at < table.len() {
        Some(table[at])
    } else {
        None
    }
}

/// The statement that the word begins.
#[tactic(auto, unfolding(crate::specs::Words::statement_of, crate::specs::Words::statements))]
pub fn statement_of(word: &[u8]) -> Option<StatementWord>
    ensures { result ≡ statement_of word.now }
{
    match statement_words().find(word) {
        Some(kind) => entry(&STATEMENTS, kind.0),
        None => None,
    }
}

/// The option of this word.
#[tactic(auto, unfolding(crate::specs::Words::option_of, crate::specs::Words::options))]
pub fn option_of(word: &[u8]) -> Option<OptionWord>
    ensures { result ≡ option_of word.now }
{
    match option_words().find(word) {
        Some(kind) => entry(&OPTIONS, kind.0),
        None => None,
    }
}

/// The item of PRINT of this word.
#[tactic(auto, unfolding(crate::specs::Words::print_of, crate::specs::Words::print_items))]
pub fn print_of(word: &[u8]) -> Option<PrintItem>
    ensures { result ≡ print_of word.now }
{
    match print_words().find(word) {
        Some(kind) => entry(&PRINT_ITEMS, kind.0),
        None => None,
    }
}

/// The item of SHOW of this word.
#[tactic(auto, unfolding(crate::specs::Words::show_of, crate::specs::Words::show_items))]
pub fn show_of(word: &[u8]) -> Option<ShowItem>
    ensures { result ≡ show_of word.now }
{
    match show_words().find(word) {
        Some(kind) => entry(&SHOW_ITEMS, kind.0),
        None => None,
    }
}

/// The constraint's type of this word.
#[tactic(auto, unfolding(crate::specs::Words::con_type_of, crate::specs::Words::con_types))]
pub fn con_type_of(word: &[u8]) -> Option<ConType>
    ensures { result ≡ con_type_of word.now }
{
    match type_words().find(word) {
        Some(kind) => entry(&CON_TYPES, kind.0),
        None => None,
    }
}

/// The rule of this word.
#[tactic(auto, unfolding(crate::specs::Words::price_type_of, crate::specs::Words::price_types))]
pub fn price_type_of(word: &[u8]) -> Option<PriceType>
    ensures { result ≡ price_type_of word.now }
{
    match price_words().find(word) {
        Some(kind) => entry(&PRICE_TYPES, kind.0),
        None => None,
    }
}
