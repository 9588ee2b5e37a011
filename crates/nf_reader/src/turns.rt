//! What a token brings in each place.
ghost use Rattle.std.specs.Prelude.{◌≡◌, Ok, [], codes};
ghost use Rattle.std.specs.List.{list_any};
ghost use Rattle.nf_reader.specs.declared.places.Turn.TheVariants.{Goes};
ghost use Rattle.nf_reader.specs.Gives.{Gives};
ghost use Rattle.nf_program.specs.Settings.{flag_of};
ghost use Rattle.nf_program.specs.Programs.{is_netflow, has_role, has_print, has_show};
ghost use Rattle.nf_reader.specs.Opened.{belongs, plain_act};
ghost use Rattle.nf_reader.specs.Turns.{at_start, at_netflow, next_place, new_option, option_word, end_options, at_options, at_equals, value_of, at_value, act_place, is_late, opens, at_statement, is_full, add_column, at_columns, print_word, at_print, show_word, at_show, at_alone, turn_at};

use crate::given::{has_session, has_warm, is_given, is_output, is_session, is_warm};
use crate::places::{Head, Place, Plain, Turn};
use nf_program::settings::{Setting, are_wrong_together, lacks, options_of, resets_of, saves_of};
use nf_program::values::{
    amount_of, bound_of, column_of, count_for, node_of, rule_of, set_name_of, type_of,
};
use nf_program::words::{OptionWord, StatementWord, option_of, print_of, show_of, statement_of};
use nf_program::{
    Command, Items, NameList, PrintItem, PrintList, Program, Role, ShowItem, ShowList, Statement,
    StmtKind,
};
use nf_text::TokenKind;
use std::alloc::Global;

#[tactic(auto, unfolding(crate::specs::Turns::at_start))]
fn at_start(kind: TokenKind, bytes: &[u8]) -> Result<Turn, StmtKind>
    ensures { Gives result (at_start kind bytes.now) }
{
    match kind {
        TokenKind::Word => match statement_of(bytes) {
            Some(StatementWord::Proc) => Ok(Turn::Goes(Place::Netflow)),
            _ => Err(StmtKind::NoProc),
        },
        _ => Err(StmtKind::NoProc),
    }
}

fn is_netflow(word: &[u8]) -> bool
    ensures { result ≡ is_netflow word.now }
{
    "NETFLOW".as_bytes().eq_ignore_ascii_case(word)
}

#[tactic(auto, unfolding(crate::specs::Turns::at_netflow))]
fn at_netflow(alloc: Global, kind: TokenKind, bytes: &[u8]) -> Result<Turn, StmtKind>
    ensures { Gives result (at_netflow kind bytes.now) }
{
    match kind {
        TokenKind::Word => {
            if !is_netflow(bytes) {
                return Err(StmtKind::UnknownWord);
            }
            Ok(Turn::Goes(Place::Options(Head::Proc, Items::new(alloc))))
        }
        _ => Err(StmtKind::WrongValue),
    }
}

fn belongs(head: Head, given: &[Setting], option: OptionWord) -> bool
    ensures { result ≡ belongs head given.now option }
{
    match head {
        Head::Proc => {
            !(is_warm(option) && has_session(given)) && !(is_session(option) && has_warm(given))
        }
        Head::Reset => is_session(option),
        Head::Save => is_output(option),
    }
}

fn option_turn(head: Head, mut given: Items<Setting>, option: OptionWord) -> Result<Turn, StmtKind>
    ensures { Gives result (Ok (Goes (next_place head given option (flag_of option)))) }
{
    match option.flag() {
        None => Ok(Turn::Goes(Place::Equals(head, given, option))),
        Some(setting) => {
            given.push(setting)?;
            Ok(Turn::Goes(Place::Options(head, given)))
        }
    }
}

fn new_option(head: Head, given: Items<Setting>, option: OptionWord) -> Result<Turn, StmtKind>
    ensures { Gives result (new_option head given option) }
{
    if is_given(option, given.items()) {
        return Err(StmtKind::RepeatedOption);
    }
    option_turn(head, given, option)
}

#[tactic(auto, unfolding(crate::specs::Turns::option_word))]
fn option_word(
    head: Head,
    given: Items<Setting>,
    option: Option<OptionWord>,
) -> Result<Turn, StmtKind>
    ensures { Gives result (option_word head given option) }
{
    let Some(option) = option else {
        return Err(StmtKind::UnknownWord);
    };
    if !belongs(head, given.items(), option) {
        return Err(StmtKind::OptionNotHere);
    }
    new_option(head, given, option)
}

#[tactic(auto, unfolding(crate::specs::Turns::end_options))]
fn end_options(
    alloc: Global,
    command: Command,
    head: Head,
    given: Items<Setting>,
) -> Result<Turn, StmtKind>
    ensures { Gives result (end_options command head given) }
{
    match head {
        Head::Proc => {
            let options = options_of(given.items());
            if lacks(command, &options) {
                return Err(StmtKind::MissingOption);
            }
            if are_wrong_together(&options) {
                return Err(StmtKind::WrongTogether);
            }
            Ok(Turn::Proc(options))
        }
        Head::Reset => {
            let list = resets_of(alloc, given.items())?;
            Ok(Turn::Act(Statement::Reset(list)))
        }
        Head::Save => {
            if given.is_empty() {
                return Err(StmtKind::WrongValue);
            }
            let list = saves_of(alloc, given.items())?;
            Ok(Turn::Act(Statement::Save(list)))
        }
    }
}

#[tactic(auto, unfolding(crate::specs::Turns::at_options))]
fn at_options(
    alloc: Global,
    command: Command,
    head: Head,
    given: Items<Setting>,
    kind: TokenKind,
    bytes: &[u8],
) -> Result<Turn, StmtKind>
    ensures { Gives result (at_options command head given kind bytes.now) }
{
    match kind {
        TokenKind::Word => option_word(head, given, option_of(bytes)),
        TokenKind::Semicolon => end_options(alloc, command, head, given),
        _ => Err(StmtKind::WrongValue),
    }
}

#[tactic(auto, unfolding(crate::specs::Turns::at_equals))]
fn at_equals(
    head: Head,
    given: Items<Setting>,
    option: OptionWord,
    kind: TokenKind,
) -> Result<Turn, StmtKind>
    ensures { Gives result (at_equals head given option kind) }
{
    match kind {
        TokenKind::Equals => Ok(Turn::Goes(Place::Value(head, given, option))),
        _ => Err(StmtKind::WrongValue),
    }
}

/// The setting that a token makes of an option.
#[tactic(auto, unfolding(crate::specs::Turns::value_of))]
fn value_of(option: OptionWord, kind: TokenKind, bytes: &[u8]) -> Option<Setting>
    ensures { result ≡ value_of option kind bytes.now }
{
    match option {
        OptionWord::Input(o) => Some(Setting::Input(o, set_name_of(kind, bytes)?)),
        OptionWord::Amount(o) => Some(Setting::Amount(o, amount_of(kind, bytes)?)),
        OptionWord::DefCapacity => Some(Setting::DefCapacity(bound_of(kind, bytes)?)),
        OptionWord::DefConType => Some(Setting::DefConType(type_of(kind, bytes)?)),
        OptionWord::Node(o) => Some(Setting::Node(o, node_of(kind, bytes)?)),
        OptionWord::Output(o) => Some(Setting::Output(o, set_name_of(kind, bytes)?)),
        OptionWord::Count(o) => Some(Setting::Count(o, count_for(o, kind, bytes)?)),
        OptionWord::Rule(o) => Some(Setting::Rule(o, rule_of(kind, bytes)?)),
        OptionWord::Flag(_) | OptionWord::Switch(_, _) => None,
    }
}

#[tactic(auto, unfolding(crate::specs::Turns::at_value))]
fn at_value(
    head: Head,
    mut given: Items<Setting>,
    option: OptionWord,
    kind: TokenKind,
    bytes: &[u8],
) -> Result<Turn, StmtKind>
    ensures { Gives result (at_value head given option kind bytes.now) }
{
    match value_of(option, kind, bytes) {
        None => Err(StmtKind::WrongValue),
        Some(setting) => {
            given.push(setting)?;
            Ok(Turn::Goes(Place::Options(head, given)))
        }
    }
}

fn has_role(role: Role, roles: &[(Role, NameList)]) -> bool
    ensures { result ≡ has_role role roles.now }
{
    let number = role.number();
    roles.iter().any(|entry| entry.0.number() == number)
}

fn is_late(command: Command, over: bool) -> bool
    ensures { result ≡ is_late command over }
{
    match command {
        Command::Run => over,
        Command::Check | Command::Again | Command::Export => true,
    }
}

fn act_place(late: bool, place: Place) -> Result<Turn, StmtKind>
    ensures { Gives result (act_place late place) }
{
    if late {
        return Err(StmtKind::StatementOrder);
    }
    Ok(Turn::Goes(place))
}

/// The place after a statement's word.
#[tactic(auto, unfolding(crate::specs::Turns::opens))]
fn opens(
    alloc: Global,
    command: Command,
    over: bool,
    program: &Program,
    word: StatementWord,
) -> Result<Turn, StmtKind>
    ensures { Gives result (opens command over program.now word) }
{
    let late = is_late(command, over);
    match word {
        StatementWord::Proc => Err(StmtKind::StatementOrder),
        StatementWord::Role(role) => {
            if has_role(role, program.roles.items()) {
                return Err(StmtKind::RepeatedOption);
            }
            if !program.acts.is_empty() {
                return Err(StmtKind::StatementOrder);
            }
            Ok(Turn::Goes(Place::Columns(role, Items::new(alloc))))
        }
        StatementWord::Reset => act_place(late, Place::Options(Head::Reset, Items::new(alloc))),
        StatementWord::Pivot => act_place(late, Place::Alone(Plain::Pivot)),
        StatementWord::Print => act_place(late, Place::Print(Items::new(alloc))),
        StatementWord::Show => act_place(late, Place::Show(Items::new(alloc))),
        StatementWord::Save => act_place(late, Place::Options(Head::Save, Items::new(alloc))),
        StatementWord::Run => act_place(late, Place::Alone(Plain::Run)),
        StatementWord::Quit => act_place(over, Place::Alone(Plain::Quit)),
    }
}

#[tactic(auto, unfolding(crate::specs::Turns::at_statement))]
fn at_statement(
    alloc: Global,
    command: Command,
    over: bool,
    program: &Program,
    kind: TokenKind,
    bytes: &[u8],
) -> Result<Turn, StmtKind>
    ensures { Gives result (at_statement command over program.now kind bytes.now) }
{
    match kind {
        TokenKind::Word => match statement_of(bytes) {
            None => Err(StmtKind::UnknownWord),
            Some(word) => opens(alloc, command, over, program, word),
        },
        TokenKind::Semicolon => Ok(Turn::Goes(Place::Statement(over))),
        _ => Err(StmtKind::WrongValue),
    }
}

fn add_column(
    role: Role,
    mut names: NameList,
    kind: TokenKind,
    bytes: &[u8],
) -> Result<Turn, StmtKind>
    ensures { Gives result (add_column role names kind bytes.now) }
{
    if !names.is_empty() && !role.takes_list() {
        return Err(StmtKind::WrongValue);
    }
    match column_of(kind, bytes) {
        None => Err(StmtKind::WrongValue),
        Some(name) => {
            names.push(name)?;
            Ok(Turn::Goes(Place::Columns(role, names)))
        }
    }
}

#[tactic(auto, unfolding(crate::specs::Turns::at_columns))]
fn at_columns(role: Role, names: NameList, kind: TokenKind, bytes: &[u8]) -> Result<Turn, StmtKind>
    ensures { Gives result (at_columns role names kind bytes.now) }
{
    match kind {
        TokenKind::Semicolon => {
            if names.is_empty() {
                return Err(StmtKind::WrongValue);
            }
            Ok(Turn::Role(role, names))
        }
        _ => add_column(role, names, kind, bytes),
    }
}

fn has_print(item: PrintItem, given: &[PrintItem]) -> bool
    ensures { result ≡ has_print item given.now }
{
    let number = item.number();
    given.iter().any(|i| i.number() == number)
}

#[tactic(auto, unfolding(crate::specs::Turns::print_word))]
fn print_word(mut given: PrintList, item: Option<PrintItem>) -> Result<Turn, StmtKind>
    ensures { Gives result (print_word given item) }
{
    let Some(item) = item else {
        return Err(StmtKind::UnknownWord);
    };
    if has_print(item, given.items()) {
        return Err(StmtKind::RepeatedOption);
    }
    given.push(item)?;
    Ok(Turn::Goes(Place::Print(given)))
}

#[tactic(auto, unfolding(crate::specs::Turns::at_print))]
fn at_print(given: PrintList, kind: TokenKind, bytes: &[u8]) -> Result<Turn, StmtKind>
    ensures { Gives result (at_print given kind bytes.now) }
{
    match kind {
        TokenKind::Word => print_word(given, print_of(bytes)),
        TokenKind::Semicolon => {
            if given.is_empty() {
                return Err(StmtKind::WrongValue);
            }
            Ok(Turn::Act(Statement::Print(given)))
        }
        _ => Err(StmtKind::WrongValue),
    }
}

fn has_show(item: ShowItem, given: &[ShowItem]) -> bool
    ensures { result ≡ has_show item given.now }
{
    let number = item.number();
    given.iter().any(|i| i.number() == number)
}

#[tactic(auto, unfolding(crate::specs::Turns::show_word))]
fn show_word(mut given: ShowList, item: Option<ShowItem>) -> Result<Turn, StmtKind>
    ensures { Gives result (show_word given item) }
{
    let Some(item) = item else {
        return Err(StmtKind::UnknownWord);
    };
    if has_show(item, given.items()) {
        return Err(StmtKind::RepeatedOption);
    }
    given.push(item)?;
    Ok(Turn::Goes(Place::Show(given)))
}

#[tactic(auto, unfolding(crate::specs::Turns::at_show))]
fn at_show(given: ShowList, kind: TokenKind, bytes: &[u8]) -> Result<Turn, StmtKind>
    ensures { Gives result (at_show given kind bytes.now) }
{
    match kind {
        TokenKind::Word => show_word(given, show_of(bytes)),
        TokenKind::Semicolon => {
            if given.is_empty() {
                return Err(StmtKind::WrongValue);
            }
            Ok(Turn::Act(Statement::Show(given)))
        }
        _ => Err(StmtKind::WrongValue),
    }
}

fn plain_act(word: Plain) -> Statement
    ensures { result ≡ plain_act word }
{
    match word {
        Plain::Pivot => Statement::Pivot,
        Plain::Run => Statement::Run,
        Plain::Quit => Statement::Quit,
    }
}

#[tactic(auto, unfolding(crate::specs::Turns::at_alone))]
fn at_alone(word: Plain, kind: TokenKind) -> Result<Turn, StmtKind>
    ensures { Gives result (at_alone word kind) }
{
    match kind {
        TokenKind::Semicolon => Ok(Turn::Act(plain_act(word))),
        TokenKind::Word => Err(StmtKind::UnknownWord),
        _ => Err(StmtKind::WrongValue),
    }
}

/// What the token brings in this place.
#[tactic(auto, unfolding(crate::specs::Turns::turn_at))]
pub fn turn_at(
    alloc: Global,
    command: Command,
    place: Place,
    program: &Program,
    kind: TokenKind,
    bytes: &[u8],
) -> Result<Turn, StmtKind>
    ensures { Gives result (turn_at command place program.now kind bytes.now) }
{
    match place {
        Place::Start => at_start(kind, bytes),
        Place::Netflow => at_netflow(alloc, kind, bytes),
        Place::Options(head, given) => at_options(alloc, command, head, given, kind, bytes),
        Place::Equals(head, given, option) => at_equals(head, given, option, kind),
        Place::Value(head, given, option) => at_value(head, given, option, kind, bytes),
        Place::Statement(over) => at_statement(alloc, command, over, program, kind, bytes),
        Place::Columns(role, names) => at_columns(role, names, kind, bytes),
        Place::Print(given) => at_print(given, kind, bytes),
        Place::Show(given) => at_show(given, kind, bytes),
        Place::Alone(word) => at_alone(word, kind),
    }
}
