//! The canonical text of a program.
ghost use Rattle.std.specs.Prelude.{◌≡◌, ◌<◌, ◌≤◌, ◌++◌, ◌∷◌, ◌==◌, [], ◌+◌, ◌/◌, ◌%◌, OnOk, IfOk, ℕ, List, length, decimal};
ghost use Rattle.std.specs.List.{flat_map, list_any, list_all};
ghost use Rattle.nf_program.specs.declared.program.Command.{Command};
ghost use Rattle.nf_text.specs.Bytes.{is_letter, is_word_byte};
ghost use Rattle.nf_program.specs.Values.{lowered};
ghost use Rattle.nf_program.specs.Settings.{word_of, reset_setting, save_setting};
ghost use Rattle.nf_writer.specs.Canonical.{statement_number, option_number, con_type_number, price_type_number, statement_text, option_text, print_text, show_text, con_type_text, price_type_text, fraction_text, sign_text, size_text, amount_text, is_plain, mark_for, name_piece, has_value, value_text, act_word, act_body, bound_piece, value_pieces, setting_pieces, column_pieces, role_pieces, print_pieces, show_pieces, act_pieces, proc_pieces, program_pieces, text_of, canonical};
ghost use Rattle.nf_program.specs.Grammar.{HasProgram};

use crate::options::settings_of;
use itoa::Buffer;
use nf_frac::Amount;
use nf_io::Text;
use nf_program::settings::Setting;
use nf_program::words::{CountOption, OptionWord, RuleOption, StatementWord, SwitchOption};
use nf_program::{
    Bound, ConType, Name, NameList, PriceType, PrintItem, ProcOptions, Program, ResetOption, Role,
    SaveItem, ShowItem, Statement,
};
use nf_words::{
    Kind, option_words, price_words, print_words, show_words, statement_words, type_words,
};
use std::alloc::{AllocError, Global};

fn put_lower(out: &mut Text, word: &[u8]) -> Result<(), AllocError>
    ensures { OnOk result (out.new ≡ out.old ++ lowered word.now) }
{
    for b in word {
        out.push(&[b.to_ascii_lowercase()])?;
    }
    Ok(())
}

fn statement_number(word: StatementWord) -> u8
    ensures { result ≡ statement_number word }
{
    match word {
        StatementWord::Proc => 0,
        StatementWord::Role(role) => 1 + role.number(),
        StatementWord::Reset => 18,
        StatementWord::Pivot => 19,
        StatementWord::Print => 20,
        StatementWord::Show => 21,
        StatementWord::Save => 22,
        StatementWord::Run => 23,
        StatementWord::Quit => 24,
    }
}

#[tactic(auto, unfolding(crate::specs::Canonical::statement_text))]
fn put_statement(out: &mut Text, word: StatementWord) -> Result<(), AllocError>
    ensures { OnOk result (out.new ≡ out.old ++ statement_text word) }
{
    let spelling = statement_words().spelling(Kind(statement_number(word)));
    put_lower(out, spelling.as_bytes())
}

fn option_number(option: OptionWord) -> u8
    ensures { result ≡ option_number option }
{
    match option {
        OptionWord::Switch(switch, false) => 32 + 2 * switch as u8,
        _ => option.key(),
    }
}

#[tactic(auto, unfolding(crate::specs::Canonical::option_text))]
fn put_option(out: &mut Text, option: OptionWord) -> Result<(), AllocError>
    ensures { OnOk result (out.new ≡ out.old ++ option_text option) }
{
    let spelling = option_words().spelling(Kind(option_number(option)));
    put_lower(out, spelling.as_bytes())
}

fn con_type_number(kind: ConType) -> u8
    ensures { result ≡ con_type_number kind }
{
    kind as u8
}

#[tactic(auto, unfolding(crate::specs::Canonical::con_type_text))]
fn put_con_type(out: &mut Text, kind: ConType) -> Result<(), AllocError>
    ensures { OnOk result (out.new ≡ out.old ++ con_type_text kind) }
{
    let spelling = type_words().spelling(Kind(con_type_number(kind)));
    put_lower(out, spelling.as_bytes())
}

fn price_type_number(rule: PriceType) -> u8
    ensures { result ≡ price_type_number rule }
{
    rule as u8
}

#[tactic(auto, unfolding(crate::specs::Canonical::price_type_text))]
fn put_price_type(out: &mut Text, rule: PriceType) -> Result<(), AllocError>
    ensures { OnOk result (out.new ≡ out.old ++ price_type_text rule) }
{
    let spelling = price_words().spelling(Kind(price_type_number(rule)));
    put_lower(out, spelling.as_bytes())
}

fn put_decimal(out: &mut Text, n: u64) -> Result<(), AllocError>
    ensures { OnOk result (out.new ≡ out.old ++ decimal n) }
{
    let mut digits = Buffer::new();
    out.push(digits.format(n).as_bytes())
}

fn digit(n: u64) -> u8
    requires { n < 10 }
    ensures { result ≡ 48 + n }
{
    b'0' + n as u8
}

fn put_fraction(out: &mut Text, n: u64) -> Result<(), AllocError>
    requires { n < 1000 }
    ensures { OnOk result (out.new ≡ out.old ++ fraction_text n) }
{
    if n == 0 {
        Ok(())
    } else if n % 100 == 0 {
        out.push(&[b'.', digit(n / 100)])
    } else if n % 10 == 0 {
        out.push(&[b'.', digit(n / 100), digit(n / 10 % 10)])
    } else {
        out.push(&[b'.', digit(n / 100), digit(n / 10 % 10), digit(n % 10)])
    }
}

fn put_size(out: &mut Text, thousandths: u64) -> Result<(), AllocError>
    ensures { OnOk result (out.new ≡ out.old ++ size_text thousandths) }
{
    put_decimal(out, thousandths / 1000)?;
    put_fraction(out, thousandths % 1000)
}

fn put_sign(out: &mut Text, thousandths: i64) -> Result<(), AllocError>
    ensures { OnOk result (out.new ≡ out.old ++ sign_text thousandths) }
{
    if thousandths < 0 {
        out.push(b"-")
    } else {
        Ok(())
    }
}

#[tactic(auto, unfolding(crate::specs::Canonical::amount_text))]
fn put_amount(out: &mut Text, amount: Amount) -> Result<(), AllocError>
    ensures { OnOk result (out.new ≡ out.old ++ amount_text amount) }
{
    put_sign(out, amount.thousandths)?;
    put_size(out, amount.thousandths.unsigned_abs())
}

fn is_letter(b: u8) -> bool
    ensures { result ≡ is_letter b }
{
    b.is_ascii_alphabetic() || b == b'_'
}

fn is_word_byte(b: u8) -> bool
    ensures { result ≡ is_word_byte b }
{
    is_letter(b) || b.is_ascii_digit()
}

fn are_word_bytes(bytes: &[u8]) -> bool
    ensures { result ≡ list_all is_word_byte bytes.now }
{
    bytes.iter().all(|b| is_word_byte(*b))
}

fn is_plain(name: &[u8]) -> bool
    ensures { result ≡ is_plain name.now }
{
    match name {
        [] => false,
        [first, more @ ..] => is_letter(*first) && are_word_bytes(more),
    }
}

fn has_double(name: &[u8]) -> bool
    ensures { result ≡ list_any (λ b. b == 34) name.now }
{
    name.iter().any(|b| *b == b'"')
}

fn mark_for(name: &[u8]) -> u8
    ensures { result ≡ mark_for name.now }
{
    if has_double(name) { b'\'' } else { b'"' }
}

fn put_quoted(out: &mut Text, name: &[u8]) -> Result<(), AllocError>
    ensures { OnOk result (out.new ≡ out.old ++ mark_for name.now ∷ (name.now ++ mark_for name.now ∷ [])) }
{
    let mark = mark_for(name);
    out.push(&[mark])?;
    out.push(name)?;
    out.push(&[mark])
}

/// A name as a plain word if it is one, else in quotes.
#[tactic(auto, unfolding(crate::specs::Canonical::name_piece))]
fn put_name(out: &mut Text, name: &[u8]) -> Result<(), AllocError>
    ensures { OnOk result (out.new ≡ out.old ++ (name_piece name.now).bytes) }
{
    if is_plain(name) {
        out.push(name)
    } else {
        put_quoted(out, name)
    }
}

fn put_bound(out: &mut Text, bound: Bound) -> Result<(), AllocError>
    ensures { OnOk result (out.new ≡ out.old ++ (bound_piece bound).bytes) }
{
    match bound {
        Bound::Finite(amount) => put_amount(out, amount),
        Bound::Infinite => out.push(b"inf"),
    }
}

fn has_value(option: OptionWord) -> bool
    ensures { result ≡ has_value option }
{
    match option {
        OptionWord::Flag(_) | OptionWord::Switch(_, _) => false,
        _ => true,
    }
}

fn put_value(out: &mut Text, setting: &Setting) -> Result<(), AllocError>
    ensures { OnOk result (out.new ≡ out.old ++ value_text setting.now) }
{
    match setting {
        Setting::Input(_, name) => out.push(name.bytes()),
        Setting::Amount(_, amount) => put_amount(out, *amount),
        Setting::DefCapacity(bound) => put_bound(out, *bound),
        Setting::DefConType(kind) => put_con_type(out, *kind),
        Setting::Node(_, name) => put_name(out, name.bytes()),
        Setting::Output(_, name) => out.push(name.bytes()),
        Setting::Count(_, n) => put_decimal(out, *n as u64),
        Setting::Rule(_, rule) => put_price_type(out, *rule),
        Setting::Flag(_) | Setting::Switch(_, _) => Ok(()),
    }
}

fn put_assigned(out: &mut Text, setting: &Setting) -> Result<(), AllocError>
    ensures { OnOk result (out.new ≡ out.old ++ 61 ∷ value_text setting.now) }
{
    out.push(b"=")?;
    put_value(out, setting)
}

fn put_setting(out: &mut Text, setting: &Setting) -> Result<(), AllocError>
    ensures { OnOk result (out.new ≡ out.old ++ text_of (setting_pieces setting.now)) }
{
    let option = setting.word();
    out.push(b" ")?;
    put_option(out, option)?;
    if has_value(option) {
        put_assigned(out, setting)?;
    }
    Ok(())
}

fn put_settings(out: &mut Text, settings: &[Setting]) -> Result<(), AllocError>
    ensures { OnOk result (out.new ≡ out.old ++ text_of (flat_map setting_pieces settings.now)) }
{
    for setting in settings {
        put_setting(out, setting)?;
    }
    Ok(())
}

fn put_proc(alloc: Global, out: &mut Text, options: &ProcOptions) -> Result<(), AllocError>
    ensures { OnOk result (out.new ≡ out.old ++ text_of (proc_pieces options.now)) }
{
    let settings = settings_of(alloc, options)?;
    put_statement(out, StatementWord::Proc)?;
    out.push(b" netflow")?;
    put_settings(out, settings.items())?;
    out.push(b";\n")
}

fn put_columns(out: &mut Text, names: &[Name]) -> Result<(), AllocError>
    ensures { OnOk result (out.new ≡ out.old ++ text_of (flat_map column_pieces names.now)) }
{
    for name in names {
        out.push(b" ")?;
        put_name(out, name.bytes())?;
    }
    Ok(())
}

fn put_role(out: &mut Text, role: Role, names: &NameList) -> Result<(), AllocError>
    ensures { OnOk result (out.new ≡ out.old ++ text_of (role_pieces (role, names.now))) }
{
    put_statement(out, StatementWord::Role(role))?;
    put_columns(out, names.items())?;
    out.push(b";\n")
}

fn put_roles(out: &mut Text, roles: &[(Role, NameList)]) -> Result<(), AllocError>
    ensures { OnOk result (out.new ≡ out.old ++ text_of (flat_map role_pieces roles.now)) }
{
    for entry in roles {
        put_role(out, entry.0, &entry.1)?;
    }
    Ok(())
}

fn reset_setting(option: ResetOption) -> Setting
    ensures { result ≡ reset_setting option }
{
    match option {
        ResetOption::Maxit1(n) => Setting::Count(CountOption::Maxit1, n),
        ResetOption::Maxit2(n) => Setting::Count(CountOption::Maxit2, n),
        ResetOption::Pause1(n) => Setting::Count(CountOption::Pause1, n),
        ResetOption::Pause2(n) => Setting::Count(CountOption::Pause2, n),
        ResetOption::FeasiblePause1(on) => Setting::Switch(SwitchOption::FeasiblePause1, on),
        ResetOption::FeasiblePause2(on) => Setting::Switch(SwitchOption::FeasiblePause2, on),
        ResetOption::EndPause1(on) => Setting::Switch(SwitchOption::EndPause1, on),
        ResetOption::Future1(on) => Setting::Switch(SwitchOption::Future1, on),
        ResetOption::Future2(on) => Setting::Switch(SwitchOption::Future2, on),
        ResetOption::PriceType1(rule) => Setting::Rule(RuleOption::PriceType1, rule),
        ResetOption::PriceType2(rule) => Setting::Rule(RuleOption::PriceType2, rule),
        ResetOption::QueueSize1(n) => Setting::Count(CountOption::QueueSize1, n),
        ResetOption::QueueSize2(n) => Setting::Count(CountOption::QueueSize2, n),
    }
}

fn put_resets(out: &mut Text, options: &[ResetOption]) -> Result<(), AllocError>
    ensures { OnOk result (out.new ≡ out.old ++ text_of (flat_map (λ o. setting_pieces (reset_setting o)) options.now)) }
{
    for option in options {
        let setting = reset_setting(*option);
        put_setting(out, &setting)?;
    }
    Ok(())
}

fn put_saves(out: &mut Text, items: &[SaveItem]) -> Result<(), AllocError>
    ensures { OnOk result (out.new ≡ out.old ++ text_of (flat_map (λ i. setting_pieces (save_setting i)) items.now)) }
{
    for item in items {
        let setting = Setting::Output(item.option, item.name);
        put_setting(out, &setting)?;
    }
    Ok(())
}

#[tactic(auto, unfolding(crate::specs::Canonical::print_text))]
fn put_print(out: &mut Text, item: PrintItem) -> Result<(), AllocError>
    ensures { OnOk result (out.new ≡ out.old ++ text_of (print_pieces item)) }
{
    let spelling = print_words().spelling(Kind(item.number()));
    out.push(b" ")?;
    put_lower(out, spelling.as_bytes())
}

fn put_prints(out: &mut Text, items: &[PrintItem]) -> Result<(), AllocError>
    ensures { OnOk result (out.new ≡ out.old ++ text_of (flat_map print_pieces items.now)) }
{
    for item in items {
        put_print(out, *item)?;
    }
    Ok(())
}

#[tactic(auto, unfolding(crate::specs::Canonical::show_text))]
fn put_show(out: &mut Text, item: ShowItem) -> Result<(), AllocError>
    ensures { OnOk result (out.new ≡ out.old ++ text_of (show_pieces item)) }
{
    let spelling = show_words().spelling(Kind(item.number()));
    out.push(b" ")?;
    put_lower(out, spelling.as_bytes())
}

fn put_shows(out: &mut Text, items: &[ShowItem]) -> Result<(), AllocError>
    ensures { OnOk result (out.new ≡ out.old ++ text_of (flat_map show_pieces items.now)) }
{
    for item in items {
        put_show(out, *item)?;
    }
    Ok(())
}

fn act_word(act: &Statement) -> StatementWord
    ensures { result ≡ act_word act.now }
{
    match act {
        Statement::Reset(_) => StatementWord::Reset,
        Statement::Pivot => StatementWord::Pivot,
        Statement::Print(_) => StatementWord::Print,
        Statement::Show(_) => StatementWord::Show,
        Statement::Save(_) => StatementWord::Save,
        Statement::Run => StatementWord::Run,
        Statement::Quit => StatementWord::Quit,
    }
}

fn put_body(out: &mut Text, act: &Statement) -> Result<(), AllocError>
    ensures { OnOk result (out.new ≡ out.old ++ text_of (act_body act.now)) }
{
    match act {
        Statement::Reset(list) => put_resets(out, list.items()),
        Statement::Print(list) => put_prints(out, list.items()),
        Statement::Show(list) => put_shows(out, list.items()),
        Statement::Save(list) => put_saves(out, list.items()),
        Statement::Pivot | Statement::Run | Statement::Quit => Ok(()),
    }
}

fn put_act(out: &mut Text, act: &Statement) -> Result<(), AllocError>
    ensures { OnOk result (out.new ≡ out.old ++ text_of (act_pieces act.now)) }
{
    put_statement(out, act_word(act))?;
    put_body(out, act)?;
    out.push(b";\n")
}

fn put_acts(out: &mut Text, acts: &[Statement]) -> Result<(), AllocError>
    ensures { OnOk result (out.new ≡ out.old ++ text_of (flat_map act_pieces acts.now)) }
{
    for act in acts {
        put_act(out, act)?;
    }
    Ok(())
}

fn text_of(alloc: Global, program: &Program) -> Result<Text, AllocError>
    ensures { IfOk result (λ out. out ≡ canonical program.now) }
{
    let mut out = Text::new(alloc);
    put_proc(alloc, &mut out, &program.proc)?;
    put_roles(&mut out, program.roles.items())?;
    put_acts(&mut out, program.acts.items())?;
    Ok(out)
}

/// The canonical text of a program that a text has under some command: one statement a line, in lower case, each word by
/// its first spelling, the options of PROC in the order of their list.
///
/// Where it has at most 1,048,576 bytes, it is a text of the program under each command under which a text has the
/// program: `read_program` then gives the program back.
pub fn write_program(alloc: Global, program: &Program) -> Result<Text, AllocError>
    ensures text { IfOk result (λ out. out ≡ canonical program.now) }
    ensures again { (c : Command) (text : List ℕ) → HasProgram c text program.now → IfOk result (λ out. length out ≤ 1048576 → HasProgram c out program.now) }
{
    text_of(alloc, program)
}
