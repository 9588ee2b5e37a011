//! The header and the rows of a session's table.
ghost use Rattle.std.specs.Prelude.{◌≡◌, ◌<◌, ◌∷◌, ◌^◌, [], OnOk, decimal, length};
ghost use Rattle.std.specs.Str.{IsUtf8};
ghost use Rattle.nf_table.specs.Making.{empty_table};
ghost use Rattle.nf_print.specs.Lines.{last_word};
ghost use Rattle.nf_print.specs.Options.{rule_word};
ghost use Rattle.nf_saved.specs.SessionTable.{flag_word, session_row};
ghost use Rattle.nf_session_table.specs.Growing.{with_header, with_more};

use itoa::Buffer;
use nf_print::Last;
use nf_program::PriceType;
use nf_table::Table;
use std::alloc::AllocError;

// The names of the columns.
pub(crate) fn push_header(table: &mut Table) -> Result<(), AllocError>
    requires { table.old ≡ empty_table }
    ensures { OnOk result (table.new ≡ with_header []) }
{
    table.push_cell("_KEY_".as_bytes())?;
    table.push_cell("_NUMBER_".as_bytes())?;
    table.push_cell("_VALUE_".as_bytes())?;
    table.end_row()
}

// A row with its key, its number and its value.
pub(crate) fn push_row(
    table: &mut Table,
    key: &str,
    number: u32,
    value: &str,
) -> Result<(), AllocError>
    requires begun { table.old ≡ with_header table.old.rows }
    requires room { length table.old.rows < 2 ^ 31 }
    ensures { OnOk result (table.new ≡ with_more table.old (session_row key.now number value.now ∷ [])) }
{
    table.push_cell(key.as_bytes())?;
    table.push_cell(Buffer::new().format(number).as_bytes())?;
    table.push_cell(value.as_bytes())?;
    table.end_row()
}

// A row whose value is a count.
pub(crate) fn push_count(
    table: &mut Table,
    key: &str,
    number: u32,
    count: u64,
) -> Result<(), AllocError>
    requires begun { table.old ≡ with_header table.old.rows }
    requires room { length table.old.rows < 2 ^ 31 }
    ensures { OnOk result (table.new ≡ with_more table.old (session_row key.now number (decimal count) ∷ [])) }
{
    push_row(table, key, number, Buffer::new().format(count))
}

// A row whose value is whether something is set.
pub(crate) fn push_flag(
    table: &mut Table,
    key: &str,
    number: u32,
    is_set: bool,
) -> Result<(), AllocError>
    requires begun { table.old ≡ with_header table.old.rows }
    requires room { length table.old.rows < 2 ^ 31 }
    ensures { OnOk result (table.new ≡ with_more table.old (session_row key.now number (flag_word is_set) ∷ [])) }
{
    push_row(table, key, number, if is_set { "1" } else { "0" })
}

// The word for a rule of pricing.
fn word_of_rule(rule: PriceType) -> &'static str
    ensures { result.now ≡ rule_word rule }
{
    match rule {
        PriceType::First => "FIRST",
        PriceType::Best => "BEST",
        PriceType::Bland => "BLAND",
        PriceType::Queue => "QUEUE",
    }
}

// A row whose value is a rule of pricing.
pub(crate) fn push_rule(
    table: &mut Table,
    key: &str,
    number: u32,
    rule: PriceType,
) -> Result<(), AllocError>
    requires begun { table.old ≡ with_header table.old.rows }
    requires room { length table.old.rows < 2 ^ 31 }
    ensures { OnOk result (table.new ≡ with_more table.old (session_row key.now number (rule_word rule) ∷ [])) }
{
    push_row(table, key, number, word_of_rule(rule))
}

// The word for a last halt.
pub(crate) fn word_of_last(last: Last) -> &'static str
    ensures { result.now ≡ last_word last }
{
    match last {
        Last::Unset => "NONE",
        Last::Optimal => "OPTIMAL",
        Last::Infeasible => "INFEASIBLE",
        Last::Unbounded => "UNBOUNDED",
        Last::Limit => "LIMIT",
        Last::Pause => "PAUSE",
        Last::Feasible => "FEASIBLE",
        Last::StageOne => "STAGEONE",
        Last::Pivot => "PIVOT",
    }
}
