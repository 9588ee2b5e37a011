//! The rows of SESSIONDATA: each is the one that is due, with a value of its kind, or it is at fault.
ghost use Rattle.std.specs.Prelude.{◌≡◌, ◌<◌, ◌≤◌, ◌+◌, ◌-◌, ◌^◌, [], ◌&&◌, codes, decimal, option_map, slice_get, IfOk, MatchResult, Ok, Err};
ghost use Rattle.std.specs.Str.{bytes_eq};
ghost use Rattle.nf_basis.specs.Names.{stage_by};
ghost use Rattle.nf_saved.specs.Rows.{artificial_read, or_bad, pair_read, row_read, saved_row, value_in};
ghost use Rattle.nf_saved.specs.Values.{count_from, flag_said, last_said, rule_said, stage_said, version_said};
ghost use Rattle.nf_warm.specs.Inside.{HasRows, rows_in};

use crate::values;
use itoa::Buffer;
use nf_cells::trimmed;
use nf_print::Last;
use nf_program::PriceType;
use nf_saved::{SavedArtificial, SavedColumns, SavedFault};
use nf_table::Table;

// A value, or the fault of its row, which counts from 0.
#[tactic(auto, unfolding(nf_saved::specs::Rows::or_bad))]
pub(crate) fn or_bad<T: Drop>(k: u32, said: Option<T>) -> Result<T, SavedFault>
    requires { k < 2 ^ 32 - 1 }
    ensures { result ≡ or_bad k said }
{
    match said {
        Some(value) => Ok(value),
        None => Err(SavedFault::BadSession(k + 1)),
    }
}

// Whether a row with these two cells is the one with this key and this number.
fn is_due(found: &[u8], numbered: &[u8], key: &str, number: u32) -> bool
    ensures { result ≡ (bytes_eq found.now key.now && bytes_eq numbered.now (decimal number)) }
{
    found == key.as_bytes() && numbered == Buffer::new().format(number).as_bytes()
}

// The value of row k, from 0, if it is there and has this key and this number.
#[tactic(auto, unfolding(nf_saved::specs::Rows::value_in))]
pub(crate) fn value_at<'a>(
    table: &'a Table,
    at: &SavedColumns,
    k: u32,
    key: &str,
    number: u32,
) -> Option<&'a [u8]>
    requires inside { HasRows table.now at.now }
    requires small { k < 2 ^ 32 - 1 }
    ensures { option_map (λ v. v.now) result ≡ value_in (slice_get (rows_in table.now at.now) k) key.now number }
{
    if table.rows() <= k {
        return None;
    }
    let row = k + 1;
    let found = trimmed(table.cell(row, at.key));
    let numbered = trimmed(table.cell(row, at.number));
    if !is_due(found, numbered, key, number) {
        return None;
    }
    Some(trimmed(table.cell(row, at.value)))
}

// The rows by the kind of their values.
#[tactic(auto, unfolding(nf_saved::specs::Rows::or_bad))]
pub(crate) fn count_row(
    table: &Table,
    at: &SavedColumns,
    k: u32,
    key: &str,
    number: u32,
    least: u64,
    most: u64,
) -> Result<u64, SavedFault>
    requires inside { HasRows table.now at.now }
    requires small { k < 2 ^ 32 - 1 }
    ensures read { result ≡ row_read (rows_in table.now at.now) k key.now number (count_from least most) }
    ensures within { IfOk result (λ n. (least ≤ n) × (n ≤ most)) }
{
    match value_at(table, at, k, key, number) {
        Some(value) => match values::count(value, least, most) {
            Some(count) => Ok(count),
            None => Err(SavedFault::BadSession(k + 1)),
        },
        None => Err(SavedFault::BadSession(k + 1)),
    }
}

pub(crate) fn version_row(table: &Table, at: &SavedColumns) -> Result<bool, SavedFault>
    requires inside { HasRows table.now at.now }
    ensures { result ≡ row_read (rows_in table.now at.now) 0 (codes "VERSION") 1 version_said }
{
    match value_at(table, at, 0, "VERSION", 1) {
        Some(value) => or_bad(0, values::version(value)),
        None => or_bad(0, None),
    }
}

#[tactic(auto, unfolding(nf_saved::specs::Rows::or_bad))]
pub(crate) fn stage_row(table: &Table, at: &SavedColumns, has_two: bool) -> Result<bool, SavedFault>
    requires inside { HasRows table.now at.now }
    ensures { MatchResult result
        (λ two. row_read (rows_in table.now at.now) 1 (codes "STAGE") 1 (stage_said has_two) ≡ Ok (stage_by two))
        (λ e. row_read (rows_in table.now at.now) 1 (codes "STAGE") 1 (stage_said has_two) ≡ Err e) }
{
    match value_at(table, at, 1, "STAGE", 1) {
        Some(value) => match values::stage(value, has_two) {
            Some(two) => Ok(two),
            None => Err(SavedFault::BadSession(2)),
        },
        None => Err(SavedFault::BadSession(2)),
    }
}

pub(crate) fn last_row(table: &Table, at: &SavedColumns, to_come: bool) -> Result<Last, SavedFault>
    requires inside { HasRows table.now at.now }
    ensures { result ≡ row_read (rows_in table.now at.now) 5 (codes "LAST") 1 (last_said to_come) }
{
    match value_at(table, at, 5, "LAST", 1) {
        Some(value) => or_bad(5, values::last(value, to_come)),
        None => or_bad(5, None),
    }
}

pub(crate) fn flag_row(
    table: &Table,
    at: &SavedColumns,
    k: u32,
    key: &str,
    number: u32,
) -> Result<bool, SavedFault>
    requires inside { HasRows table.now at.now }
    requires small { k < 2 ^ 32 - 1 }
    ensures { result ≡ row_read (rows_in table.now at.now) k key.now number flag_said }
{
    match value_at(table, at, k, key, number) {
        Some(value) => or_bad(k, values::flag(value)),
        None => or_bad(k, None),
    }
}

fn rule_row(
    table: &Table,
    at: &SavedColumns,
    k: u32,
    number: u32,
    queued: bool,
) -> Result<PriceType, SavedFault>
    requires inside { HasRows table.now at.now }
    requires small { k < 2 ^ 32 - 1 }
    ensures { result ≡ row_read (rows_in table.now at.now) k (codes "PRICETYPE") number (rule_said queued) }
{
    match value_at(table, at, k, "PRICETYPE", number) {
        Some(value) => or_bad(k, values::rule(value, queued)),
        None => or_bad(k, None),
    }
}

// The row of artificial i, from 0; the first one has row k.
pub(crate) fn artificial_row(
    table: &Table,
    at: &SavedColumns,
    k: u32,
    i: u32,
) -> Result<SavedArtificial, SavedFault>
    requires inside { HasRows table.now at.now }
    requires small { k + i < 2 ^ 32 - 1 }
    ensures { result ≡ artificial_read (rows_in table.now at.now) k [] i }
{
    match value_at(table, at, k + i, "ARTIF", i + 1) {
        Some(value) => or_bad(k + i, values::artificial(value)),
        None => or_bad(k + i, None),
    }
}

// Two rows with one key, for both stages: counts, flags, or rules of pricing.
#[tactic(auto, unfolding(nf_saved::specs::Rows::pair_read, nf_saved::specs::Rows::and_then))]
pub(crate) fn count_pair(
    table: &Table,
    at: &SavedColumns,
    k: u32,
    key: &str,
    least: u64,
    most: u64,
) -> Result<(u64, u64), SavedFault>
    requires inside { HasRows table.now at.now }
    requires small { k < 2 ^ 32 - 2 }
    ensures read { result ≡ pair_read (rows_in table.now at.now) k key.now (count_from least most) }
    ensures within { IfOk result (λ n. (n.0 ≤ most) × (n.1 ≤ most)) }
{
    let one = count_row(table, at, k, key, 1, least, most)?;
    let two = count_row(table, at, k + 1, key, 2, least, most)?;
    Ok((one, two))
}

#[tactic(auto, unfolding(nf_saved::specs::Rows::pair_read, nf_saved::specs::Rows::and_then))]
pub(crate) fn flag_pair(
    table: &Table,
    at: &SavedColumns,
    k: u32,
    key: &str,
) -> Result<(bool, bool), SavedFault>
    requires inside { HasRows table.now at.now }
    requires small { k < 2 ^ 32 - 2 }
    ensures { result ≡ pair_read (rows_in table.now at.now) k key.now flag_said }
{
    let one = flag_row(table, at, k, key, 1)?;
    let two = flag_row(table, at, k + 1, key, 2)?;
    Ok((one, two))
}

#[tactic(auto, unfolding(nf_saved::specs::Rows::pair_read, nf_saved::specs::Rows::and_then))]
pub(crate) fn rule_pair(
    table: &Table,
    at: &SavedColumns,
    queued: bool,
) -> Result<(PriceType, PriceType), SavedFault>
    requires inside { HasRows table.now at.now }
    ensures { result ≡ pair_read (rows_in table.now at.now) 15 (codes "PRICETYPE") (rule_said queued) }
{
    let one = rule_row(table, at, 15, 1, queued)?;
    let two = rule_row(table, at, 16, 2, queued)?;
    Ok((one, two))
}
