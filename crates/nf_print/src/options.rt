//! What SHOW OPTIONS prints.
ghost use Rattle.std.specs.Prelude.{◌≡◌, ◌++◌, IfOk, OnOk, codes, decimal};
ghost use Rattle.nf_print.specs.Options.{count_line, option_lines, pause_lines, price_lines, rule_line, rule_word, switch_line, switch_lines};

use nf_io::Text;
use nf_program::{PriceType, SessionOptions};
use std::alloc::{AllocError, Global};

// A word for a rule of pricing.
fn rule_word(rule: PriceType) -> &'static str
    ensures { result.now ≡ rule_word rule }
{
    match rule {
        PriceType::First => "FIRST",
        PriceType::Best => "BEST",
        PriceType::Bland => "BLAND",
        PriceType::Queue => "QUEUE",
    }
}

// The line of an option that is a count.
fn add_count(text: &mut Vec<u8>, alloc: Global, word: &str, n: u32) -> Result<(), AllocError>
    ensures { OnOk result (text.new.items ≡ text.old.items ++ count_line word.now n) }
{
    text.extend_from_slice(format!(in alloc; "{word}={n}\n")?.as_bytes())?;
    Ok(())
}

// The line of an option that is on or off.
fn add_switch(text: &mut Vec<u8>, alloc: Global, word: &str, on: bool) -> Result<(), AllocError>
    ensures { OnOk result (text.new.items ≡ text.old.items ++ switch_line word.now on) }
{
    add_count(text, alloc, word, if on { 1 } else { 0 })
}

// The line of an option that is a rule of pricing.
fn add_rule(
    text: &mut Vec<u8>,
    alloc: Global,
    word: &str,
    rule: PriceType,
) -> Result<(), AllocError>
    ensures { OnOk result (text.new.items ≡ text.old.items ++ rule_line word.now rule) }
{
    let value = rule_word(rule);
    text.extend_from_slice(format!(in alloc; "{word}={value}\n")?.as_bytes())?;
    Ok(())
}

// The limits and pauses.
#[tactic(auto, unfolding(crate::specs::Options::pause_lines))]
fn add_pauses(text: &mut Vec<u8>, alloc: Global, o: &SessionOptions) -> Result<(), AllocError>
    ensures { OnOk result (text.new.items ≡ text.old.items ++ pause_lines o.now) }
{
    add_count(text, alloc, "MAXIT1", o.maxit1)?;
    add_count(text, alloc, "MAXIT2", o.maxit2)?;
    add_count(text, alloc, "PAUSE1", o.pause1)?;
    add_count(text, alloc, "PAUSE2", o.pause2)
}

// The options that are on or off.
#[tactic(auto, unfolding(crate::specs::Options::switch_lines))]
fn add_switches(text: &mut Vec<u8>, alloc: Global, o: &SessionOptions) -> Result<(), AllocError>
    ensures { OnOk result (text.new.items ≡ text.old.items ++ switch_lines o.now) }
{
    add_switch(text, alloc, "FEASIBLEPAUSE1", o.feasiblepause1)?;
    add_switch(text, alloc, "FEASIBLEPAUSE2", o.feasiblepause2)?;
    add_switch(text, alloc, "ENDPAUSE1", o.endpause1)?;
    add_switch(text, alloc, "FUTURE1", o.future1)?;
    add_switch(text, alloc, "FUTURE2", o.future2)
}

// The rules of pricing and the sizes of their queues.
#[tactic(auto, unfolding(crate::specs::Options::price_lines))]
fn add_prices(text: &mut Vec<u8>, alloc: Global, o: &SessionOptions) -> Result<(), AllocError>
    ensures { OnOk result (text.new.items ≡ text.old.items ++ price_lines o.now) }
{
    add_rule(text, alloc, "PRICETYPE1", o.pricetype1)?;
    add_rule(text, alloc, "PRICETYPE2", o.pricetype2)?;
    add_count(text, alloc, "QUEUESIZE1", o.queuesize1)?;
    add_count(text, alloc, "QUEUESIZE2", o.queuesize2)
}

/// SHOW OPTIONS: a line for each session option, with its value.
///
/// `AllocError` if out of memory.
pub fn show_options(alloc: Global, options: &SessionOptions) -> Result<Text, AllocError>
    ensures text { IfOk result (λ t. t ≡ option_lines options.now) }
{
    let mut text = Vec::new(alloc);
    add_pauses(&mut text, alloc, options)?;
    add_switches(&mut text, alloc, options)?;
    add_prices(&mut text, alloc, options)?;
    Ok(Text::from_vec(text))
}
