//! What a program asks of each stage.
ghost use Rattle.std.specs.Prelude.{◌≡◌, ◌<◌, ◌≤◌};
ghost use Rattle.nf_simplex.specs.StageOf.{StageOne, StageTwo};
ghost use Rattle.nf_price.specs.Rules.{HasSize};
ghost use Rattle.nf_run.specs.Setting.{queue_size, rule_for, setting_in};

use nf_engine::Pauses;
use nf_price::Rule;
use nf_program::{PriceType, SessionOptions};

/// What a program asks of a stage: the stage's number, 1 or 2, the rule of pricing, the most pivots, and when it pauses.
#[derive(Clone, Copy)]
pub(crate) struct Setting {
    pub(crate) stage: u8,
    pub(crate) rule: Rule,
    pub(crate) most: u32,
    pub(crate) pauses: Pauses,
}

/// What it asks of stage one.
pub(crate) fn setting_one(options: &SessionOptions) -> Setting
    ensures value { result ≡ setting_in options.now StageOne }
    ensures size { HasSize result.rule }
{
    Setting {
        stage: 1,
        rule: rule_for(options.pricetype1, options.queuesize1),
        most: options.maxit1,
        pauses: Pauses {
            every: u64::from(options.pause1),
            feasible: options.feasiblepause1,
        },
    }
}

/// What it asks of stage two.
pub(crate) fn setting_two(options: &SessionOptions) -> Setting
    ensures value { result ≡ setting_in options.now StageTwo }
    ensures size { HasSize result.rule }
{
    Setting {
        stage: 2,
        rule: rule_for(options.pricetype2, options.queuesize2),
        most: options.maxit2,
        pauses: Pauses {
            every: u64::from(options.pause2),
            feasible: options.feasiblepause2,
        },
    }
}

// The rule of pricing that the options name.
fn rule_for(option: PriceType, size: u32) -> Rule
    ensures value { result ≡ rule_for option size }
    ensures size { HasSize result }
{
    match option {
        PriceType::First => Rule::First,
        PriceType::Best => Rule::Best,
        PriceType::Bland => Rule::Bland,
        PriceType::Queue => Rule::Queue {
            size: queue_size(size),
        },
    }
}

// The size as it is, which is from 1 to 999 in every program.
fn queue_size(size: u32) -> u32
    ensures value { result ≡ queue_size size }
    ensures least { 0 < result }
    ensures most { result ≤ 999 }
{
    if size < 1 {
        1
    } else if size > 999 {
        999
    } else {
        size
    }
}
