//! The options of PROC as a list, in the order of the canonical text.
ghost use Rattle.std.specs.Prelude.{◌≡◌, ◌++◌, OnOk, IfOk};
ghost use Rattle.nf_program.specs.declared.settings.Setting.TheVariants.{Input, Node, Amount as OfAmount, Output};
ghost use Rattle.nf_writer.specs.Canonical.{given, flag_given, count_given, switch_given, rule_given, inputs_of, flags_of, others_of, outputs_of, counts_of, switches_of, rules_of, sizes_of, settings_of};

use nf_frac::Amount;
use nf_program::settings::Setting;
use nf_program::words::{
    AmountOption, CountOption, FlagOption, InputOption, NodeOption, RuleOption, SwitchOption,
};
use nf_program::{Items, Name, OutOption, PriceType, ProcOptions, SessionOptions};
use std::alloc::{AllocError, Global};

fn add_input(
    list: &mut Items<Setting>,
    option: InputOption,
    name: Option<Name>,
) -> Result<(), AllocError>
    ensures { OnOk result (list.new ≡ list.old ++ given (Input option) name) }
{
    match name {
        Some(name) => list.push(Setting::Input(option, name)),
        None => Ok(()),
    }
}

#[tactic(auto, unfolding(crate::specs::Canonical::inputs_of))]
fn add_inputs(list: &mut Items<Setting>, p: &ProcOptions) -> Result<(), AllocError>
    ensures { OnOk result (list.new ≡ list.old ++ inputs_of p.now) }
{
    add_input(list, InputOption::Arcdata, p.arcdata)?;
    add_input(list, InputOption::Nodedata, p.nodedata)?;
    add_input(list, InputOption::Condata, p.condata)?;
    add_input(list, InputOption::Certdata, p.certdata)?;
    add_input(list, InputOption::Conin, p.conin)?;
    add_input(list, InputOption::Dualin, p.dualin)?;
    add_input(list, InputOption::Sessiondata, p.sessiondata)
}

fn add_flag(list: &mut Items<Setting>, option: FlagOption, on: bool) -> Result<(), AllocError>
    ensures { OnOk result (list.new ≡ list.old ++ flag_given option on) }
{
    if on {
        list.push(Setting::Flag(option))
    } else {
        Ok(())
    }
}

#[tactic(auto, unfolding(crate::specs::Canonical::flags_of))]
fn add_flags(list: &mut Items<Setting>, p: &ProcOptions) -> Result<(), AllocError>
    ensures { OnOk result (list.new ≡ list.old ++ flags_of p.now) }
{
    add_flag(list, FlagOption::SparseConData, p.sparsecondata)?;
    add_flag(list, FlagOption::Thrunet, p.thrunet)?;
    add_flag(list, FlagOption::Maximize, p.maximize)?;
    add_flag(list, FlagOption::Warm, p.warm)?;
    add_flag(list, FlagOption::MaxFlow, p.maxflow)?;
    add_flag(list, FlagOption::ShortPath, p.shortpath)
}

fn add_amount(
    list: &mut Items<Setting>,
    option: AmountOption,
    amount: Option<Amount>,
) -> Result<(), AllocError>
    ensures { OnOk result (list.new ≡ list.old ++ given (OfAmount option) amount) }
{
    match amount {
        Some(amount) => list.push(Setting::Amount(option, amount)),
        None => Ok(()),
    }
}

fn add_node(
    list: &mut Items<Setting>,
    option: NodeOption,
    name: Option<Name>,
) -> Result<(), AllocError>
    ensures { OnOk result (list.new ≡ list.old ++ given (Node option) name) }
{
    match name {
        Some(name) => list.push(Setting::Node(option, name)),
        None => Ok(()),
    }
}

#[tactic(auto, unfolding(crate::specs::Canonical::others_of))]
fn add_others(list: &mut Items<Setting>, p: &ProcOptions) -> Result<(), AllocError>
    ensures { OnOk result (list.new ≡ list.old ++ others_of p.now) }
{
    add_amount(list, AmountOption::DefCost, p.defcost)?;
    add_amount(list, AmountOption::DefMinFlow, p.defminflow)?;
    if let Some(bound) = p.defcapacity {
        list.push(Setting::DefCapacity(bound))?;
    }
    if let Some(kind) = p.defcontype {
        list.push(Setting::DefConType(kind))?;
    }
    add_node(list, NodeOption::Source, p.source)?;
    add_node(list, NodeOption::Sink, p.sink)?;
    add_amount(list, AmountOption::Supply, p.supply)?;
    add_amount(list, AmountOption::Demand, p.demand)
}

fn add_output(
    list: &mut Items<Setting>,
    option: OutOption,
    name: Option<Name>,
) -> Result<(), AllocError>
    ensures { OnOk result (list.new ≡ list.old ++ given (Output option) name) }
{
    match name {
        Some(name) => list.push(Setting::Output(option, name)),
        None => Ok(()),
    }
}

#[tactic(auto, unfolding(crate::specs::Canonical::outputs_of))]
fn add_outputs(list: &mut Items<Setting>, p: &ProcOptions) -> Result<(), AllocError>
    ensures { OnOk result (list.new ≡ list.old ++ outputs_of p.now) }
{
    add_output(list, OutOption::Arcout, p.arcout)?;
    add_output(list, OutOption::Nodeout, p.nodeout)?;
    add_output(list, OutOption::Conout, p.conout)?;
    add_output(list, OutOption::Dualout, p.dualout)?;
    add_output(list, OutOption::Sessionout, p.sessionout)?;
    add_output(list, OutOption::Certout, p.certout)
}

fn add_count(
    list: &mut Items<Setting>,
    option: CountOption,
    default: u32,
    n: u32,
) -> Result<(), AllocError>
    ensures { OnOk result (list.new ≡ list.old ++ count_given option default n) }
{
    if n == default {
        Ok(())
    } else {
        list.push(Setting::Count(option, n))
    }
}

#[tactic(auto, unfolding(crate::specs::Canonical::counts_of))]
fn add_counts(list: &mut Items<Setting>, s: &SessionOptions) -> Result<(), AllocError>
    ensures { OnOk result (list.new ≡ list.old ++ counts_of s.now) }
{
    add_count(list, CountOption::Maxit1, 1_000_000, s.maxit1)?;
    add_count(list, CountOption::Maxit2, 1_000_000, s.maxit2)?;
    add_count(list, CountOption::Pause1, 0, s.pause1)?;
    add_count(list, CountOption::Pause2, 0, s.pause2)
}

fn add_switch(list: &mut Items<Setting>, option: SwitchOption, on: bool) -> Result<(), AllocError>
    ensures { OnOk result (list.new ≡ list.old ++ switch_given option on) }
{
    if on {
        list.push(Setting::Switch(option, true))
    } else {
        Ok(())
    }
}

#[tactic(auto, unfolding(crate::specs::Canonical::switches_of))]
fn add_switches(list: &mut Items<Setting>, s: &SessionOptions) -> Result<(), AllocError>
    ensures { OnOk result (list.new ≡ list.old ++ switches_of s.now) }
{
    add_switch(list, SwitchOption::FeasiblePause1, s.feasiblepause1)?;
    add_switch(list, SwitchOption::FeasiblePause2, s.feasiblepause2)?;
    add_switch(list, SwitchOption::EndPause1, s.endpause1)?;
    add_switch(list, SwitchOption::Future1, s.future1)?;
    add_switch(list, SwitchOption::Future2, s.future2)
}

fn add_rule(
    list: &mut Items<Setting>,
    option: RuleOption,
    rule: PriceType,
) -> Result<(), AllocError>
    ensures { OnOk result (list.new ≡ list.old ++ rule_given option rule) }
{
    match rule {
        PriceType::First => Ok(()),
        _ => list.push(Setting::Rule(option, rule)),
    }
}

#[tactic(auto, unfolding(crate::specs::Canonical::rules_of))]
fn add_rules(list: &mut Items<Setting>, s: &SessionOptions) -> Result<(), AllocError>
    ensures { OnOk result (list.new ≡ list.old ++ rules_of s.now) }
{
    add_rule(list, RuleOption::PriceType1, s.pricetype1)?;
    add_rule(list, RuleOption::PriceType2, s.pricetype2)
}

#[tactic(auto, unfolding(crate::specs::Canonical::sizes_of))]
fn add_sizes(list: &mut Items<Setting>, s: &SessionOptions) -> Result<(), AllocError>
    ensures { OnOk result (list.new ≡ list.old ++ sizes_of s.now) }
{
    add_count(list, CountOption::QueueSize1, 10, s.queuesize1)?;
    add_count(list, CountOption::QueueSize2, 10, s.queuesize2)
}

/// The options of PROC that are given, those of the session if they are not the default.
#[tactic(auto, unfolding(crate::specs::Canonical::settings_of))]
pub fn settings_of(alloc: Global, p: &ProcOptions) -> Result<Items<Setting>, AllocError>
    ensures { IfOk result (λ list. list ≡ settings_of p.now) }
{
    let mut list = Items::new(alloc);
    add_inputs(&mut list, p)?;
    add_flags(&mut list, p)?;
    add_others(&mut list, p)?;
    add_outputs(&mut list, p)?;
    add_counts(&mut list, &p.session)?;
    add_switches(&mut list, &p.session)?;
    add_rules(&mut list, &p.session)?;
    add_sizes(&mut list, &p.session)?;
    Ok(list)
}
