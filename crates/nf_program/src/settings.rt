//! Options with their values, and what they make of PROC.
ghost use Rattle.std.specs.Prelude.{◌≡◌, ◌++◌, ◌&&◌, OnOk, IfOk, nat_eq};
ghost use Rattle.std.specs.List.{list_any};
ghost use Rattle.nf_program.specs.Settings.{word_of, key_of, with_input, with_flag, with_amount, with_node, with_output, with_count, with_switch, with_rule, with_setting, options_of, no_options, defaults, lacks, lacks_set, lacks_warm, lacks_partner, reset_count, reset_switch, reset_rule, resets_in, resets_of, saves_in, saves_of, is_session, is_session_setting, is_output, is_warm, is_warm_setting, flag_of, option_key, amount_key, count_key, are_wrong_together};

use crate::items::{Items, Name};
use crate::program::{
    Bound, Command, ConType, OutOption, PriceType, ProcOptions, ResetList, ResetOption, SaveItem,
    SaveList, SessionOptions,
};
use crate::words::{
    AmountOption, CountOption, FlagOption, InputOption, NodeOption, OptionWord, RuleOption,
    SwitchOption,
};
use nf_frac::Amount;
use std::alloc::{AllocError, Global};

/// An option and its value.
#[derive(Clone, Copy)]
pub enum Setting {
    Input(InputOption, Name),
    Flag(FlagOption),
    Amount(AmountOption, Amount),
    DefCapacity(Bound),
    DefConType(ConType),
    Node(NodeOption, Name),
    Output(OutOption, Name),
    Count(CountOption, u32),
    Switch(SwitchOption, bool),
    Rule(RuleOption, PriceType),
}

impl Setting {
    /// The option's word.
    pub fn word(&self) -> OptionWord
        ensures { result ≡ word_of self.now }
    {
        match self {
            Setting::Input(option, _) => OptionWord::Input(*option),
            Setting::Flag(option) => OptionWord::Flag(*option),
            Setting::Amount(option, _) => OptionWord::Amount(*option),
            Setting::DefCapacity(_) => OptionWord::DefCapacity,
            Setting::DefConType(_) => OptionWord::DefConType,
            Setting::Node(option, _) => OptionWord::Node(*option),
            Setting::Output(option, _) => OptionWord::Output(*option),
            Setting::Count(option, _) => OptionWord::Count(*option),
            Setting::Switch(option, on) => OptionWord::Switch(*option, *on),
            Setting::Rule(option, _) => OptionWord::Rule(*option),
        }
    }
}

impl OptionWord {
    /// The setting that the word is alone, if it takes no value.
    pub fn flag(self) -> Option<Setting>
        ensures { result ≡ flag_of self }
    {
        match self {
            OptionWord::Flag(option) => Some(Setting::Flag(option)),
            OptionWord::Switch(option, on) => Some(Setting::Switch(option, on)),
            _ => None,
        }
    }

    /// The number of the option, in the order in which PROC's canonical text has them. A flag and its NO form are one option.
    pub fn key(self) -> u8
        ensures { result ≡ option_key self }
    {
        match self {
            OptionWord::Input(option) => option as u8,
            OptionWord::Flag(option) => 7 + option as u8,
            OptionWord::Amount(option) => option.key(),
            OptionWord::DefCapacity => 15,
            OptionWord::DefConType => 16,
            OptionWord::Node(option) => 17 + option as u8,
            OptionWord::Output(option) => 21 + option as u8,
            OptionWord::Count(option) => option.key(),
            OptionWord::Switch(option, _) => 31 + 2 * option as u8,
            OptionWord::Rule(option) => 41 + option as u8,
        }
    }
}

impl AmountOption {
    fn key(self) -> u8
        ensures { result ≡ amount_key self }
    {
        match self {
            AmountOption::DefCost => 13,
            AmountOption::DefMinFlow => 14,
            AmountOption::Supply => 19,
            AmountOption::Demand => 20,
        }
    }
}

impl CountOption {
    fn key(self) -> u8
        ensures { result ≡ count_key self }
    {
        match self {
            CountOption::Maxit1 => 27,
            CountOption::Maxit2 => 28,
            CountOption::Pause1 => 29,
            CountOption::Pause2 => 30,
            CountOption::QueueSize1 => 43,
            CountOption::QueueSize2 => 44,
        }
    }
}

/// The options of PROC if none is given.
pub fn no_options() -> ProcOptions
    ensures { result ≡ no_options }
{
    ProcOptions {
        arcdata: None,
        nodedata: None,
        condata: None,
        certdata: None,
        conin: None,
        dualin: None,
        sessiondata: None,
        arcout: None,
        nodeout: None,
        conout: None,
        dualout: None,
        sessionout: None,
        certout: None,
        sparsecondata: false,
        thrunet: false,
        maximize: false,
        warm: false,
        maxflow: false,
        shortpath: false,
        defcost: None,
        defminflow: None,
        defcapacity: None,
        defcontype: None,
        source: None,
        sink: None,
        supply: None,
        demand: None,
        session: DEFAULTS,
    }
}

/// The session options if none is given.
pub const DEFAULTS: SessionOptions = SessionOptions {
    maxit1: 1_000_000,
    maxit2: 1_000_000,
    pause1: 0,
    pause2: 0,
    feasiblepause1: false,
    feasiblepause2: false,
    endpause1: false,
    future1: false,
    future2: false,
    pricetype1: PriceType::First,
    pricetype2: PriceType::First,
    queuesize1: 10,
    queuesize2: 10,
};

fn with_input(option: InputOption, name: Name, mut p: ProcOptions) -> ProcOptions
    ensures { result ≡ with_input option name p }
{
    match option {
        InputOption::Arcdata => p.arcdata = Some(name),
        InputOption::Nodedata => p.nodedata = Some(name),
        InputOption::Condata => p.condata = Some(name),
        InputOption::Certdata => p.certdata = Some(name),
        InputOption::Conin => p.conin = Some(name),
        InputOption::Dualin => p.dualin = Some(name),
        InputOption::Sessiondata => p.sessiondata = Some(name),
    }
    p
}

fn with_flag(option: FlagOption, mut p: ProcOptions) -> ProcOptions
    ensures { result ≡ with_flag option p }
{
    match option {
        FlagOption::SparseConData => p.sparsecondata = true,
        FlagOption::Thrunet => p.thrunet = true,
        FlagOption::Maximize => p.maximize = true,
        FlagOption::Warm => p.warm = true,
        FlagOption::MaxFlow => p.maxflow = true,
        FlagOption::ShortPath => p.shortpath = true,
    }
    p
}

fn with_amount(option: AmountOption, amount: Amount, mut p: ProcOptions) -> ProcOptions
    ensures { result ≡ with_amount option amount p }
{
    match option {
        AmountOption::DefCost => p.defcost = Some(amount),
        AmountOption::DefMinFlow => p.defminflow = Some(amount),
        AmountOption::Supply => p.supply = Some(amount),
        AmountOption::Demand => p.demand = Some(amount),
    }
    p
}

fn with_node(option: NodeOption, name: Name, mut p: ProcOptions) -> ProcOptions
    ensures { result ≡ with_node option name p }
{
    match option {
        NodeOption::Source => p.source = Some(name),
        NodeOption::Sink => p.sink = Some(name),
    }
    p
}

fn with_output(option: OutOption, name: Name, mut p: ProcOptions) -> ProcOptions
    ensures { result ≡ with_output option name p }
{
    match option {
        OutOption::Arcout => p.arcout = Some(name),
        OutOption::Nodeout => p.nodeout = Some(name),
        OutOption::Conout => p.conout = Some(name),
        OutOption::Dualout => p.dualout = Some(name),
        OutOption::Sessionout => p.sessionout = Some(name),
        OutOption::Certout => p.certout = Some(name),
    }
    p
}

fn with_count(option: CountOption, n: u32, mut s: SessionOptions) -> SessionOptions
    ensures { result ≡ with_count option n s }
{
    match option {
        CountOption::Maxit1 => s.maxit1 = n,
        CountOption::Maxit2 => s.maxit2 = n,
        CountOption::Pause1 => s.pause1 = n,
        CountOption::Pause2 => s.pause2 = n,
        CountOption::QueueSize1 => s.queuesize1 = n,
        CountOption::QueueSize2 => s.queuesize2 = n,
    }
    s
}

fn with_switch(option: SwitchOption, on: bool, mut s: SessionOptions) -> SessionOptions
    ensures { result ≡ with_switch option on s }
{
    match option {
        SwitchOption::FeasiblePause1 => s.feasiblepause1 = on,
        SwitchOption::FeasiblePause2 => s.feasiblepause2 = on,
        SwitchOption::EndPause1 => s.endpause1 = on,
        SwitchOption::Future1 => s.future1 = on,
        SwitchOption::Future2 => s.future2 = on,
    }
    s
}

fn with_rule(option: RuleOption, rule: PriceType, mut s: SessionOptions) -> SessionOptions
    ensures { result ≡ with_rule option rule s }
{
    match option {
        RuleOption::PriceType1 => s.pricetype1 = rule,
        RuleOption::PriceType2 => s.pricetype2 = rule,
    }
    s
}

fn with_setting(p: ProcOptions, setting: Setting) -> ProcOptions
    ensures { result ≡ with_setting p setting }
{
    let session = p.session;
    match setting {
        Setting::Input(option, name) => with_input(option, name, p),
        Setting::Flag(option) => with_flag(option, p),
        Setting::Amount(option, amount) => with_amount(option, amount, p),
        Setting::DefCapacity(bound) => ProcOptions {
            defcapacity: Some(bound),
            ..p
        },
        Setting::DefConType(kind) => ProcOptions {
            defcontype: Some(kind),
            ..p
        },
        Setting::Node(option, name) => with_node(option, name, p),
        Setting::Output(option, name) => with_output(option, name, p),
        Setting::Count(option, n) => ProcOptions {
            session: with_count(option, n, session),
            ..p
        },
        Setting::Switch(option, on) => ProcOptions {
            session: with_switch(option, on, session),
            ..p
        },
        Setting::Rule(option, rule) => ProcOptions {
            session: with_rule(option, rule, session),
            ..p
        },
    }
}

/// The options of PROC that these settings make.
#[tactic(auto, unfolding(crate::specs::Settings::options_of))]
pub fn options_of(settings: &[Setting]) -> ProcOptions
    ensures { result ≡ options_of settings.now }
{
    let mut p = no_options();
    for setting in settings {
        p = with_setting(p, *setting);
    }
    p
}

fn lacks_warm(p: &ProcOptions) -> bool
    ensures { result ≡ lacks_warm p.now }
{
    if p.warm {
        !(p.conin.is_some() && p.dualin.is_some() && p.sessiondata.is_some())
    } else {
        p.conin.is_some() || p.dualin.is_some() || p.sessiondata.is_some()
    }
}

fn lacks_partner(p: &ProcOptions) -> bool
    ensures { result ≡ lacks_partner p.now }
{
    (p.supply.is_some() && !p.source.is_some())
        || (p.demand.is_some() && !p.sink.is_some())
        || (p.sparsecondata && !p.condata.is_some())
        || ((p.maxflow || p.shortpath) && !(p.source.is_some() && p.sink.is_some()))
}

fn lacks_set(command: Command, p: &ProcOptions) -> bool
    ensures { result ≡ lacks_set command p.now }
{
    match command {
        Command::Run => !p.arcdata.is_some(),
        Command::Check => !p.arcdata.is_some() || !p.certdata.is_some(),
        Command::Again => !p.arcdata.is_some() || !p.warm,
        Command::Export => !p.arcdata.is_some(),
    }
}

/// Whether PROC lacks an option that it may not end without.
#[tactic(auto, unfolding(crate::specs::Settings::lacks))]
pub fn lacks(command: Command, p: &ProcOptions) -> bool
    ensures { result ≡ lacks command p.now }
{
    lacks_set(command, p) || lacks_warm(p) || lacks_partner(p)
}

/// Whether options of PROC may not stand together: MAXFLOW and SHORTPATH, or one of them beside an option that it excludes.
#[tactic(auto, unfolding(crate::specs::Settings::are_wrong_together))]
pub fn are_wrong_together(p: &ProcOptions) -> bool
    ensures { result ≡ are_wrong_together p.now }
{
    (p.maxflow && p.shortpath)
        || ((p.maxflow || p.shortpath)
            && (p.condata.is_some()
                || p.nodedata.is_some()
                || p.supply.is_some()
                || p.demand.is_some()
                || p.thrunet
                || p.maximize
                || p.warm))
}

fn reset_count(option: CountOption, n: u32) -> ResetOption
    ensures { result ≡ reset_count option n }
{
    match option {
        CountOption::Maxit1 => ResetOption::Maxit1(n),
        CountOption::Maxit2 => ResetOption::Maxit2(n),
        CountOption::Pause1 => ResetOption::Pause1(n),
        CountOption::Pause2 => ResetOption::Pause2(n),
        CountOption::QueueSize1 => ResetOption::QueueSize1(n),
        CountOption::QueueSize2 => ResetOption::QueueSize2(n),
    }
}

fn reset_switch(option: SwitchOption, on: bool) -> ResetOption
    ensures { result ≡ reset_switch option on }
{
    match option {
        SwitchOption::FeasiblePause1 => ResetOption::FeasiblePause1(on),
        SwitchOption::FeasiblePause2 => ResetOption::FeasiblePause2(on),
        SwitchOption::EndPause1 => ResetOption::EndPause1(on),
        SwitchOption::Future1 => ResetOption::Future1(on),
        SwitchOption::Future2 => ResetOption::Future2(on),
    }
}

fn reset_rule(option: RuleOption, rule: PriceType) -> ResetOption
    ensures { result ≡ reset_rule option rule }
{
    match option {
        RuleOption::PriceType1 => ResetOption::PriceType1(rule),
        RuleOption::PriceType2 => ResetOption::PriceType2(rule),
    }
}

fn add_reset(list: &mut ResetList, setting: Setting) -> Result<(), AllocError>
    ensures { OnOk result (list.new ≡ list.old ++ resets_in setting) }
{
    match setting {
        Setting::Count(option, n) => list.push(reset_count(option, n)),
        Setting::Switch(option, on) => list.push(reset_switch(option, on)),
        Setting::Rule(option, rule) => list.push(reset_rule(option, rule)),
        _ => Ok(()),
    }
}

/// The options of RESET among these settings.
#[tactic(auto, unfolding(crate::specs::Settings::resets_of))]
pub fn resets_of(alloc: Global, settings: &[Setting]) -> Result<ResetList, AllocError>
    ensures { IfOk result (λ list. list ≡ resets_of settings.now) }
{
    let mut list = Items::new(alloc);
    for setting in settings {
        add_reset(&mut list, *setting)?;
    }
    Ok(list)
}

fn add_save(list: &mut SaveList, setting: Setting) -> Result<(), AllocError>
    ensures { OnOk result (list.new ≡ list.old ++ saves_in setting) }
{
    match setting {
        Setting::Output(option, name) => list.push(SaveItem { option, name }),
        _ => Ok(()),
    }
}

/// The options of SAVE among these settings.
#[tactic(auto, unfolding(crate::specs::Settings::saves_of))]
pub fn saves_of(alloc: Global, settings: &[Setting]) -> Result<SaveList, AllocError>
    ensures { IfOk result (λ list. list ≡ saves_of settings.now) }
{
    let mut list = Items::new(alloc);
    for setting in settings {
        add_save(&mut list, *setting)?;
    }
    Ok(list)
}
