//! What the words so far ask for.

ghost use Rattle.std.specs.Prelude.{◌≡◌, []};
ghost use Rattle.words.specs.Gathered.{gather, turned, set, dumped, gathered_of, params_of, passes_of, options_from, repeats_in};
ghost use Rattle.words.specs.Twins.{stored_names};

use crate::item::{Dump, Item, Param, Pass};
use crate::options::{Name, Options, SourceName};
use gimple_ir::{Mode, Params, Passes};

/// The passes that words turned on or off.
#[derive(Clone, Copy, Debug, PartialEq, Eq)]
pub struct Turns {
    pub cp: Option<bool>,
    pub cp_clone: Option<bool>,
    pub bit_cp: Option<bool>,
    pub vrp: Option<bool>,
    pub sra: Option<bool>,
    pub modref: Option<bool>,
    pub icf: Option<bool>,
}

/// The dumps that words asked for.
#[derive(Clone, Copy, Debug, PartialEq, Eq)]
pub struct Dumps {
    pub cgraph: Option<Name>,
    pub icf: Option<Name>,
    pub cp: Option<Name>,
    pub sra: Option<Name>,
    pub modref: Option<Name>,
}

/// All that words asked for. The level counts for the passes that no word turned.
#[derive(Clone, Copy, Debug, PartialEq, Eq)]
pub struct Gathered {
    pub source: Option<SourceName>,
    pub asks_output: bool,
    pub output: Name,
    pub summary: Option<Name>,
    pub level: u8,
    pub workers: u32,
    pub mode: Mode,
    pub turns: Turns,
    pub params: Params,
    pub dumps: Dumps,
}

fn with_turn(old: Turns, pass: Pass, on: bool) -> Turns
    ensures { result ≡ turned old pass on }
{
    let mut new = old;
    match pass {
        Pass::Cp => new.cp = Some(on),
        Pass::CpClone => new.cp_clone = Some(on),
        Pass::BitCp => new.bit_cp = Some(on),
        Pass::Vrp => new.vrp = Some(on),
        Pass::Sra => new.sra = Some(on),
        Pass::Modref => new.modref = Some(on),
        Pass::Icf => new.icf = Some(on),
    }
    new
}

fn with_param(old: Params, param: Param, value: u64) -> Params
    ensures { result ≡ set old param value }
{
    let mut new = old;
    match param {
        Param::ValueListSize => new.ipa_cp_value_list_size = value,
        Param::EvalThreshold => new.ipa_cp_eval_threshold = value,
        Param::UnitGrowth => new.ipa_cp_unit_growth = value,
        Param::LargeUnitInsns => new.ipa_cp_large_unit_insns = value,
        Param::MaxAggItems => new.ipa_max_agg_items = value,
        Param::MaxReplacements => new.ipa_sra_max_replacements = value,
        Param::PtrGrowthFactor => new.ipa_sra_ptr_growth_factor = value,
        Param::SraUnitGrowth => new.ipa_sra_unit_growth = value,
        Param::MaxBases => new.modref_max_bases = value,
        Param::MaxRefs => new.modref_max_refs = value,
        Param::MaxAccesses => new.modref_max_accesses = value,
    }
    new
}

fn with_dump(old: Dumps, dump: Dump, name: Name) -> Dumps
    ensures { result ≡ dumped old dump name }
{
    let mut new = old;
    match dump {
        Dump::Cgraph => new.cgraph = Some(name),
        Dump::Icf => new.icf = Some(name),
        Dump::Cp => new.cp = Some(name),
        Dump::Sra => new.sra = Some(name),
        Dump::Modref => new.modref = Some(name),
    }
    new
}

fn default_params() -> Params
    ensures { result ≡ params_of [] }
{
    Params {
        ipa_cp_value_list_size: 8,
        ipa_cp_eval_threshold: 500,
        ipa_cp_unit_growth: 10,
        ipa_cp_large_unit_insns: 16000,
        ipa_max_agg_items: 16,
        ipa_sra_max_replacements: 8,
        ipa_sra_ptr_growth_factor: 2,
        ipa_sra_unit_growth: 10,
        modref_max_bases: 32,
        modref_max_refs: 16,
        modref_max_accesses: 16,
    }
}

impl Gathered {
    /// What no word asks for.
    pub fn new() -> Self
        ensures { result ≡ gathered_of [] }
    {
        Gathered {
            source: None,
            asks_output: false,
            output: Name::Standard,
            summary: None,
            level: 0,
            workers: 1,
            mode: Mode::Trap,
            turns: Turns {
                cp: None,
                cp_clone: None,
                bit_cp: None,
                vrp: None,
                sra: None,
                modref: None,
                icf: None,
            },
            params: default_params(),
            dumps: Dumps {
                cgraph: None,
                icf: None,
                cp: None,
                sra: None,
                modref: None,
            },
        }
    }

    /// Whether this is a second input or output.
    pub fn repeats(&self, item: Item) -> bool
        ensures { result ≡ repeats_in self.now item }
    {
        match item {
            Item::Source(_) => self.source.is_some(),
            Item::OutputOption => self.asks_output,
            _ => false,
        }
    }

    /// The same with what one word more says.
    pub fn with(self, item: Item) -> Self
        ensures { result ≡ gather self item }
    {
        let mut new = self;
        match item {
            Item::Source(source) => new.source = Some(source),
            Item::Level(level) => new.level = level,
            Item::Turn(pass, on) => new.turns = with_turn(self.turns, pass, on),
            Item::Set(param, value) => new.params = with_param(self.params, param, value),
            Item::Dump(dump, name) => new.dumps = with_dump(self.dumps, dump, name),
            Item::OutputOption => new.asks_output = true,
            Item::Output(name) => new.output = name,
            Item::ParamOption => {}
            Item::Summary(name) => new.summary = Some(name),
            Item::Workers(workers) => new.workers = workers,
            Item::Mode(mode) => new.mode = mode,
        }
        new
    }

    fn passes(self) -> Passes
        ensures { result ≡ passes_of self.turns self.level }
    {
        Passes {
            cp: self.turns.cp.unwrap_or(self.level >= 2),
            cp_clone: self.turns.cp_clone.unwrap_or(self.level >= 3),
            bit_cp: self.turns.bit_cp.unwrap_or(self.level >= 2),
            vrp: self.turns.vrp.unwrap_or(self.level >= 2),
            sra: self.turns.sra.unwrap_or(self.level >= 2),
            modref: self.turns.modref.unwrap_or(self.level >= 1),
            icf: self.turns.icf.unwrap_or(self.level >= 2),
        }
    }

    /// The options of words that name this source.
    pub fn options(self, source: SourceName) -> Options
        ensures { result ≡ options_from self source }
    {
        Options {
            source,
            output: self.output,
            cgraph: self.dumps.cgraph,
            icf: self.dumps.icf,
            cp: self.dumps.cp,
            sra: self.dumps.sra,
            modref: self.dumps.modref,
            summary: self.summary,
            passes: self.passes(),
            params: self.params,
            workers: self.workers,
            mode: self.mode,
        }
    }
}

/// The names under which a run stores.
pub fn stored_names(options: &Options) -> [Option<Name>; 7]
    ensures { result ≡ stored_names options.now }
{
    [
        Some(options.output),
        options.cgraph,
        options.icf,
        options.cp,
        options.sra,
        options.modref,
        options.summary,
    ]
}
