//! What one word can say.

ghost use Rattle.std.specs.Prelude.{◌≡◌, ◌≤◌};
ghost use Rattle.words.specs.Items.{least_of, greatest_of};
ghost use Rattle.words.specs.Sequence.{pending_of};

use crate::options::{Name, SourceName};
use gimple_ir::Mode;

/// The passes that words turn on and off.
#[derive(Clone, Copy, Debug, PartialEq, Eq)]
pub enum Pass {
    Cp,
    CpClone,
    BitCp,
    Vrp,
    Sra,
    Modref,
    Icf,
}

/// The parameters.
#[derive(Clone, Copy, Debug, PartialEq, Eq)]
pub enum Param {
    ValueListSize,
    EvalThreshold,
    UnitGrowth,
    LargeUnitInsns,
    MaxAggItems,
    MaxReplacements,
    PtrGrowthFactor,
    SraUnitGrowth,
    MaxBases,
    MaxRefs,
    MaxAccesses,
}

/// The passes that have a dump.
#[derive(Clone, Copy, Debug, PartialEq, Eq)]
pub enum Dump {
    Cgraph,
    Icf,
    Cp,
    Sra,
    Modref,
}

/// What a word says.
#[derive(Clone, Copy, Debug, PartialEq, Eq)]
pub enum Item {
    Source(SourceName),
    Level(u8),
    Turn(Pass, bool),
    Set(Param, u64),
    Dump(Dump, Name),
    /// `-o`, whose value is the next word.
    OutputOption,
    Output(Name),
    /// `--param`, whose value is the next word.
    ParamOption,
    Summary(Name),
    Workers(u32),
    Mode(Mode),
}

/// The option whose value the next word is.
#[derive(Clone, Copy, Debug, PartialEq, Eq)]
pub enum Pending {
    Nothing,
    Output,
    Param,
}

impl Param {
    /// The least value that a word may give.
    pub fn least(self) -> u64
        ensures { result ≡ least_of self }
    {
        match self {
            Param::ValueListSize => 1,
            _ => 0,
        }
    }

    /// The greatest value that a word may give.
    pub fn greatest(self) -> u64
        ensures value { result ≡ greatest_of self }
        ensures small { result ≤ 1000000 }
    {
        match self {
            Param::EvalThreshold | Param::LargeUnitInsns => 1_000_000,
            Param::UnitGrowth | Param::SraUnitGrowth | Param::MaxRefs | Param::MaxAccesses => 1000,
            _ => 64,
        }
    }
}

impl Item {
    /// What the next word is.
    pub fn pending(self) -> Pending
        ensures { result ≡ pending_of self }
    {
        match self {
            Item::OutputOption => Pending::Output,
            Item::ParamOption => Pending::Param,
            _ => Pending::Nothing,
        }
    }
}
