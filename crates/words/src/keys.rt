//! The names of passes, parameters, dumps, levels and modes, as tables.

ghost use Rattle.std.specs.Prelude.{◌≡◌, ◌≤◌, length, IfSome};
ghost use Rattle.words.specs.Items.{pass_of, param_at, dump_at, level_at, mode_at};

use crate::item::{Dump, Param, Pass};
use crate::prefix::{row_begun, row_named};
use gimple_ir::Mode;

/// The pass of this name.
pub fn pass_named(name: &[u8]) -> Option<Pass>
    ensures { result ≡ pass_of name.now }
{
    row_named(
        &[
            ("cp", Pass::Cp),
            ("cp-clone", Pass::CpClone),
            ("bit-cp", Pass::BitCp),
            ("vrp", Pass::Vrp),
            ("sra", Pass::Sra),
            ("modref", Pass::Modref),
            ("icf", Pass::Icf),
        ],
        name,
    )
}

/// The parameter of a text `NAME=V`, and where the value begins.
pub fn param_named(text: &[u8]) -> Option<(Param, usize)>
    ensures place { result ≡ param_at text.now }
    ensures within { IfSome result (λ found. found.1 ≤ length text.now) }
{
    row_begun(
        &[
            ("ipa-cp-value-list-size=", Param::ValueListSize),
            ("ipa-cp-eval-threshold=", Param::EvalThreshold),
            ("ipa-cp-unit-growth=", Param::UnitGrowth),
            ("ipa-cp-large-unit-insns=", Param::LargeUnitInsns),
            ("ipa-max-agg-items=", Param::MaxAggItems),
            ("ipa-sra-max-replacements=", Param::MaxReplacements),
            ("ipa-sra-ptr-growth-factor=", Param::PtrGrowthFactor),
            ("ipa-sra-unit-growth=", Param::SraUnitGrowth),
            ("modref-max-bases=", Param::MaxBases),
            ("modref-max-refs=", Param::MaxRefs),
            ("modref-max-accesses=", Param::MaxAccesses),
        ],
        text,
    )
}

/// The pass of a text `PASS=FILE`, and where the file begins.
pub fn dump_named(text: &[u8]) -> Option<(Dump, usize)>
    ensures place { result ≡ dump_at text.now }
    ensures within { IfSome result (λ found. found.1 ≤ length text.now) }
{
    row_begun(
        &[
            ("cgraph=", Dump::Cgraph),
            ("icf=", Dump::Icf),
            ("cp=", Dump::Cp),
            ("sra=", Dump::Sra),
            ("modref=", Dump::Modref),
        ],
        text,
    )
}

/// The level that this word chooses.
pub fn level_named(text: &[u8]) -> Option<u8>
    ensures { result ≡ level_at text.now }
{
    row_named(
        &[("-O0", 0), ("-O1", 1), ("-O", 1), ("-O2", 2), ("-O3", 3)],
        text,
    )
}

/// The mode of arithmetic that this word chooses.
pub fn mode_named(text: &[u8]) -> Option<Mode>
    ensures { result ≡ mode_at text.now }
{
    row_named(&[("-fwrapv", Mode::Wrap), ("-ftrapv", Mode::Trap)], text)
}
