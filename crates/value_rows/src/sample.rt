//! A program and its thresholds.

ghost use Rattle.std.specs.Prelude.{◌≡◌, IfOk};
ghost use Rattle.value_domain.specs.Thresholds.{thresholds_list};
ghost use Rattle.value_rows.specs.Sample.{sample};

use gimple_core::{
    Block, Checked, End, Function, Listed, Operand, OutOfMemory, Params, Program, Scalar, Text,
};
use std::alloc::Global;
use value_domain::{Thresholds, thresholds_of};

/// A program whose one number is 300.
#[tactic(auto, using(crate::proofs::SampleLemmas::sample_accepted))]
fn program(alloc: Global) -> Result<Checked, OutOfMemory>
    ensures { IfOk result (λ checked. checked.program ≡ sample) }
{
    let mut blocks = Listed::new(alloc);
    blocks.push(Block {
        label: 2,
        body: Listed::new(alloc),
        end: End::Return(Some(Operand::Number(300))),
    })?;
    let mut functions = Listed::new(alloc);
    functions.push(Function {
        name: Text::from_bytes(alloc, b"main")?,
        params: Listed::new(alloc),
        result: Some(Scalar::I32),
        locals: Listed::new(alloc),
        registers: Listed::new(alloc),
        blocks,
    })?;
    Ok(Checked::seal(Program {
        profile: 1,
        structs: Listed::new(alloc),
        globals: Listed::new(alloc),
        functions,
    }))
}

/// Options with lists of up to 8 constants.
fn options() -> Params
    ensures { result.ipa_cp_value_list_size ≡ 8 }
{
    Params {
        ipa_cp_value_list_size: 8,
        ipa_cp_eval_threshold: 0,
        ipa_cp_unit_growth: 0,
        ipa_cp_large_unit_insns: 0,
        ipa_max_agg_items: 0,
        ipa_sra_max_replacements: 0,
        ipa_sra_ptr_growth_factor: 0,
        ipa_sra_unit_growth: 0,
        modref_max_bases: 0,
        modref_max_refs: 0,
        modref_max_accesses: 0,
    }
}

/// The thresholds of the program, which are the powers of two with their neighbours and 300, and lists of up to 8 constants.
/// Err is want of memory.
pub fn limits(alloc: Global) -> Result<Thresholds, OutOfMemory>
    ensures size { IfOk result (λ t. t.size ≡ 8) }
    ensures ends { IfOk result (λ t. t.ends ≡ thresholds_list sample) }
{
    let program = program(alloc)?;
    thresholds_of(alloc, &program, &options())
}
