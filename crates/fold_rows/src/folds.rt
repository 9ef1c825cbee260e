//! A program with one function folded by its values from top facts.

ghost use Rattle.std.specs.Prelude.{◌<◌, ◌≤◌, length, IfOk, IfSome};
ghost use Rattle.gimple_ir.specs.Counts.{IsCountable};

use body_fold::fold;
use body_values::{top_facts, values_of};
use fix_engine::Solver;
use gimple_core::{Checked, Function, Mode, OutOfMemory, Params, Text};
use gimple_text::{TextFault, parse, print};
use gimple_types::{Refusal, accept};
use std::alloc::Global;

/// The most bytes that a text may have.
const LIMIT: usize = 16_777_216;

/// The options where none is given.
const OPTIONS: Params = Params {
    ipa_cp_value_list_size: 8,
    ipa_cp_eval_threshold: 500,
    ipa_cp_unit_growth: 10,
    ipa_cp_large_unit_insns: 16000,
    ipa_max_agg_items: 16,
    ipa_sra_max_replacements: 8,
    ipa_sra_ptr_growth_factor: 2,
    ipa_sra_unit_growth: 10,
    modref_max_bases: 32,
    modref_max_refs: 16,
    modref_max_accesses: 16,
};

/// The program of a text, in a mode. None where the text has no program, or one with a type fault.
fn accepted(alloc: Global, mode: Mode, text: &[u8]) -> Result<Option<Checked>, OutOfMemory>
    requires { length text.now ≤ 16777216 }
    ensures { IfOk result (λ found. IfSome found (λ checked. IsCountable checked.program)) }
{
    match parse(alloc, text) {
        Ok(program) => match accept(alloc, program) {
            Ok(checked) => Ok(Some(Checked::seal_as(checked.into_program(), mode))),
            Err(Refusal::Fault(_)) => Ok(None),
            Err(Refusal::Memory(error)) => Err(error),
        },
        Err(TextFault::Memory(error)) => Err(error),
        Err(_) => Ok(None),
    }
}

/// The function of a number, folded.
fn folded_function<S: Solver>(
    alloc: Global,
    program: &Checked,
    number: u32,
    solver: &mut S,
) -> Result<Function, OutOfMemory>
    requires countable { IsCountable program.now.program }
    requires within { number < length program.now.program.functions }
{
    let source = program.program();
    let function = &source.functions.as_slice()[number as usize];
    let facts = top_facts(alloc, function)?;
    let values = values_of(alloc, program, number, &facts, solver, &OPTIONS)?;
    fold(alloc, program, number, &values)
}

/// The canonical text of the program of a text, with the function of a number folded in a mode. None where the text is too long or
/// has no program without a type fault, or the program no function of this number.
pub fn folded_text<S: Solver>(
    alloc: Global,
    mode: Mode,
    text: &[u8],
    number: u32,
    solver: &mut S,
) -> Result<Option<Text>, OutOfMemory> {
    if text.len() > LIMIT {
        return Ok(None);
    }
    let Some(checked) = accepted(alloc, mode, text)? else {
        return Ok(None);
    };
    if number as usize >= checked.program().functions.len() {
        return Ok(None);
    }
    let function = folded_function(alloc, &checked, number, solver)?;
    let mut program = checked.into_program();
    program.functions.set(number as usize, function);
    Ok(Some(print(alloc, &program)?))
}
