//! Times the values of a function's registers: `bench_bodies order|rounds FILE` reads the program of a text, finds the values of
//! its first function from top facts by the solver of this name, and prints of how many blocks the begin is reached.
#![tactic(auto)]

ghost use Rattle.std.specs.Prelude.{◌<◌, ◌≤◌, length, IfOk, IfSome};
ghost use Rattle.gimple_ir.specs.Counts.{IsCountable};

use body_values::{BodyValues, top_facts, values_of};
use fix_engine::{OrderSolver, RoundSolver, Solver};
use gimple_core::{Checked, OutOfMemory, Params, Point};
use gimple_text::{TextFault, parse};
use gimple_types::{Refusal, accept};
use std::alloc::Global;
use std::process::ExitCode;
use std::{env, fs};

/// The most bytes that a text may have.
const LIMIT: usize = 16_777_216;

/// The options where none is given.
const OPTIONS: Params = Params {
    ipa_cp_value_list_size: 8,
    ipa_cp_eval_threshold: 500,
    ipa_cp_unit_growth: 10,
    ipa_cp_large_unit_insns: 16000,
    ipa_max_agg_items: 16,
    ipa_sra_max_replacements: 8,
    ipa_sra_ptr_growth_factor: 2,
    ipa_sra_unit_growth: 10,
    modref_max_bases: 32,
    modref_max_refs: 16,
    modref_max_accesses: 16,
};

/// The program of a text. None where the text has no program, or one with a type fault.
fn accepted(alloc: Global, text: &[u8]) -> Result<Option<Checked>, OutOfMemory>
    requires { length text.now ≤ 16777216 }
    ensures { IfOk result (λ found. IfSome found (λ checked. IsCountable checked.program)) }
{
    match parse(alloc, text) {
        Ok(program) => match accept(alloc, program) {
            Ok(checked) => Ok(Some(checked)),
            Err(Refusal::Fault(_)) => Ok(None),
            Err(Refusal::Memory(error)) => Err(error),
        },
        Err(TextFault::Memory(error)) => Err(error),
        Err(_) => Ok(None),
    }
}

/// Of how many blocks of the first function the begin is reached.
fn reached_blocks(values: &BodyValues, blocks: usize) -> u64 {
    let mut reached = 0u64;
    let last = u32::try_from(blocks).unwrap_or(u32::MAX);
    for block in 0..last {
        let begin = Point {
            function: 0,
            block,
            index: 0,
        };
        if values.reached(begin) {
            reached = reached.saturating_add(1);
        }
    }
    reached
}

/// The same, by values that are found from top facts.
fn reached_by<S: Solver>(
    alloc: Global,
    program: &Checked,
    solver: &mut S,
) -> Result<u64, OutOfMemory>
    requires countable { IsCountable program.now.program }
    requires some { 0 < length program.now.program.functions }
{
    let source = program.program();
    let function = &source.functions.as_slice()[0];
    let facts = top_facts(alloc, function)?;
    let values = values_of(alloc, program, 0, &facts, solver, &OPTIONS)?;
    Ok(reached_blocks(&values, function.blocks.len()))
}

/// The same by the solver of a name, for the program of a text. None where the text is too long or has no program without a
/// type fault, the program no function, or no solver the name.
fn measured(alloc: Global, solver: &str, text: &[u8]) -> Result<Option<u64>, OutOfMemory> {
    if text.len() > LIMIT {
        return Ok(None);
    }
    let Some(program) = accepted(alloc, text)? else {
        return Ok(None);
    };
    if program.program().functions.len() == 0 {
        return Ok(None);
    }
    match solver {
        "order" => Ok(Some(reached_by(alloc, &program, &mut OrderSolver)?)),
        "rounds" => Ok(Some(reached_by(alloc, &program, &mut RoundSolver)?)),
        _ => Ok(None),
    }
}

fn main(rt: HostRuntime) -> ExitCode {
    let Ok(arguments) = env::args(&rt) else {
        return ExitCode::from(2);
    };
    let mut words = arguments.into_iter().skip(1);
    let (Some(solver), Some(file)) = (words.next(), words.next()) else {
        return ExitCode::from(2);
    };
    let Ok(text) = fs::read(&rt, file.as_str()) else {
        return ExitCode::from(2);
    };
    match measured(rt.alloc(), solver.as_str(), text.as_slice()) {
        Ok(Some(reached)) => {
            let _ = println!(rt; "{file}: {reached} blocks are reached");
            ExitCode::from(0)
        }
        Ok(None) => ExitCode::from(2),
        Err(_) => ExitCode::from(5),
    }
}
