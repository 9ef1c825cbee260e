//! Programs made by plans.

ghost use Rattle.std.specs.Prelude.{◌≡◌, ◌<◌, ◌≤◌, length, Some, IfOk};
ghost use Rattle.gimple_ir.specs.Counts.{IsCountable};
ghost use Rattle.gimple_ir.specs.Size.{size_of_program};
ghost use Rattle.gimple_core.specs.Accepted.{IsAccepted};
ghost use Rattle.gimple_core.specs.Replacing.{Replaces};
ghost use Rattle.gimple_core.specs.Sealed.{with_functions};
ghost use Rattle.value_domain.specs.Thresholds.{thresholds_list};
ghost use Rattle.body_values.specs.Found.{OfFunction};
ghost use Rattle.body_values.specs.System.{FactsFit};
ghost use Rattle.body_fold.specs.Claims.{FactsHold, FoldsTo, FoldsAll};
ghost use Rattle.cp_apply.specs.Bases.{context_facts, base_facts, PlanFits, FoldsFirst, IsMade};

use crate::plan::{Context, Plan};
use body_fold::fold_in;
use body_values::{ProgramTables, values_in};
use call_graph::drop_unreached;
use fix_engine::Solver;
use gimple_core::{Checked, Exact, Function, Functions, OutOfMemory, Params, Program};
use std::alloc::Global;

/// The function of a number, folded in a context.
fn folded<S: Solver>(
    alloc: Global,
    tables: &ProgramTables,
    number: u32,
    context: &Context,
    solver: &mut S,
) -> Result<Function, OutOfMemory>
    requires accepted { IsAccepted tables.now.program.program }
    requires number { number < length tables.now.program.program.functions }
    requires countable { IsCountable tables.now.program.program }
    requires fit { OfFunction tables.now.program.program number (λ f. FactsFit f (context_facts context.now) tables.now.size (thresholds_list tables.now.program.program)) }
    ensures { IfOk result (λ g. OfFunction tables.now.program.program number (λ f. FoldsTo tables.now.program number f g (Some (context_facts context.now)))) }
{
    let facts = context.facts(alloc)?;
    let values = values_in(alloc, tables, number, &facts, solver)?;
    fold_in(alloc, tables, number, &values)
}

/// The functions of a program, each folded in its context.
fn folded_functions<S: Solver>(
    alloc: Global,
    tables: &ProgramTables,
    plan: &Plan,
    solver: &mut S,
) -> Result<Functions, OutOfMemory>
    requires accepted { IsAccepted tables.now.program.program }
    requires countable { IsCountable tables.now.program.program }
    requires fits { PlanFits tables.now.program.program tables.now.size plan.now }
    ensures { IfOk result (λ gs. FoldsFirst tables.now.program (base_facts plan.now) (length plan.now.bases) gs) }
{
    let mut functions = Functions::new(alloc);
    for (number, context) in plan.bases.as_slice().iter().enumerate() {
        let function = folded(alloc, tables, number as u32, context, solver)?;
        functions.push(function)?;
    }
    Ok(functions)
}

/// A program with other functions.
fn with_folded(source: &Program, functions: Functions) -> Result<Program, OutOfMemory>
    ensures { IfOk result (λ p. p ≡ record source.now { functions = functions }) }
{
    Ok(Program {
        profile: source.profile,
        structs: source.structs.copy()?,
        globals: source.globals.copy()?,
        functions,
    })
}

/// The program with each function folded in its context.
fn folded_program<S: Solver>(
    alloc: Global,
    program: &Checked,
    plan: &Plan,
    solver: &mut S,
    limits: &Params,
) -> Result<Checked, OutOfMemory>
    requires countable { IsCountable program.now.program }
    requires fits { PlanFits program.now.program limits.now.ipa_cp_value_list_size plan.now }
    ensures folds { IfOk result (λ after. FoldsAll program.now (base_facts plan.now) after.program.functions) }
    ensures rest { IfOk result (λ after. after ≡ with_functions program.now after.program.functions) }
{
    let source = program.program();
    let tables = ProgramTables::new(alloc, program, limits)?;
    let functions = folded_functions(alloc, &tables, plan, solver)?;
    let folded = with_folded(source, functions)?;
    Ok(Checked::seal_as(folded, program.mode()))
}

/// The program that a plan makes: each function is folded by the values of its registers in its context, and the functions
/// that `main` does not reach then are left out. Where each context holds in every run of the program, the program that is
/// made may replace it.
///
/// Err is want of memory. Source: docs/PASSES.md, constant propagation.
pub fn materialise<S: Solver>(
    alloc: Global,
    program: &Checked,
    plan: &Plan,
    solver: &mut S,
    limits: &Params,
) -> Result<Checked, OutOfMemory>
    requires countable { IsCountable program.now.program }
    requires fits { PlanFits program.now.program limits.now.ipa_cp_value_list_size plan.now }
    ensures made { IfOk result (IsMade program.now plan.now) }
    ensures replaces { IfOk result (λ after. FactsHold program.now (base_facts plan.now) → Replaces 1 program.now after) }
    ensures shrinks { IfOk result (λ after. size_of_program after.program ≤ size_of_program program.now.program) }
{
    let folded = folded_program(alloc, program, plan, solver, limits)?;
    drop_unreached(alloc, folded)
}
