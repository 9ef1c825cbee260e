//! Constant propagation in the pipeline.

ghost use Rattle.std.specs.Prelude.{◌≡◌, ◌<◌, ◌^◌, [], length, slice_index_or, codes, IfOk};
ghost use Rattle.gimple_ir.specs.Counts.{IsCountable};
ghost use Rattle.value_domain.specs.Values.{none_val};
ghost use Rattle.cp_lattices.specs.Few.{HasFewArguments};
ghost use Rattle.cp_lattices.specs.Lattices.{AreLattices, rows_of};
ghost use Rattle.ipa_dumps.specs.CpTexts.{AreRows, cp_text};
ghost use Rattle.ipa_driver.specs.Legs.{IsLeg, asked_text};
ghost use Rattle.ipa_driver.specs.Propagated.{Propagates, base_plan};

use crate::legs::{Leg, idle};
use crate::summary::no_counts;
use crate::tables::Tables;
use cp_apply::{Context, Contexts, Plan, materialise};
use cp_lattices::{Lattices, lattices_from};
use gimple_core::{Checked, OutOfMemory, Params, Passes, Text};
use ipa_dumps::{CpView, dump_cp};
use std::alloc::Global;
use value_domain::AbsVal;

/// What is known of the formals of a program's functions.
#[derive(Debug, Drop)]
struct FormalValues<'a> {
    lattices: &'a Lattices,
}

impl<'a> CpView for FormalValues<'a> {
    ghost rows = { λ v. rows_of v.lattices.now };

    fn formal(&self, function: u32, formal: u32) -> &AbsVal
        requires function { function < length (rows_of self.now.lattices.now) }
        requires formal { formal < length (slice_index_or (rows_of self.now.lattices.now) function []) }
        ensures { result.now ≡ slice_index_or (slice_index_or (rows_of self.now.lattices.now) function []) formal none_val }
    {
        &self.lattices.as_slice()[function as usize]
            .formals
            .as_slice()[formal as usize]
    }
}

/// The dump of what is known of the formals of a program where it is asked for, else no text.
fn values_text(
    alloc: Global,
    program: &Checked,
    lattices: &Lattices,
    asked: bool,
) -> Result<Text, OutOfMemory>
    requires countable { IsCountable program.now.program }
    requires rows { AreRows program.now.program.functions (rows_of lattices.now) }
    ensures { IfOk result (λ text. text ≡ asked_text asked (cp_text program.now.program (rows_of lattices.now))) }
{
    if asked {
        dump_cp(alloc, program, &FormalValues { lattices })
    } else {
        Ok(Text::new(alloc))
    }
}

/// The plan that folds each function by what is known of its formals.
fn base_plan(alloc: Global, lattices: Lattices) -> Result<Plan, OutOfMemory>
    ensures { IfOk result (λ plan. plan ≡ base_plan (rows_of lattices)) }
{
    let mut bases = Contexts::new(alloc);
    for lattice in lattices.into_vec() {
        bases.push(Context {
            formals: lattice.formals,
        })?;
    }
    Ok(Plan { bases })
}

/// What is known of the formals of a program in every call. The symbols of its functions are let go before the program is
/// folded.
fn lattices_of<S: Tables>(
    alloc: Global,
    program: &Checked,
    passes: &Passes,
    params: &Params,
    solver: &mut S,
) -> Result<Lattices, OutOfMemory>
    requires countable { IsCountable program.now.program }
    requires few { HasFewArguments program.now.program }
    ensures { IfOk result (λ ls. AreLattices program.now passes.now params.now.ipa_cp_value_list_size (rows_of ls)) }
{
    let symbols = solver.tables(alloc, program)?;
    lattices_from(alloc, program, &symbols, solver, passes, params)
}

/// The leg of a program through which constants are propagated.
fn propagated<S: Tables>(
    alloc: Global,
    program: Checked,
    asked: bool,
    passes: &Passes,
    params: &Params,
    solver: &mut S,
) -> Result<Leg, OutOfMemory>
    requires countable { IsCountable program.program }
    requires few { HasFewArguments program.program }
    ensures { IfOk result (Propagates passes.now params.now.ipa_cp_value_list_size program asked) }
{
    let lattices = lattices_of(alloc, &program, passes, params, solver)?;
    let text = values_text(alloc, &program, &lattices, asked)?;
    let plan = base_plan(alloc, lattices)?;
    let made = materialise(alloc, &program, &plan, solver, params)?;
    Ok(Leg {
        program: made,
        text,
        counts: no_counts(),
    })
}

/// The leg of constant propagation.
pub fn cp_leg<S: Tables>(
    alloc: Global,
    program: Checked,
    asked: bool,
    passes: &Passes,
    params: &Params,
    solver: &mut S,
) -> Result<Leg, OutOfMemory>
    requires countable { IsCountable program.program }
    requires few { HasFewArguments program.program }
    ensures { IfOk result (IsLeg passes.now.cp (codes "cp") (Propagates passes.now params.now.ipa_cp_value_list_size) program asked) }
{
    if passes.cp {
        propagated(alloc, program, asked, passes, params, solver)
    } else {
        idle(alloc, "cp", program, asked)
    }
}
