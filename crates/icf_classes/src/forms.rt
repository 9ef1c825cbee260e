//! The forms of functions, as rows of numbers.

ghost use Rattle.std.specs.Prelude.{◌≡◌, ◌<◌, ◌^◌, map, length, IfOk};
ghost use Rattle.icf_classes.specs.Codes.{form_row, AreFormClasses};

use crate::placer::Placer;
use crate::row::Row;
use gimple_core::{Function, OutOfMemory, Program};
use partition_refinement::Interner;
use std::alloc::Global as Heap;

/// The form of a function as a row of numbers. Err is want of memory.
#[tactic(auto, unfolding(crate::specs::Codes::form_row), using(crate::proofs::Rows::turned))]
fn form(alloc: Heap, function: &Function) -> Result<Vec<i128>, OutOfMemory>
    ensures { IfOk result (λ row. row.items ≡ form_row function.now) }
{
    let placer = Placer::new(alloc, function)?;
    let mut row = Row::new(alloc);
    placer.put_function(&mut row)?;
    Ok(row.into_numbers())
}

/// The forms of functions in their order. Err is want of memory.
fn forms(alloc: Heap, functions: &[Function]) -> Result<Interner, OutOfMemory>
    requires { length functions.now < 2 ^ 32 }
    ensures { IfOk result (λ forms. forms ≡ map form_row functions.now) }
{
    let mut forms = Interner::new(alloc);
    for function in functions {
        forms.note(form(alloc, function)?)?;
    }
    Ok(forms)
}

/// Numbers for the functions of a program: the same one exactly where the forms are. Err is want of memory.
pub(crate) fn form_classes(alloc: Heap, program: &Program) -> Result<Vec<u32>, OutOfMemory>
    requires { length program.now.functions < 2 ^ 32 }
    ensures { IfOk result (λ first. AreFormClasses program.now first.items) }
{
    let forms = forms(alloc, program.functions.as_slice())?;
    Ok(forms.into_classes())
}
