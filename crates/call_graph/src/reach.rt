//! The functions that `main` reaches, and programs without the others.

ghost use Rattle.std.specs.Prelude.{◌≡◌, ◌<◌, ◌≤◌, ◌^◌, ◌++◌, [], length, IfOk, OnOk};
ghost use Rattle.gimple_core.specs.Reach.{IsWithoutUnreached};
ghost use Rattle.gimple_core.specs.Replacing.{Replaces};
ghost use Rattle.gimple_ir.specs.Size.{size_of_program};
ghost use Rattle.call_graph.specs.Reached.{AreReached, marked, unless_dropped};

use crate::mentions::mentions;
use crate::names::main_number;
use gimple_core::{Checked, Function, Listed, Marks, OutOfMemory, Program};
use graph_walk::reached_in;
use std::alloc::Global as Heap;

/// For each function in file order, whether `main` reaches it: whether it is `main`, an item of a global addresses it, or
/// a function that is reached calls it by name or addresses it, in any block.
pub fn reached(alloc: Heap, program: &Checked) -> Result<Marks, OutOfMemory>
    requires few { length program.now.program.functions < 2 ^ 32 }
    requires size { size_of_program program.now.program < 2 ^ 32 }
    ensures { IfOk result (AreReached program.now.program) }
{
    let rows = mentions(alloc, program)?;
    let root = main_number(program.program().functions.as_slice());
    let marks = reached_in(alloc, rows.as_slice(), root)?;
    Ok(Listed::from_vec(marks))
}

/// The program without the functions that `main` does not reach, in the same mode. It may replace the program. After a
/// refusal the program is gone.
pub fn drop_unreached(alloc: Heap, program: Checked) -> Result<Checked, OutOfMemory>
    requires few { length program.program.functions < 2 ^ 32 }
    requires size { size_of_program program.program < 2 ^ 32 }
    ensures dropped { IfOk result (λ after. IsWithoutUnreached program.program after.program) }
    ensures replaces { IfOk result (Replaces 1 program) }
    ensures shrinks { IfOk result (λ after. size_of_program after.program ≤ size_of_program program.program) }
{
    let marks = reached(alloc, &program)?;
    let mode = program.mode();
    let Program {
        profile,
        structs,
        globals,
        functions,
    } = program.into_program();
    let functions = keep_marked(alloc, functions.into_vec(), marks.as_slice())?;
    Ok(Checked::seal_as(
        Program {
            profile,
            structs,
            globals,
            functions: Listed::from_vec(functions),
        },
        mode,
    ))
}

/// The functions that are marked, in their order.
#[tactic(auto, unfolding(crate::specs::Reached::marked))]
fn keep_marked(
    alloc: Heap,
    functions: Vec<Function>,
    marks: &[bool],
) -> Result<Vec<Function>, OutOfMemory>
    ensures { IfOk result (λ kept. kept.items ≡ marked marks.now functions.items) }
{
    let mut kept = Vec::new(alloc);
    for (function, mark) in functions.into_iter().zip(marks) {
        push_if(&mut kept, *mark, function)?;
    }
    Ok(kept)
}

fn push_if(kept: &mut Vec<Function>, is: bool, function: Function) -> Result<(), OutOfMemory>
    ensures { OnOk result (kept.new.items ≡ kept.old.items ++ unless_dropped is function []) }
{
    if is {
        kept.push(function)?;
    }
    Ok(())
}
