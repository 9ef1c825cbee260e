//! Programs in which the functions of a class are one.

ghost use Rattle.std.specs.Prelude.{◌≡◌, ℕ, ℤ, ◌<◌, ◌≤◌, ◌^◌, List, length, IfOk};
ghost use Rattle.gimple_ir.specs.Counts.{CountsWithin};
ghost use Rattle.gimple_ir.specs.Size.{size_of_program};
ghost use Rattle.gimple_ir.specs.Spellable.{IsSpellable};
ghost use Rattle.gimple_core.specs.Accepted.{IsAccepted};
ghost use Rattle.gimple_core.specs.Replacing.{Replaces};
ghost use Rattle.gimple_core.specs.Run.{Run};
ghost use Rattle.icf_classes.specs.Congruence.{AreClasses};
ghost use Rattle.icf_classes.specs.Merged.{IsMerged, MergingKeepsRuns};

use crate::merger::Merger;
use call_graph::addressed;
use gimple_core::{Checked, Exact, Numbers, OutOfMemory, Program};
use std::alloc::Global as Heap;

/// A program runs as before, in either mode, where the functions of each class are one, for the classes of any congruence.
pub fn merging_keeps_runs()
    ensures { MergingKeepsRuns }
{}

/// The program that `merge` answers.
fn merged_program(alloc: Heap, program: &Checked, classes: &Numbers) -> Result<Program, OutOfMemory>
    requires { length program.now.program.functions < 2 ^ 32 }
    ensures merged { IfOk result (IsMerged program.now.program classes.now) }
    ensures accepted { IsAccepted program.now.program }
{
    let source = program.program();
    let marks = addressed(alloc, program)?;
    let merger = Merger::new(alloc, source, marks, classes)?;
    let functions = merger.functions(alloc)?;
    Ok(Program {
        profile: source.profile,
        structs: source.structs.copy()?,
        globals: source.globals.copy()?,
        functions,
    })
}

/// The program in which each direct call of a function that is neither `main` nor addressed goes to the representative of
/// its class, without those of these functions that are not their own representative. It runs as the program does, for the
/// classes of any congruence, and may replace it.
pub fn merge(alloc: Heap, program: &Checked, classes: &Numbers) -> Result<Checked, OutOfMemory>
    requires few { length program.now.program.functions < 2 ^ 32 }
    requires classes { AreClasses program.now.program classes.now }
    ensures merged { IfOk result (λ after. IsMerged program.now.program classes.now after.program) }
    ensures mode { IfOk result (λ after. after.mode ≡ program.now.mode) }
    ensures runs { IfOk result (λ after. (input : List ℤ) (n : ℕ) → Run after input n ≡ Run program.now input n) }
    ensures replaces { IfOk result (Replaces 1 program.now) }
    ensures spellable { IfOk result (λ after. IsSpellable program.now.program → IsSpellable after.program) }
    ensures counts { IfOk result (λ after. (n : ℕ) → CountsWithin n program.now.program → CountsWithin n after.program) }
    ensures shrinks { IfOk result (λ after. size_of_program after.program ≤ size_of_program program.now.program) }
{
    let after = merged_program(alloc, program, classes)?;
    Ok(Checked::seal_as(after, program.mode()))
}
