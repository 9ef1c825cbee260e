//! Which programs are accepted.

ghost use Rattle.std.specs.Prelude.{◌≡◌, ◌<◌, ◌^◌, length, None, IfOk, IfErr, OnOk};
ghost use Rattle.gimple_ir.specs.declared.scalar.Mode.TheVariants.{Trap};
ghost use Rattle.gimple_ir.specs.Size.{size_of_program};
ghost use Rattle.gimple_core.specs.Accepted.{first_fault};
ghost use Rattle.gimple_types.specs.Verdicts.{Refuses};

use crate::declare::{functions, heads, main_function};
use crate::env::Known;
use crate::globals::globals;
use crate::refusal::Refusal;
use crate::structs::all_structs;
use gimple_core::{Checked, Program};
use std::alloc::Global as Heap;

#[tactic(auto, using(crate::proofs::CountLemmas::are_short), unfolding(gimple_core::specs::Accepted::checked, gimple_core::specs::Accepted::first_fault))]
fn check(alloc: Heap, program: &Program) -> Result<(), Refusal>
    requires structs { length program.now.structs < 2 ^ 32 }
    requires globals { length program.now.globals < 2 ^ 32 }
    requires functions { length program.now.functions < 2 ^ 32 }
    requires size { size_of_program program.now < 2 ^ 32 }
    ensures ok { OnOk result (first_fault program.now ≡ None) }
    ensures err { IfErr result (Refuses program.now) }
{
    let structs = all_structs(alloc, program.structs.as_slice())?;
    let variables = globals(alloc, &structs, program)?;
    let callees = heads(alloc, &variables, program.functions.as_slice())?;
    match main_function(program.functions.as_slice()) {
        Ok(()) => {}
        Err(fault) => return Err(Refusal::Fault(fault)),
    }
    let known = Known {
        structs,
        globals: variables,
        functions: callees,
        has_targets: program.profile == 2,
    };
    functions(alloc, &known, program.functions.as_slice())
}

/// The program as one without a type fault, in the mode `Trap`, or its first type fault. It answers want of memory at
/// any time. A profile that is neither 1 nor 2 counts as 1. Structs, globals, functions and statements are to be such
/// that 32 bits can number them, as in what `gimple_text::parse` answers; `is_countable` says it of other programs.
pub fn accept(alloc: Heap, program: Program) -> Result<Checked, Refusal>
    requires structs { length program.structs < 2 ^ 32 }
    requires globals { length program.globals < 2 ^ 32 }
    requires functions { length program.functions < 2 ^ 32 }
    requires size { size_of_program program < 2 ^ 32 }
    ensures same { IfOk result (λ checked. checked.program ≡ program) }
    ensures mode { IfOk result (λ checked. checked.mode ≡ Trap) }
    ensures accepted { OnOk result (first_fault program ≡ None) }
    ensures refused { IfErr result (Refuses program) }
{
    check(alloc, &program)?;
    Ok(Checked::seal(program))
}
