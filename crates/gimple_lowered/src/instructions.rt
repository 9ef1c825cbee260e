//! Lowered statements.

ghost use Rattle.std.specs.Prelude.{◌≡◌, IfOk};
ghost use Rattle.gimple_ir.specs.declared.statement.Stmt.TheVariants as stmt;
ghost use Rattle.gimple_lowered.specs.Names.{names_in, IsNarrow};
ghost use Rattle.gimple_lowered.specs.Lowered.{instruction_of, instructions_of};

use crate::scope::{Scope, function, register, scalar, taken};
use crate::sources::{pointer, source, sources};
use crate::types::Instruction;
use crate::written::Written;
use gimple_core::{Listed, Operand, OutOfMemory, Signature, Stmt, Text};
use std::alloc::Global as Heap;

/// A call of a function by its name.
#[tactic(auto, unfolding(crate::specs::Lowered::instruction_of))]
fn call<'t>(
    alloc: Heap,
    scope: &Scope<'_>,
    to: &'t Option<Text>,
    callee: &'t Text,
    arguments: &'t [Operand],
) -> Result<Instruction<'t>, OutOfMemory>
    requires { IsNarrow (names_in scope.now) }
    ensures { IfOk result (λ x. x ≡ instruction_of (names_in scope.now) (stmt.Call to.now callee.now arguments.now)) }
{
    let arguments = sources(alloc, scope, arguments)?;
    Ok(Instruction::Call {
        to: taken(scope, to),
        callee: function(scope, callee),
        arguments,
    })
}

/// A call through a register.
#[tactic(auto, unfolding(crate::specs::Lowered::instruction_of))]
fn indirect<'t>(
    alloc: Heap,
    scope: &Scope<'_>,
    to: &'t Option<Text>,
    signature: &'t Signature,
    callee: &'t Text,
    arguments: &'t [Operand],
) -> Result<Instruction<'t>, OutOfMemory>
    requires { IsNarrow (names_in scope.now) }
    ensures { IfOk result (λ x. x ≡ instruction_of (names_in scope.now) (stmt.Indirect to.now signature.now callee.now arguments.now)) }
{
    let arguments = sources(alloc, scope, arguments)?;
    Ok(Instruction::Indirect {
        to: taken(scope, to),
        signature: Written::new(signature),
        callee: register(scope, callee),
        arguments,
    })
}

/// A statement.
#[tactic(auto, unfolding(crate::specs::Lowered::instruction_of))]
fn instruction<'t>(
    alloc: Heap,
    scope: &Scope<'_>,
    statement: &'t Stmt,
) -> Result<Instruction<'t>, OutOfMemory>
    requires { IsNarrow (names_in scope.now) }
    ensures { IfOk result (λ x. x ≡ instruction_of (names_in scope.now) statement.now) }
{
    match statement {
        Stmt::Copy { to, from } => Ok(Instruction::Copy {
            to: register(scope, to),
            from: source(scope, from),
        }),
        Stmt::Arith {
            to,
            left,
            op,
            right,
        } => Ok(Instruction::Arith {
            to: register(scope, to),
            scalar: scalar(scope, to),
            left: source(scope, left),
            op: *op,
            right: source(scope, right),
        }),
        Stmt::Compare {
            to,
            left,
            cmp,
            right,
        } => Ok(Instruction::Compare {
            to: register(scope, to),
            left: source(scope, left),
            cmp: *cmp,
            right: source(scope, right),
        }),
        Stmt::Convert {
            to,
            scalar: into,
            from,
        } => Ok(Instruction::Convert {
            to: register(scope, to),
            scalar: *into,
            from: source(scope, from),
        }),
        Stmt::Load {
            to,
            scalar: of,
            place,
        } => Ok(Instruction::Load {
            to: register(scope, to),
            scalar: *of,
            pointer: pointer(scope, place),
        }),
        Stmt::Store {
            scalar: of,
            place,
            from,
        } => Ok(Instruction::Store {
            scalar: *of,
            pointer: pointer(scope, place),
            from: source(scope, from),
        }),
        Stmt::Call {
            to,
            callee,
            arguments,
        } => call(alloc, scope, to, callee, arguments.as_slice()),
        Stmt::Indirect {
            to,
            signature,
            callee,
            arguments,
        } => indirect(alloc, scope, to, signature, callee, arguments.as_slice()),
        Stmt::Get { to } => Ok(Instruction::Get {
            to: register(scope, to),
        }),
        Stmt::Put { from } => Ok(Instruction::Put {
            from: source(scope, from),
        }),
        Stmt::Abort => Ok(Instruction::Abort),
    }
}

/// The statements of a block.
pub fn instructions<'t>(
    alloc: Heap,
    scope: &Scope<'_>,
    statements: &'t [Stmt],
) -> Result<Listed<Instruction<'t>>, OutOfMemory>
    requires { IsNarrow (names_in scope.now) }
    ensures { IfOk result (λ held. held ≡ instructions_of (names_in scope.now) statements.now) }
{
    let mut held = Listed::new(alloc);
    for statement in statements {
        held.push(instruction(alloc, scope, statement)?)?;
    }
    Ok(held)
}
