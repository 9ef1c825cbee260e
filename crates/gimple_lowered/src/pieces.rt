//! Lowered ends, blocks and functions.

ghost use Rattle.std.specs.Prelude.{◌≡◌, ◌<◌, ◌^◌, ◌++◌, length, IfOk, OnOk};
ghost use Rattle.gimple_core.specs.State.{registers_of};
ghost use Rattle.gimple_lowered.specs.Names.{names_in, labels_of, IsNarrow};
ghost use Rattle.gimple_lowered.specs.Lowered.{choices_of, ending_of, piece_of, pieces_of, code_of};

use crate::instructions::instructions;
use crate::scope::{Scope, block};
use crate::sources::source;
use crate::types::{Choice, Code, Ending, Piece};
use gimple_core::{Block, Case, End, Exact, Function, Listed, OutOfMemory, Register};
use name_tables::{Labels, NamedFunctions, NamedGlobals, NamedLocals, RegisterTable};
use std::alloc::Global as Heap;

/// The cases of a switch.
fn choices(alloc: Heap, scope: &Scope<'_>, cases: &[Case]) -> Result<Listed<Choice>, OutOfMemory>
    ensures { IfOk result (λ held. held ≡ choices_of (names_in scope.now) cases.now) }
{
    let mut held = Listed::new(alloc);
    for case in cases {
        held.push(Choice {
            value: case.value,
            target: block(scope, case.target),
        })?;
    }
    Ok(held)
}

/// The end of a block.
#[tactic(auto, unfolding(crate::specs::Lowered::ending_of))]
fn ending<'t>(alloc: Heap, scope: &Scope<'_>, end: &'t End) -> Result<Ending<'t>, OutOfMemory>
    requires { IsNarrow (names_in scope.now) }
    ensures { IfOk result (λ x. x ≡ ending_of (names_in scope.now) end.now) }
{
    match end {
        End::Goto(label) => Ok(Ending::Goto(block(scope, *label))),
        End::If {
            left,
            cmp,
            right,
            yes,
            no,
        } => Ok(Ending::If {
            left: source(scope, left),
            cmp: *cmp,
            right: source(scope, right),
            yes: block(scope, *yes),
            no: block(scope, *no),
        }),
        End::Switch { on, cases, other } => {
            let choices = choices(alloc, scope, cases.as_slice())?;
            Ok(Ending::Switch {
                on: source(scope, on),
                choices,
                other: block(scope, *other),
            })
        }
        End::Return(None) => Ok(Ending::Return(None)),
        End::Return(Some(operand)) => Ok(Ending::Return(Some(source(scope, operand)))),
    }
}

fn piece<'t>(alloc: Heap, scope: &Scope<'_>, block: &'t Block) -> Result<Piece<'t>, OutOfMemory>
    requires { IsNarrow (names_in scope.now) }
    ensures { IfOk result (λ x. x ≡ piece_of (names_in scope.now) block.now) }
{
    let body = instructions(alloc, scope, block.body.as_slice())?;
    let end = ending(alloc, scope, &block.end)?;
    Ok(Piece { body, end })
}

fn pieces<'t>(alloc: Heap, scope: &Scope<'_>, blocks: &'t [Block]) -> Result<Code<'t>, OutOfMemory>
    requires { IsNarrow (names_in scope.now) }
    ensures { IfOk result (λ held. held ≡ pieces_of (names_in scope.now) blocks.now) }
{
    let mut held = Listed::new(alloc);
    for block in blocks {
        held.push(piece(alloc, scope, block)?)?;
    }
    Ok(held)
}

fn labels_of(alloc: Heap, blocks: &[Block]) -> Result<Labels, OutOfMemory>
    ensures { IfOk result (λ labels. labels ≡ labels_of blocks.now) }
{
    let mut labels = Labels::new(alloc);
    for block in blocks {
        labels.push(block.label)?;
    }
    Ok(labels)
}

fn put_copies(registers: &[Register], table: &mut RegisterTable) -> Result<(), OutOfMemory>
    ensures { OnOk result (table.new ≡ table.old ++ registers.now) }
{
    for at in 0..registers.len() {
        table.push(registers[at].copy()?)?;
    }
    Ok(())
}

fn registers_of(alloc: Heap, function: &Function) -> Result<RegisterTable, OutOfMemory>
    ensures { IfOk result (λ registers. registers ≡ registers_of function.now) }
{
    let mut table = RegisterTable::new(alloc);
    put_copies(function.params.as_slice(), &mut table)?;
    put_copies(function.registers.as_slice(), &mut table)?;
    Ok(table)
}

/// The lowered form of a function of a program with these functions and globals. Err is want of memory.
#[tactic(auto, unfolding(crate::specs::Lowered::code_of))]
pub fn code_of<'t>(
    alloc: Heap,
    functions: &NamedFunctions<'_>,
    globals: &NamedGlobals<'_>,
    function: &'t Function,
) -> Result<Code<'t>, OutOfMemory>
    requires globals { length globals.now < 2 ^ 32 }
    requires locals { length function.now.locals < 2 ^ 32 }
    ensures { IfOk result (λ code. code ≡ code_of functions.now globals.now function.now) }
{
    let labels = labels_of(alloc, function.blocks.as_slice())?;
    let registers = registers_of(alloc, function)?;
    let locals = NamedLocals::new(alloc, function.locals.as_slice())?;
    let scope = Scope {
        functions,
        globals,
        locals: &locals,
        registers: &registers,
        labels: &labels,
    };
    pieces(alloc, &scope, function.blocks.as_slice())
}
