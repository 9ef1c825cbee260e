//! The `main` of a generated program, and the program.

ghost use Rattle.std.specs.Prelude.{◌≡◌, ◌≤◌, ◌++◌, map, IfOk, OnOk};
ghost use Rattle.std.specs.List.{range_with_len, flat_map};
ghost use Rattle.gimple_ir.specs.Counts.{IsCountable};
ghost use Rattle.gimple_ir.specs.Spellable.{IsSpellable};
ghost use Rattle.gimple_core.specs.Accepted.{IsAccepted};
ghost use Rattle.gimple_gen.specs.Generated.{asked, function_of, main_block, main_of, generated};

use crate::bodies::function;
use crate::parts::{call, read, word};
use gimple_core::{
    Block, Blocks, Decls, End, Function, Functions, Globals, Operand, OutOfMemory, Program,
    Registers, Scalar, Stmt, Stmts, StructDefs, Text,
};
use std::alloc::Global as Heap;

/// Puts a call of the function of a number, and the print of its result, behind the statements, where the number is a
/// multiple of 64.
#[tactic(auto, unfolding(crate::specs::Generated::asked))]
fn push_asked(alloc: Heap, number: u32, body: &mut Stmts) -> Result<(), OutOfMemory>
    ensures { OnOk result (body.new ≡ body.old ++ asked number) }
{
    if number % 64 != 0 {
        return Ok(());
    }
    let call = call(alloc, "r", number, Operand::Number(1), Operand::Number(3))?;
    body.push(call)?;
    let printed = read(alloc, "r")?;
    body.push(Stmt::Put { from: printed })
}

#[tactic(auto, using(crate::proofs::Ranges::flat_map_more))]
fn main_body(alloc: Heap, functions: u32) -> Result<Stmts, OutOfMemory>
    ensures { IfOk result (λ body. body ≡ flat_map asked (range_with_len 0 functions)) }
{
    let mut body = Stmts::new(alloc);
    for number in 0..functions {
        push_asked(alloc, number, &mut body)?;
    }
    Ok(body)
}

#[tactic(auto, unfolding(crate::specs::Generated::main_block))]
fn main_block(alloc: Heap, functions: u32) -> Result<Block, OutOfMemory>
    ensures { IfOk result (λ block. block ≡ main_block functions) }
{
    let body = main_body(alloc, functions)?;
    Ok(Block {
        label: 2,
        body,
        end: End::Return(Some(Operand::Number(0))),
    })
}

#[tactic(auto, unfolding(crate::specs::Generated::main_of))]
fn main_function(alloc: Heap, functions: u32) -> Result<Function, OutOfMemory>
    ensures { IfOk result (λ function. function ≡ main_of functions) }
{
    let name = Text::from_bytes(alloc, "main".as_bytes())?;
    let result = word(alloc, "r")?;
    let registers = Registers::from_vec(vec![in alloc; result]?);
    let block = main_block(alloc, functions)?;
    let blocks = Blocks::from_vec(vec![in alloc; block]?);
    Ok(Function {
        name,
        params: Registers::new(alloc),
        result: Some(Scalar::I32),
        locals: Decls::new(alloc),
        registers,
        blocks,
    })
}

/// The functions that `main` calls.
#[tactic(auto, using(crate::proofs::Ranges::map_more))]
fn called_functions(alloc: Heap, functions: u32) -> Result<Functions, OutOfMemory>
    requires { functions ≤ 65536 }
    ensures { IfOk result (λ list. list ≡ map (function_of functions) (range_with_len 0 functions)) }
{
    let mut list = Functions::new(alloc);
    for number in 0..functions {
        let function = function(alloc, functions, number)?;
        list.push(function)?;
    }
    Ok(list)
}

/// The program, made function by function.
#[tactic(auto, unfolding(crate::specs::Generated::generated))]
fn made(alloc: Heap, functions: u32) -> Result<Program, OutOfMemory>
    requires { functions ≤ 65536 }
    ensures { IfOk result (λ program. program ≡ generated functions) }
{
    let mut list = called_functions(alloc, functions)?;
    let main = main_function(alloc, functions)?;
    list.push(main)?;
    Ok(Program {
        profile: 1,
        structs: StructDefs::new(alloc),
        globals: Globals::new(alloc),
        functions: list,
    })
}

/// The generated program of so many functions and `main`, which has no type fault, a text, and parts that 32 bits can
/// number. The rule stands in docs/PASSES.md. Err is want of memory.
pub fn generate(alloc: Heap, functions: u32) -> Result<Program, OutOfMemory>
    requires some { 1 ≤ functions }
    requires few { functions ≤ 65536 }
    ensures exact { IfOk result (λ program. program ≡ generated functions) }
    ensures accepted { IfOk result IsAccepted }
    ensures spellable { IfOk result IsSpellable }
    ensures countable { IfOk result IsCountable }
{
    let program = made(alloc, functions)?;
    Ok(program)
}
