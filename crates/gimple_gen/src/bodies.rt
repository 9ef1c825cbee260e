//! The functions that a generated program measures with.

ghost use Rattle.std.specs.Prelude.{◌≡◌, ◌<◌, ◌≤◌, ◌∷◌, [], codes, Some, IfOk};
ghost use Rattle.gimple_ir.specs.declared.scalar.Op.TheVariants.{Xor};
ghost use Rattle.gimple_ir.specs.declared.operand.Operand.TheVariants.{Reg};
ghost use Rattle.gimple_ir.specs.declared.statement.Stmt.TheVariants.{Arith, Call};
ghost use Rattle.gimple_gen.specs.Generated.{callee_of, function_name, argument_of, first_block, calling_block, last_block, function_of, word};

use crate::parts::{arith, call, function_name, read, word};
use gimple_core::{
    Block, Blocks, Cmp, Decls, End, Function, Op, Operand, OutOfMemory, Registers, Scalar, Stmt,
    Stmts,
};
use std::alloc::Global as Heap;

/// The first argument of the call in the function of a number.
#[tactic(auto, unfolding(crate::specs::Generated::argument_of))]
fn argument(alloc: Heap, number: u32) -> Result<Operand, OutOfMemory>
    ensures { IfOk result (λ operand. operand ≡ argument_of number) }
{
    if number % 3 == 0 {
        return Ok(Operand::Number(i128::from(number % 5)));
    }
    read(alloc, "t")
}

#[tactic(auto, unfolding(crate::specs::Generated::first_block))]
fn first_block(alloc: Heap, number: u32) -> Result<Block, OutOfMemory>
    requires { number < 65536 }
    ensures { IfOk result (λ block. block ≡ first_block number) }
{
    let added = Operand::Number(i128::from(7 * number % 16));
    let sum = arith(alloc, "t", "a", Op::Add, added)?;
    let body = Stmts::from_vec(vec![in alloc; sum]?);
    let left = read(alloc, "b")?;
    Ok(Block {
        label: 2,
        body,
        end: End::If {
            left,
            cmp: Cmp::Le,
            right: Operand::Number(0),
            yes: 4,
            no: 3,
        },
    })
}

/// `u = fJ (A, b);`
fn ask(alloc: Heap, functions: u32, number: u32) -> Result<Stmt, OutOfMemory>
    requires some { 1 ≤ functions }
    requires number { number < 65536 }
    ensures { IfOk result (λ statement. statement ≡ Call (Some (codes "u")) (function_name (callee_of functions number)) (argument_of number ∷ Reg (codes "b") ∷ [])) }
{
    let callee = (5 * number + 1) % functions;
    let first = argument(alloc, number)?;
    let second = read(alloc, "b")?;
    call(alloc, "u", callee, first, second)
}

/// `t = t ^ u;`
fn mix(alloc: Heap) -> Result<Stmt, OutOfMemory>
    ensures { IfOk result (λ statement. statement ≡ Arith (codes "t") (Reg (codes "t")) Xor (Reg (codes "u"))) }
{
    let answer = read(alloc, "u")?;
    arith(alloc, "t", "t", Op::Xor, answer)
}

#[tactic(auto, unfolding(crate::specs::Generated::calling_block))]
fn calling_body(alloc: Heap, functions: u32, number: u32) -> Result<Stmts, OutOfMemory>
    requires some { 1 ≤ functions }
    requires number { number < 65536 }
    ensures { IfOk result (λ body. body ≡ (calling_block functions number).body) }
{
    let lower = arith(alloc, "b", "b", Op::Sub, Operand::Number(1))?;
    let ask = ask(alloc, functions, number)?;
    let mix = mix(alloc)?;
    let body = vec![in alloc; lower, ask, mix]?;
    Ok(Stmts::from_vec(body))
}

#[tactic(auto, unfolding(crate::specs::Generated::calling_block))]
fn calling_block(alloc: Heap, functions: u32, number: u32) -> Result<Block, OutOfMemory>
    requires some { 1 ≤ functions }
    requires number { number < 65536 }
    ensures { IfOk result (λ block. block ≡ calling_block functions number) }
{
    let body = calling_body(alloc, functions, number)?;
    Ok(Block {
        label: 3,
        body,
        end: End::Goto(4),
    })
}

#[tactic(auto, unfolding(crate::specs::Generated::last_block))]
fn last_block(alloc: Heap) -> Result<Block, OutOfMemory>
    ensures { IfOk result (λ block. block ≡ last_block) }
{
    let result = read(alloc, "t")?;
    Ok(Block {
        label: 4,
        body: Stmts::new(alloc),
        end: End::Return(Some(result)),
    })
}

/// Two formals or registers of these names.
fn words(alloc: Heap, first: &str, second: &str) -> Result<Registers, OutOfMemory>
    ensures { IfOk result (λ registers. registers ≡ word first.now ∷ word second.now ∷ []) }
{
    let first = word(alloc, first)?;
    let second = word(alloc, second)?;
    let registers = vec![in alloc; first, second]?;
    Ok(Registers::from_vec(registers))
}

fn blocks(alloc: Heap, functions: u32, number: u32) -> Result<Blocks, OutOfMemory>
    requires some { 1 ≤ functions }
    requires number { number < 65536 }
    ensures { IfOk result (λ blocks. blocks ≡ first_block number ∷ calling_block functions number ∷ last_block ∷ []) }
{
    let first = first_block(alloc, number)?;
    let calling = calling_block(alloc, functions, number)?;
    let last = last_block(alloc)?;
    let blocks = vec![in alloc; first, calling, last]?;
    Ok(Blocks::from_vec(blocks))
}

/// The function of a number among so many.
#[tactic(auto, unfolding(crate::specs::Generated::function_of))]
pub fn function(alloc: Heap, functions: u32, number: u32) -> Result<Function, OutOfMemory>
    requires some { 1 ≤ functions }
    requires number { number < 65536 }
    ensures { IfOk result (λ function. function ≡ function_of functions number) }
{
    let name = function_name(alloc, number)?;
    let params = words(alloc, "a", "b")?;
    let registers = words(alloc, "t", "u")?;
    let blocks = blocks(alloc, functions, number)?;
    Ok(Function {
        name,
        params,
        result: Some(Scalar::I32),
        locals: Decls::new(alloc),
        registers,
        blocks,
    })
}
