//! Names, registers and statements of generated programs.

ghost use Rattle.std.specs.Prelude.{◌≡◌, ◌∷◌, [], Some, IfOk};
ghost use Rattle.gimple_ir.specs.declared.operand.Operand.TheVariants.{Reg};
ghost use Rattle.gimple_ir.specs.declared.statement.Stmt.TheVariants.{Arith, Call};
ghost use Rattle.gimple_gen.specs.Generated.{function_name, word};

use gimple_core::{Op, Operand, Operands, OutOfMemory, Register, Scalar, Stmt, Text};
use std::alloc::Global as Heap;

/// The formal or register of a name, which is of the scalar `i32`.
pub fn word(alloc: Heap, name: &str) -> Result<Register, OutOfMemory>
    ensures { IfOk result (λ register. register ≡ word name.now) }
{
    let name = Text::from_bytes(alloc, name.as_bytes())?;
    Ok(Register {
        name,
        scalar: Scalar::I32,
    })
}

/// A register of this name, to be read.
pub fn read(alloc: Heap, name: &str) -> Result<Operand, OutOfMemory>
    ensures { IfOk result (λ operand. operand ≡ Reg name.now) }
{
    let name = Text::from_bytes(alloc, name.as_bytes())?;
    Ok(Operand::Reg(name))
}

/// The name of the function of a number.
pub fn function_name(alloc: Heap, number: u32) -> Result<Text, OutOfMemory>
    ensures { IfOk result (λ name. name ≡ function_name number) }
{
    let mut name = Text::from_bytes(alloc, "f".as_bytes())?;
    let digits = number.to_string(alloc)?;
    name.push_all(digits.as_bytes())?;
    Ok(name)
}

/// `to = left op right;`
pub fn arith(alloc: Heap, to: &str, left: &str, op: Op, right: Operand) -> Result<Stmt, OutOfMemory>
    ensures { IfOk result (λ statement. statement ≡ Arith to.now (Reg left.now) op right) }
{
    let to = Text::from_bytes(alloc, to.as_bytes())?;
    let left = read(alloc, left)?;
    Ok(Stmt::Arith {
        to,
        left,
        op,
        right,
    })
}

/// Two arguments.
fn both(alloc: Heap, first: Operand, second: Operand) -> Result<Operands, OutOfMemory>
    ensures { IfOk result (λ operands. operands ≡ first ∷ second ∷ []) }
{
    let operands = vec![in alloc; first, second]?;
    Ok(Operands::from_vec(operands))
}

/// `to = fk (first, second);` for the function of a number.
pub fn call(
    alloc: Heap,
    to: &str,
    function: u32,
    first: Operand,
    second: Operand,
) -> Result<Stmt, OutOfMemory>
    ensures { IfOk result (λ statement. statement ≡ Call (Some to.now) (function_name function) (first ∷ second ∷ [])) }
{
    let to = Text::from_bytes(alloc, to.as_bytes())?;
    let callee = function_name(alloc, function)?;
    let arguments = both(alloc, first, second)?;
    Ok(Stmt::Call {
        to: Some(to),
        callee,
        arguments,
    })
}
