//! How large functions and programs are.

ghost use Rattle.std.specs.Prelude.{ℕ, ◌≡◌, ◌<◌, ◌^◌};
ghost use Rattle.gimple_ir.specs.Size.{size_of_function, size_of_program};

use gimple_ir::{Function, Program};

/// The number of a function's statements, block ends included. Takes no memory.
pub fn size_of_function(function: &Function) -> u64
    requires { size_of_function function.now < 2 ^ 32 }
    ensures { result ≡ size_of_function function.now }
{
    let mut size = 0;
    for block in function.blocks.as_slice() {
        size += block.body.len() as u64 + 1;
    }
    size
}

/// The number of a program's statements, block ends included. Takes no memory.
pub fn size_of_program(program: &Program) -> u64
    requires { size_of_program program.now < 2 ^ 32 }
    ensures { result ≡ size_of_program program.now }
{
    let mut size = 0;
    for function in program.functions.as_slice() {
        size += size_of_function(function);
    }
    size
}
