//! What the names in a function mean.

ghost use Rattle.std.specs.Prelude.{◌≡◌};
ghost use Rattle.gimple_core.specs.State.{register_place};
ghost use Rattle.gimple_lowered.specs.Names.{names_in, scalar_named, taking, function_place, block_place};

use gimple_core::{Scalar, Text};
use name_tables::{Labels, NamedFunctions, NamedGlobals, NamedLocals, RegisterTable};

/// What the names in a function mean: the functions and globals of its program, and its own locals, registers and labels.
#[derive(Clone, Copy)]
pub struct Scope<'a> {
    pub functions: &'a NamedFunctions<'a>,
    pub globals: &'a NamedGlobals<'a>,
    pub locals: &'a NamedLocals<'a>,
    pub registers: &'a RegisterTable,
    pub labels: &'a Labels,
}

fn place(registers: &RegisterTable, name: &Text) -> Option<usize>
    ensures { result ≡ register_place registers.now name.now }
{
    let at = registers.place(name);
    if at < registers.as_slice().len() {
        Some(at)
    } else {
        None
    }
}

/// The position of a register.
pub fn register(scope: &Scope<'_>, name: &Text) -> Option<usize>
    ensures { result ≡ register_place (names_in scope.now).registers name.now }
{
    place(scope.registers, name)
}

/// The position of the register that takes a call's result.
pub fn taken(scope: &Scope<'_>, to: &Option<Text>) -> Option<usize>
    ensures { result ≡ taking (names_in scope.now) to.now }
{
    match to {
        Some(name) => register(scope, name),
        None => None,
    }
}

/// The scalar of a register.
pub fn scalar(scope: &Scope<'_>, name: &Text) -> Scalar
    ensures { result ≡ scalar_named (names_in scope.now) name.now }
{
    match scope.registers.named(name) {
        Some(register) => register.scalar,
        None => Scalar::Ptr,
    }
}

/// The number of a function.
pub fn function(scope: &Scope<'_>, name: &Text) -> Option<usize>
    ensures { result ≡ function_place (names_in scope.now) name.now }
{
    scope.functions.place(name)
}

/// The number of a block.
pub fn block(scope: &Scope<'_>, label: u64) -> Option<usize>
    ensures { result ≡ block_place (names_in scope.now) label }
{
    scope.labels.place(label)
}
