//! Functions and programs.

ghost use Rattle.std.specs.Prelude.{◌≡◌, ◌↔◌, IsTrue, IfOk};

use crate::OutOfMemory;
use crate::block::Blocks;
use crate::declarations::{Decls, Globals, Registers, StructDefs};
use crate::listed::{Exact, Listed, Text};
use crate::scalar::Scalar;

/// A function. Formals and registers have no address; locals are memory. A result of None is `void`.
#[derive(Clone, Debug, Drop)]
pub struct Function {
    pub name: Text,
    pub params: Registers,
    pub result: Option<Scalar>,
    pub locals: Decls,
    pub registers: Registers,
    pub blocks: Blocks,
}

/// The functions of a program in file order.
pub type Functions = Listed<Function>;

/// A whole program. Its profile is 1, or 2 where functions may be addressed and called through registers.
#[derive(Clone, Debug, Drop)]
pub struct Program {
    pub profile: u8,
    pub structs: StructDefs,
    pub globals: Globals,
    pub functions: Functions,
}

impl Exact for Function {
    fn copy(&self) -> Result<Function, OutOfMemory> {
        self.clone()
    }

    fn same(&self, other: &Function) -> bool {
        self.name.same(&other.name)
            && self.params.same(&other.params)
            && self.result.same(&other.result)
            && self.locals.same(&other.locals)
            && self.registers.same(&other.registers)
            && self.blocks.same(&other.blocks)
    }
}

impl Exact for Program {
    fn copy(&self) -> Result<Program, OutOfMemory> {
        self.clone()
    }

    fn same(&self, other: &Program) -> bool {
        self.profile == other.profile
            && self.structs.same(&other.structs)
            && self.globals.same(&other.globals)
            && self.functions.same(&other.functions)
    }
}
