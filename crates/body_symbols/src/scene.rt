//! What the symbols in a body depend on.

ghost use Rattle.std.specs.Prelude.{◌<◌, ◌^◌, length};

use gimple_core::Mode;
use name_tables::{NamedGlobals, NamedLocals, RegisterTable};
use std::alloc::Global;

/// What the symbols in a body depend on: the mode of the program's arithmetic and its globals, and the function's locals and
/// registers, of which the first ones are its formals.
#[derive(Clone, Copy)]
pub struct Scene<'a, 'g, 'l> {
    pub mode: Mode,
    pub globals: &'a NamedGlobals<'g>,
    pub locals: &'a NamedLocals<'l>,
    pub registers: &'a RegisterTable,
    pub formals: usize,
    pub alloc: Global,
    pub ghost few_globals: { length globals.now < 2 ^ 32 },
    pub ghost few_locals: { length locals.now < 2 ^ 32 },
    pub ghost few_formals: { formals < 2 ^ 32 },
}
