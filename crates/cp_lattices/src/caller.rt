//! A function whose calls give to formals, and one of its calls.

use body_symbols::{Jumps, Symbols};
use body_values::{ProgramTables, Scene};
use gimple_core::{Function, Operands};

/// A function with its number, what its values depend on, its symbols, and the tables of its program.
#[derive(Clone, Copy)]
pub(crate) struct Caller<'a> {
    pub(crate) scene: Scene<'a>,
    pub(crate) tables: &'a ProgramTables<'a>,
    pub(crate) symbols: &'a Symbols,
    pub(crate) number: u32,
    pub(crate) function: &'a Function,
}

/// A call by name: the function of the program that is called with its number, the arguments, and their jump functions.
#[derive(Clone, Copy)]
pub(crate) struct NamedCall<'a> {
    pub(crate) number: u32,
    pub(crate) callee: &'a Function,
    pub(crate) arguments: &'a Operands,
    pub(crate) jumps: &'a Jumps,
}
