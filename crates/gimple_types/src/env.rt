//! What names mean.

use crate::names::{Labels, Table};
use gimple_core::{Decl, Function, Global, Register, Scalar};
use struct_tables::Structs;

/// What names mean in every function: the program's structs, globals and functions. In profile 2 the functions are
/// targets: they may be addressed, and called through registers.
#[derive(Drop)]
pub(crate) struct Known<'a> {
    pub(crate) structs: Structs<'a>,
    pub(crate) globals: Table<'a, Global>,
    pub(crate) functions: Table<'a, Function>,
    pub(crate) has_targets: bool,
}

/// What names mean in one function: its locals, its formals and registers, its labels; and its result.
#[derive(Drop)]
pub(crate) struct Own<'a> {
    pub(crate) locals: Table<'a, Decl>,
    pub(crate) registers: Table<'a, Register>,
    pub(crate) labels: Labels,
    pub(crate) result: Option<Scalar>,
}

/// All that the statements of a function see.
#[derive(Drop)]
pub(crate) struct Env<'k, 'a> {
    pub(crate) known: &'k Known<'a>,
    pub(crate) own: &'k Own<'a>,
}
