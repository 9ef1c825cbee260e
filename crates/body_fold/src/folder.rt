//! What a function is folded by.

use body_values::{ProgramTables, Scene};
use gimple_core::Function;

/// A function, what the values of its registers depend on, and the tables of its program.
#[derive(Clone, Copy)]
pub(crate) struct Folder<'a> {
    pub(crate) scene: Scene<'a>,
    pub(crate) tables: &'a ProgramTables<'a>,
    pub(crate) function: &'a Function,
}
