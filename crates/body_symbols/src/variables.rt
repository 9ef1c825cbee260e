//! The variables that a function sees.

ghost use Rattle.std.specs.Prelude.{◌<◌, ◌^◌, length};

use name_tables::{NamedGlobals, NamedLocals};

/// The variables that a function sees: the globals of its program, and its own locals, each found by its name.
#[derive(Clone, Copy)]
pub struct Variables<'a, 'g, 'l> {
    pub globals: &'a NamedGlobals<'g>,
    pub locals: &'a NamedLocals<'l>,
    pub ghost few_globals: { length globals.now < 2 ^ 32 },
    pub ghost few_locals: { length locals.now < 2 ^ 32 },
}
