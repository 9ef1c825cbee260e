//! How the symbols of all functions of a program are found.

ghost use Rattle.std.specs.Prelude.{IfOk};
ghost use Rattle.gimple_ir.specs.Counts.{IsCountable};
ghost use Rattle.body_symbols.specs.Tables.{AreTables};

use body_symbols::{SymbolTables, tables_of};
use fix_engine::{OrderSolver, Solver};
use gimple_core::{Checked, OutOfMemory};
use std::alloc::Global;

/// A solver that also finds the symbols of the functions of a program.
pub trait Tables: Solver {
    /// The symbols of each function of a program, in file order. Err is want of memory.
    fn tables(&mut self, alloc: Global, program: &Checked) -> Result<SymbolTables, OutOfMemory>
        requires { IsCountable program.now.program }
        ensures { IfOk result (AreTables program.now) };
}

impl Tables for OrderSolver {
    fn tables(&mut self, alloc: Global, program: &Checked) -> Result<SymbolTables, OutOfMemory>
        requires { IsCountable program.now.program }
        ensures { IfOk result (AreTables program.now) }
    {
        tables_of(alloc, program, self)
    }
}
