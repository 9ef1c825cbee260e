//! The symbols of all functions of a program.

ghost use Rattle.std.specs.Prelude.{◌≡◌, ◌++◌, ◌∷◌, [], length, slice_get, IfOk, OnOk, OnErr};
ghost use Rattle.std.specs.Option.{option_copied};
ghost use Rattle.gimple_ir.specs.Counts.{IsCountable};
ghost use Rattle.body_symbols.specs.Tables.{AreTables};

use crate::finding::symbols_in;
use crate::symbols::Symbols;
use fix_engine::Solver;
use gimple_core::{Checked, Listed, OutOfMemory};
use name_tables::NamedGlobals;
use std::alloc::Global;
use std::marker::Model;

/// The symbols of functions, one for each in order.
#[derive(Drop)]
pub struct SymbolTables {
    tables: Listed<Symbols>,
}

impl Model for SymbolTables {
    ghost use Rattle.std.specs.Prelude.{List};
    ghost use Rattle.body_symbols.specs.Found.{Found};

    ghost Value = { List Found };

    ghost view = { λ t. t.tables };
}

impl SymbolTables {
    /// No tables. It takes no memory before the first one.
    pub fn new(alloc: Global) -> SymbolTables
        ensures { result ≡ [] }
    {
        SymbolTables {
            tables: Listed::new(alloc),
        }
    }

    /// Puts the symbols of a function behind the last ones. After a refusal the tables are unchanged, and what was to be put
    /// is let go.
    pub fn push(&mut self, next: Symbols) -> Result<(), OutOfMemory>
        ensures ok { OnOk result (self.new ≡ self.old ++ next ∷ []) }
        ensures err { OnErr result (self.new ≡ self.old) }
    {
        self.tables.push(next)
    }

    /// How many there are.
    pub fn len(&self) -> usize
        ensures { result ≡ length self.now }
    {
        self.tables.len()
    }

    /// The symbols of the function of this number; None exactly past the end.
    pub fn get(&self, function: usize) -> Option<&Symbols>
        ensures { option_copied result ≡ slice_get self.now function }
    {
        self.tables.get(function)
    }
}

/// The symbols of each function of a program: for each the least solution of its equations.
///
/// Err is want of memory.
pub fn tables_of<S: Solver>(
    alloc: Global,
    program: &Checked,
    solver: &mut S,
) -> Result<SymbolTables, OutOfMemory>
    requires { IsCountable program.now.program }
    ensures { IfOk result (AreTables program.now) }
{
    let globals = NamedGlobals::new(alloc, program.program().globals.as_slice())?;
    let count = program.program().functions.len();
    let mut tables = SymbolTables::new(alloc);
    for function in 0..count {
        let symbols = symbols_in(alloc, program, &globals, function as u32, solver)?;
        tables.push(symbols)?;
    }
    Ok(tables)
}
