//! The values of the formals of all functions.

ghost use Rattle.std.specs.Prelude.{IfOk};
ghost use Rattle.gimple_ir.specs.Counts.{IsCountable};
ghost use Rattle.body_symbols.specs.Tables.{AreTables};
ghost use Rattle.cp_lattices.specs.Few.{HasFewArguments};
ghost use Rattle.cp_lattices.specs.Lattices.{AreLattices, rows_of};

use crate::gathering::gifts_of;
use crate::solving::solved;
use body_symbols::{SymbolTables, tables_of};
use body_values::{AbsVals, ProgramTables};
use fix_engine::Solver;
use gimple_core::{Checked, Listed, OutOfMemory, Params, Passes};
use std::alloc::Global;

/// What is known of a function in every call: a value of each formal.
#[derive(Debug, Drop)]
pub struct LatticesOf {
    pub formals: AbsVals,
}

/// What is known of the functions of a program, in file order.
pub type Lattices = Listed<LatticesOf>;

/// As `lattices`, by the symbols of the program's functions.
pub fn lattices_from<S: Solver>(
    alloc: Global,
    program: &Checked,
    symbols: &SymbolTables,
    solver: &mut S,
    passes: &Passes,
    limits: &Params,
) -> Result<Lattices, OutOfMemory>
    requires countable { IsCountable program.now.program }
    requires few { HasFewArguments program.now.program }
    requires symbols { AreTables program.now symbols.now }
    ensures { IfOk result (λ ls. AreLattices program.now passes.now limits.now.ipa_cp_value_list_size (rows_of ls)) }
{
    let tables = ProgramTables::new(alloc, program, limits)?;
    let gifts = gifts_of(alloc, &tables, symbols, solver)?;
    let lattices = solved(alloc, &tables, &gifts, solver, passes)?;
    Ok(lattices)
}

/// What is known of each formal of each function in every call: the least values above what the arguments of reached calls give,
/// where a formal of a function whose address is taken has any value.
///
/// Err is want of memory. Source: Callahan, Cooper, Kennedy and Torczon 1986; docs/PASSES.md, constant propagation.
pub fn lattices<S: Solver>(
    alloc: Global,
    program: &Checked,
    solver: &mut S,
    passes: &Passes,
    limits: &Params,
) -> Result<Lattices, OutOfMemory>
    requires countable { IsCountable program.now.program }
    requires few { HasFewArguments program.now.program }
    ensures { IfOk result (λ ls. AreLattices program.now passes.now limits.now.ipa_cp_value_list_size (rows_of ls)) }
{
    let symbols = tables_of(alloc, program, solver)?;
    lattices_from(alloc, program, &symbols, solver, passes, limits)
}
