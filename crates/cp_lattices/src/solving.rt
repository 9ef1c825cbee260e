//! The least values of formals by what calls give.

ghost use Rattle.std.specs.Prelude.{◌≡◌, ◌+◌, ◌<◌, ◌^◌, length, IfOk};
ghost use Rattle.std.specs.List.{All};
ghost use Rattle.gimple_ir.specs.declared.program.Function.{Function};
ghost use Rattle.gimple_ir.specs.Counts.{IsCountable};
ghost use Rattle.cp_lattices.specs.Few.{formals_of_program};
ghost use Rattle.cp_lattices.specs.FormalEquations.{AreLeast, IsLawfulFlow};
ghost use Rattle.cp_lattices.specs.FormalRows.{value_of, row_from, rows_from};
ghost use Rattle.cp_lattices.specs.Gathered.{AreGood};
ghost use Rattle.cp_lattices.specs.Gifts.{Bodies, AreGifts};
ghost use Rattle.cp_lattices.specs.Lattices.{IsLeastOf, making_of, rows_of};
ghost use Rattle.cp_lattices.specs.Makers.{making};

use crate::carry::Maker;
use crate::formal_flow::FormalFlow;
use crate::formals::{Lattices, LatticesOf};
use crate::gift::Gift;
use crate::numbering::{Numbering, numbering_of};
use body_values::{AbsVals, ProgramTables};
use fix_engine::{Lattice, Solver};
use gimple_core::{Function, Listed, OutOfMemory, Passes, Register};
use std::alloc::Global;
use value_domain::AbsVal;

/// The least solution of the equations, a value for each node.
fn least_values<S: Solver>(
    maker: Maker<'_>,
    passes: &Passes,
    numbering: &Numbering,
    gifts: &[Gift],
    solver: &mut S,
) -> Result<Vec<AbsVal>, OutOfMemory>
    requires { IsLawfulFlow (making maker) passes.now numbering.now gifts.now }
    ensures { IfOk result (λ v. AreLeast (making maker.entry) passes.now numbering.now gifts.now v.items) }
{
    let alloc = maker.alloc;
    let flow = FormalFlow {
        maker,
        passes,
        numbering,
        gifts,
    };
    let found = solver.solve(alloc, &flow)?;
    Ok(found.into_vec())
}

/// The least values of nodes that are above what calls give. Err is want of memory.
fn values_of<S: Solver>(
    alloc: Global,
    tables: &ProgramTables,
    gifts: &[Gift],
    numbering: &Numbering,
    solver: &mut S,
    passes: &Passes,
) -> Result<Vec<AbsVal>, OutOfMemory>
    requires good { AreGood tables.now.program tables.now.size gifts.now }
    requires gifts { length gifts.now < 2 ^ 32 }
    requires nodes { length numbering.now.nodes + 1 < 2 ^ 32 }
    ensures { IfOk result (λ v. AreLeast (making_of tables.now.program tables.now.size) passes.now numbering.now gifts.now v.items) }
{
    let limits = tables.thresholds()?;
    let maker = Maker {
        mode: tables.checked().mode(),
        limits: &limits,
        alloc,
    };
    let values = least_values(maker, passes, numbering, gifts, solver)?;
    Ok(values)
}

/// A copy of the value of a formal. Err is want of memory.
fn value_of(
    numbering: &Numbering,
    values: &[AbsVal],
    function: u32,
    formal: u32,
) -> Result<AbsVal, OutOfMemory>
    requires few { length numbering.now.nodes + 1 < 2 ^ 32 }
    requires each { length values.now ≡ length numbering.now.nodes + 1 }
    ensures { IfOk result (λ a. a ≡ value_of numbering.now values.now function formal) }
{
    let node = numbering.node_of(function, formal);
    values[node as usize].copy()
}

/// The values of the formals of a function. Err is want of memory.
#[tactic(auto, unfolding(crate::specs::FormalRows::row_from))]
fn row_of(
    alloc: Global,
    numbering: &Numbering,
    values: &[AbsVal],
    function: u32,
    formals: &[Register],
) -> Result<AbsVals, OutOfMemory>
    requires few { length numbering.now.nodes + 1 < 2 ^ 32 }
    requires each { length values.now ≡ length numbering.now.nodes + 1 }
    requires formals { length formals.now < 2 ^ 32 }
    ensures { IfOk result (λ row. row ≡ row_from numbering.now values.now function 0 formals.now) }
{
    let mut row = AbsVals::new(alloc);
    for (formal, _register) in formals.iter().enumerate() {
        row.push(value_of(numbering, values, function, formal as u32)?)?;
    }
    Ok(row)
}

/// The values of the formals of all functions. Err is want of memory.
#[tactic(auto, unfolding(crate::specs::FormalRows::rows_from))]
fn rows_by(
    alloc: Global,
    functions: &[Function],
    numbering: &Numbering,
    values: &[AbsVal],
) -> Result<Lattices, OutOfMemory>
    requires few { length numbering.now.nodes + 1 < 2 ^ 32 }
    requires each { length values.now ≡ length numbering.now.nodes + 1 }
    requires functions { length functions.now < 2 ^ 32 }
    requires formals { All (λ (f : Function). length f.params < 2 ^ 32) functions.now }
    ensures { IfOk result (λ ls. rows_of ls ≡ rows_from numbering.now values.now 0 functions.now) }
{
    let mut rows = Lattices::new(alloc);
    for (number, function) in functions.iter().enumerate() {
        let formals = function.params.as_slice();
        let formals = row_of(alloc, numbering, values, number as u32, formals)?;
        rows.push(LatticesOf { formals })?;
    }
    Ok(rows)
}

/// The least values of the formals of a program that are above what calls give. Err is want of memory.
pub fn solved<S: Solver>(
    alloc: Global,
    tables: &ProgramTables,
    gifts: &Listed<Gift>,
    solver: &mut S,
    passes: &Passes,
) -> Result<Lattices, OutOfMemory>
    requires countable { IsCountable tables.now.program.program }
    requires formals { formals_of_program tables.now.program.program + 1 < 2 ^ 32 }
    requires gifts { length gifts.now < 2 ^ 32 }
    requires good { AreGood tables.now.program tables.now.size gifts.now }
    ensures { IfOk result (λ ls. (bodies : Bodies) → AreGifts tables.now.program tables.now.size bodies gifts.now → IsLeastOf tables.now.program passes.now tables.now.size bodies (rows_of ls)) }
{
    let numbering = numbering_of(alloc, tables.checked())?;
    let values = values_of(alloc, tables, gifts.as_slice(), &numbering, solver, passes)?;
    let functions = tables.program().functions.as_slice();
    let rows = rows_by(alloc, functions, &numbering, values.as_slice())?;
    Ok(rows)
}
