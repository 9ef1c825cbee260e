//! What the arguments of the reached calls of a program give.

ghost use Rattle.std.specs.Prelude.{◌≡◌, ◌<◌, length, Some, slice_get, IfOk, OnOk};
ghost use Rattle.gimple_ir.specs.Counts.{IsCountable};
ghost use Rattle.value_domain.specs.Thresholds.{thresholds_list};
ghost use Rattle.body_symbols.specs.Tables.{AreTables};
ghost use Rattle.body_values.specs.Found.{AreFound};
ghost use Rattle.body_values.specs.Setting.{IsSceneBy};
ghost use Rattle.body_values.specs.TopFacts.{top_facts};
ghost use Rattle.cp_lattices.specs.Gathered.{WereGathered};
ghost use Rattle.cp_lattices.specs.GiftLists.{AddsFunction};

use crate::caller::Caller;
use crate::gift::Gift;
use body_symbols::{SymbolTables, Symbols};
use body_values::{BodyValues, LoadTable, ProgramTables, Scene, top_facts, values_in};
use fix_engine::Solver;
use gimple_core::{Function, Listed, OutOfMemory};
use name_tables::NamedLocals;
use std::alloc::Global;

/// The values of a function of which nothing is known.
fn top_values<S: Solver>(
    alloc: Global,
    tables: &ProgramTables,
    number: u32,
    function: &Function,
    solver: &mut S,
) -> Result<BodyValues, OutOfMemory>
    requires countable { IsCountable tables.now.program.program }
    requires own { slice_get tables.now.program.program.functions number ≡ Some function.now }
    ensures { IfOk result (AreFound tables.now.program number function.now (top_facts function.now) (record { size = tables.now.size; ends = thresholds_list tables.now.program.program })) }
{
    let facts = top_facts(alloc, function)?;
    let values = values_in(alloc, tables, number, &facts, solver)?;
    Ok(values)
}

fn scene_in<'a>(
    alloc: Global,
    tables: &'a ProgramTables<'a>,
    locals: &'a NamedLocals<'a>,
    loads: &'a LoadTable<'a>,
    values: &'a BodyValues,
) -> Scene<'a>
    ensures { IsSceneBy result tables.now.program tables.now.program.program.structs tables.now.program.program.globals locals.now values.now.registers loads.now values.now.limits }
{
    Scene {
        program: tables.checked(),
        structs: tables.structs(),
        globals: tables.globals(),
        locals,
        registers: values.registers(),
        loads,
        limits: values.limits(),
        alloc,
    }
}

/// Puts what the calls of the function of a number give behind other gifts, by its symbols and by its values from top facts.
fn put_function<S: Solver>(
    alloc: Global,
    tables: &ProgramTables,
    symbols: &Symbols,
    number: u32,
    solver: &mut S,
    gifts: &mut Listed<Gift>,
) -> Result<(), OutOfMemory>
    requires countable { IsCountable tables.now.program.program }
    requires number { number < length tables.now.program.program.functions }
    ensures { OnOk result (AddsFunction tables.now.program tables.now.size number symbols.now gifts.old gifts.new) }
{
    let function = &tables.program().functions.as_slice()[number as usize];
    let values = top_values(alloc, tables, number, function, solver)?;
    let locals = NamedLocals::new(alloc, function.locals.as_slice())?;
    let loads = LoadTable::empty(alloc, number);
    let caller = Caller {
        scene: scene_in(alloc, tables, &locals, &loads, &values),
        tables,
        symbols,
        number,
        function,
    };
    caller.put_all(&values, gifts)?;
    Ok(())
}

/// What the arguments of all reached calls by name give, by the symbols of the functions and by the values of each from top
/// facts. The jump function of an argument goes through the statements before its call in the block. Err is want of memory.
pub fn gifts_of<S: Solver>(
    alloc: Global,
    tables: &ProgramTables,
    symbols: &SymbolTables,
    solver: &mut S,
) -> Result<Listed<Gift>, OutOfMemory>
    requires countable { IsCountable tables.now.program.program }
    requires symbols { AreTables tables.now.program symbols.now }
    ensures { IfOk result (WereGathered tables.now.program tables.now.size symbols.now) }
{
    let mut gifts = Listed::new(alloc);
    let count = tables.program().functions.len();
    for number in 0..count {
        let Some(own) = symbols.get(number) else {
            unreachable!()
        };
        put_function(alloc, tables, own, number as u32, solver, &mut gifts)?;
    }
    Ok(gifts)
}
