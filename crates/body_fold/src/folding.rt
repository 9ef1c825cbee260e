//! A function with its known constants put in.

ghost use Rattle.std.specs.Prelude.{◌≡◌, ◌++◌, ◌<◌, ◌^◌, [], length, IfOk, OnOk};
ghost use Rattle.gimple_ir.specs.Size.{size_of_program};
ghost use Rattle.body_values.specs.Setting.{WereFound};
ghost use Rattle.body_fold.specs.Claims.{FoldIsNoLarger};
ghost use Rattle.body_fold.specs.Folders.{IsFoldOf};
ghost use Rattle.body_fold.specs.Links.{unless_dropped, marked_blocks};
ghost use Rattle.body_fold.specs.Settings.{IsFolderOf, IsFoldable};

use crate::folder::Folder;
use crate::links::linked;
use body_values::{BodyValues, LoadTable, ProgramTables, Scene};
use gimple_core::{Block, Checked, Exact, Function, Listed, OutOfMemory};
use name_tables::NamedLocals;
use std::alloc::Global;

fn folder_of<'a>(
    alloc: Global,
    tables: &'a ProgramTables<'a>,
    locals: &'a NamedLocals<'a>,
    loads: &'a LoadTable<'a>,
    function: &'a Function,
    values: &'a BodyValues,
) -> Folder<'a>
    requires locals { locals.now ≡ function.now.locals }
    requires loads { loads.now.facts ≡ [] }
    ensures { IsFolderOf result tables.now.program function.now values.now }
{
    Folder {
        scene: Scene {
            program: tables.checked(),
            structs: tables.structs(),
            globals: tables.globals(),
            locals,
            registers: values.registers(),
            loads,
            limits: values.limits(),
            alloc,
        },
        tables,
        function,
    }
}

fn push_if(kept: &mut Vec<Block>, is: bool, block: Block) -> Result<(), OutOfMemory>
    ensures { OnOk result (kept.new.items ≡ kept.old.items ++ unless_dropped is block []) }
{
    if is {
        kept.push(block)?;
    }
    Ok(())
}

/// The blocks that are marked, in their order.
#[tactic(auto, unfolding(crate::specs::Links::marked_blocks))]
fn keep_marked(alloc: Global, blocks: Vec<Block>, marks: &[bool]) -> Result<Vec<Block>, OutOfMemory>
    ensures { IfOk result (λ kept. kept.items ≡ marked_blocks marks.now blocks.items) }
{
    let mut kept = Vec::new(alloc);
    for (block, mark) in blocks.into_iter().zip(marks) {
        push_if(&mut kept, *mark, block)?;
    }
    Ok(kept)
}

/// A copy of a function with other blocks.
fn with_blocks(function: &Function, blocks: Vec<Block>) -> Result<Function, OutOfMemory>
    ensures { IfOk result (λ g. g ≡ record function.now { blocks = blocks.items }) }
{
    let name = function.name.copy()?;
    let params = function.params.copy()?;
    let locals = function.locals.copy()?;
    let registers = function.registers.copy()?;
    Ok(Function {
        name,
        params,
        result: function.result,
        locals,
        registers,
        blocks: Listed::from_vec(blocks),
    })
}

fn fold_function(
    alloc: Global,
    tables: &ProgramTables,
    number: u32,
    function: &Function,
    values: &BodyValues,
) -> Result<Function, OutOfMemory>
    requires foldable { IsFoldable tables.now.program number function.now values.now }
    ensures { IfOk result (IsFoldOf tables.now.program number values.now) }
{
    let locals = NamedLocals::new(alloc, function.locals.as_slice())?;
    let loads = LoadTable::empty(alloc, number);
    let folder = folder_of(alloc, tables, &locals, &loads, function, values);
    let all = folder.blocks(values)?;
    let marks = linked(alloc, all.as_slice())?;
    let kept = keep_marked(alloc, all, marks.as_slice())?;
    let folded = with_blocks(function, kept)?;
    Ok(folded)
}

/// As `fold`, by the tables of the program, which can be made once for all functions.
///
/// Err is want of memory.
pub fn fold_in(
    alloc: Global,
    tables: &ProgramTables,
    function: u32,
    values: &BodyValues,
) -> Result<Function, OutOfMemory>
    requires globals { length tables.now.program.program.globals < 2 ^ 32 }
    requires size { size_of_program tables.now.program.program < 2 ^ 32 }
    requires values { WereFound tables.now.program function values.now }
    ensures folded { IfOk result (IsFoldOf tables.now.program function values.now) }
    ensures counts { IfOk result (FoldIsNoLarger tables.now.program function) }
{
    let program = tables.program();
    let of = &program.functions.as_slice()[function as usize];
    let folded = fold_function(alloc, tables, function, of, values)?;
    Ok(folded)
}

/// The function of a number with the constants put in that are known by the values of its registers: known results and
/// operands become numbers, null or addresses of globals, known branches become jumps, and the blocks to which no path leads
/// go. The values are those of this function of this program. Where they hold in each run, the program with this function
/// in its place runs as before (`folding_keeps_runs`). It has no more statements, ends, blocks and branches, and the same
/// name, formals, result, locals and registers.
///
/// Err is want of memory.
pub fn fold(
    alloc: Global,
    program: &Checked,
    function: u32,
    values: &BodyValues,
) -> Result<Function, OutOfMemory>
    requires globals { length program.now.program.globals < 2 ^ 32 }
    requires size { size_of_program program.now.program < 2 ^ 32 }
    requires values { WereFound program.now function values.now }
    ensures folded { IfOk result (IsFoldOf program.now function values.now) }
    ensures counts { IfOk result (FoldIsNoLarger program.now function) }
{
    let limits = values.limits().copy()?;
    let tables = ProgramTables::with(alloc, program, limits)?;
    let folded = fold_in(alloc, &tables, function, values)?;
    Ok(folded)
}
