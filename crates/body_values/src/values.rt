//! The values of a function's registers at each of its points.

ghost use Rattle.std.specs.Prelude.{◌≡◌, ◌+◌, ◌<◌, ◌^◌, length, true, IfOk, OnOk, OnErr};
ghost use Rattle.std.specs.Option.{option_copied};
ghost use Rattle.gimple_ir.specs.Size.{size_of_program, branches_of_function};
ghost use Rattle.block_flow.specs.Branches.{branches_of};
ghost use Rattle.block_flow.specs.System.{AreFew};
ghost use Rattle.value_domain.specs.Thresholds.{thresholds_list};
ghost use Rattle.body_values.specs.Fitting.{file_by};
ghost use Rattle.body_values.specs.Found.{OfFunction, AreFound, found_at, found_row, value_of};
ghost use Rattle.body_values.specs.FoundWhere.{is_reached, reached_at};
ghost use Rattle.body_values.specs.Ready.{Carried};
ghost use Rattle.body_values.specs.Scenes.{body_in};
ghost use Rattle.body_values.specs.Setting.{IsGiven, AreBegins, AreRows, WereFound};
ghost use Rattle.body_values.specs.System.{FactsFit};

use crate::analysis::ValueAnalysis;
use crate::block_values::{BlockValues, PointRow};
use crate::entry::{entry_row, registers_of};
use crate::facts::Facts;
use crate::load_table::LoadTable;
use crate::program_tables::ProgramTables;
use crate::scene::{Scene, scene_of};
use fix_engine::{Lifted, Solver};
use gimple_core::{Block, Checked, Function, Listed, OutOfMemory, Params, Point, Text};
use name_tables::{NamedGlobals, NamedLocals, RegisterTable};
use std::alloc::Global;
use std::marker::Model;
use struct_tables::Structs;
use value_domain::{AbsVal, Thresholds};

/// The values of a function's registers at each of its points, and the thresholds that they were made with. They take
/// the memory of one row of pointers a block and one value a statement; an answer goes through the statements before its point.
#[derive(Drop)]
pub struct BodyValues {
    function: u32,
    registers: RegisterTable,
    limits: Thresholds,
    rows: Listed<BlockValues>,
}

impl Model for BodyValues {
    ghost use Rattle.body_values.specs.Found.{Found};

    ghost Value = { Found };

    ghost view = { λ v. record { function = v.function; registers = v.registers; limits = v.limits; rows = v.rows } };
}

fn value_at(rows: &Listed<BlockValues>, point: Point, place: usize) -> Option<&AbsVal>
    ensures { option_copied result ≡ value_of place (found_row rows.now point.block point.index) }
{
    match rows.get(point.block as usize) {
        Some(block) => block.at(point.index as usize, place),
        None => None,
    }
}

fn reaches(rows: &Listed<BlockValues>, point: Point) -> bool
    ensures { result ≡ is_reached (found_row rows.now point.block point.index) }
{
    match rows.get(point.block as usize) {
        Some(block) => block.reached(point.index as usize),
        None => false,
    }
}

fn begin_of(rows: &Listed<BlockValues>, block: u32) -> Result<PointRow, OutOfMemory>
    ensures { IfOk result (λ row. row ≡ found_row rows.now block 0) }
{
    match rows.get(block as usize) {
        Some(block) => block.begin(),
        None => Ok(Lifted::NotReached),
    }
}

fn pass(
    rows: &Listed<BlockValues>,
    block: u32,
    index: u32,
    row: &mut PointRow,
) -> Result<(), OutOfMemory>
    requires { row.old ≡ found_row rows.now block index }
    ensures ok { OnOk result (row.new ≡ found_row rows.now block (index + 1)) }
    ensures err { OnErr result (row.new ≡ row.old) }
{
    match rows.get(block as usize) {
        Some(block) => block.pass(index as usize, row),
        None => Ok(()),
    }
}

impl BodyValues {
    /// The value of a register at a point of the function. None exactly where the point is not reached, or the name is no
    /// register of the function; a point that the function does not have is not reached.
    pub fn at(&self, point: Point, register: &Text) -> Option<&AbsVal>
        ensures { option_copied result ≡ found_at self.now point register.now }
    {
        if point.function != self.function {
            return None;
        }
        value_at(&self.rows, point, self.registers.place(register))
    }

    /// Whether a point of the function is reached.
    pub fn reached(&self, point: Point) -> bool
        ensures { result ≡ reached_at self.now point }
    {
        point.function == self.function && reaches(&self.rows, point)
    }

    /// The values of all registers at the begin of a block, by its number. A block that the function does not have is not
    /// reached. With `pass` they go through the block, so that one row serves all its points. Err is want of memory.
    pub fn begin(&self, block: u32) -> Result<PointRow, OutOfMemory>
        ensures { IfOk result (λ row. row ≡ found_row self.now.rows block 0) }
    {
        begin_of(&self.rows, block)
    }

    /// Makes the values of all registers at a point of the function those at the next index of its block, by the numbers
    /// of the block and of the index. Behind the end of a block no index is reached. After Err, which is want of memory,
    /// they are unchanged.
    pub fn pass(&self, block: u32, index: u32, row: &mut PointRow) -> Result<(), OutOfMemory>
        requires { row.old ≡ found_row self.now.rows block index }
        ensures ok { OnOk result (row.new ≡ found_row self.now.rows block (index + 1)) }
        ensures err { OnErr result (row.new ≡ row.old) }
    {
        pass(&self.rows, block, index, row)
    }

    /// The registers of the function, the formals first.
    pub fn registers(&self) -> &RegisterTable
        ensures { result.now ≡ self.now.registers }
    {
        &self.registers
    }

    /// The number of the function.
    pub fn function(&self) -> u32
        ensures { result ≡ self.now.function }
    {
        self.function
    }

    /// The thresholds that the values were made with.
    pub fn limits(&self) -> &Thresholds
        ensures { result.now ≡ self.now.limits }
    {
        &self.limits
    }
}

/// The values at the begin of each block: the least solution.
fn begins<'a, S: Solver>(
    scene: Scene<'a>,
    blocks: &'a [Block],
    entry: &'a PointRow,
    solver: &mut S,
) -> Result<Vec<PointRow>, OutOfMemory>
    requires carried { Carried scene }
    requires few { AreFew blocks.now (length (branches_of blocks.now)) }
    requires entry { file_by scene.limits.now.size scene.limits.now.ends (length scene.registers.now) entry.now ≡ true }
    ensures { IfOk result (λ v. AreBegins (body_in scene.entry) blocks.now entry.now v.items) }
{
    let analysis = ValueAnalysis { scene, entry };
    block_flow::begins(scene.alloc, &analysis, blocks, solver)
}

/// The values at each index of each block.
#[tactic(auto, using(crate::specs::Ready::ready_of, crate::proofs::Settled::fewer, crate::proofs::Settled::rows_are))]
fn rows_of<'a, S: Solver>(
    scene: Scene<'a>,
    blocks: &'a [Block],
    entry: &'a PointRow,
    solver: &mut S,
) -> Result<Listed<BlockValues>, OutOfMemory>
    requires carried { Carried scene }
    requires few { AreFew blocks.now (length (branches_of blocks.now)) }
    requires entry { file_by scene.limits.now.size scene.limits.now.ends (length scene.registers.now) entry.now ≡ true }
    ensures { IfOk result (AreRows (body_in scene.entry) blocks.now entry.now) }
{
    let begins = begins(scene, blocks, entry, solver)?;
    let rows = scene.rows(blocks, begins)?;
    Ok(rows)
}

fn values_with<S: Solver>(
    alloc: Global,
    program: &Checked,
    structs: &Structs,
    globals: &NamedGlobals,
    number: u32,
    function: &Function,
    facts: &Facts,
    limits: Thresholds,
    solver: &mut S,
) -> Result<BodyValues, OutOfMemory>
    requires given { IsGiven program.now.program function.now facts.now limits }
    requires known { structs.now ≡ program.now.program.structs }
    requires named { globals.now ≡ program.now.program.globals }
    ensures { IfOk result (AreFound program.now number function.now facts.now limits) }
{
    let registers = registers_of(alloc, function)?;
    let locals = NamedLocals::new(alloc, function.locals.as_slice())?;
    let loads = LoadTable::new(alloc, facts.loads.as_slice(), number)?;
    let entry = entry_row(alloc, function, facts.formals.as_slice(), &limits)?;
    let scene = scene_of(
        program, structs, globals, &locals, &registers, &loads, &limits, alloc,
    );
    let rows = rows_of(scene, function.blocks.as_slice(), &entry, solver)?;
    Ok(BodyValues {
        function: number,
        registers,
        limits,
        rows,
    })
}

/// As `values_of`, by the tables of the program, which can be made once for all functions.
///
/// Err is want of memory.
pub fn values_in<S: Solver>(
    alloc: Global,
    tables: &ProgramTables,
    function: u32,
    facts: &Facts,
    solver: &mut S,
) -> Result<BodyValues, OutOfMemory>
    requires function { function < length tables.now.program.program.functions }
    requires globals { length tables.now.program.program.globals < 2 ^ 32 }
    requires size { size_of_program tables.now.program.program < 2 ^ 32 }
    requires branches { OfFunction tables.now.program.program function (λ f. branches_of_function f < 2 ^ 32) }
    requires facts { OfFunction tables.now.program.program function (λ f. FactsFit f facts.now tables.now.size (thresholds_list tables.now.program.program)) }
    ensures values { IfOk result (λ v. OfFunction tables.now.program.program function (λ f. AreFound tables.now.program function f facts.now (record { size = tables.now.size; ends = thresholds_list tables.now.program.program }) v)) }
    ensures found { IfOk result (WereFound tables.now.program function) }
{
    let thresholds = tables.thresholds()?;
    let checked = tables.checked();
    let program = tables.program();
    let structs = tables.structs();
    let globals = tables.globals();
    let of = &program.functions.as_slice()[function as usize];
    let values = values_with(
        alloc, checked, structs, globals, function, of, facts, thresholds, solver,
    )?;
    Ok(values)
}

/// The values of a function's registers at each of its points, from facts of its formals and loads.
///
/// Err is want of memory.
pub fn values_of<S: Solver>(
    alloc: Global,
    program: &Checked,
    function: u32,
    facts: &Facts,
    solver: &mut S,
    limits: &Params,
) -> Result<BodyValues, OutOfMemory>
    requires function { function < length program.now.program.functions }
    requires globals { length program.now.program.globals < 2 ^ 32 }
    requires size { size_of_program program.now.program < 2 ^ 32 }
    requires branches { OfFunction program.now.program function (λ f. branches_of_function f < 2 ^ 32) }
    requires facts { OfFunction program.now.program function (λ f. FactsFit f facts.now limits.now.ipa_cp_value_list_size (thresholds_list program.now.program)) }
    ensures values { IfOk result (λ v. OfFunction program.now.program function (λ f. AreFound program.now function f facts.now (record { size = limits.now.ipa_cp_value_list_size; ends = thresholds_list program.now.program }) v)) }
    ensures found { IfOk result (WereFound program.now function) }
{
    let tables = ProgramTables::new(alloc, program, limits)?;
    let values = values_in(alloc, &tables, function, facts, solver)?;
    Ok(values)
}
