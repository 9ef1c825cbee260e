//! Finding the symbols of a function.

ghost use Rattle.std.specs.Prelude.{◌≡◌, ◌++◌, ◌<◌, ◌^◌, length, IfOk, OnOk};
ghost use Rattle.gimple_ir.specs.Counts.{IsCountable};
ghost use Rattle.block_flow.specs.Branches.{branches_of};
ghost use Rattle.block_flow.specs.System.{AreFew};
ghost use Rattle.body_symbols.specs.Found.{OfFunction, changed_row, change_at, changes_of, block_changes, AreSymbols};
ghost use Rattle.body_symbols.specs.Parts.{AreParts, IsNumbered};
ghost use Rattle.body_symbols.specs.Scenes.{body_in};

use crate::change::Change;
use crate::scene::Scene;
use crate::symbols::{PointRow, Symbols};
use crate::transfer::apply;
use block_flow::begins;
use fix_engine::{Lattice, Lifted, Solver};
use gimple_core::{Block, Checked, Exact, Function, Listed, Mode, OutOfMemory, Register, Stmt};
use name_tables::{NamedGlobals, NamedLocals, RegisterTable};
use std::alloc::Global;

fn put_copies(registers: &[Register], table: &mut RegisterTable) -> Result<(), OutOfMemory>
    ensures { OnOk result (table.new ≡ table.old ++ registers.now) }
{
    for at in 0..registers.len() {
        table.push(registers[at].copy()?)?;
    }
    Ok(())
}

/// The registers of a function, the formals first.
fn registers_of(alloc: Global, function: &Function) -> Result<RegisterTable, OutOfMemory>
    ensures { IfOk result (λ rs. rs ≡ function.now.params ++ function.now.registers) }
{
    let mut table = RegisterTable::new(alloc);
    put_copies(function.params.as_slice(), &mut table)?;
    put_copies(function.registers.as_slice(), &mut table)?;
    Ok(table)
}

/// What a statement changes where the symbols before it are these.
fn change_at(scene: &Scene, row: &PointRow, statement: &Stmt) -> Change
    ensures { result ≡ change_at (body_in scene.now) row.now statement.now }
{
    match row {
        Lifted::NotReached => Change::Ends,
        Lifted::Reached(symbols) => scene.change(symbols.as_slice(), statement),
    }
}

/// The symbols behind a change.
pub(crate) fn behind(row: PointRow, change: Change) -> PointRow
    ensures { result ≡ changed_row row change }
{
    match row {
        Lifted::NotReached => Lifted::NotReached,
        Lifted::Reached(symbols) => apply(symbols, change),
    }
}

/// What each statement of a block changes, by the symbols at its begin.
fn changes_of(scene: &Scene, body: &[Stmt], begin: &PointRow) -> Result<Listed<Change>, OutOfMemory>
    ensures { IfOk result (λ changes. changes ≡ changes_of (body_in scene.now) begin.now body.now) }
{
    let mut changes = Listed::new(scene.alloc);
    let mut row = begin.copy()?;
    for statement in body {
        let change = change_at(scene, &row, statement);
        changes.push(change)?;
        row = behind(row, change);
    }
    Ok(changes)
}

/// What each statement of each block changes, by the symbols at the begins of blocks.
fn block_changes(
    scene: &Scene,
    blocks: &[Block],
    begins: &[PointRow],
) -> Result<Listed<Listed<Change>>, OutOfMemory>
    requires { length begins.now ≡ length blocks.now }
    ensures { IfOk result (λ changes. changes ≡ block_changes (body_in scene.now) begins.now 0 blocks.now) }
{
    let mut all = Listed::new(scene.alloc);
    for at in 0..blocks.len() {
        let changes = changes_of(scene, blocks[at].body.as_slice(), &begins[at])?;
        all.push(changes)?;
    }
    Ok(all)
}

/// The symbols at the begins of blocks, and what each statement changes in them.
#[derive(Drop)]
struct Parts {
    begins: Listed<PointRow>,
    changes: Listed<Listed<Change>>,
}

fn parts_of<S: Solver>(
    scene: &Scene,
    blocks: &[Block],
    solver: &mut S,
) -> Result<Parts, OutOfMemory>
    requires { AreFew blocks.now (length (branches_of blocks.now)) }
    ensures { IfOk result (λ parts. AreParts (body_in scene.now) blocks.now parts.begins parts.changes) }
{
    let begins = begins(scene.alloc, scene, blocks, solver)?;
    let changes = block_changes(scene, blocks, begins.as_slice())?;
    Ok(Parts {
        begins: Listed::from_vec(begins),
        changes,
    })
}

fn scene_of<'a, 'g, 'l>(
    mode: Mode,
    globals: &'a NamedGlobals<'g>,
    locals: &'a NamedLocals<'l>,
    registers: &'a RegisterTable,
    formals: usize,
    alloc: Global,
) -> Scene<'a, 'g, 'l>
    requires globals { length globals.now < 2 ^ 32 }
    requires locals { length locals.now < 2 ^ 32 }
    requires formals { formals < 2 ^ 32 }
    ensures { body_in result ≡ record { globals = globals.now; mode = mode; locals = locals.now; registers = registers.now; formals = formals } }
{
    Scene {
        mode,
        globals,
        locals,
        registers,
        formals,
        alloc,
    }
}

fn function_symbols<S: Solver>(
    alloc: Global,
    program: &Checked,
    globals: &NamedGlobals,
    number: u32,
    function: &Function,
    solver: &mut S,
) -> Result<Symbols, OutOfMemory>
    requires named { globals.now ≡ program.now.program.globals }
    requires globals { length globals.now < 2 ^ 32 }
    requires numbered { IsNumbered function.now }
    ensures { IfOk result (AreSymbols program.now number function.now) }
{
    let registers = registers_of(alloc, function)?;
    let locals = NamedLocals::new(alloc, function.locals.as_slice())?;
    let formals = function.params.len();
    let scene = scene_of(
        program.mode(),
        &*globals,
        &locals,
        &registers,
        formals,
        alloc,
    );
    let parts = parts_of(&scene, function.blocks.as_slice(), solver)?;
    let Parts { begins, changes } = parts;
    Ok(Symbols {
        function: number,
        registers,
        begins,
        changes,
    })
}

/// As `symbols_of`, by the table of the program's globals, which can be made once for all functions.
///
/// Err is want of memory.
pub fn symbols_in<S: Solver>(
    alloc: Global,
    program: &Checked,
    globals: &NamedGlobals,
    function: u32,
    solver: &mut S,
) -> Result<Symbols, OutOfMemory>
    requires named { globals.now ≡ program.now.program.globals }
    requires function { function < length program.now.program.functions }
    requires countable { IsCountable program.now.program }
    ensures { IfOk result (λ t. OfFunction program.now.program function (λ f. AreSymbols program.now function f t)) }
{
    let source = program.program();
    let of = &source.functions.as_slice()[function as usize];
    let symbols = function_symbols(alloc, program, globals, function, of, solver)?;
    Ok(symbols)
}

/// The symbols of a function at each of its points: the least solution of their equations, carried to each point.
///
/// Err is want of memory.
pub fn symbols_of<S: Solver>(
    alloc: Global,
    program: &Checked,
    function: u32,
    solver: &mut S,
) -> Result<Symbols, OutOfMemory>
    requires function { function < length program.now.program.functions }
    requires countable { IsCountable program.now.program }
    ensures { IfOk result (λ t. OfFunction program.now.program function (λ f. AreSymbols program.now function f t)) }
{
    let globals = NamedGlobals::new(alloc, program.program().globals.as_slice())?;
    symbols_in(alloc, program, &globals, function, solver)
}
