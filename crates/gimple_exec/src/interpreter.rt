//! Runs of programs.

ghost use Rattle.std.specs.Prelude.{◌≡◌, ◌<◌, ◌≤◌, ◌+◌, ◌^◌, [], length, IfOk};
ghost use Rattle.std.specs.List.{All};
ghost use Rattle.gimple_core.specs.Run.{Run, runs, registers_made};
ghost use Rattle.gimple_exec.specs.Machines.{state_of, IsSound, IsLimited, IsFirst, Starts};

use crate::entry;
use crate::indexed::Indexed;
use crate::machine::{Machine, Reach, Stand};
use crate::memory::Memory;
use crate::world::World;
use gimple_core::{Checked, Function, Listed, OutOfMemory, Outcome, Text, TrapKind, Value};
use gimple_lowered::Sources;
use std::alloc::Global as Heap;

/// What the registers of a function without arguments hold at first.
fn first_registers<'t>(alloc: Heap, function: &Function) -> Result<Vec<Value<'t>>, OutOfMemory>
    ensures { IfOk result (λ held. held.items ≡ registers_made function.now []) }
{
    let none = Vec::new(alloc);
    let sources = Sources::new(alloc);
    entry::registers(Vec::new(alloc), function, 0, none.as_slice(), &sources)
}

/// The machine in which the first frame of a function begins.
fn first_machine<'t>(
    alloc: Heap,
    program: &Indexed<'t>,
    k: usize,
    input: &[i64],
) -> Result<Machine<'t>, OutOfMemory>
    requires limits { IsLimited program.now }
    requires within { k < length program.now.program.functions }
    ensures { IfOk result (λ m. IsFirst program.now k input.now m) }
{
    let mut memory = Memory::new(alloc);
    memory.add_program(alloc, program)?;
    memory.add_frame(alloc, program, k, 0)?;
    let registers = first_registers(alloc, program.function_at(k))?;
    let input = Listed::from_vec(Vec::from_slice(alloc, input)?);
    Ok(Machine {
        top: Stand {
            function: k,
            block: 0,
            index: 0,
            serial: 0,
            takes: None,
        },
        below: Vec::new(alloc),
        world: World {
            registers,
            memory,
            input,
            taken: 0,
            output: Text::new(alloc),
        },
        next: 1,
        spare: Vec::new(alloc),
    })
}

/// The machine in which `main` begins.
fn start<'t>(
    alloc: Heap,
    program: &Indexed<'t>,
    input: &[i64],
) -> Result<Option<Machine<'t>>, OutOfMemory>
    requires { IsLimited program.now }
    ensures { IfOk result (λ o. Starts program.now input.now o) }
{
    let Some(k) = program.named_place(b"main") else {
        return Ok(None);
    };
    if program.is_bodiless(k) {
        return Ok(None);
    }
    let machine = first_machine(alloc, program, k, input)?;
    Ok(Some(machine))
}

/// The run from a machine's state with some transfers, and then up to the one that is too many.
fn take_turns<'t>(
    mut machine: Machine<'t>,
    alloc: Heap,
    program: &Indexed<'t>,
    turns: u64,
) -> Result<Outcome, OutOfMemory>
    requires sound { IsSound program.now machine }
    requires limits { IsLimited program.now }
    requires serials { machine.next + turns ≤ 2 ^ 64 }
    ensures { IfOk result (λ o. o ≡ runs program.now turns (state_of program.now machine.entry)) }
{
    for _turn in 0..turns {
        match machine.walk(alloc, program)? {
            Reach::Moves => {}
            Reach::Stops(status) => return Ok(Outcome::Ended(machine.into_output(), status)),
            Reach::Traps(kind) => return Ok(Outcome::Trapped(machine.into_output(), kind)),
            Reach::Spent => unreachable!(),
        }
    }
    match machine.walk(alloc, program)? {
        Reach::Traps(kind) => Ok(Outcome::Trapped(machine.into_output(), kind)),
        Reach::Moves | Reach::Spent | Reach::Stops(_) => {
            Ok(Outcome::Going(machine.into_output()))
        }
    }
}

/// What a program comes to.
fn run_indexed(
    alloc: Heap,
    program: &Indexed<'_>,
    input: &[i64],
    turns: u64,
) -> Result<Outcome, OutOfMemory>
    requires { IsLimited program.now }
    ensures { IfOk result (λ o. o ≡ Run program.now input.now turns) }
{
    match start(alloc, program, input)? {
        Some(machine) => take_turns(machine, alloc, program, turns),
        None => Ok(Outcome::Trapped(Text::new(alloc), TrapKind::Abort)),
    }
}

/// What a checked program has come to on these input numbers after at most `turns` transfers: taken jumps, call entries and
/// returns. It answers want of memory alone.
pub fn run(
    alloc: Heap,
    program: &Checked,
    input: &[i64],
    turns: u64,
) -> Result<Outcome, OutOfMemory>
    requires globals { length program.now.program.globals < 2 ^ 32 }
    requires locals { All (λ f. length f.locals < 2 ^ 32) program.now.program.functions }
    ensures { IfOk result (λ o. o ≡ Run program.now input.now turns) }
{
    let mode = program.mode();
    let indexed = Indexed::new(alloc, program.program(), mode)?;
    run_indexed(alloc, &indexed, input, turns)
}
