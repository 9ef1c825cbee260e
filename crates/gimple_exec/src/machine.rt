//! The machine of a run, and its steps.

ghost use Rattle.std.specs.Prelude.{◌≡◌, ◌<◌, ◌^◌, length, Ok, IfOk, OnOk, find};
ghost use Rattle.std.specs.Option.{option_copied};
ghost use Rattle.gimple_core.specs.Operators.{cmp_of};
ghost use Rattle.gimple_core.specs.Run.{status_of, given};
ghost use Rattle.gimple_lowered.specs.Meaning.{chosen};
ghost use Rattle.gimple_exec.specs.Machines.{function_of};

use crate::indexed::Indexed;
use crate::values::Frame;
use crate::world::World;
use crate::{entry, registers, values};
use gimple_core::{Cmp, Listed, OutOfMemory, Scalar, Signature, Text, TrapKind, Value, eval_cmp};
use gimple_lowered::{Choice, Ending, Instruction, Piece, Source, Sources, number_of_value};
use std::alloc::Global as Heap;
use std::mem;

/// Where a call that has not returned stands, by numbers of the program's functions, blocks and statements.
#[derive(Drop)]
pub struct Stand {
    pub function: usize,
    pub block: usize,
    pub index: usize,
    pub serial: u64,
    pub takes: Option<usize>,
}

/// A call that waits for another one.
#[derive(Drop)]
pub struct Waiting<'t> {
    pub stand: Stand,
    pub registers: Vec<Value<'t>>,
}

/// The state of a run. The next serial may be 2^64, which no frame has. Spare rows are those of frames that have returned: a call
/// takes one for its registers.
#[derive(Drop)]
pub struct Machine<'t> {
    pub top: Stand,
    pub below: Vec<Waiting<'t>>,
    pub world: World<'t>,
    pub next: u128,
    pub spare: Vec<Vec<Value<'t>>>,
}

/// How the statements up to a transfer end: with the transfer, with a call that no serial is left for, with main's last
/// return, or with a trap.
#[derive(Debug, Drop)]
pub enum Reach {
    Moves,
    Spent,
    Stops(i32),
    Traps(TrapKind),
}

/// What a step comes to: the next statement, or the end of the statements up to a transfer.
#[derive(Debug, Drop)]
pub enum Step {
    Goes,
    Reaches(Reach),
}

impl<'t> Machine<'t> {
    ghost use Rattle.gimple_core.specs.Run.{returned, enter, called_by_name, called_through, registers_made, any_number, acted, compares, step, with_locals, walk};
    ghost use Rattle.gimple_core.specs.State.{value_at};
    ghost use Rattle.gimple_lowered.specs.Meaning.{arguments_in, source_values, function_at, performs, does, goes, source_value, source_result, ends};
    ghost use Rattle.gimple_exec.specs.Acts.{world_of};
    ghost use Rattle.gimple_lowered.specs.Lowered.{piece_of};
    ghost use Rattle.gimple_exec.specs.Tables.{names_at};
    ghost use Rattle.gimple_exec.specs.Machines.{state_of, block_of, IsSound, IsLimited, IsCalled, Leads, Stays, Arrives, Begins};

    fn jump(&mut self, program: &Indexed<'_>, target: Option<usize>) -> Reach
        requires { IsSound program.now self.old }
        ensures { Arrives program.now self.old.next result (goes (state_of program.now self.old) target) self.new }
    {
        let Some(k) = target else {
            return Reach::Traps(TrapKind::Abort);
        };
        if k >= program.block_count(self.top.function) {
            return Reach::Traps(TrapKind::Abort);
        }
        self.top.block = k;
        self.top.index = 0;
        Reach::Moves
    }

    fn leave(&mut self, program: &Indexed<'_>, value: Option<Value<'t>>) -> Reach
        requires { IsSound program.now self.old }
        ensures { Arrives program.now self.old.next result (returned (state_of program.now self.old) value.entry (state_of program.now self.old).below) self.new }
    {
        match self.below.pop() {
            None => Reach::Stops(status(&value)),
            Some(waiting) => {
                let Waiting {
                    stand,
                    mut registers,
                } = waiting;
                give(&mut registers, self.top.takes, value);
                self.world.memory.leave(self.top.serial);
                let row = mem::replace(&mut self.world.registers, registers);
                spare(&mut self.spare, row);
                self.top = stand;
                Reach::Moves
            }
        }
    }

    /// A call of a function that is found.
    fn enter(
        &mut self,
        alloc: Heap,
        program: &Indexed<'t>,
        to: Option<usize>,
        k: usize,
        arguments: &Sources<'t>,
    ) -> Result<Reach, OutOfMemory>
        requires sound { IsSound program.now self.old }
        requires limits { IsLimited program.now }
        requires within { k < length program.now.program.functions }
        ensures { IfOk result (λ reach. Arrives program.now self.old.next reach (enter program.now.program.structs (state_of program.now self.old) to (arguments_in (state_of program.now self.old) arguments.now) (Ok (function_of program.now k))) self.new) }
    {
        if program.is_bodiless(k) {
            return Ok(Reach::Traps(TrapKind::Abort));
        }
        if self.next > u128::from(u64::MAX) {
            return Ok(Reach::Spent);
        }
        let row = spare_row(alloc, &mut self.spare);
        let registers = self.registers_for(row, program, k, arguments)?;
        self.begin(alloc, program, k, to, registers)?;
        Ok(Reach::Moves)
    }

    /// A call of a function by its number.
    fn call_numbered(
        &mut self,
        alloc: Heap,
        program: &Indexed<'t>,
        to: Option<usize>,
        callee: Option<usize>,
        arguments: &Sources<'t>,
    ) -> Result<Reach, OutOfMemory>
        requires sound { IsSound program.now self.old }
        requires limits { IsLimited program.now }
        ensures { IfOk result (λ reach. Arrives program.now self.old.next reach (enter program.now.program.structs (state_of program.now self.old) to (arguments_in (state_of program.now self.old) arguments.now) (called_by_name (function_at program.now.program.functions callee))) self.new) }
    {
        match program.callee(callee) {
            Ok(k) => self.enter(alloc, program, to, k, arguments),
            Err(kind) => Ok(Reach::Traps(kind)),
        }
    }

    /// A call through a register.
    fn call_through(
        &mut self,
        alloc: Heap,
        program: &Indexed<'t>,
        to: Option<usize>,
        signature: &Signature,
        callee: Option<usize>,
        arguments: &Sources<'t>,
    ) -> Result<Reach, OutOfMemory>
        requires sound { IsSound program.now self.old }
        requires limits { IsLimited program.now }
        ensures { IfOk result (λ reach. Arrives program.now self.old.next reach (enter program.now.program.structs (state_of program.now self.old) to (arguments_in (state_of program.now self.old) arguments.now) (called_through program.now.program.functions signature.now (value_at self.old.world.registers.items callee))) self.new) }
    {
        match self.target(program, callee, signature) {
            Ok(k) => self.enter(alloc, program, to, k, arguments),
            Err(kind) => Ok(Reach::Traps(kind)),
        }
    }

    /// The function that a register holds, if it has this signature, or the kind of trap.
    fn target(
        &self,
        program: &Indexed<'_>,
        callee: Option<usize>,
        signature: &Signature,
    ) -> Result<usize, TrapKind>
        ensures { IsCalled program.now result (called_through program.now.program.functions signature.now (value_at self.now.world.registers.items callee)) }
    {
        match registers::value_at(self.world.registers.as_slice(), callee) {
            Value::Code(name) => program.target(name.as_slice(), signature),
            Value::Null => Err(TrapKind::NullAccess),
            _ => Err(TrapKind::BadCall),
        }
    }

    /// The registers of a call that begins, put into a row in place of what it held.
    fn registers_for(
        &self,
        row: Vec<Value<'t>>,
        program: &Indexed<'t>,
        k: usize,
        arguments: &Sources<'t>,
    ) -> Result<Vec<Value<'t>>, OutOfMemory>
        requires within { k < length program.now.program.functions }
        ensures { IfOk result (λ held. held.items ≡ registers_made (function_of program.now k) (source_values self.now.top.serial self.now.world.registers.items arguments.now)) }
    {
        let registers = self.world.registers.as_slice();
        entry::registers(
            row,
            program.function_at(k),
            self.top.serial,
            registers,
            arguments,
        )
    }

    /// Begins a frame, with its locals.
    fn begin(
        &mut self,
        alloc: Heap,
        program: &Indexed<'_>,
        function: usize,
        takes: Option<usize>,
        registers: Vec<Value<'t>>,
    ) -> Result<(), OutOfMemory>
        requires room { self.old.next < 2 ^ 64 }
        requires limits { IsLimited program.now }
        requires within { function < length program.now.program.functions }
        ensures { OnOk result (Begins self.old function takes registers.entry.items (with_locals program.now.program.structs self.old.next 0 (function_of program.now function).locals (self.old.world.memory)) self.new) }
    {
        let serial = self.next as u64;
        self.world
            .memory
            .add_frame(alloc, program, function, serial)?;
        let stand = Stand {
            function,
            block: 0,
            index: 0,
            serial,
            takes,
        };
        let stand = mem::replace(&mut self.top, stand);
        let registers = mem::replace(&mut self.world.registers, registers);
        self.below.push(Waiting { stand, registers })?;
        self.next += 1;
        Ok(())
    }

    /// The end of a block.
    #[tactic(auto, unfolding(gimple_lowered::specs::Meaning::ends))]
    fn finish(&mut self, program: &Indexed<'t>, end: &Ending<'t>) -> Reach
        requires sound { IsSound program.now self.old }
        ensures { Arrives program.now self.old.next result (ends end.now (state_of program.now self.old)) self.new }
    {
        match end {
            Ending::Goto(target) => self.jump(program, *target),
            Ending::If {
                left,
                cmp,
                right,
                yes,
                no,
            } => {
                if self.holds(left, *cmp, right) {
                    self.jump(program, *yes)
                } else {
                    self.jump(program, *no)
                }
            }
            Ending::Switch { on, choices, other } => {
                let target = self.chosen(on, choices, *other);
                self.jump(program, target)
            }
            Ending::Return(from) => self.give_back(program, from),
        }
    }

    /// A return.
    fn give_back(&mut self, program: &Indexed<'t>, from: &Option<Source<'t>>) -> Reach
        requires { IsSound program.now self.old }
        ensures { Arrives program.now self.old.next result (returned (state_of program.now self.old) (source_result self.old.top.serial self.old.world.registers.items from.now) (state_of program.now self.old).below) self.new }
    {
        let value = self.returned_value(from);
        self.leave(program, value)
    }

    /// A comparison in the running frame.
    fn holds(&self, left: &Source<'t>, cmp: Cmp, right: &Source<'t>) -> bool
        ensures { result ≡ compares (source_value self.now.top.serial self.now.world.registers.items left.now) cmp (source_value self.now.top.serial self.now.world.registers.items right.now) }
    {
        values::holds(
            self.top.serial,
            self.world.registers.as_slice(),
            left,
            cmp,
            right,
        )
    }

    /// What a return gives.
    fn returned_value(&self, from: &Option<Source<'t>>) -> Option<Value<'t>>
        ensures { result ≡ source_result self.now.top.serial self.now.world.registers.items from.now }
    {
        match from {
            Some(source) => Some(self.value(source)),
            None => None,
        }
    }

    /// The block that a switch leads to.
    fn chosen(
        &self,
        on: &Source<'t>,
        choices: &Listed<Choice>,
        other: Option<usize>,
    ) -> Option<usize>
        ensures { result ≡ chosen (any_number (source_value self.now.top.serial self.now.world.registers.items on.now)) choices.now other }
    {
        target(values::any(&self.value(on)), choices.as_slice(), other)
    }

    /// One statement or end of the block where the run stands, whose lowered form is given.
    fn step(
        &mut self,
        alloc: Heap,
        program: &Indexed<'t>,
        piece: &Piece<'t>,
    ) -> Result<Step, OutOfMemory>
        requires sound { IsSound program.now self.old }
        requires limits { IsLimited program.now }
        requires piece { piece.now ≡ piece_of (names_at program.now self.old.top.function) (block_of (function_of program.now self.old.top.function) self.old.top.block) }
        ensures leads { IfOk result (λ next. Leads program.now self.old.next next (step program.now (state_of program.now self.old)) self.new) }
        ensures stays { IfOk result (λ next. Stays next self.old.top self.new.top) }
    {
        let _count = piece.body.len();
        match piece.body.get(self.top.index) {
            None => Ok(Step::Reaches(self.finish(program, &piece.end))),
            Some(statement) => {
                self.top.index += 1;
                self.perform(alloc, program, statement)
            }
        }
    }

    /// One statement.
    #[tactic(auto, unfolding(gimple_lowered::specs::Meaning::performs))]
    fn perform(
        &mut self,
        alloc: Heap,
        program: &Indexed<'t>,
        statement: &Instruction<'t>,
    ) -> Result<Step, OutOfMemory>
        requires sound { IsSound program.now self.old }
        requires limits { IsLimited program.now }
        ensures leads { IfOk result (λ step. Leads program.now self.old.next step (performs program.now statement.now (state_of program.now self.old)) self.new) }
        ensures stays { IfOk result (λ step. Stays step self.old.top self.new.top) }
    {
        match statement {
            Instruction::Call {
                to,
                callee,
                arguments,
            } => {
                let reach = self.call_numbered(alloc, program, *to, *callee, arguments)?;
                Ok(Step::Reaches(reach))
            }
            Instruction::Indirect {
                to,
                signature,
                callee,
                arguments,
            } => {
                let signature = signature.signature();
                let reach = self.call_through(alloc, program, *to, signature, *callee, arguments)?;
                Ok(Step::Reaches(reach))
            }
            _ => self.act(alloc, program, statement),
        }
    }

    /// One statement that is no call.
    fn act(
        &mut self,
        alloc: Heap,
        program: &Indexed<'t>,
        statement: &Instruction<'t>,
    ) -> Result<Step, OutOfMemory>
        requires sound { IsSound program.now self.old }
        ensures leads { IfOk result (λ step. Leads program.now self.old.next step (acted (state_of program.now self.old) (does program.now.mode self.old.top.serial statement.now (world_of self.old.world))) self.new) }
        ensures stays { IfOk result (λ step. Stays step self.old.top self.new.top) }
    {
        let frame = Frame {
            mode: program.mode(),
            serial: self.top.serial,
        };
        match self.world.act(alloc, frame, statement)? {
            Some(kind) => Ok(Step::Reaches(Reach::Traps(kind))),
            None => Ok(Step::Goes),
        }
    }

    /// What is read in the running frame.
    fn value(&self, from: &Source<'t>) -> Value<'t>
        ensures { result ≡ source_value self.now.top.serial self.now.world.registers.items from.now }
    {
        values::source(self.top.serial, self.world.registers.as_slice(), from)
    }

    /// What the run has printed.
    pub fn into_output(self) -> Text
        ensures { result ≡ self.entry.world.output }
    {
        let Machine {
            top: _,
            below: _,
            world,
            next: _,
            spare: _,
        } = self;
        let World {
            registers: _,
            memory: _,
            input: _,
            taken: _,
            output,
        } = world;
        output
    }

    /// The statements up to the next transfer.
    pub fn walk(&mut self, alloc: Heap, program: &Indexed<'t>) -> Result<Reach, OutOfMemory>
        requires sound { IsSound program.now self.old }
        requires limits { IsLimited program.now }
        ensures { IfOk result (λ reach. Arrives program.now self.old.next reach (walk program.now (state_of program.now self.old).top.rest (state_of program.now self.old)) self.new) }
    {
        let piece = program.piece(self.top.function, self.top.block);
        loop {
            match self.step(alloc, program, piece)? {
                Step::Goes => {}
                Step::Reaches(reach) => return Ok(reach),
            }
        }
    }
}

/// A row for the registers of a frame.
fn spare_row<'t>(alloc: Heap, rows: &mut Vec<Vec<Value<'t>>>) -> Vec<Value<'t>> {
    match rows.pop() {
        Some(row) => row,
        None => Vec::new(alloc),
    }
}

/// Keeps a row for a later frame, if there is memory for it.
fn spare<'t>(rows: &mut Vec<Vec<Value<'t>>>, row: Vec<Value<'t>>) {
    let _ = rows.push(row);
}

fn choice_at(on: i128, choices: &[Choice]) -> Option<&Choice>
    ensures { option_copied result ≡ find (λ c. cmp_of Cmp.Eq on c.value) choices.now }
{
    choices.iter().find(|c| eval_cmp(Cmp::Eq, on, c.value))
}

/// The block of the first choice with this value.
fn target(on: i128, choices: &[Choice], other: Option<usize>) -> Option<usize>
    ensures { result ≡ chosen on choices.now other }
{
    match choice_at(on, choices) {
        Some(choice) => choice.target,
        None => other,
    }
}

/// The status that main's last return gives.
fn status(value: &Option<Value<'_>>) -> i32
    ensures { result ≡ status_of value.now }
{
    match value {
        Some(value) => number_of_value(Scalar::I32, value) as i32,
        None => 0,
    }
}

/// A result put into the register that takes it.
fn give<'t>(registers: &mut Vec<Value<'t>>, takes: Option<usize>, value: Option<Value<'t>>)
    ensures { registers.new.items ≡ given registers.old.items takes value.entry }
{
    if let Some(value) = value {
        registers::put(registers, takes, value);
    }
}
