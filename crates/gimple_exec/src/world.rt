//! What a statement that is no call does.

ghost use Rattle.std.specs.Prelude.{◌≡◌, IfOk, OnOk, slice_get, Ok, Err, string_bytes};
ghost use Rattle.std.specs.Fmt.{signed_decimal};
ghost use Rattle.gimple_core.specs.Operators.{IsWord};
ghost use Rattle.gimple_core.specs.Memory.{found_at};
ghost use Rattle.gimple_core.specs.Run.{stored, put, arith_of, compares, one_if, converted};
ghost use Rattle.gimple_lowered.specs.Meaning.{source_value, pointer_value, assign, assign_result, loaded, got, does};
ghost use Rattle.gimple_exec.specs.Acts.{world_of, Acts};

use crate::memory::Memory;
use crate::values::Frame;
use crate::{registers, values};
use gimple_core::{Cmp, FoundSlot, Listed, Op, OutOfMemory, Scalar, Text, TrapKind, Value};
use gimple_lowered::{Instruction, Pointer, Source};
use std::alloc::Global as Heap;

/// What a statement that is no call can change.
#[derive(Drop)]
pub struct World<'a> {
    pub registers: Vec<Value<'a>>,
    pub memory: Memory<'a>,
    pub input: Listed<i64>,
    pub taken: usize,
    pub output: Text,
}

/// A number in decimal.
pub fn number_text(alloc: Heap, number: i128) -> Result<String, OutOfMemory>
    requires { IsWord number }
    ensures { IfOk result (λ t. string_bytes t ≡ signed_decimal number) }
{
    if number >= 0 {
        (number as u64).to_string(alloc)
    } else {
        (number as i64).to_string(alloc)
    }
}

impl<'a> World<'a> {
    fn assign(&mut self, to: Option<usize>, value: Value<'a>)
        ensures { world_of self.new ≡ assign (world_of self.old) to value.entry }
    {
        registers::put(&mut self.registers, to, value);
    }

    fn assign_result(
        &mut self,
        to: Option<usize>,
        found: Result<Value<'a>, TrapKind>,
    ) -> Option<TrapKind>
        ensures { Acts self.old result (assign_result (world_of self.old) to found.entry) self.new }
    {
        match found {
            Ok(value) => {
                self.assign(to, value);
                None
            }
            Err(kind) => Some(kind),
        }
    }

    fn load(
        &mut self,
        to: Option<usize>,
        found: Result<FoundSlot<'a>, TrapKind>,
    ) -> Option<TrapKind>
        ensures { Acts self.old result (loaded (world_of self.old) to found.entry) self.new }
    {
        match found {
            Ok(at) => {
                self.assign(to, at.value);
                None
            }
            Err(kind) => Some(kind),
        }
    }

    fn store(
        &mut self,
        scalar: Scalar,
        value: Value<'a>,
        found: Result<FoundSlot<'a>, TrapKind>,
    ) -> Option<TrapKind>
        ensures { Acts self.old result (stored (world_of self.old) scalar value.entry found.entry) self.new }
    {
        match found {
            Ok(at) if at.constant => Some(TrapKind::ReadOnly),
            Ok(at) => {
                self.memory.put(at.object, at.offset, scalar, value);
                None
            }
            Err(kind) => Some(kind),
        }
    }

    fn get(&mut self, to: Option<usize>)
        ensures { world_of self.new ≡ got (world_of self.old) to (slice_get self.old.input self.old.taken) }
    {
        let _count = self.input.len();
        match self.input.get(self.taken) {
            Some(number) => {
                let value = Value::Int(i128::from(*number));
                self.assign(to, value);
                self.taken += 1;
            }
            None => self.assign(to, Value::Int(0)),
        }
    }

    fn put(&mut self, alloc: Heap, value: &Value<'_>) -> Result<(), OutOfMemory>
        ensures { OnOk result (world_of self.new ≡ put (world_of self.old) value.now) }
    {
        let text = number_text(alloc, values::any(value))?;
        self.output.push_all(text.as_bytes())?;
        self.output.push_all(b"\n")?;
        Ok(())
    }

    fn copy(&mut self, serial: u64, to: Option<usize>, from: &Source<'a>)
        ensures { world_of self.new ≡ assign (world_of self.old) to (source_value serial self.old.registers.items from.now) }
    {
        let value = values::source(serial, self.registers.as_slice(), from);
        self.assign(to, value);
    }

    fn arith(
        &mut self,
        frame: Frame,
        to: Option<usize>,
        scalar: Scalar,
        left: &Source<'a>,
        op: Op,
        right: &Source<'a>,
    ) -> Option<TrapKind>
        ensures { Acts self.old result (assign_result (world_of self.old) to (arith_of frame.mode scalar (source_value frame.serial self.old.registers.items left.now) op (source_value frame.serial self.old.registers.items right.now))) self.new }
    {
        let found = values::arith(frame, self.registers.as_slice(), scalar, left, op, right);
        self.assign_result(to, found)
    }

    fn compare(
        &mut self,
        serial: u64,
        to: Option<usize>,
        left: &Source<'a>,
        cmp: Cmp,
        right: &Source<'a>,
    )
        ensures { world_of self.new ≡ assign (world_of self.old) to (one_if (compares (source_value serial self.old.registers.items left.now) cmp (source_value serial self.old.registers.items right.now))) }
    {
        let holds = values::holds(serial, self.registers.as_slice(), left, cmp, right);
        self.assign(to, values::truth(holds));
    }

    fn convert(&mut self, serial: u64, to: Option<usize>, scalar: Scalar, from: &Source<'a>)
        ensures { world_of self.new ≡ assign (world_of self.old) to (converted scalar (source_value serial self.old.registers.items from.now)) }
    {
        let value = values::source(serial, self.registers.as_slice(), from);
        self.assign(to, values::convert(scalar, &value));
    }

    fn load_from(
        &mut self,
        serial: u64,
        to: Option<usize>,
        scalar: Scalar,
        pointer: &Pointer<'a>,
    ) -> Option<TrapKind>
        ensures { Acts self.old result (loaded (world_of self.old) to (found_at self.old.memory (pointer_value serial self.old.registers.items pointer.now) scalar)) self.new }
    {
        let pointer = values::pointer(serial, self.registers.as_slice(), pointer);
        let found = self.memory.found(&pointer, scalar);
        self.load(to, found)
    }

    fn store_to(
        &mut self,
        serial: u64,
        scalar: Scalar,
        pointer: &Pointer<'a>,
        from: &Source<'a>,
    ) -> Option<TrapKind>
        ensures { Acts self.old result (stored (world_of self.old) scalar (source_value serial self.old.registers.items from.now) (found_at self.old.memory (pointer_value serial self.old.registers.items pointer.now) scalar)) self.new }
    {
        let registers = self.registers.as_slice();
        let pointer = values::pointer(serial, registers, pointer);
        let value = values::source(serial, registers, from);
        let found = self.memory.found(&pointer, scalar);
        self.store(scalar, value, found)
    }

    fn put_from(&mut self, alloc: Heap, serial: u64, from: &Source<'a>) -> Result<(), OutOfMemory>
        ensures { OnOk result (world_of self.new ≡ put (world_of self.old) (source_value serial self.old.registers.items from.now)) }
    {
        let value = values::source(serial, self.registers.as_slice(), from);
        self.put(alloc, &value)
    }

    /// What a statement that is no call does.
    #[tactic(auto, unfolding(gimple_lowered::specs::Meaning::does))]
    pub fn act(
        &mut self,
        alloc: Heap,
        frame: Frame,
        statement: &Instruction<'a>,
    ) -> Result<Option<TrapKind>, OutOfMemory>
        ensures { IfOk result (λ trap. Acts self.old trap (does frame.mode frame.serial statement.now (world_of self.old)) self.new) }
    {
        let serial = frame.serial;
        match statement {
            Instruction::Copy { to, from } => {
                self.copy(serial, *to, from);
                Ok(None)
            }
            Instruction::Arith {
                to,
                scalar,
                left,
                op,
                right,
            } => Ok(self.arith(frame, *to, *scalar, left, *op, right)),
            Instruction::Compare {
                to,
                left,
                cmp,
                right,
            } => {
                self.compare(serial, *to, left, *cmp, right);
                Ok(None)
            }
            Instruction::Convert { to, scalar, from } => {
                self.convert(serial, *to, *scalar, from);
                Ok(None)
            }
            Instruction::Load {
                to,
                scalar,
                pointer,
            } => Ok(self.load_from(serial, *to, *scalar, pointer)),
            Instruction::Store {
                scalar,
                pointer,
                from,
            } => Ok(self.store_to(serial, *scalar, pointer, from)),
            Instruction::Get { to } => {
                self.get(*to);
                Ok(None)
            }
            Instruction::Put { from } => {
                self.put_from(alloc, serial, from)?;
                Ok(None)
            }
            Instruction::Call { .. } | Instruction::Indirect { .. } | Instruction::Abort => {
                Ok(Some(TrapKind::Abort))
            }
        }
    }
}
