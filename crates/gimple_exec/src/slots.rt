//! The slots of the objects that live.

ghost use Rattle.std.specs.Prelude.{◌≡◌, ◌++◌, ◌∷◌, [], Some, find, filter, IfSome, OnOk};
ghost use Rattle.std.specs.Option.{option_copied};
ghost use Rattle.gimple_core.specs.Memory.{is_slot, is_elsewhere, put_slot};

use crate::rows::{Placed, Rows};
use crate::values::{is_same_object, is_same_scalar};
use gimple_core::{MemorySlot, Object, OutOfMemory, Scalar, Value};
use std::alloc::Global as Heap;
use std::marker::Model;

/// Whether a slot is that of an object with an offset and a scalar.
fn lies_at(slot: &MemorySlot<'_>, object: Object, offset: u64, scalar: Scalar) -> bool
    ensures { result ≡ is_slot object offset scalar slot.now }
{
    is_same_object(slot.object, object)
        && slot.offset == offset
        && is_same_scalar(slot.scalar, scalar)
}

impl<'a> Placed for MemorySlot<'a> {
    ghost use Rattle.gimple_exec.specs.PlacedLemmas.{slot_there};

    ghost object_of = { λ s. s.object };

    ghost offset_of = { λ s. s.offset };

    ghost matches = { λ t s. is_slot t.object t.offset t.scalar s };

    fn object(&self) -> Object {
        self.object
    }

    fn offset(&self) -> u64 {
        self.offset
    }

    fn matches(&self, sought: &MemorySlot<'a>) -> bool {
        is_same_object(self.object, sought.object)
            && self.offset == sought.offset
            && is_same_scalar(self.scalar, sought.scalar)
    }

    ghost matches_there = { slot_there };
}

/// The slots of the objects that live.
#[derive(Drop)]
pub struct Slots<'a> {
    rows: Rows<MemorySlot<'a>>,
}

impl<'a> Model for Slots<'a> {
    ghost use Rattle.std.specs.Prelude.{List};
    ghost use Rattle.gimple_core.specs.declared.machine.MemorySlot.{MemorySlot};

    ghost Value = { List MemorySlot };

    ghost view = { λ s. s.rows };
}

impl<'a> Slots<'a> {
    pub fn new(alloc: Heap) -> Slots<'a>
        ensures { result ≡ [] }
    {
        Slots {
            rows: Rows::new(alloc),
        }
    }

    /// Adds a slot behind the others.
    pub fn push(&mut self, slot: MemorySlot<'a>) -> Result<(), OutOfMemory>
        ensures { OnOk result (self.new ≡ self.old ++ slot.entry ∷ []) }
    {
        self.rows.push(slot)
    }

    /// How many slots there are.
    pub fn len(&self) -> usize {
        self.rows.len()
    }

    /// The first slot of an object with an offset and a scalar, which may be near a guess.
    pub fn found(
        &self,
        object: Object,
        offset: u64,
        scalar: Scalar,
        guess: usize,
    ) -> Option<&MemorySlot<'a>>
        ensures { option_copied result ≡ find (is_slot object offset scalar) self.now }
    {
        match self.here(object, offset, scalar, guess) {
            Some(slot) => Some(slot),
            None => self.elsewhere(object, offset, scalar, guess),
        }
    }

    /// The slot of an object with an offset and a scalar, if it is the one at this place.
    fn here(
        &self,
        object: Object,
        offset: u64,
        scalar: Scalar,
        at: usize,
    ) -> Option<&MemorySlot<'a>>
        ensures { IfSome result (λ x. find (is_slot object offset scalar) self.now ≡ Some x.now) }
    {
        let Some(slot) = self.rows.ordered_item(at) else {
            return None;
        };
        if lies_at(slot, object, offset, scalar) {
            return Some(slot);
        }
        None
    }

    /// The first slot of an object with an offset and a scalar, which is not the one at a guess.
    fn elsewhere(
        &self,
        object: Object,
        offset: u64,
        scalar: Scalar,
        guess: usize,
    ) -> Option<&MemorySlot<'a>>
        ensures { option_copied result ≡ find (is_slot object offset scalar) self.now }
    {
        let sought = MemorySlot {
            object,
            offset,
            scalar,
            value: Value::Null,
        };
        self.rows.found(&sought, guess)
    }

    /// Puts a value into the slot of its place, which may be near a guess.
    pub fn put(&mut self, slot: MemorySlot<'a>, guess: usize)
        ensures { self.new ≡ put_slot self.old slot.entry.object slot.entry.offset slot.entry.scalar slot.entry.value }
    {
        self.rows.replace(slot, guess);
    }

    /// Takes out those of a frame that has returned.
    pub fn leave(&mut self, serial: u64)
        ensures { self.new ≡ filter (λ s. is_elsewhere serial s.object) self.old }
    {
        self.rows.leave(serial);
    }
}
