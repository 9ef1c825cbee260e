//! Memory made of typed slots.

ghost use Rattle.std.specs.Prelude.{◌≡◌, ◌<◌, ◌≤◌, ◌^◌, ◌++◌, length, map, find, filter, slice_get, unwrap_or, IfOk, OnOk};
ghost use Rattle.std.specs.List.{All};
ghost use Rattle.std.specs.Option.{option_copied};
ghost use Rattle.gimple_core.specs.State.{zero_of};
ghost use Rattle.gimple_core.specs.Memory.{same_object, is_slot, found_at, found_offset, found_extent, put_slot, is_elsewhere};
ghost use Rattle.gimple_core.specs.Run.{filled, item_value};

use crate::extents::Extents;
use crate::hints::{Hints, Spread};
use crate::indexed::Indexed;
use crate::slots::Slots;
use crate::values;
use gimple_core::{
    Decl, Extent, FoundSlot, Layout, LayoutSlot, MemorySlot, Object, Operand, OutOfMemory, Scalar,
    TrapKind, Value,
};
use name_tables::NamedGlobals;
use std::alloc::Global as Heap;
use std::marker::Model;
use struct_tables::Structs;

/// An access in an object that lives.
fn found_in<'t>(
    slots: &Slots<'t>,
    hints: &Hints,
    object: Object,
    offset: i64,
    scalar: Scalar,
    extent: Extent,
) -> Result<FoundSlot<'t>, TrapKind>
    ensures { result ≡ found_offset slots.now object offset scalar extent }
{
    if offset < 0 {
        return Err(TrapKind::Bounds);
    }
    let at = offset as u64;
    if at >= extent.size {
        return Err(TrapKind::Bounds);
    }
    match slots.found(object, at, scalar, hints.slot(object, at)) {
        Some(slot) => Ok(FoundSlot {
            object,
            offset: at,
            value: slot.value.again(),
            constant: extent.constant,
        }),
        None => Err(TrapKind::BadSlot),
    }
}

/// An access of a scalar through a pointer.
#[tactic(auto, unfolding(gimple_core::specs::Memory::found_at))]
fn found_by<'t>(
    living: &Extents,
    slots: &Slots<'t>,
    hints: &Hints,
    pointer: &Value<'_>,
    scalar: Scalar,
) -> Result<FoundSlot<'t>, TrapKind>
    ensures { result ≡ found_at (record { living = living.now; slots = slots.now }) pointer.now scalar }
{
    match pointer {
        Value::At { object, offset } => match living.found(*object, hints.object(*object)) {
            Some(extent) => found_in(slots, hints, *object, *offset, scalar, *extent),
            None => Err(TrapKind::Dangling),
        },
        Value::Code(_) => Err(TrapKind::BadSlot),
        _ => Err(TrapKind::NullAccess),
    }
}

/// The value at a place, or zero or null.
pub fn value_at<'t>(values: &[Value<'t>], k: usize, scalar: Scalar) -> Value<'t>
    ensures { result ≡ unwrap_or (slice_get values.now k) (zero_of scalar) }
{
    match values.get(k) {
        Some(value) => value.again(),
        None => values::zero(scalar),
    }
}

/// Puts an object's slots behind the others, the first ones with these values.
fn fill<'t>(
    slots: &mut Slots<'t>,
    object: Object,
    layout: &[LayoutSlot],
    values: &[Value<'t>],
) -> Result<(), OutOfMemory>
    ensures { OnOk result (slots.new ≡ slots.old ++ filled object layout.now values.now) }
{
    for k in 0..layout.len() {
        let slot = layout[k];
        slots.push(MemorySlot {
            object,
            offset: slot.offset,
            scalar: slot.scalar,
            value: value_at(values, k, slot.scalar),
        })?;
    }
    Ok(())
}

/// The values of a global's items.
fn item_values<'t>(
    alloc: Heap,
    globals: &NamedGlobals<'_>,
    items: &'t [Operand],
) -> Result<Vec<Value<'t>>, OutOfMemory>
    requires { length globals.now < 2 ^ 32 }
    ensures { IfOk result (λ vs. vs.items ≡ map (item_value globals.now) items.now) }
{
    let mut held = Vec::new(alloc);
    for item in items {
        held.push(values::item(globals, item))?;
    }
    Ok(held)
}

/// The objects that live, and what their slots hold.
#[derive(Drop)]
pub struct Memory<'t> {
    living: Extents,
    slots: Slots<'t>,
    hints: Hints,
}

impl<'t> Model for Memory<'t> {
    ghost use Rattle.gimple_core.specs.Memory.{Memory};

    ghost Value = { Memory };

    ghost view = { λ m. record { living = m.living; slots = m.slots } };
}

impl<'t> Memory<'t> {
    ghost use Rattle.gimple_core.specs.Layout.{layout_of};
    ghost use Rattle.gimple_core.specs.Memory.{without_frame};
    ghost use Rattle.gimple_exec.specs.Machines.{function_of, IsLimited};
    ghost use Rattle.gimple_core.specs.Run.{no_memory, with_object, with_locals, with_globals};

    /// No objects.
    pub fn new(alloc: Heap) -> Memory<'t>
        ensures { result ≡ no_memory }
    {
        Memory {
            living: Extents::new(alloc),
            slots: Slots::new(alloc),
            hints: Hints::new(alloc),
        }
    }

    /// An access of a scalar through a pointer.
    pub fn found(&self, pointer: &Value<'_>, scalar: Scalar) -> Result<FoundSlot<'t>, TrapKind>
        ensures { result ≡ found_at self.now pointer.now scalar }
    {
        found_by(&self.living, &self.slots, &self.hints, pointer, scalar)
    }

    /// Puts a value into a slot.
    pub fn put(&mut self, object: Object, offset: u64, scalar: Scalar, value: Value<'t>)
        ensures { self.new ≡ record self.old { slots = put_slot self.old.slots object offset scalar value.entry } }
    {
        let guess = self.hints.slot(object, offset);
        let slot = MemorySlot {
            object,
            offset,
            scalar,
            value,
        };
        self.slots.put(slot, guess);
    }

    /// Takes out the locals of a frame that has returned.
    #[tactic(auto, unfolding(gimple_core::specs::Memory::without_frame))]
    pub fn leave(&mut self, serial: u64)
        ensures { self.new ≡ without_frame serial self.old }
    {
        self.living.leave(serial);
        self.slots.leave(serial);
        self.hints.leave(serial, self.living.len());
    }

    fn add_object(
        &mut self,
        object: Object,
        layout: &Layout,
        constant: bool,
        values: &[Value<'t>],
    ) -> Result<(), OutOfMemory>
        ensures { OnOk result (self.new ≡ with_object self.old object layout.now constant values.now) }
    {
        let spread = Spread {
            first: self.slots.len(),
            slots: layout.slots.len(),
            size: layout.size,
        };
        self.hints.push(object, spread)?;
        self.living.push(Extent {
            object,
            size: layout.size,
            constant,
        })?;
        fill(&mut self.slots, object, layout.slots.as_slice(), values)
    }

    /// Adds these locals of a frame.
    fn add_locals(
        &mut self,
        alloc: Heap,
        structs: &Structs<'_>,
        locals: &[Decl],
        serial: u64,
    ) -> Result<(), OutOfMemory>
        requires few { length locals.now < 2 ^ 32 }
        requires sizes { All (λ d. (layout_of structs.now d).size ≤ 2 ^ 24) locals.now }
        ensures { OnOk result (self.new ≡ with_locals structs.now serial 0 locals.now self.old) }
    {
        for k in 0..locals.len() {
            let layout = structs.layout_of(alloc, &locals[k])?;
            let object = Object::Local {
                serial,
                number: k as u32,
            };
            self.add_object(object, &layout, false, &[])?;
        }
        Ok(())
    }

    /// Adds the locals of a function's frame. Their slots are listed here, so a function that is not entered costs none.
    pub fn add_frame(
        &mut self,
        alloc: Heap,
        program: &Indexed<'_>,
        function: usize,
        serial: u64,
    ) -> Result<(), OutOfMemory>
        requires limits { IsLimited program.now }
        requires within { function < length program.now.program.functions }
        ensures { OnOk result (self.new ≡ with_locals program.now.program.structs serial 0 (function_of program.now function).locals self.old) }
    {
        let locals = program.function_at(function).locals.as_slice();
        self.add_locals(alloc, program.structs(), locals, serial)
    }

    /// Adds the globals of a program.
    pub fn add_program(&mut self, alloc: Heap, program: &Indexed<'t>) -> Result<(), OutOfMemory>
        requires { IsLimited program.now }
        ensures { OnOk result (self.new ≡ with_globals program.now.program.structs program.now.program.globals 0 program.now.program.globals self.old) }
    {
        let globals = program.source().globals.as_slice();
        self.add_globals(alloc, program.structs(), program.globals(), globals)
    }

    /// Adds these globals, whose items name those of a table.
    fn add_globals(
        &mut self,
        alloc: Heap,
        structs: &Structs<'_>,
        named: &NamedGlobals<'_>,
        globals: &'t [gimple_core::Global],
    ) -> Result<(), OutOfMemory>
        requires few { length globals.now < 2 ^ 32 }
        requires named { length named.now < 2 ^ 32 }
        requires sizes { All (λ g. (layout_of structs.now g.decl).size ≤ 2 ^ 24) globals.now }
        ensures { OnOk result (self.new ≡ with_globals structs.now named.now 0 globals.now self.old) }
    {
        for k in 0..globals.len() {
            let global = &globals[k];
            let layout = structs.layout_of(alloc, &global.decl)?;
            let values = item_values(alloc, named, global.items.as_slice())?;
            let object = Object::Global(k as u32);
            self.add_object(object, &layout, global.constant, values.as_slice())?;
        }
        Ok(())
    }
}
