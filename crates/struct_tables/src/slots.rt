//! The slots of variables, without lists of them: which slot stands at an offset, and where the slot of a number stands.
//! A place in a variable is followed from field to field, and what stands before each field is added up.

ghost use Rattle.std.specs.Prelude.{◌≡◌, ◌+◌, ◌<◌, ◌≤◌, ◌^◌, length, pos, position, slice_get, IfOk};
ghost use Rattle.std.specs.List.Sorted.{IsNonDecreasing};
ghost use Rattle.gimple_core.specs.Layout.{decl_layout, layout_of, shape_layout};
ghost use Rattle.gimple_core.specs.Memory.{same_scalar};
ghost use Rattle.gimple_core.specs.Statements.{is_slot_at, has_slot};
ghost use Rattle.struct_tables.specs.Sizes.{first_layouts, scalar_at};
ghost use Rattle.struct_tables.specs.Slots.{as_slot, number_at, IsPartFrom, NumberLeadsTo, OffsetLeadsTo};

use crate::structs::{Structs, count_of, end_of};
use gimple_core::{Decl, Layout, LayoutSlot, OutOfMemory, Scalar, Shape, Slots};
use std::alloc::Global as Heap;

/// What stands at a place in a variable: a slot, nothing, or a place in a field of the struct of a number; with how much
/// stands before that slot or field.
enum Part<'a> {
    Slot {
        scalar: Scalar,
        before: u128,
    },
    Nothing,
    Field {
        number: usize,
        field: &'a Decl,
        before: u128,
        rest: u64,
    },
}

impl<'a> Structs<'a> {
    /// Whether a variable has a slot of this offset and scalar.
    pub fn has_slot(&self, decl: &Decl, offset: i128, scalar: Scalar) -> bool
        ensures { result ≡ has_slot (layout_of self.now decl.now).slots offset scalar }
    {
        if offset < 0 {
            return false;
        }
        self.number_at(decl, offset as u128, scalar).is_some()
    }

    /// The number of a variable's first slot of this offset and scalar, counted from 0 in the order of its slots; None
    /// exactly where it has no such slot. No slots are listed: the time is the logarithm of the number of fields in each
    /// struct on the way to the slot.
    pub fn slot_number(&self, decl: &Decl, offset: i128, scalar: Scalar) -> Option<usize>
        requires size { (layout_of self.now decl.now).size ≤ 2 ^ 24 }
        ensures { result ≡ position (is_slot_at offset scalar) (layout_of self.now decl.now).slots }
    {
        let _ = &self.map;
        if offset < 0 {
            return None;
        }
        match self.number_at(decl, offset as u128, scalar) {
            Some(number) => Some(number as usize),
            None => None,
        }
    }

    /// The same of a variable of any size, and an offset that is not negative.
    fn number_at(&self, decl: &Decl, offset: u128, scalar: Scalar) -> Option<u128>
        ensures { result ≡ number_at (layout_of self.now decl.now).slots offset scalar }
    {
        let _ = count_of(decl.length);
        let mut bound = self.map.len();
        let mut decl = decl;
        let mut ahead = 0;
        let mut offset = offset;
        loop {
            match self.part_at_offset(bound, decl, ahead, offset) {
                Part::Slot {
                    scalar: own,
                    before,
                } => {
                    if same_scalar(own, scalar) {
                        return Some(before);
                    }
                    return None;
                }
                Part::Nothing => return None,
                Part::Field {
                    number,
                    field,
                    before,
                    rest,
                } => {
                    bound = number;
                    decl = field;
                    ahead = before;
                    offset = u128::from(rest);
                }
            }
        }
    }

    /// What stands at an offset in a variable behind the first structs; so many slots stand before the variable.
    fn part_at_offset(&self, bound: usize, decl: &Decl, ahead: u128, offset: u128) -> Part<'a>
        requires room { ahead + length (decl_layout (first_layouts bound self.now) decl.now).slots < 2 ^ 127 }
        ensures { OffsetLeadsTo self.now (decl_layout (first_layouts bound self.now) decl.now).slots ahead offset bound result }
    {
        let _ = &self.map;
        let one = self.extent_before(bound, &decl.shape);
        if offset >= end_of(0, count_of(decl.length), one.size) {
            return Part::Nothing;
        }
        let size = u128::from(one.size);
        let before = ahead + offset / size * u128::from(one.slots);
        self.element_at_offset(bound, &decl.shape, before, (offset % size) as u64)
    }

    /// What stands at an offset in an element of a shape.
    fn element_at_offset(&self, bound: usize, shape: &Shape, ahead: u128, offset: u64) -> Part<'a>
        requires room { ahead < 2 ^ 127 }
        ensures { OffsetLeadsTo self.now (shape_layout (first_layouts bound self.now) shape.now).slots ahead offset bound result }
    {
        let _ = &self.map;
        match shape {
            Shape::Plain(scalar) => {
                if offset == 0 {
                    return Part::Slot {
                        scalar: *scalar,
                        before: ahead,
                    };
                }
                Part::Nothing
            }
            Shape::Named(name) => match self.found(bound, name) {
                Some(kept) => {
                    let fields = kept.definition.fields.as_slice();
                    let offsets = kept.starts.offsets.as_slice();
                    let slots = kept.starts.slots.as_slice();
                    part_from(kept.number, fields, offsets, slots, ahead, offset)
                }
                None => Part::Nothing,
            },
        }
    }

    /// How a variable of at most 2^24 bytes lies in memory, with its slots by ascending offset. No other variable or struct
    /// is laid out: the time of each slot is the logarithm of the number of fields in each struct on the way to it. Err is
    /// want of memory.
    #[tactic(auto, unfolding(gimple_core::specs::Layout::layout_of))]
    pub fn layout_of(&self, alloc: Heap, decl: &Decl) -> Result<Layout, OutOfMemory>
        requires size { (layout_of self.now decl.now).size ≤ 2 ^ 24 }
        ensures { IfOk result (λ l. l ≡ layout_of self.now decl.now) }
    {
        let slots = self.all_slots(alloc, decl)?;
        let one = self.extent(&decl.shape);
        Ok(Layout {
            size: count_of(decl.length) * one.size,
            align: one.align,
            slots,
        })
    }

    /// The slots of a variable in order.
    fn all_slots(&self, alloc: Heap, decl: &Decl) -> Result<Slots, OutOfMemory>
        requires size { (layout_of self.now decl.now).size ≤ 2 ^ 24 }
        ensures { IfOk result (λ s. s ≡ (layout_of self.now decl.now).slots) }
    {
        let mut slots = Slots::new(alloc);
        while let Some(slot) = self.slot_at(decl, slots.len()) {
            slots.push(slot)?;
        }
        Ok(slots)
    }

    /// The slot of this number, counted from 0; None exactly past the last one.
    fn slot_at(&self, decl: &Decl, index: usize) -> Option<LayoutSlot>
        requires size { (layout_of self.now decl.now).size ≤ 2 ^ 24 }
        ensures { result ≡ slice_get (layout_of self.now decl.now).slots index }
    {
        let _ = &self.map;
        match self.slot_of(decl, index as u128) {
            Some((offset, scalar)) => Some(LayoutSlot {
                offset: offset as u64,
                scalar,
            }),
            None => None,
        }
    }

    /// The scalar of a variable's slot of this number, counted from 0; None exactly past the last slot.
    pub fn slot_scalar(&self, decl: &Decl, index: usize) -> Option<Scalar>
        ensures { result ≡ scalar_at (layout_of self.now decl.now).slots index }
    {
        match self.slot_of(decl, index as u128) {
            Some((_, scalar)) => Some(scalar),
            None => None,
        }
    }

    /// The offset and the scalar of a variable's slot of this number, counted from 0; None exactly past the last slot.
    fn slot_of(&self, decl: &Decl, number: u128) -> Option<(u128, Scalar)>
        ensures { as_slot result ≡ slice_get (layout_of self.now decl.now).slots number }
    {
        let _ = count_of(decl.length);
        let mut bound = self.map.len();
        let mut decl = decl;
        let mut ahead = 0;
        let mut index = number;
        loop {
            match self.part_of_number(bound, decl, ahead, index) {
                Part::Slot { scalar, before } => return Some((before, scalar)),
                Part::Nothing => return None,
                Part::Field {
                    number,
                    field,
                    before,
                    rest,
                } => {
                    bound = number;
                    decl = field;
                    ahead = before;
                    index = u128::from(rest);
                }
            }
        }
    }

    /// Where the slot of a number lies in a variable behind the first structs; so many bytes stand before the variable.
    fn part_of_number(&self, bound: usize, decl: &Decl, ahead: u128, number: u128) -> Part<'a>
        requires room { ahead + (decl_layout (first_layouts bound self.now) decl.now).size < 2 ^ 127 }
        ensures { NumberLeadsTo self.now (decl_layout (first_layouts bound self.now) decl.now) ahead number bound result }
    {
        let _ = &self.map;
        let one = self.extent_before(bound, &decl.shape);
        if number >= end_of(0, count_of(decl.length), one.slots) {
            return Part::Nothing;
        }
        let slots = u128::from(one.slots);
        let before = ahead + number / slots * u128::from(one.size);
        self.element_of_number(bound, &decl.shape, before, (number % slots) as u64)
    }

    /// Where the slot of a number lies in an element of a shape that has so many slots.
    fn element_of_number(&self, bound: usize, shape: &Shape, ahead: u128, number: u64) -> Part<'a>
        requires room { ahead < 2 ^ 127 }
        requires within { number < length (shape_layout (first_layouts bound self.now) shape.now).slots }
        ensures { NumberLeadsTo self.now (shape_layout (first_layouts bound self.now) shape.now) ahead number bound result }
    {
        let _ = &self.map;
        match shape {
            Shape::Plain(scalar) => Part::Slot {
                scalar: *scalar,
                before: ahead,
            },
            Shape::Named(name) => match self.found(bound, name) {
                Some(kept) => {
                    let fields = kept.definition.fields.as_slice();
                    let slots = kept.starts.slots.as_slice();
                    let offsets = kept.starts.offsets.as_slice();
                    part_from(kept.number, fields, slots, offsets, ahead, number)
                }
                None => Part::Nothing,
            },
        }
    }
}

/// The last field of the struct of a number that begins at a place or before it, where the fields begin at these places
/// and so much of the other count stands before each, behind what stands before the struct.
fn part_from<'a>(
    number: usize,
    fields: &'a [Decl],
    starts: &[u64],
    others: &[u64],
    ahead: u128,
    place: u64,
) -> Part<'a>
    requires ascending { IsNonDecreasing starts.now }
    requires each { length starts.now ≡ length fields.now }
    requires both { length others.now ≡ length fields.now }
    requires room { ahead < 2 ^ 127 }
    ensures { IsPartFrom fields.now starts.now others.now number ahead place result }
{
    let behind = starts.partition_point(|start| *start <= place);
    if behind == 0 {
        return Part::Nothing;
    }
    Part::Field {
        number,
        field: &fields[behind - 1],
        before: ahead + u128::from(others[behind - 1]),
        rest: place - starts[behind - 1],
    }
}

fn same_scalar(left: Scalar, right: Scalar) -> bool
    ensures { result ≡ same_scalar left right }
{
    left == right
}
