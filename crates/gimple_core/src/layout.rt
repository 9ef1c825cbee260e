//! Where the slots of a variable lie.

ghost use Rattle.std.specs.Prelude.{ℕ, ◌≡◌, ◌≤◌, ◌<◌, ◌*◌, ◌^◌, [], ◌∷◌, ◌++◌, false, take, slice_get, Some, IfOk, OnOk, find};
ghost use Rattle.std.specs.List.{All, list_any};
ghost use Rattle.std.specs.Option.{option_copied};
ghost use Rattle.gimple_ir.specs.declared.declarations.StructDef.{StructDef};
ghost use Rattle.std.specs.Str.{bytes_eq};
ghost use Rattle.gimple_core.specs.Layout.{round_up, moved, array_layout, decl_layout, with_field, with_fields, empty_layout, struct_layouts, layout_of, IsLayout, IsNeeded, HasLayout};

use crate::names::same_name;
use crate::operators::bits;
use gimple_ir::{
    Decl, Exact, Layout, LayoutSlot, OutOfMemory, Program, Shape, Slots, StructDef, Text,
};
use std::alloc::Global as Heap;
use std::marker::Model;

/// A struct's name with its layout.
#[derive(Debug, Drop)]
pub(crate) struct KnownLayout {
    pub(crate) name: Text,
    pub(crate) layout: Layout,
}

impl Model for KnownLayout {
    ghost use Rattle.gimple_core.specs.Layout.{KnownLayout};

    ghost Value = { KnownLayout };

    ghost view = { λ k. record { name = k.name; layout = k.layout } };
}

/// The least multiple of `align` that is not below `n`.
fn next_multiple(n: u64, align: u64) -> u64
    requires n { n ≤ 2 ^ 24 }
    requires least { 1 ≤ align }
    requires most { align ≤ 8 }
    ensures { result ≡ round_up n align }
{
    (n + (align - 1)) / align * align
}

/// Puts slots behind the others, moved by some bytes.
fn append_moved(slots: &mut Slots, by: u64, more: &[LayoutSlot]) -> Result<(), OutOfMemory>
    requires by { by ≤ 2 ^ 24 }
    requires within { All (λ s. s.offset < 2 ^ 24) more.now }
    ensures { OnOk result (slots.new ≡ slots.old ++ moved by more.now) }
{
    for slot in more {
        slots.push(LayoutSlot {
            offset: by + slot.offset,
            scalar: slot.scalar,
        })?;
    }
    Ok(())
}

/// The layout of an array of some elements.
fn repeat(
    alloc: Heap,
    count: u64,
    size: u64,
    align: u64,
    slots: &[LayoutSlot],
) -> Result<Layout, OutOfMemory>
    requires size { count * size ≤ 2 ^ 24 }
    requires within { All (λ s. s.offset < size) slots.now }
    ensures { IfOk result (λ l. l ≡ array_layout count (record { size = size; align = align; slots = slots.now })) }
{
    let mut all = Slots::new(alloc);
    for k in 0..count {
        append_moved(&mut all, k * size, slots)?;
    }
    Ok(Layout {
        size: count * size,
        align,
        slots: all,
    })
}

/// The layout of the first struct of this name.
fn named_layout<'a>(known: &'a [KnownLayout], name: &Text) -> Option<&'a KnownLayout>
    ensures { option_copied result ≡ find (λ k. bytes_eq k.name name.now) known.now }
{
    known.iter().find(|k| same_name(&k.name, name))
}

/// The layout of a declaration behind structs whose layouts are known.
fn declared_layout(alloc: Heap, known: &[KnownLayout], decl: &Decl) -> Result<Layout, OutOfMemory>
    requires size { (decl_layout known.now decl.now).size ≤ 2 ^ 24 }
    requires layouts { All (λ k. IsLayout k.layout) known.now }
    ensures { IfOk result (λ l. l ≡ decl_layout known.now decl.now) }
{
    let count = decl.length.unwrap_or(1);
    match &decl.shape {
        Shape::Plain(scalar) => {
            let width = u64::from(bits(*scalar) / 8);
            let one = [LayoutSlot {
                offset: 0,
                scalar: *scalar,
            }];
            repeat(alloc, count, width, width, &one)
        }
        Shape::Named(name) => match named_layout(known, name) {
            Some(found) => {
                let one = &found.layout;
                repeat(alloc, count, one.size, one.align, one.slots.as_slice())
            }
            None => repeat(alloc, count, 0, 1, &[]),
        },
    }
}

/// Puts a field behind the others of a struct.
fn add_field(layout: &mut Layout, field: &Layout) -> Result<(), OutOfMemory>
    requires layout { IsLayout layout.old }
    requires field { IsLayout field.now }
    requires size { (with_field layout.old field.now).size ≤ 2 ^ 24 }
    ensures { OnOk result (layout.new ≡ with_field layout.old field.now) }
{
    let at = next_multiple(layout.size, field.align);
    append_moved(&mut layout.slots, at, field.slots.as_slice())?;
    layout.size = at + field.size;
    layout.align = layout.align.max(field.align);
    Ok(())
}

/// The layout of a struct of these fields behind structs whose layouts are known.
fn struct_layout(alloc: Heap, known: &[KnownLayout], fields: &[Decl]) -> Result<Layout, OutOfMemory>
    requires size { (with_fields known.now empty_layout fields.now).size ≤ 2 ^ 24 }
    requires layouts { All (λ k. IsLayout k.layout) known.now }
    ensures { IfOk result (λ l. l ≡ with_fields known.now empty_layout fields.now) }
{
    let mut layout = Layout {
        size: 0,
        align: 1,
        slots: Slots::new(alloc),
    };
    for field in fields {
        add_field(&mut layout, &declared_layout(alloc, known, field)?)?;
    }
    layout.size = next_multiple(layout.size, layout.align);
    Ok(layout)
}

/// Puts the layout of a struct behind those of the structs before it.
fn push_layout(alloc: Heap, known: &mut Vec<KnownLayout>, s: &StructDef) -> Result<(), OutOfMemory>
    requires size { (with_fields known.old.items empty_layout s.now.fields).size ≤ 2 ^ 24 }
    requires layouts { All (λ k. IsLayout k.layout) known.old.items }
    ensures same { OnOk result (known.new.items ≡ known.old.items ++ record { name = s.now.name; layout = with_fields known.old.items empty_layout s.now.fields } ∷ []) }
    ensures layouts { OnOk result (All (λ k. IsLayout k.layout) known.new.items) }
{
    let layout = struct_layout(alloc, known.as_slice(), s.fields.as_slice())?;
    known.push(KnownLayout {
        name: s.name.copy()?,
        layout,
    })?;
    Ok(())
}

/// The layouts of the structs up to the first one of a name.
fn known_layouts(
    alloc: Heap,
    structs: &[StructDef],
    name: &Text,
) -> Result<Vec<KnownLayout>, OutOfMemory>
    requires size { (k : ℕ) (s : StructDef) → slice_get structs.now k ≡ Some s → list_any (λ s. bytes_eq s.name name.now) (take k structs.now) ≡ false → (with_fields (struct_layouts [] (take k structs.now)) empty_layout s.fields).size ≤ 2 ^ 24 }
    ensures found { IfOk result (λ known. find (λ k. bytes_eq k.name name.now) known.items ≡ find (λ k. bytes_eq k.name name.now) (struct_layouts [] structs.now)) }
    ensures layouts { IfOk result (λ known. All (λ k. IsLayout k.layout) known.items) }
{
    let mut known = Vec::new(alloc);
    for s in structs {
        push_layout(alloc, &mut known, s)?;
        if same_name(&s.name, name) {
            return Ok(known);
        }
    }
    Ok(known)
}

/// How a variable lies in memory, where its size, and that of its struct and of each struct before that one, is at
/// most 2^24. Struct fields lie in order, each at the next multiple of its alignment; the struct's size is rounded up to
/// its greatest alignment; an array's elements are contiguous. It answers want of memory alone.
pub fn layout_of(alloc: Heap, program: &Program, decl: &Decl) -> Result<Layout, OutOfMemory>
    requires { HasLayout program.now.structs decl.now }
    ensures { IfOk result (λ l. l ≡ layout_of program.now.structs decl.now) }
{
    match &decl.shape {
        Shape::Plain(_) => declared_layout(alloc, &[], decl),
        Shape::Named(name) => {
            let known = known_layouts(alloc, program.structs.as_slice(), name)?;
            declared_layout(alloc, known.as_slice(), decl)
        }
    }
}
