//! Structs by their names, how large they are, and where their fields begin.

ghost use Rattle.std.specs.Prelude.{◌≡◌, false, ◌+◌, ◌*◌, ◌<◌, ◌≤◌, ◌^◌, [], ◌∷◌, ◌++◌, length, nat_le, OnOk, OnErr, IfOk, IfSome, if◌then◌else◌};
ghost use Rattle.std.specs.Option.{option_copied};
ghost use Rattle.gimple_core.specs.Layout.{empty_layout, with_fields, decl_layout, shape_layout, struct_layouts, layout_of, count_of, round_up};
ghost use Rattle.gimple_core.specs.Env.{has, structs_by_name};
ghost use Rattle.gimple_core.specs.Declarations.{is_size, struct_size};
ghost use Rattle.struct_tables.specs.Sizes.{extent_of, extent_rounded, extent_with, field_start, field_starts, first_layouts, slots_before, IsBounded, IsFirst};
ghost use Rattle.struct_tables.specs.Tables.{HaveTable};

use gimple_core::{Decl, OutOfMemory, Shape, StructDef, Text, bits};
use indexmap::IndexMap;
use std::alloc::Global as Heap;
use std::marker::Model;

/// How large a value is: its size and its alignment in bytes, and how many slots it has.
#[derive(Clone, Copy, Debug)]
pub struct Extent {
    pub size: u64,
    pub align: u64,
    pub slots: u64,
}

/// Where the fields of a struct begin, in order: at which byte each does, and how many slots stand before it.
#[derive(Drop)]
pub(crate) struct Starts {
    pub(crate) offsets: Vec<u64>,
    pub(crate) slots: Vec<u64>,
}

impl Starts {
    /// No fields.
    fn new(alloc: Heap) -> Starts
        ensures offsets { result.offsets.items ≡ [] }
        ensures slots { result.slots.items ≡ [] }
    {
        Starts {
            offsets: Vec::new(alloc),
            slots: Vec::new(alloc),
        }
    }

    /// Adds a field.
    fn push(&mut self, offset: u64, slot: u64) -> Result<(), OutOfMemory>
        ensures offsets { OnOk result (self.new.offsets.items ≡ self.old.offsets.items ++ offset ∷ []) }
        ensures slots { OnOk result (self.new.slots.items ≡ self.old.slots.items ++ slot ∷ []) }
    {
        self.offsets.push(offset)?;
        self.slots.push(slot)?;
        Ok(())
    }
}

/// A struct with its number, its extent, and where its fields begin.
#[derive(Drop)]
pub(crate) struct Kept<'a> {
    pub(crate) definition: &'a StructDef,
    /// How many structs stand before it.
    pub(crate) number: usize,
    pub(crate) extent: Extent,
    pub(crate) starts: Starts,
}

/// Structs in file order, each found by its name: no two have one name, and none is larger than 2^24 bytes. What they say of a variable is the layout rule of docs/LANGUAGE.md: a scalar of n bytes has alignment n,
/// each field lies at the next multiple of its alignment, a struct's size is rounded up to its greatest alignment, and the elements of an array touch. The name of a struct that is not there stands for 0 bytes.
#[derive(Drop)]
pub struct Structs<'a> {
    pub(crate) map: IndexMap<&'a [u8], Kept<'a>>,
}

impl<'a> Model for Structs<'a> {
    ghost use Rattle.std.specs.Prelude.{List, []};
    ghost use Rattle.gimple_ir.specs.declared.declarations.StructDef.{StructDef};
    ghost use Rattle.struct_tables.specs.Sizes.{definitions, AreKept};

    ghost Value = { List StructDef };

    ghost view = { λ t. definitions t.map.entries };

    ghost invariant = { λ t. AreKept [] t.map.entries };
}

impl<'a> Structs<'a> {
    /// No structs.
    pub fn new(alloc: Heap) -> Structs<'a>
        ensures { result ≡ [] }
    {
        Structs {
            map: IndexMap::new(alloc),
        }
    }

    /// These structs, of which each has a name that none before it has and is at most 2^24 bytes large, as in an accepted program. Err is want of memory.
    pub fn of(alloc: Heap, structs: &'a [StructDef]) -> Result<Structs<'a>, OutOfMemory>
        requires { HaveTable structs.now }
        ensures { IfOk result (λ s. s ≡ structs.now) }
    {
        let mut table = Structs::new(alloc);
        let mut rest = structs;
        while let [next, after @ ..] = rest {
            table.push(next)?;
            rest = after;
        }
        Ok(table)
    }

    /// Whether a struct has this name.
    pub fn has(&self, name: &[u8]) -> bool
        ensures { result ≡ has name.now (structs_by_name self.now) }
    {
        self.map.contains_key(name)
    }

    /// The struct of this name, where it is one of the first.
    pub(crate) fn found(&self, bound: usize, name: &Text) -> Option<&Kept<'a>>
        ensures { IsFirst self.now bound name.now (option_copied result) }
    {
        match self.map.get(name.as_slice()) {
            Some(kept) => {
                if kept.number < bound {
                    return Some(kept);
                }
                None
            }
            None => None,
        }
    }

    /// The extent of an element of this shape, where only the first structs are there.
    fn element(&self, bound: usize, shape: &Shape) -> Extent
        ensures { result ≡ extent_of (shape_layout (first_layouts bound self.now) shape.now) }
    {
        match shape {
            Shape::Plain(scalar) => {
                let width = u64::from(bits(*scalar) / 8);
                Extent {
                    size: width,
                    align: width,
                    slots: 1,
                }
            }
            Shape::Named(name) => match self.found(bound, name) {
                Some(kept) => kept.extent,
                None => Extent {
                    size: 0,
                    align: 1,
                    slots: 0,
                },
            },
        }
    }

    /// The same, with the bounds that each extent keeps.
    pub(crate) fn extent_before(&self, bound: usize, shape: &Shape) -> Extent
        ensures same { result ≡ extent_of (shape_layout (first_layouts bound self.now) shape.now) }
        ensures least { 1 ≤ result.align }
        ensures most { result.align ≤ 8 }
        ensures dense { result.slots ≤ result.size }
        ensures small { result.size ≤ 16777216 }
    {
        let _ = &self.map;
        self.element(bound, shape)
    }

    /// How large a value of this shape is; one of a struct that is not there has 0 bytes, aligned to 1, and no slots.
    pub fn extent(&self, shape: &Shape) -> Extent
        ensures same { result ≡ extent_of (shape_layout (struct_layouts [] self.now) shape.now) }
        ensures least { 1 ≤ result.align }
        ensures most { result.align ≤ 8 }
        ensures dense { result.slots ≤ result.size }
        ensures small { result.size ≤ 16777216 }
    {
        self.extent_before(self.map.len(), shape)
    }

    /// The size of a variable in bytes: that of a value of its shape, times its length.
    #[tactic(auto, unfolding(gimple_core::specs::Layout::layout_of))]
    pub fn size_of(&self, decl: &Decl) -> u128
        ensures { result ≡ (layout_of self.now decl.now).size }
    {
        end_of(0, count_of(decl.length), self.extent(&decl.shape).size)
    }

    /// Whether a variable has at least so many slots.
    #[tactic(auto, unfolding(gimple_core::specs::Layout::layout_of), using(crate::proofs::SizeLemmas::repeated_length))]
    pub fn has_slots(&self, decl: &Decl, least: usize) -> bool
        ensures { result ≡ nat_le least (length (layout_of self.now decl.now).slots) }
    {
        let slots = u128::from(count_of(decl.length)) * u128::from(self.extent(&decl.shape).slots);
        least as u128 <= slots
    }

    /// An extent with one more field, whose start is added to those of the fields before it; None where the field ends behind 2^24 bytes.
    fn with_field(
        &self,
        starts: &mut Starts,
        whole: Extent,
        field: &'a Decl,
    ) -> Result<Option<Extent>, OutOfMemory>
        requires size { whole.size ≤ 16777216 }
        requires dense { whole.slots ≤ whole.size }
        ensures extent { IfOk result (IsBounded (extent_with (struct_layouts [] self.now) whole field.now)) }
        ensures dense { IfOk result (λ o. IfSome o (λ e. e.slots ≤ e.size)) }
        ensures least { IfOk result (λ o. IfSome o (λ e. whole.align ≤ e.align)) }
        ensures most { IfOk result (λ o. IfSome o (λ e. whole.align ≤ 8 → e.align ≤ 8)) }
        ensures offsets { IfOk result (λ o. IfSome o (λ e. starts.new.offsets.items ≡ starts.old.offsets.items ++ field_start (struct_layouts [] self.now) whole.size field.now ∷ [])) }
        ensures slots { IfOk result (λ o. IfSome o (λ e. starts.new.slots.items ≡ starts.old.slots.items ++ whole.slots ∷ [])) }
    {
        let one = self.extent(&field.shape);
        let count = count_of(field.length);
        let offset = next_multiple(whole.size, one.align);
        let size = end_of(offset, count, one.size);
        if size > 16777216 {
            return Ok(None);
        }
        starts.push(offset, whole.slots)?;
        Ok(Some(Extent {
            size: size as u64,
            align: whole.align.max(one.align),
            slots: whole.slots + count * one.slots,
        }))
    }

    /// The extent of a struct of these fields behind these structs, and where each field begins; None where it is larger than 2^24 bytes.
    fn of_fields(
        &self,
        starts: &mut Starts,
        fields: &'a [Decl],
    ) -> Result<Option<Extent>, OutOfMemory>
        ensures extent { IfOk result (IsBounded (extent_of (with_fields (struct_layouts [] self.now) empty_layout fields.now))) }
        ensures offsets { IfOk result (λ o. IfSome o (λ e. starts.new.offsets.items ≡ starts.old.offsets.items ++ field_starts (struct_layouts [] self.now) 0 fields.now)) }
        ensures slots { IfOk result (λ o. IfSome o (λ e. starts.new.slots.items ≡ starts.old.slots.items ++ slots_before (struct_layouts [] self.now) 0 fields.now)) }
    {
        let _ = &self.map;
        let mut whole = Extent {
            size: 0,
            align: 1,
            slots: 0,
        };
        let mut rest = fields;
        while let [next, after @ ..] = rest {
            match self.with_field(starts, whole, next)? {
                Some(more) => whole = more,
                None => return Ok(None),
            }
            rest = after;
        }
        Ok(rounded(whole))
    }

    /// Adds a struct of a new name behind the others, unless it is larger than 2^24 bytes: Ok says whether it was added. Err is want of memory, and nothing was added.
    pub fn push(&mut self, definition: &'a StructDef) -> Result<bool, OutOfMemory>
        requires new { has definition.now.name (structs_by_name self.old) ≡ false }
        ensures fits { IfOk result (λ added. added ≡ is_size (struct_size self.old definition.now.fields)) }
        ensures more { IfOk result (λ added. self.new ≡ (if added then self.old ++ definition.now ∷ [] else self.old)) }
        ensures err { OnErr result (self.new ≡ self.old) }
    {
        let mut starts = Starts::new(*self.map.allocator());
        match self.of_fields(&mut starts, definition.fields.as_slice())? {
            Some(extent) => {
                self.keep(definition, extent, starts)?;
                Ok(true)
            }
            None => Ok(false),
        }
    }

    /// Keeps a struct of a new name, with its extent and where its fields begin.
    fn keep(
        &mut self,
        definition: &'a StructDef,
        extent: Extent,
        starts: Starts,
    ) -> Result<(), OutOfMemory>
        requires new { has definition.now.name (structs_by_name self.old) ≡ false }
        requires same { extent ≡ extent_of (with_fields (struct_layouts [] self.old) empty_layout definition.now.fields) }
        requires small { struct_size self.old definition.now.fields ≤ 16777216 }
        requires offsets { starts.offsets.items ≡ field_starts (struct_layouts [] self.old) 0 definition.now.fields }
        requires slots { starts.slots.items ≡ slots_before (struct_layouts [] self.old) 0 definition.now.fields }
        ensures more { OnOk result (self.new ≡ self.old ++ definition.now ∷ []) }
        ensures err { OnErr result (self.new ≡ self.old) }
    {
        let kept = Kept {
            definition,
            number: self.map.len(),
            extent,
            starts,
        };
        self.map.insert(definition.name.as_slice(), kept)?;
        Ok(())
    }
}

/// The length of an array, and 1 for what is none.
pub(crate) fn count_of(length: Option<u64>) -> u64
    ensures { result ≡ count_of length }
{
    match length {
        Some(count) => count,
        None => 1,
    }
}

/// Where some items of a size end.
pub(crate) fn end_of(start: u64, count: u64, size: u64) -> u128
    ensures { result ≡ start + count * size }
{
    u128::from(start) + u128::from(count) * u128::from(size)
}

/// The least multiple of an alignment that is not below a number.
fn next_multiple(n: u64, align: u64) -> u64
    requires n { n < 2 ^ 63 }
    requires least { 1 ≤ align }
    requires most { align ≤ 8 }
    ensures same { result ≡ round_up n align }
    ensures near { result < n + 8 }
{
    (n + (align - 1)) / align * align
}

/// The extent of a struct whose fields end here: up to a multiple of its alignment; None where that is behind 2^24 bytes.
fn rounded(whole: Extent) -> Option<Extent>
    requires size { whole.size ≤ 16777216 }
    requires least { 1 ≤ whole.align }
    requires most { whole.align ≤ 8 }
    ensures { IsBounded (extent_rounded whole) result }
{
    let size = next_multiple(whole.size, whole.align);
    if size > 16777216 {
        return None;
    }
    Some(Extent {
        size,
        align: whole.align,
        slots: whole.slots,
    })
}
