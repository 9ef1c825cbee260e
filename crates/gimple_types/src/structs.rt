//! Checks of structs and of the sizes of variables.

ghost use Rattle.std.specs.Prelude.{◌≡◌, ◌<◌, ◌^◌, [], ◌∷◌, ◌++◌, length, OnOk, IfOk};
ghost use Rattle.gimple_core.specs.Env.{has, structs_by_name};
ghost use Rattle.gimple_core.specs.Declarations as spec;
ghost use Rattle.gimple_types.specs.Tables.{AreAmong};
ghost use Rattle.gimple_types.specs.Verdicts.{Becomes, Judges};

use crate::names::Table;
use crate::refusal::{Fail, Refusal, at_site, demand};
use gimple_core::{Decl, Shape, Site, StructDef, Text};
use std::alloc::Global as Heap;
use struct_tables::Structs;

/// A variable's length is not 0, and its size at most 2^24.
#[tactic(auto, unfolding(gimple_core::specs::Declarations::sized))]
pub(crate) fn sized<'a>(structs: &Structs<'a>, decl: &'a Decl) -> Result<(), u8>
    ensures { result ≡ spec.sized structs.now decl.now }
{
    demand(!matches!(decl.length, Some(0)), 12)?;
    demand(structs.size_of(decl) <= 16777216, 12)
}

/// Whether a struct of this name stands in a list.
fn stands(all: &[StructDef], name: &Text) -> bool
    ensures { result ≡ has name.now (structs_by_name all.now) }
{
    let mut rest = all;
    while let [next, after @ ..] = rest {
        if name.as_slice() == next.name.as_slice() {
            return true;
        }
        rest = after;
    }
    false
}

/// The struct that a field names is an earlier one.
fn earlier_shape<'a>(
    earlier: &Structs<'a>,
    all: &'a [StructDef],
    shape: &'a Shape,
) -> Result<(), u8>
    requires { AreAmong earlier.now all.now }
    ensures { result ≡ spec.earlier_shape (structs_by_name all.now) (structs_by_name earlier.now) shape.now }
{
    match shape {
        Shape::Plain(_) => Ok(()),
        Shape::Named(name) => {
            if earlier.has(name.as_slice()) {
                return Ok(());
            }
            demand(stands(all, name), 1)?;
            Err(15)
        }
    }
}

/// The fields of a struct in order.
#[tactic(auto, unfolding(gimple_core::specs::Declarations::fields))]
fn fields<'a>(
    alloc: Heap,
    earlier: &Structs<'a>,
    all: &'a [StructDef],
    items: &'a [Decl],
) -> Result<(), Fail>
    requires { AreAmong earlier.now all.now }
    ensures { Becomes (spec.fields all.now earlier.now [] items.now) result tt }
{
    let mut seen = Table::new(alloc);
    let mut rest = items;
    while let [next, after @ ..] = rest {
        seen.declare(next.name.as_slice(), next)?;
        earlier_shape(earlier, all, &next.shape)?;
        sized(earlier, next)?;
        rest = after;
    }
    Ok(())
}

/// Adds a struct, after its checks.
#[tactic(auto, unfolding(gimple_core::specs::Declarations::one_struct))]
fn one_struct<'a>(
    alloc: Heap,
    earlier: &mut Structs<'a>,
    all: &'a [StructDef],
    definition: &'a StructDef,
) -> Result<(), Fail>
    requires { AreAmong earlier.old all.now }
    ensures verdict { Becomes (spec.one_struct all.now earlier.old definition.now) result tt }
    ensures more { OnOk result (earlier.new ≡ earlier.old ++ definition.now ∷ []) }
{
    demand(!earlier.has(definition.name.as_slice()), 2)?;
    fields(alloc, earlier, all, definition.fields.as_slice())?;
    demand(!definition.fields.is_empty(), 12)?;
    demand(earlier.push(definition)?, 12)?;
    Ok(())
}

/// The checks of each struct in order, and the structs.
#[tactic(auto, unfolding(gimple_core::specs::Declarations::structs), using(crate::proofs::StructLemmas::among_more))]
pub(crate) fn all_structs<'a>(alloc: Heap, items: &'a [StructDef]) -> Result<Structs<'a>, Refusal>
    requires { length items.now < 2 ^ 32 }
    ensures verdict { Judges (spec.structs items.now 0 [] items.now) result tt }
    ensures all { IfOk result (λ s. s ≡ items.now) }
{
    let mut earlier = Structs::new(alloc);
    let mut number = 0;
    let mut rest = items;
    while let [next, after @ ..] = rest {
        match one_struct(alloc, &mut earlier, items, next) {
            Ok(()) => {}
            Err(fail) => return Err(at_site(Site::Struct(number), fail)),
        }
        number += 1;
        rest = after;
    }
    Ok(earlier)
}
