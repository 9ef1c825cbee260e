//! Lowered operands and places.

ghost use Rattle.std.specs.Prelude.{◌≡◌, ◌<◌, ◌^◌, length, IfOk};
ghost use Rattle.gimple_core.specs.Operators.{IsWord};
ghost use Rattle.gimple_core.specs.State.{offset_in};
ghost use Rattle.gimple_core.specs.Run.{address_of_global};
ghost use Rattle.gimple_lowered.specs.Names.{names_in, IsNarrow};
ghost use Rattle.gimple_lowered.specs.Lowered.{address_source, source_of, sources_of, pointer_of};

use crate::numbers::{move_by, moved, offset};
use crate::scope::{Scope, register};
use crate::types::{Pointer, Source, Sources};
use gimple_core::{Base, FunctionName, Listed, Object, Operand, OutOfMemory, Place, Text, Value};
use name_tables::NamedGlobals;
use std::alloc::Global as Heap;

/// The address of a global, or the function of a name that no global has.
#[tactic(auto, unfolding(gimple_core::specs::Run::address_of_global))]
pub fn global_address<'t>(globals: &NamedGlobals<'_>, name: &'t Text) -> Value<'t>
    requires { length globals.now < 2 ^ 32 }
    ensures { result ≡ address_of_global globals.now name.now }
{
    match globals.place(name) {
        Some(k) => Value::At {
            object: Object::Global(k as u32),
            offset: 0,
        },
        None => Value::Code(FunctionName::new(name.as_slice())),
    }
}

/// The address of a variable, moved by some bytes, or the function of a name that no variable has.
#[tactic(auto, unfolding(crate::specs::Lowered::address_source))]
fn address<'t>(scope: &Scope<'_>, name: &'t Text, by: i128) -> Source<'t>
    requires narrow { IsNarrow (names_in scope.now) }
    requires word { IsWord by }
    ensures { result ≡ address_source (names_in scope.now) name.now by }
{
    match scope.locals.place(name) {
        Some(k) => Source::Own {
            number: k as u32,
            offset: moved(0, by),
        },
        None => Source::Constant(move_by(&global_address(scope.globals, name), by)),
    }
}

/// An operand.
pub fn source<'t>(scope: &Scope<'_>, from: &'t Operand) -> Source<'t>
    requires { IsNarrow (names_in scope.now) }
    ensures { result ≡ source_of (names_in scope.now) from.now }
{
    match from {
        Operand::Reg(name) => Source::Register(register(scope, name)),
        Operand::Number(z) => Source::Constant(Value::Int(*z)),
        Operand::Null => Source::Constant(Value::Null),
        Operand::Address {
            variable,
            offset: by,
        } => address(scope, variable, offset(*by)),
    }
}

/// The arguments of a call.
pub fn sources<'t>(
    alloc: Heap,
    scope: &Scope<'_>,
    operands: &'t [Operand],
) -> Result<Sources<'t>, OutOfMemory>
    requires { IsNarrow (names_in scope.now) }
    ensures { IfOk result (λ held. held ≡ sources_of (names_in scope.now) operands.now) }
{
    let mut held = Listed::new(alloc);
    for operand in operands {
        held.push(source(scope, operand))?;
    }
    Ok(held)
}

fn narrow_offset(place: &Place) -> i64
    ensures { result ≡ offset_in place.now.offset }
{
    offset(place.offset) as i64
}

fn wide_offset(place: &Place) -> i128
    ensures value { result ≡ offset_in place.now.offset }
    ensures word { IsWord result }
{
    offset(place.offset)
}

/// A place.
pub fn pointer<'t>(scope: &Scope<'_>, place: &'t Place) -> Pointer<'t>
    requires { IsNarrow (names_in scope.now) }
    ensures { result ≡ pointer_of (names_in scope.now) place.now }
{
    match &place.base {
        Base::Reg(name) => Pointer::Moved {
            register: register(scope, name),
            by: narrow_offset(place),
        },
        Base::Variable(name) => Pointer::Fixed(address(scope, name, wide_offset(place))),
    }
}
