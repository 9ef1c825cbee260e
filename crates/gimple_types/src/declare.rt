//! Checks of structs, globals and the names of functions.

ghost use Rattle.std.specs.Prelude.{◌≡◌, [], ◌∷◌, ◌++◌, ◌+◌, ◌<◌, ◌≤◌, ◌^◌, length, OnOk};
ghost use Rattle.std.specs.List.{list_any, All};
ghost use Rattle.gimple_ir.specs.declared.program.Function.{Function};
ghost use Rattle.gimple_ir.specs.Size.{size_of_function};
ghost use Rattle.gimple_core.specs.Declarations as spec;
ghost use Rattle.gimple_core.specs.Env.{has, globals_by_name, structs_by_name};
ghost use Rattle.gimple_types.specs.Seen.{known_of, seen};
ghost use Rattle.gimple_types.specs.Verdicts.{Becomes, Finds, Gives, Judges};

use crate::env::{Env, Known, Own};
use crate::names::{Labels, Table};
use crate::refusal::{Fail, Refusal, at, at_site, demand};
use crate::statements::blocks;
use crate::structs::sized;
use gimple_core::{Block, Decl, Function, Global, Register, Scalar, Shape, Site, TypeFault};
use std::alloc::Global as Heap;
use struct_tables::Structs;

/// The struct that a variable names is there.
pub(crate) fn known_shape<'a>(structs: &Structs<'a>, shape: &'a Shape) -> Result<(), u8>
    ensures { result ≡ spec.known_shape (structs_by_name structs.now) shape.now }
{
    match shape {
        Shape::Plain(_) => Ok(()),
        Shape::Named(name) => demand(structs.has(name.as_slice()), 1),
    }
}

/// A function's name is no global's and no earlier function's.
#[tactic(auto, unfolding(gimple_core::specs::Declarations::head))]
fn head<'a>(
    globals: &Table<'a, Global>,
    functions: &mut Table<'a, Function>,
    function: &'a Function,
) -> Result<(), Fail>
    ensures { Becomes (spec.head globals.now functions.old function.now) result functions.new }
{
    let name = function.name.as_slice();
    demand(!globals.has(name), 2)?;
    functions.declare(name, function)
}

/// Adds the functions in order, after the checks of their heads.
#[tactic(auto, unfolding(gimple_core::specs::Declarations::heads))]
fn add_heads<'a>(
    globals: &Table<'a, Global>,
    functions: &mut Table<'a, Function>,
    items: &'a [Function],
) -> Result<(), Refusal>
    requires { length items.now < 2 ^ 32 }
    ensures { Judges (spec.heads globals.now 0 functions.old items.now) result functions.new }
{
    let mut number = 0;
    let mut rest = items;
    while let [next, after @ ..] = rest {
        match head(globals, functions, next) {
            Ok(()) => {}
            Err(fail) => {
                let site = Site::Statement {
                    function: number,
                    number: 0,
                };
                return Err(at_site(site, fail));
            }
        }
        number += 1;
        rest = after;
    }
    Ok(())
}

/// The functions of a program under their names, after the checks of their heads.
pub(crate) fn heads<'a>(
    alloc: Heap,
    globals: &Table<'a, Global>,
    items: &'a [Function],
) -> Result<Table<'a, Function>, Refusal>
    requires { length items.now < 2 ^ 32 }
    ensures { Gives (spec.heads globals.now 0 [] items.now) result }
{
    let mut functions = Table::new(alloc);
    add_heads(globals, &mut functions, items)?;
    Ok(functions)
}

/// Whether formals and a result are those of `main`.
fn is_main(formals: &[Register], result_scalar: Option<Scalar>) -> bool
    ensures { result ≡ spec.is_main formals.now result_scalar }
{
    formals.is_empty() && matches!(result_scalar, Some(Scalar::I32))
}

/// The function `main` is there, and is `i32 main ()`.
#[tactic(auto, unfolding(gimple_core::specs::Declarations::main))]
pub(crate) fn main_function(items: &[Function]) -> Result<(), TypeFault>
    requires { length items.now < 2 ^ 32 }
    ensures { result ≡ spec.main 0 items.now }
{
    let mut number = 0;
    let mut rest = items;
    while let [next, after @ ..] = rest {
        if b"main".as_slice() == next.name.as_slice() {
            let site = Site::Statement {
                function: number,
                number: 0,
            };
            return at(
                site,
                demand(is_main(next.params.as_slice(), next.result), 3),
            );
        }
        number += 1;
        rest = after;
    }
    at(Site::Whole, Err(3))
}

/// A name that is no global's and no function's.
#[tactic(auto, unfolding(gimple_core::specs::Declarations::is_free))]
fn is_free<'a>(known: &Known<'a>, own: &Own<'a>, name: &'a [u8]) -> Result<(), u8>
    ensures { result ≡ spec.is_free (seen known.now own.now) known.now.functions name.now }
{
    let _ = own;
    demand(!known.globals.has(name), 2)?;
    demand(!known.functions.has(name), 2)
}

#[tactic(auto, unfolding(gimple_core::specs::Declarations::register))]
fn register<'a>(known: &Known<'a>, own: &mut Own<'a>, register: &'a Register) -> Result<(), Fail>
    ensures { Becomes (spec.register (seen known.now own.old) known.now.functions register.now) result (seen known.now own.new) }
{
    let name = register.name.as_slice();
    is_free(known, own, name)?;
    demand(!own.locals.has(name), 2)?;
    own.registers.declare(name, register)?;
    Ok(())
}

/// Adds formals or registers in order.
#[tactic(auto, unfolding(gimple_core::specs::Declarations::registers))]
fn registers<'a>(known: &Known<'a>, own: &mut Own<'a>, items: &'a [Register]) -> Result<(), Fail>
    ensures { Becomes (spec.registers (seen known.now own.old) known.now.functions items.now) result (seen known.now own.new) }
{
    let mut rest = items;
    while let [next, after @ ..] = rest {
        register(known, own, next)?;
        rest = after;
    }
    Ok(())
}

#[tactic(auto, unfolding(gimple_core::specs::Declarations::local))]
fn local<'a>(known: &Known<'a>, own: &mut Own<'a>, decl: &'a Decl) -> Result<(), Fail>
    ensures { Becomes (spec.local (seen known.now own.old) known.now.functions decl.now) result (seen known.now own.new) }
{
    let name = decl.name.as_slice();
    is_free(known, own, name)?;
    demand(!own.registers.has(name), 2)?;
    own.locals.declare(name, decl)?;
    known_shape(&known.structs, &decl.shape)?;
    sized(&known.structs, decl)?;
    Ok(())
}

/// Adds locals in order.
#[tactic(auto, unfolding(gimple_core::specs::Declarations::locals))]
fn locals<'a>(known: &Known<'a>, own: &mut Own<'a>, items: &'a [Decl]) -> Result<(), Fail>
    ensures { Becomes (spec.locals (seen known.now own.old) known.now.functions items.now) result (seen known.now own.new) }
{
    let mut rest = items;
    while let [next, after @ ..] = rest {
        local(known, own, next)?;
        rest = after;
    }
    Ok(())
}

/// Adds the labels of blocks, none of which may stand twice.
#[tactic(auto, unfolding(gimple_core::specs::Declarations::labels))]
fn labels(own: &mut Labels, items: &[Block]) -> Result<(), Fail>
    ensures { Becomes (spec.labels own.old items.now) result own.new }
{
    let mut rest = items;
    while let [next, after @ ..] = rest {
        own.declare(next.label)?;
        rest = after;
    }
    Ok(())
}

/// What a function sees: its formals, locals and registers in order, then its labels.
#[tactic(auto, unfolding(gimple_core::specs::Declarations::own))]
fn own<'a>(alloc: Heap, known: &Known<'a>, function: &'a Function) -> Result<Own<'a>, Fail>
    ensures { Finds (spec.own (known_of known.now) known.now.functions function.now) result (seen known.now) }
{
    let mut own = Own {
        locals: Table::new(alloc),
        registers: Table::new(alloc),
        labels: Labels::new(alloc),
        result: function.result,
    };
    registers(known, &mut own, function.params.as_slice())?;
    locals(known, &mut own, function.locals.as_slice())?;
    registers(known, &mut own, function.registers.as_slice())?;
    demand(!function.blocks.is_empty(), 10)?;
    labels(&mut own.labels, function.blocks.as_slice())?;
    Ok(own)
}

#[tactic(auto, unfolding(gimple_core::specs::Declarations::one_function))]
fn function<'a>(
    alloc: Heap,
    known: &Known<'a>,
    number: u32,
    item: &'a Function,
) -> Result<(), Refusal>
    requires { size_of_function item.now < 2 ^ 32 }
    ensures { Judges (spec.one_function (known_of known.now) known.now.functions number item.now) result tt }
{
    let own = match own(alloc, known, item) {
        Ok(own) => own,
        Err(fail) => {
            let site = Site::Statement {
                function: number,
                number: 0,
            };
            return Err(at_site(site, fail));
        }
    };
    let env = Env { known, own: &own };
    blocks(alloc, &env, number, 1, item.blocks.as_slice())
}

/// The checks of each function in order.
#[tactic(auto, unfolding(gimple_core::specs::Declarations::functions))]
pub(crate) fn functions<'a>(
    alloc: Heap,
    known: &Known<'a>,
    items: &'a [Function],
) -> Result<(), Refusal>
    requires few { length items.now < 2 ^ 32 }
    requires short { All (λ (f : Function). size_of_function f < 2 ^ 32) items.now }
    ensures { Judges (spec.functions (known_of known.now) known.now.functions 0 items.now) result tt }
{
    let mut number = 0;
    let mut rest = items;
    while let [next, after @ ..] = rest {
        function(alloc, known, number, next)?;
        number += 1;
        rest = after;
    }
    Ok(())
}
