//! Checks of globals and their items.

ghost use Rattle.std.specs.Prelude.{◌≡◌, [], ◌+◌, ◌<◌, ◌^◌, length, IfOk, OnOk};
ghost use Rattle.gimple_core.specs.Declarations as spec;
ghost use Rattle.gimple_core.specs.Env.{has, is_target, targets_of, globals_by_name, functions_by_name};
ghost use Rattle.gimple_core.specs.Layout.{layout_of};
ghost use Rattle.struct_tables.specs.Sizes.{scalar_at};
ghost use Rattle.gimple_types.specs.Addresses.{item_address};
ghost use Rattle.gimple_types.specs.Items.{slot_item, items_from};
ghost use Rattle.gimple_types.specs.Tables.{first_of_each};
ghost use Rattle.gimple_types.specs.Verdicts.{Becomes, Gives, Judges};

use crate::declare::known_shape;
use crate::names::Table;
use crate::refusal::{Fail, Refusal, at_site, demand};
use crate::scalars::is_pointer;
use crate::structs::sized;
use gimple_core::{Decl, Function, Global, Operand, OutOfMemory, Program, Scalar, Site, fits};
use std::alloc::Global as Heap;
use std::marker::Model;
use struct_tables::Structs;

/// What the items of a program's globals may address: all globals, and in profile 2 all functions. Two may have one name.
#[derive(Drop)]
struct Everywhere<'a> {
    globals: &'a [Global],
    functions: &'a [Function],
    has_targets: bool,
    global_names: Table<'a, Global>,
    function_names: Table<'a, Function>,
}

impl<'a> Model for Everywhere<'a> {
    ghost use Rattle.std.specs.Prelude.{◌≡◌, []};
    ghost use Rattle.gimple_core.specs.Env.{globals_by_name, functions_by_name};
    ghost use Rattle.gimple_types.specs.Seen.{Addressable, targets_if};
    ghost use Rattle.gimple_types.specs.Tables.{first_of_each};

    ghost Value = { Addressable };

    ghost view = { λ t. record { globals = globals_by_name t.globals.now; targets = targets_if t.has_targets (functions_by_name t.functions.now) } };

    ghost invariant = { λ t. (t.global_names ≡ first_of_each [] (globals_by_name t.globals.now)) × (t.function_names ≡ first_of_each [] (functions_by_name t.functions.now)) };
}

impl<'a> Everywhere<'a> {
    /// What the items of this program may address.
    fn new(alloc: Heap, program: &'a Program) -> Result<Everywhere<'a>, OutOfMemory>
        ensures globals { IfOk result (λ t. t.globals ≡ globals_by_name program.now.globals) }
        ensures targets { IfOk result (λ t. t.targets ≡ targets_of program.now) }
    {
        let globals = program.globals.as_slice();
        let functions = program.functions.as_slice();
        let mut global_names = Table::new(alloc);
        note_globals(&mut global_names, globals)?;
        let mut function_names = Table::new(alloc);
        note_functions(&mut function_names, functions)?;
        Ok(Everywhere {
            globals,
            functions,
            has_targets: program.profile == 2,
            global_names,
            function_names,
        })
    }

    /// Whether a global has this name.
    #[tactic(auto, using(crate::proofs::TableLemmas::has_first))]
    fn has_global(&self, name: &'a [u8]) -> bool
        ensures { result ≡ has name.now self.now.globals }
    {
        self.global_names.has(name)
    }

    /// Whether a function that may be addressed has this name.
    fn is_target(&self, name: &'a [u8]) -> bool
        ensures { result ≡ is_target self.now.targets name.now }
    {
        if self.has_targets {
            self.function_names.has(name)
        } else {
            false
        }
    }
}

/// Adds globals to a table; of two with one name the first counts.
#[tactic(auto, unfolding(crate::specs::Tables::first_of_each))]
fn note_globals<'a>(table: &mut Table<'a, Global>, items: &'a [Global]) -> Result<(), OutOfMemory>
    ensures { OnOk result (table.new ≡ first_of_each table.old (globals_by_name items.now)) }
{
    let mut rest = items;
    while let [next, after @ ..] = rest {
        table.note(next.decl.name.as_slice(), next)?;
        rest = after;
    }
    Ok(())
}

/// Adds functions to a table; of two with one name the first counts.
#[tactic(auto, unfolding(crate::specs::Tables::first_of_each))]
fn note_functions<'a>(
    table: &mut Table<'a, Function>,
    items: &'a [Function],
) -> Result<(), OutOfMemory>
    ensures { OnOk result (table.new ≡ first_of_each table.old (functions_by_name items.now)) }
{
    let mut rest = items;
    while let [next, after @ ..] = rest {
        table.note(next.name.as_slice(), next)?;
        rest = after;
    }
    Ok(())
}

/// The address of a name with an offset.
fn address<'a>(all: &Everywhere<'a>, name: &'a [u8], offset: i128) -> Result<(), u8>
    ensures { result ≡ item_address all.now name.now offset }
{
    let global = all.has_global(name);
    let function = all.is_target(name);
    demand(fits(Scalar::I64, offset), 13)?;
    demand(global || !function || offset == 0, 11)?;
    demand(global || function, 1)
}

/// An item against the scalar of its slot.
#[tactic(auto, unfolding(gimple_core::specs::Declarations::item))]
fn item<'a>(all: &Everywhere<'a>, scalar: Scalar, x: &'a Operand) -> Result<(), u8>
    ensures { result ≡ spec.item all.now.targets all.now.globals scalar x.now }
{
    match x {
        Operand::Reg(_) => Err(1),
        Operand::Number(z) => {
            demand(!is_pointer(scalar), 4)?;
            demand(fits(scalar, *z), 13)
        }
        Operand::Null => demand(is_pointer(scalar), 4),
        Operand::Address { variable, offset } => {
            demand(is_pointer(scalar), 4)?;
            address(all, variable.as_slice(), *offset)
        }
    }
}

/// An item against the slot of its number, if there is one.
fn slot_item<'a>(
    structs: &Structs<'a>,
    all: &Everywhere<'a>,
    decl: &'a Decl,
    number: usize,
    x: &'a Operand,
) -> Result<(), u8>
    ensures { result ≡ slot_item all.now.targets all.now.globals (scalar_at (layout_of structs.now decl.now).slots number) x.now }
{
    match structs.slot_scalar(decl, number) {
        Some(scalar) => item(all, scalar, x),
        None => Ok(()),
    }
}

/// Each item of a global against its slot.
#[tactic(auto, unfolding(crate::specs::Items::items_from))]
fn items<'a>(
    structs: &Structs<'a>,
    all: &Everywhere<'a>,
    decl: &'a Decl,
    xs: &'a [Operand],
) -> Result<(), u8>
    ensures { result ≡ items_from all.now.targets all.now.globals (layout_of structs.now decl.now).slots 0 xs.now }
{
    let mut number = 0;
    let mut rest = xs;
    while let [next, after @ ..] = rest {
        slot_item(structs, all, decl, number, next)?;
        number += 1;
        rest = after;
    }
    Ok(())
}

#[tactic(auto, unfolding(gimple_core::specs::Declarations::one_global))]
fn one_global<'a>(
    structs: &Structs<'a>,
    all: &Everywhere<'a>,
    earlier: &mut Table<'a, Global>,
    global: &'a Global,
) -> Result<(), Fail>
    ensures { Becomes (spec.one_global structs.now all.now.targets all.now.globals earlier.old global.now) result earlier.new }
{
    earlier.declare(global.decl.name.as_slice(), global)?;
    known_shape(structs, &global.decl.shape)?;
    sized(structs, &global.decl)?;
    demand(structs.has_slots(&global.decl, global.items.len()), 11)?;
    items(structs, all, &global.decl, global.items.as_slice())?;
    Ok(())
}

/// Adds the globals in order, after their checks.
#[tactic(auto, unfolding(gimple_core::specs::Declarations::globals))]
fn add_globals<'a>(
    structs: &Structs<'a>,
    all: &Everywhere<'a>,
    earlier: &mut Table<'a, Global>,
    items: &'a [Global],
) -> Result<(), Refusal>
    requires { length items.now < 2 ^ 32 }
    ensures { Judges (spec.globals structs.now all.now.targets all.now.globals 0 earlier.old items.now) result earlier.new }
{
    let mut number = 0;
    let mut rest = items;
    while let [next, after @ ..] = rest {
        match one_global(structs, all, earlier, next) {
            Ok(()) => {}
            Err(fail) => return Err(at_site(Site::Global(number), fail)),
        }
        number += 1;
        rest = after;
    }
    Ok(())
}

/// The globals of a program under their names, after their checks.
pub(crate) fn globals<'a>(
    alloc: Heap,
    structs: &Structs<'a>,
    program: &'a Program,
) -> Result<Table<'a, Global>, Refusal>
    requires { length program.now.globals < 2 ^ 32 }
    ensures { Gives (spec.globals structs.now (targets_of program.now) (globals_by_name program.now.globals) 0 [] program.now.globals) result }
{
    let all = match Everywhere::new(alloc, program) {
        Ok(all) => all,
        Err(failed) => return Err(Refusal::Memory(failed)),
    };
    let mut earlier = Table::new(alloc);
    add_globals(structs, &all, &mut earlier, program.globals.as_slice())?;
    Ok(earlier)
}
