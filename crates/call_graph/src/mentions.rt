//! What each function of a program calls by name or addresses.

ghost use Rattle.std.specs.Prelude.{◌≡◌, ℕ, ◌<◌, ◌^◌, ◌++◌, [], ◌∷◌, length, map, IfOk, OnOk};
ghost use Rattle.gimple_ir.specs.Size.{size_of_program};
ghost use Rattle.call_graph.specs.Addresses.{function_addresses, item_addresses};
ghost use Rattle.call_graph.specs.Reached.{address_rows, longer_at, mentions_of};
ghost use Rattle.call_graph.specs.Walk.{listed, row_at};

use crate::addresses::{push_function, push_items};
use crate::calls::edges;
use crate::names::main_number;
use crate::rows::add_edges;
use gimple_core::{Checked, Function, Global, OutOfMemory};
use name_tables::NamedFunctions;
use std::alloc::Global as Heap;

/// What each function of a program addresses, and behind it what it calls by name. What items of globals address stands
/// with `main`.
pub fn mentions(alloc: Heap, program: &Checked) -> Result<Vec<Vec<u32>>, OutOfMemory>
    requires few { length program.now.program.functions < 2 ^ 32 }
    requires size { size_of_program program.now.program < 2 ^ 32 }
    ensures one_each { IfOk result (λ rows. length rows.items ≡ length program.now.program.functions) }
    ensures rows { IfOk result (λ rows. (a : ℕ) → row_at rows.items a ≡ mentions_of program.now.program a) }
{
    let mut rows = address_rows(alloc, program)?;
    let edges = edges(alloc, program)?;
    add_edges(&mut rows, edges.as_slice())?;
    Ok(rows)
}

/// What each function of a program addresses. What items of globals address stands with `main`.
fn address_rows(alloc: Heap, program: &Checked) -> Result<Vec<Vec<u32>>, OutOfMemory>
    requires { length program.now.program.functions < 2 ^ 32 }
    ensures { IfOk result (λ rows. listed rows.items ≡ address_rows program.now.program) }
{
    let functions = program.program().functions.as_slice();
    let globals = program.program().globals.as_slice();
    let named = NamedFunctions::new(alloc, functions)?;
    let mut rows = body_rows(alloc, &named, functions)?;
    add_items(&mut rows, main_number(functions), &named, globals)?;
    Ok(rows)
}

/// What each of these functions addresses.
fn body_rows(
    alloc: Heap,
    functions: &NamedFunctions<'_>,
    bodies: &[Function],
) -> Result<Vec<Vec<u32>>, OutOfMemory>
    requires { length functions.now < 2 ^ 32 }
    ensures { IfOk result (λ rows. listed rows.items ≡ map (function_addresses functions.now) bodies.now) }
{
    let mut rows = Vec::new(alloc);
    for function in bodies {
        push_row(alloc, &mut rows, functions, function)?;
    }
    Ok(rows)
}

fn push_row(
    alloc: Heap,
    rows: &mut Vec<Vec<u32>>,
    functions: &NamedFunctions<'_>,
    function: &Function,
) -> Result<(), OutOfMemory>
    requires { length functions.now < 2 ^ 32 }
    ensures { OnOk result (listed rows.new.items ≡ listed rows.old.items ++ function_addresses functions.now function.now ∷ []) }
{
    let mut row = Vec::new(alloc);
    push_function(functions, function, &mut row)?;
    rows.push(row)?;
    Ok(())
}

/// What items of globals address stands with a node too.
fn add_items(
    rows: &mut Vec<Vec<u32>>,
    node: usize,
    functions: &NamedFunctions<'_>,
    globals: &[Global],
) -> Result<(), OutOfMemory>
    requires few { length functions.now < 2 ^ 32 }
    requires node { node < length rows.old.items }
    ensures { OnOk result (listed rows.new.items ≡ longer_at node (item_addresses functions.now globals.now) (listed rows.old.items)) }
{
    push_items(functions, globals, &mut rows[node])?;
    Ok(())
}
