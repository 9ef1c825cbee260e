//! Whether 32 bits can number the parts of a program.

ghost use Rattle.std.specs.Prelude.{◌≡◌, ◌↔◌, ◌+◌, ◌<◌, ◌≤◌, ◌^◌, length, sum_by, IsTrue};
ghost use Rattle.std.specs.List.{All};
ghost use Rattle.gimple_ir.specs.Counts.{IsCountable};
ghost use Rattle.gimple_ir.specs.Size.{size_of_function, size_of_program, branches_of_end, branches_of_function};
ghost use Rattle.gimple_types.specs.Counted.{IsBelow, IsNarrow, IsNumbered};

use gimple_core::{End, Function, Program, StructDef};

/// The number, where it is below 2^32.
fn below(number: u128) -> Option<u32>
    ensures { IsBelow number result }
{
    if number < 4294967296 {
        Some(number as u32)
    } else {
        None
    }
}

fn is_below(number: usize) -> bool
    ensures { IsTrue result ↔ (number < 2 ^ 32) }
{
    number < 4294967296
}

/// The size of a function, where it is below 2^32.
fn size_of_function(function: &Function) -> Option<u32>
    ensures { IsBelow (size_of_function function.now) result }
{
    let mut size = 0;
    let mut rest = function.blocks.as_slice();
    while let [next, after @ ..] = rest {
        size = below(u128::from(size) + next.body.len() as u128 + 1)?;
        rest = after;
    }
    Some(size)
}

/// The size of some functions, where it is below 2^32.
fn size_of_functions(functions: &[Function]) -> Option<u32>
    ensures { IsBelow (sum_by size_of_function functions.now) result }
{
    let mut size = 0;
    let mut rest = functions;
    while let [next, after @ ..] = rest {
        let more = size_of_function(next)?;
        size = below(u128::from(size) + u128::from(more))?;
        rest = after;
    }
    Some(size)
}

/// How many branches lead out of a block.
fn branches_of_end(end: &End) -> u128
    ensures same { result ≡ branches_of_end end.now }
    ensures few { result ≤ 2 ^ 64 }
{
    match end {
        End::Goto(_) => 1,
        End::If { .. } => 2,
        End::Switch { cases, .. } => cases.len() as u128 + 1,
        End::Return(_) => 0,
    }
}

/// The number of branches of a function, where it is below 2^32.
fn branches_of_function(function: &Function) -> Option<u32>
    ensures { IsBelow (branches_of_function function.now) result }
{
    let mut branches = 0;
    let mut rest = function.blocks.as_slice();
    while let [next, after @ ..] = rest {
        branches = below(u128::from(branches) + branches_of_end(&next.end))?;
        rest = after;
    }
    Some(branches)
}

#[tactic(auto, unfolding(crate::specs::Counted::IsNumbered))]
fn is_numbered(function: &Function) -> bool
    ensures { IsTrue result ↔ IsNumbered function.now }
{
    if !is_below(function.params.len()) {
        return false;
    }
    if !is_below(function.locals.len()) {
        return false;
    }
    branches_of_function(function).is_some()
}

fn are_narrow(structs: &[StructDef]) -> bool
    ensures { IsTrue result ↔ All IsNarrow structs.now }
{
    let mut rest = structs;
    while let [next, after @ ..] = rest {
        if !is_below(next.fields.len()) {
            return false;
        }
        rest = after;
    }
    true
}

fn are_numbered(functions: &[Function]) -> bool
    ensures { IsTrue result ↔ All IsNumbered functions.now }
{
    let mut rest = functions;
    while let [next, after @ ..] = rest {
        if !is_numbered(next) {
            return false;
        }
        rest = after;
    }
    true
}

/// Whether a program has fewer than 2^32 structs, fields of each struct, globals, functions, and statements and ends in
/// all, and each function has fewer than 2^32 formals, locals and branches. Takes no memory.
#[tactic(auto, using(crate::proofs::CountLemmas::counted))]
pub fn is_countable(program: &Program) -> bool
    ensures { IsTrue result ↔ IsCountable program.now }
{
    let structs = program.structs.as_slice();
    let functions = program.functions.as_slice();
    let few = is_below(structs.len())
        && is_below(program.globals.len())
        && is_below(functions.len());
    few && are_narrow(structs) && are_numbered(functions) && size_of_functions(functions).is_some()
}
