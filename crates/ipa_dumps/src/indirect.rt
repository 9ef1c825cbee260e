//! Where the indirect calls of a program stand.

ghost use Rattle.std.specs.Prelude.{◌≡◌, ◌≤◌, ◌<◌, ◌++◌, ◌^◌, length, position, not, sum_by, OnOk, IfOk, IfSome};
ghost use Rattle.gimple_ir.specs.Size.{size_of_block, size_of_function, size_of_program};
ghost use Rattle.ipa_dumps.specs.Dumps.{edges_before};
ghost use Rattle.ipa_dumps.specs.IndirectCalls.{is_before, statement_place, body_places, block_places, function_places, indirect_calls};

use gimple_core::{Block, Edge, Function, OutOfMemory, Point, Points, Program, Stmt};
use std::alloc::Global as Heap;

/// Whether a place stands before another in the file.
#[tactic(auto, unfolding(crate::specs::IndirectCalls::is_before))]
fn is_before(a: &Point, b: &Point) -> bool
    ensures { result ≡ is_before a.now b.now }
{
    a.function < b.function
        || (a.function == b.function
            && (a.block < b.block || (a.block == b.block && a.index < b.index)))
}

/// The number of the first edge that does not come before a place.
fn first_after(edges: &[Edge], place: &Point) -> Option<usize>
    ensures value { result ≡ position (λ e. not (is_before e.point place.now)) edges.now }
    ensures within { IfSome result (λ number. number < length edges.now) }
{
    edges.iter().position(|edge| !is_before(&edge.point, place))
}

/// How many of the edges come before a place.
pub fn edges_before(edges: &[Edge], place: &Point) -> usize
    ensures count { result ≡ edges_before place.now edges.now }
    ensures within { result ≤ length edges.now }
{
    first_after(edges, place).unwrap_or(edges.len())
}

/// Puts the place of a statement behind the others, where it is an indirect call.
fn push_statement(statement: &Stmt, place: Point, places: &mut Points) -> Result<(), OutOfMemory>
    ensures { OnOk result (places.new ≡ places.old ++ statement_place place statement.now) }
{
    match statement {
        Stmt::Indirect { .. } => places.push(place),
        _ => Ok(()),
    }
}

/// Puts the places in a block's statements behind the others.
#[tactic(auto, unfolding(crate::specs::IndirectCalls::body_places))]
fn push_body(
    body: &[Stmt],
    function: u32,
    block: u32,
    places: &mut Points,
) -> Result<(), OutOfMemory>
    requires { length body.now < 2 ^ 32 }
    ensures { OnOk result (places.new ≡ places.old ++ body_places function block 0 body.now) }
{
    for (index, statement) in body.iter().enumerate() {
        let index = index as u32;
        let place = Point {
            function,
            block,
            index,
        };
        push_statement(statement, place, places)?;
    }
    Ok(())
}

/// Puts the places in a function's blocks behind the others.
#[tactic(auto, using(crate::proofs::Sizes::many_blocks), unfolding(crate::specs::IndirectCalls::block_places))]
fn push_blocks(blocks: &[Block], function: u32, places: &mut Points) -> Result<(), OutOfMemory>
    requires { sum_by size_of_block blocks.now < 2 ^ 32 }
    ensures { OnOk result (places.new ≡ places.old ++ block_places function 0 blocks.now) }
{
    for (number, block) in blocks.iter().enumerate() {
        push_body(block.body.as_slice(), function, number as u32, places)?;
    }
    Ok(())
}

/// Puts the places in functions behind the others.
#[tactic(auto, unfolding(crate::specs::IndirectCalls::function_places))]
fn push_functions(functions: &[Function], places: &mut Points) -> Result<(), OutOfMemory>
    requires few { length functions.now < 2 ^ 32 }
    requires size { sum_by size_of_function functions.now < 2 ^ 32 }
    ensures { OnOk result (places.new ≡ places.old ++ function_places 0 functions.now) }
{
    for (number, function) in functions.iter().enumerate() {
        push_blocks(function.blocks.as_slice(), number as u32, places)?;
    }
    Ok(())
}

/// The places of a program's indirect calls in file order.
#[tactic(auto, unfolding(crate::specs::IndirectCalls::indirect_calls))]
pub fn indirect_calls(alloc: Heap, program: &Program) -> Result<Points, OutOfMemory>
    requires few { length program.now.functions < 2 ^ 32 }
    requires size { size_of_program program.now < 2 ^ 32 }
    ensures { IfOk result (λ places. places ≡ indirect_calls program.now) }
{
    let mut places = Points::new(alloc);
    push_functions(program.functions.as_slice(), &mut places)?;
    Ok(places)
}
