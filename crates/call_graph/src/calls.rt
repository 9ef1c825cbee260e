//! The edges of the call graph.

ghost use Rattle.std.specs.Prelude.{◌≡◌, ◌<◌, ◌++◌, ◌∷◌, ◌^◌, length, map, sum_by, OnOk, IfOk};
ghost use Rattle.gimple_ir.specs.Size.{size_of_block, size_of_function, size_of_program};
ghost use Rattle.gimple_core.specs.Run.{call_of};
ghost use Rattle.call_graph.specs.Calls.{call_edges, body_edges, block_edges, function_edges, edges_of};

use crate::names::number_of;
use gimple_core::{Block, Checked, Edge, Edges, Function, OutOfMemory, Point, Stmt};
use name_tables::NamedFunctions;
use std::alloc::Global as Heap;

/// Puts the edge of a call behind the others.
#[tactic(auto, using(crate::proofs::Naming::number_within))]
fn push_call(
    callees: &NamedFunctions<'_>,
    statement: &Stmt,
    point: Point,
    edges: &mut Edges,
) -> Result<(), OutOfMemory>
    requires { length callees.now < 2 ^ 32 }
    ensures { OnOk result (edges.new ≡ edges.old ++ call_edges (map (λ f. f.name) callees.now) point (call_of statement.now)) }
{
    match statement {
        Stmt::Call { callee, .. } => edges.push(Edge {
            caller: point.function,
            point,
            callee: number_of(callees, callee) as u32,
        }),
        _ => Ok(()),
    }
}

/// Puts the edges of a block's statements behind the others.
#[tactic(auto, unfolding(crate::specs::Calls::body_edges))]
fn push_body(
    callees: &NamedFunctions<'_>,
    body: &[Stmt],
    function: u32,
    block: u32,
    edges: &mut Edges,
) -> Result<(), OutOfMemory>
    requires callees { length callees.now < 2 ^ 32 }
    requires few { length body.now < 2 ^ 32 }
    ensures { OnOk result (edges.new ≡ edges.old ++ body_edges (map (λ f. f.name) callees.now) function block 0 body.now) }
{
    for (index, statement) in body.iter().enumerate() {
        let index = index as u32;
        push_call(
            callees,
            statement,
            Point {
                function,
                block,
                index,
            },
            edges,
        )?;
    }
    Ok(())
}

/// Puts the edges of a function's blocks behind the others.
#[tactic(auto, using(crate::proofs::Sizes::many_blocks), unfolding(crate::specs::Calls::block_edges))]
fn push_blocks(
    callees: &NamedFunctions<'_>,
    blocks: &[Block],
    function: u32,
    edges: &mut Edges,
) -> Result<(), OutOfMemory>
    requires callees { length callees.now < 2 ^ 32 }
    requires size { sum_by size_of_block blocks.now < 2 ^ 32 }
    ensures { OnOk result (edges.new ≡ edges.old ++ block_edges (map (λ f. f.name) callees.now) function 0 blocks.now) }
{
    for (number, block) in blocks.iter().enumerate() {
        push_body(
            callees,
            block.body.as_slice(),
            function,
            number as u32,
            edges,
        )?;
    }
    Ok(())
}

/// Puts the edges of functions behind the others.
#[tactic(auto, unfolding(crate::specs::Calls::function_edges))]
fn push_functions(
    callees: &NamedFunctions<'_>,
    functions: &[Function],
    edges: &mut Edges,
) -> Result<(), OutOfMemory>
    requires callees { length callees.now < 2 ^ 32 }
    requires few { length functions.now < 2 ^ 32 }
    requires size { sum_by size_of_function functions.now < 2 ^ 32 }
    ensures { OnOk result (edges.new ≡ edges.old ++ function_edges (map (λ f. f.name) callees.now) 0 functions.now) }
{
    for (number, function) in functions.iter().enumerate() {
        push_blocks(callees, function.blocks.as_slice(), number as u32, edges)?;
    }
    Ok(())
}

/// The call statements of a program in file order, each with the number of the function that it calls.
pub fn edges(alloc: Heap, program: &Checked) -> Result<Edges, OutOfMemory>
    requires few { length program.now.program.functions < 2 ^ 32 }
    requires size { size_of_program program.now.program < 2 ^ 32 }
    ensures { IfOk result (λ edges. edges ≡ edges_of program.now.program) }
{
    let functions = program.program().functions.as_slice();
    let callees = NamedFunctions::new(alloc, functions)?;
    let mut edges = Edges::new(alloc);
    push_functions(&callees, functions, &mut edges)?;
    Ok(edges)
}
