//! What the edges of each function lead to.

ghost use Rattle.std.specs.Prelude.{◌≡◌, ℕ, ◌<◌, [], ◌∷◌, ◌++◌, length, slice_set, IfOk, OnOk};
ghost use Rattle.std.specs.List.{Contains};
ghost use Rattle.call_graph.specs.Calls.{callees_in};
ghost use Rattle.call_graph.specs.Walk.{listed, row_at};

use gimple_core::{Edge, OutOfMemory};
use std::alloc::Global as Heap;

/// The callees of each of so many functions, in the order of the edges.
pub fn rows_of(alloc: Heap, edges: &[Edge], nodes: usize) -> Result<Vec<Vec<u32>>, OutOfMemory>
    requires { (e : _) → Contains edges.now e → e.caller < nodes }
    ensures one_each { IfOk result (λ rows. length rows.items ≡ nodes) }
    ensures rows { IfOk result (λ rows. (a : ℕ) → row_at rows.items a ≡ callees_in edges.now a) }
{
    let mut rows = empty_rows(alloc, nodes)?;
    add_edges(&mut rows, edges)?;
    Ok(rows)
}

/// Puts the callee of each edge behind what stands with its caller.
#[tactic(auto, unfolding(crate::specs::Calls::callees_in))]
pub fn add_edges(rows: &mut Vec<Vec<u32>>, edges: &[Edge]) -> Result<(), OutOfMemory>
    requires { (e : _) → Contains edges.now e → e.caller < length rows.old.items }
    ensures one_each { OnOk result (length rows.new.items ≡ length rows.old.items) }
    ensures rows { OnOk result ((a : ℕ) → row_at rows.new.items a ≡ row_at rows.old.items a ++ callees_in edges.now a) }
{
    for edge in edges {
        add_to(rows, edge.caller, edge.callee)?;
    }
    Ok(())
}

pub fn empty_rows(alloc: Heap, nodes: usize) -> Result<Vec<Vec<u32>>, OutOfMemory>
    ensures one_each { IfOk result (λ rows. length rows.items ≡ nodes) }
    ensures rows { IfOk result (λ rows. (a : ℕ) → row_at rows.items a ≡ []) }
{
    let mut rows = Vec::new(alloc);
    for _node in 0..nodes {
        rows.push(Vec::new(alloc))?;
    }
    Ok(rows)
}

pub fn add_to(rows: &mut Vec<Vec<u32>>, node: u32, target: u32) -> Result<(), OutOfMemory>
    requires { node < length rows.old.items }
    ensures { OnOk result (listed rows.new.items ≡ slice_set (listed rows.old.items) node (row_at rows.old.items node ++ target ∷ [])) }
{
    rows[node as usize].push(target)?;
    Ok(())
}
