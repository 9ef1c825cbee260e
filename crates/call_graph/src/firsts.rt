//! The first node of each component, the members of components, and the edges between them.

ghost use Rattle.std.specs.Prelude.{◌≡◌, ℕ, ◌<◌, ◌^◌, ◌==◌, ◌++◌, ◌∷◌, [], Contains, IfOk, OnOk, length, slice_index_or, slice_set};
ghost use Rattle.call_graph.specs.Firsts.{AreFirsts, IsPart, pushed_if, between_firsts, unless_inside, edges_between, turned};
ghost use Rattle.call_graph.specs.Calls.{callees_in};
ghost use Rattle.call_graph.specs.Walk.{listed, row_at};

use crate::rows::{add_to, empty_rows, rows_of};
use gimple_core::{Edge, OutOfMemory};
use graph_walk::firsts_of;
use std::alloc::Global as Heap;

/// The first node of the component of each of so many nodes.
pub fn firsts_in(alloc: Heap, edges: &[Edge], nodes: usize) -> Result<Vec<u32>, OutOfMemory>
    requires few { nodes < 2 ^ 32 }
    requires callers { (e : _) → Contains edges.now e → e.caller < nodes }
    requires callees { (e : _) → Contains edges.now e → e.callee < nodes }
    ensures { IfOk result (λ v. AreFirsts (callees_in edges.now) nodes v.items) }
{
    let rows = rows_of(alloc, edges, nodes)?;
    let around = turned(alloc, edges)?;
    let back = rows_of(alloc, around.as_slice(), nodes)?;
    let firsts = firsts_of(alloc, rows.as_slice(), back.as_slice())?;
    Ok(firsts)
}

/// The edges, each turned around.
#[tactic(auto, unfolding(crate::specs::Firsts::turned))]
fn turned(alloc: Heap, edges: &[Edge]) -> Result<Vec<Edge>, OutOfMemory>
    ensures { IfOk result (λ v. v.items ≡ turned edges.now) }
{
    let mut around = Vec::new(alloc);
    for edge in edges {
        around.push(Edge {
            caller: edge.callee,
            point: edge.point,
            callee: edge.caller,
        })?;
    }
    Ok(around)
}

/// The members of each component, ascending, at its first node.
pub fn members_of(alloc: Heap, firsts: &[u32]) -> Result<Vec<Vec<u32>>, OutOfMemory>
    requires few { length firsts.now < 2 ^ 32 }
    requires low { (a : ℕ) → a < length firsts.now → slice_index_or firsts.now a 0 < length firsts.now }
    ensures one_each { IfOk result (λ rows. length rows.items ≡ length firsts.now) }
    ensures each { IfOk result (λ rows. (r : ℕ) → IsPart (λ m. r == slice_index_or firsts.now m 0) (length firsts.now) (row_at rows.items r)) }
{
    let mut members = empty_rows(alloc, firsts.len())?;
    for node in 0..firsts.len() {
        add_member(&mut members, firsts, node as u32)?;
    }
    Ok(members)
}

/// The node is one more member of the component of its first.
fn add_member(members: &mut Vec<Vec<u32>>, firsts: &[u32], node: u32) -> Result<(), OutOfMemory>
    requires node { node < length firsts.now }
    requires low { slice_index_or firsts.now node 0 < length members.old.items }
    ensures { OnOk result (listed members.new.items ≡ slice_set (listed members.old.items) (slice_index_or firsts.now node 0) (row_at members.old.items (slice_index_or firsts.now node 0) ++ node ∷ [])) }
{
    add_to(members, firsts[node as usize], node)
}

/// The first nodes of the components, ascending.
pub fn all_first(alloc: Heap, firsts: &[u32]) -> Result<Vec<u32>, OutOfMemory>
    requires { length firsts.now < 2 ^ 32 }
    ensures { IfOk result (λ v. IsPart (λ m. slice_index_or firsts.now m 0 == m) (length firsts.now) v.items) }
{
    let mut found = Vec::new(alloc);
    for node in 0..firsts.len() {
        push_if(&mut found, is_first(firsts, node as u32), node as u32)?;
    }
    Ok(found)
}

fn is_first(firsts: &[u32], node: u32) -> bool
    requires { node < length firsts.now }
    ensures { result ≡ (slice_index_or firsts.now node 0 == node) }
{
    firsts[node as usize] == node
}

fn push_if(found: &mut Vec<u32>, is: bool, node: u32) -> Result<(), OutOfMemory>
    ensures { OnOk result (found.new.items ≡ pushed_if is node found.old.items) }
{
    if !is {
        return Ok(());
    }
    found.push(node)?;
    Ok(())
}

/// The edges that leave a component, from first node to first node.
#[tactic(auto, unfolding(crate::specs::Firsts::edges_between))]
pub fn edges_between(alloc: Heap, edges: &[Edge], firsts: &[u32]) -> Result<Vec<Edge>, OutOfMemory>
    requires callers { (e : _) → Contains edges.now e → e.caller < length firsts.now }
    requires callees { (e : _) → Contains edges.now e → e.callee < length firsts.now }
    ensures { IfOk result (λ v. v.items ≡ edges_between firsts.now edges.now) }
{
    let mut between = Vec::new(alloc);
    for edge in edges {
        push_between(&mut between, firsts, *edge)?;
    }
    Ok(between)
}

fn push_between(between: &mut Vec<Edge>, firsts: &[u32], edge: Edge) -> Result<(), OutOfMemory>
    requires caller { edge.caller < length firsts.now }
    requires callee { edge.callee < length firsts.now }
    ensures { OnOk result (between.new.items ≡ between.old.items ++ unless_inside (slice_index_or firsts.now edge.caller 0 == slice_index_or firsts.now edge.callee 0) (between_firsts firsts.now edge) []) }
{
    let caller = firsts[edge.caller as usize];
    let callee = firsts[edge.callee as usize];
    if caller == callee {
        return Ok(());
    }
    between.push(Edge {
        caller,
        point: edge.point,
        callee,
    })?;
    Ok(())
}
