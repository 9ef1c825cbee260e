//! The strong components of a graph, by two passes.

ghost use Rattle.std.specs.Prelude.{◌≡◌, ◌↔◌, ℕ, ◌<◌, ◌≤◌, ◌^◌, [], Contains, IfNone, IfOk, IfSome, length};
ghost use Rattle.graph_walk.specs.Components.{ArePlaced};
ghost use Rattle.graph_walk.specs.Graph.{AreFirsts};
ghost use Rattle.graph_walk.specs.Walk.{row_at};

use crate::search::finishing_order;
use crate::walk::{all_false, walk_past};
use std::alloc::{AllocError, Global as Heap};

/// The first node of each node's strong component, from the rows of edges and the rows of the edges turned around. Each
/// edge is followed once in each of two passes (M. Sharir, "A strong-connectivity algorithm and its applications in data
/// flow analysis", 1981): a search in depth, and walks back from the node that it left last among those of no known
/// component.
///
/// Err is want of memory.
pub fn firsts_of(alloc: Heap, rows: &[Vec<u32>], back: &[Vec<u32>]) -> Result<Vec<u32>, AllocError>
    requires few { length rows.now < 2 ^ 32 }
    requires both { length back.now ≡ length rows.now }
    requires ends { (a b : ℕ) → Contains (row_at rows.now a) b → b < length rows.now }
    requires back_ends { (a b : ℕ) → Contains (row_at back.now a) b → b < length rows.now }
    requires turned { (a b : ℕ) → Contains (row_at back.now b) a ↔ Contains (row_at rows.now a) b }
    ensures { IfOk result (λ v. AreFirsts (row_at rows.now) (length rows.now) v.items) }
{
    let mut finished = finishing_order(alloc, rows)?;
    let mut marks = all_false(alloc, rows.len())?;
    let mut firsts = vec![in alloc; 0; rows.len()]?;
    while let Some(root) = finished.pop() {
        let component = walk_past(alloc, back, &mut marks, root)?;
        place_least(&mut firsts, component.as_slice());
    }
    Ok(firsts)
}

/// The least of the nodes is the first one of each of them.
fn place_least(firsts: &mut Vec<u32>, nodes: &[u32])
    requires { (a : ℕ) → Contains nodes.now a → a < length firsts.old.items }
    ensures { ArePlaced nodes.now firsts.old.items firsts.new.items }
{
    let Some(first) = least_of(nodes) else {
        return;
    };
    for node in nodes {
        firsts[*node as usize] = first;
    }
}

fn least_of(nodes: &[u32]) -> Option<u32>
    ensures some { IfSome result (λ least. Contains nodes.now least) }
    ensures least { IfSome result (λ least. (a : ℕ) → Contains nodes.now a → least ≤ a) }
    ensures none { IfNone result (nodes.now ≡ []) }
{
    nodes.iter().copied().min()
}
