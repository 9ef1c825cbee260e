//! What a node reaches along edges, past walls.

ghost use Rattle.std.specs.Prelude.{◌≡◌, ℕ, ◌<◌, ◌^◌, false, [], ◌∷◌, length, slice_index_or, IfOk, OnOk};
ghost use Rattle.std.specs.List.{Contains};
ghost use Rattle.graph_walk.specs.Graph.{AreMarks};
ghost use Rattle.graph_walk.specs.Walk.{HasWalked, Walk, met, row_at};

use std::alloc::{AllocError, Global as Heap};

/// What the root reaches along the edges of the rows, one row of targets a node. Each edge is followed once.
///
/// Err is want of memory.
pub fn reached_in(alloc: Heap, rows: &[Vec<u32>], root: usize) -> Result<Vec<bool>, AllocError>
    requires root { root < length rows.now }
    requires root_small { root < 2 ^ 32 }
    requires ends { (a b : ℕ) → Contains (row_at rows.now a) b → b < length rows.now }
    ensures { IfOk result (λ v. AreMarks (row_at rows.now) (length rows.now) root v.items) }
{
    let mut marks = all_false(alloc, rows.len())?;
    walk_past(alloc, rows, &mut marks, root as u32)?;
    Ok(marks)
}

/// The nodes that the root reaches over nodes that are not marked, each of which is marked then. Each edge of these
/// nodes is followed once.
///
/// Err is want of memory.
pub(crate) fn walk_past(
    alloc: Heap,
    rows: &[Vec<u32>],
    marks: &mut Vec<bool>,
    root: u32,
) -> Result<Vec<u32>, AllocError>
    requires root { root < length rows.now }
    requires one_each { length marks.old.items ≡ length rows.now }
    requires ends { (a b : ℕ) → Contains (row_at rows.now a) b → b < length rows.now }
    ensures { IfOk result (λ nodes. HasWalked (row_at rows.now) root marks.old.items marks.new.items nodes.items) }
{
    let mut nodes = Vec::new(alloc);
    meet_one(root, marks, &mut nodes)?;
    let mut followed = 0;
    while followed < nodes.len() {
        let node = nodes[followed];
        meet(rows[node as usize].as_slice(), marks, &mut nodes)?;
        followed += 1;
    }
    Ok(nodes)
}

/// Marks what is not marked yet, and keeps it for later.
fn meet(row: &[u32], marks: &mut Vec<bool>, nodes: &mut Vec<u32>) -> Result<(), AllocError>
    requires { (b : ℕ) → Contains row.now b → b < length marks.old.items }
    ensures { OnOk result (record { marks = marks.new.items; nodes = nodes.new.items } ≡ met row.now (record { marks = marks.old.items; nodes = nodes.old.items })) }
{
    for node in row {
        meet_one(*node, marks, nodes)?;
    }
    Ok(())
}

fn meet_one(node: u32, marks: &mut Vec<bool>, nodes: &mut Vec<u32>) -> Result<(), AllocError>
    requires { node < length marks.old.items }
    ensures { OnOk result (record { marks = marks.new.items; nodes = nodes.new.items } ≡ met (node ∷ []) (record { marks = marks.old.items; nodes = nodes.old.items })) }
{
    if marks[node as usize] {
        return Ok(());
    }
    marks[node as usize] = true;
    nodes.push(node)?;
    Ok(())
}

/// So many marks, none of which is set.
///
/// Err is want of memory.
pub fn all_false(alloc: Heap, count: usize) -> Result<Vec<bool>, AllocError>
    ensures each { IfOk result (λ v. (a : ℕ) → slice_index_or v.items a false ≡ false) }
    ensures one_each { IfOk result (λ v. length v.items ≡ count) }
{
    let mut marks = Vec::new(alloc);
    for _at in 0..count {
        marks.push(false)?;
    }
    Ok(marks)
}
