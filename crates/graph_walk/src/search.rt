//! A search in depth, and the order in which it leaves the nodes.

ghost use Rattle.std.specs.Prelude.{◌≡◌, ℕ, ◌<◌, ◌≤◌, ◌^◌, false, true, List, [], ◌∷◌, ◌++◌, Contains, IfNone, IfOk, IfSome, OnOk, length, slice_index_or, slice_set};
ghost use Rattle.graph_walk.specs.Search.{IsFinishing, IsSearch, work};
ghost use Rattle.graph_walk.specs.Walk.{row_at};

use crate::walk::all_false;
use std::alloc::{AllocError, Global as Heap};

/// The nodes that were met, how many edges of each node were followed, the path to the node where the search is, and the
/// nodes that it left.
#[derive(Drop)]
struct Search {
    marks: Vec<bool>,
    followed: Vec<usize>,
    path: Vec<u32>,
    finished: Vec<u32>,
}

/// The nodes in the order in which a search in depth leaves them. Each edge is followed once.
///
/// Err is want of memory.
pub fn finishing_order(alloc: Heap, rows: &[Vec<u32>]) -> Result<Vec<u32>, AllocError>
    requires few { length rows.now < 2 ^ 32 }
    requires ends { (a b : ℕ) → Contains (row_at rows.now a) b → b < length rows.now }
    ensures { IfOk result (λ v. IsFinishing (row_at rows.now) (length rows.now) v.items) }
{
    let marks = all_false(alloc, rows.len())?;
    let followed = vec![in alloc; 0; rows.len()]?;
    let mut search = Search {
        marks,
        followed,
        path: Vec::new(alloc),
        finished: Vec::new(alloc),
    };
    for root in 0..rows.len() {
        search_from(rows, &mut search, root as u32)?;
    }
    let Search { finished, .. } = search;
    Ok(finished)
}

/// Meets what the root reaches over nodes that were not met.
fn search_from(rows: &[Vec<u32>], search: &mut Search, root: u32) -> Result<(), AllocError>
    requires root { root < length rows.now }
    requires ends { (a b : ℕ) → Contains (row_at rows.now a) b → b < length rows.now }
    requires search { IsSearch (row_at rows.now) (length rows.now) search.old.marks.items search.old.followed.items search.old.path.items search.old.finished.items }
    requires path { search.old.path.items ≡ [] }
    ensures search { OnOk result (IsSearch (row_at rows.now) (length rows.now) search.new.marks.items search.new.followed.items search.new.path.items search.new.finished.items) }
    ensures path { OnOk result (search.new.path.items ≡ []) }
    ensures kept { OnOk result ((a : ℕ) → slice_index_or search.old.marks.items a false ≡ true → slice_index_or search.new.marks.items a false ≡ true) }
    ensures met { OnOk result (slice_index_or search.new.marks.items root false ≡ true) }
{
    if search.marks[root as usize] {
        return Ok(());
    }
    enter(search, root)?;
    while let Some(node) = last_of(search.path.as_slice()) {
        step(rows, search, node)?;
    }
    Ok(())
}

/// Enters the next node that an edge of the last node of the path leads to, or leaves the last node.
fn step(rows: &[Vec<u32>], search: &mut Search, node: u32) -> Result<(), AllocError>
    requires ends { (a b : ℕ) → Contains (row_at rows.now a) b → b < length rows.now }
    requires search { IsSearch (row_at rows.now) (length rows.now) search.old.marks.items search.old.followed.items search.old.path.items search.old.finished.items }
    requires last { (rest : List ℕ) × (search.old.path.items ≡ rest ++ node ∷ []) }
    ensures search { OnOk result (IsSearch (row_at rows.now) (length rows.now) search.new.marks.items search.new.followed.items search.new.path.items search.new.finished.items) }
    ensures kept { OnOk result ((a : ℕ) → slice_index_or search.old.marks.items a false ≡ true → slice_index_or search.new.marks.items a false ≡ true) }
    ensures falls { OnOk result (work search.new.marks.items search.new.path.items < work search.old.marks.items search.old.path.items) }
{
    let row = rows[node as usize].as_slice();
    match next_unmarked(row, search.followed[node as usize], search.marks.as_slice()) {
        Some(at) => {
            enter(search, row[at])?;
            search.followed[node as usize] = at + 1;
            Ok(())
        }
        None => {
            leave(search, node)?;
            Ok(())
        }
    }
}

/// Marks a node and puts it at the end of the path.
fn enter(search: &mut Search, node: u32) -> Result<(), AllocError>
    requires { node < length search.old.marks.items }
    ensures marks { OnOk result (search.new.marks.items ≡ slice_set search.old.marks.items node true) }
    ensures followed { OnOk result (search.new.followed.items ≡ search.old.followed.items) }
    ensures path { OnOk result (search.new.path.items ≡ search.old.path.items ++ node ∷ []) }
    ensures finished { OnOk result (search.new.finished.items ≡ search.old.finished.items) }
{
    search.marks[node as usize] = true;
    search.path.push(node)?;
    Ok(())
}

/// Takes the last node off the path.
fn leave(search: &mut Search, node: u32) -> Result<(), AllocError>
    requires { (rest : List ℕ) × (search.old.path.items ≡ rest ++ node ∷ []) }
    ensures marks { OnOk result (search.new.marks.items ≡ search.old.marks.items) }
    ensures followed { OnOk result (search.new.followed.items ≡ search.old.followed.items) }
    ensures path { OnOk result (search.old.path.items ≡ search.new.path.items ++ node ∷ []) }
    ensures finished { OnOk result (search.new.finished.items ≡ search.old.finished.items ++ node ∷ []) }
{
    search.path.pop();
    search.finished.push(node)?;
    Ok(())
}

/// Where in a row, from a place on, the first node stands that is not marked.
fn next_unmarked(row: &[u32], from: usize, marks: &[bool]) -> Option<usize>
    requires { (b : ℕ) → Contains row.now b → b < length marks.now }
    ensures inside { IfSome result (λ at. at < length row.now) }
    ensures unmarked { IfSome result (λ at. slice_index_or marks.now (slice_index_or row.now at 0) false ≡ false) }
    ensures first { IfSome result (λ at. (k : ℕ) → from ≤ k → k < at → slice_index_or marks.now (slice_index_or row.now k 0) false ≡ true) }
    ensures none { IfNone result ((k : ℕ) → from ≤ k → k < length row.now → slice_index_or marks.now (slice_index_or row.now k 0) false ≡ true) }
{
    for at in from..row.len() {
        if !marks[row[at] as usize] {
            return Some(at);
        }
    }
    None
}

fn last_of(path: &[u32]) -> Option<u32>
    ensures some { IfSome result (λ node. (rest : List ℕ) × (path.now ≡ rest ++ node ∷ [])) }
    ensures none { IfNone result (path.now ≡ []) }
{
    path.last().copied()
}
