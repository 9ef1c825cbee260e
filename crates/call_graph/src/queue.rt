//! The components that do not stand yet, each known by its first node, and which of them are ready.

ghost use Rattle.std.specs.Prelude.{◌≡◌, ◌≢◌, ℕ, ◌<◌, ◌^◌, false, true, List, [], ◌∷◌, ◌++◌, Contains, IfOk, IfSome, IfNone, OnOk, length, slice_index_or, slice_set};
ghost use Rattle.fix_engine.specs.Marks.{IsFirstMark};
ghost use Rattle.call_graph.specs.Calls.{callees_in};
ghost use Rattle.call_graph.specs.Firsts.{edges_between};
ghost use Rattle.call_graph.specs.Queue.{AreTrimmed, AreNodes, IsQueue, IsUnsettled};
ghost use Rattle.call_graph.specs.Walk.{listed, row_at};

use crate::firsts::{all_first, edges_between};
use crate::rows::{add_to, empty_rows, rows_of};
use fix_engine::MarkTree;
use gimple_core::{Edge, OutOfMemory};
use graph_walk::all_false;
use std::alloc::Global as Heap;
use std::mem;

/// Components by their first nodes: those that stand, and those that are ready; which ones wait for a component to stand;
/// and what the edges of each lead to, but for the targets that were seen to stand.
#[derive(Drop)]
pub struct Queue {
    pub standing: Vec<bool>,
    pub ready: MarkTree,
    pub waiting: Vec<Vec<u32>>,
    pub leaving: Vec<Vec<u32>>,
}

/// No component stands, and each is ready or waits.
pub fn queue_of(alloc: Heap, edges: &[Edge], firsts: &[u32]) -> Result<Queue, OutOfMemory>
    requires few { length firsts.now < 2 ^ 32 }
    requires callers { (e : _) → Contains edges.now e → e.caller < length firsts.now }
    requires callees { (e : _) → Contains edges.now e → e.callee < length firsts.now }
    requires low { (a : ℕ) → a < length firsts.now → slice_index_or firsts.now a 0 < length firsts.now }
    ensures one_each { IfOk result (λ q. length q.standing.items ≡ length firsts.now) }
    ensures none { IfOk result (λ q. (a : ℕ) → slice_index_or q.standing.items a false ≡ false) }
    ensures nodes { IfOk result (λ q. AreNodes q.standing.items q.ready q.waiting.items q.leaving.items) }
    ensures queue { IfOk result (λ q. IsQueue firsts.now (callees_in (edges_between firsts.now edges.now)) [] q.standing.items q.ready q.waiting.items q.leaving.items) }
{
    let mut queue = unsettled(alloc, edges, firsts)?;
    let all = all_first(alloc, firsts)?;
    settle_all(&mut queue, all.as_slice())?;
    Ok(queue)
}

/// No component stands, is ready, or waits.
fn unsettled(alloc: Heap, edges: &[Edge], firsts: &[u32]) -> Result<Queue, OutOfMemory>
    requires few { length firsts.now < 2 ^ 32 }
    requires callers { (e : _) → Contains edges.now e → e.caller < length firsts.now }
    requires callees { (e : _) → Contains edges.now e → e.callee < length firsts.now }
    requires low { (a : ℕ) → a < length firsts.now → slice_index_or firsts.now a 0 < length firsts.now }
    ensures { IfOk result (λ q. IsUnsettled (length firsts.now) (callees_in (edges_between firsts.now edges.now)) q.standing.items q.ready q.waiting.items q.leaving.items) }
{
    let between = edges_between(alloc, edges, firsts)?;
    let leaving = rows_of(alloc, between.as_slice(), firsts.len())?;
    let waiting = empty_rows(alloc, firsts.len())?;
    let standing = all_false(alloc, firsts.len())?;
    let ready = MarkTree::new(alloc, firsts.len() as u32)?;
    Ok(Queue {
        standing,
        ready,
        waiting,
        leaving,
    })
}

/// Takes targets that stand off the end, and answers the last one that does not stand.
fn trim(targets: &mut Vec<u32>, standing: &[bool]) -> Option<u32>
    requires { (c : ℕ) → Contains targets.old.items c → c < length standing.now }
    ensures trimmed { AreTrimmed standing.now targets.old.items targets.new.items }
    ensures some { IfSome result (λ c. Contains targets.new.items c × (slice_index_or standing.now c false ≡ false)) }
    ensures none { IfNone result (targets.new.items ≡ []) }
{
    while let Some(target) = last_of(targets.as_slice()) {
        if !standing[target as usize] {
            return Some(target);
        }
        targets.pop();
    }
    None
}

fn last_of(targets: &[u32]) -> Option<u32>
    ensures some { IfSome result (λ c. (rest : List ℕ) × (targets.now ≡ rest ++ c ∷ [])) }
    ensures none { IfNone result (targets.now ≡ []) }
{
    targets.last().copied()
}

/// A component that does not stand becomes ready, or waits for one of its targets.
fn settle(queue: &mut Queue, node: u32) -> Result<(), OutOfMemory>
    requires nodes { AreNodes queue.old.standing.items queue.old.ready queue.old.waiting.items queue.old.leaving.items }
    requires node { node < length queue.old.standing.items }
    ensures standing { OnOk result (queue.new.standing.items ≡ queue.old.standing.items) }
    ensures nodes { OnOk result (AreNodes queue.new.standing.items queue.new.ready queue.new.waiting.items queue.new.leaving.items) }
    ensures settled { OnOk result ((firsts : List ℕ) (between : ℕ → List ℕ) (rest : List ℕ) → IsQueue firsts between (node ∷ rest) queue.old.standing.items queue.old.ready queue.old.waiting.items queue.old.leaving.items → IsQueue firsts between rest queue.new.standing.items queue.new.ready queue.new.waiting.items queue.new.leaving.items) }
{
    match trim_row(&mut queue.leaving, node, queue.standing.as_slice()) {
        Some(target) => add_to(&mut queue.waiting, target, node)?,
        None => queue.ready.set(node, true),
    }
    Ok(())
}

/// Trims what the edges of a component lead to.
fn trim_row(leaving: &mut Vec<Vec<u32>>, node: u32, standing: &[bool]) -> Option<u32>
    requires node { node < length leaving.old.items }
    requires ends { (r c : ℕ) → Contains (row_at leaving.old.items r) c → c < length standing.now }
    ensures row { listed leaving.new.items ≡ slice_set (listed leaving.old.items) node (row_at leaving.new.items node) }
    ensures trimmed { AreTrimmed standing.now (row_at leaving.old.items node) (row_at leaving.new.items node) }
    ensures some { IfSome result (λ c. Contains (row_at leaving.new.items node) c × (slice_index_or standing.now c false ≡ false)) }
    ensures none { IfNone result (row_at leaving.new.items node ≡ []) }
{
    trim(&mut leaving[node as usize], standing)
}

/// Components that do not stand become ready or wait.
fn settle_all(queue: &mut Queue, all: &[u32]) -> Result<(), OutOfMemory>
    requires nodes { AreNodes queue.old.standing.items queue.old.ready queue.old.waiting.items queue.old.leaving.items }
    requires all { (r : ℕ) → Contains all.now r → r < length queue.old.standing.items }
    ensures standing { OnOk result (queue.new.standing.items ≡ queue.old.standing.items) }
    ensures nodes { OnOk result (AreNodes queue.new.standing.items queue.new.ready queue.new.waiting.items queue.new.leaving.items) }
    ensures settled { OnOk result ((firsts : List ℕ) (between : ℕ → List ℕ) → IsQueue firsts between all.now queue.old.standing.items queue.old.ready queue.old.waiting.items queue.old.leaving.items → IsQueue firsts between [] queue.new.standing.items queue.new.ready queue.new.waiting.items queue.new.leaving.items) }
{
    for node in all {
        settle(queue, *node)?;
    }
    Ok(())
}

/// The row of a node, which is empty then.
fn take_row(alloc: Heap, rows: &mut Vec<Vec<u32>>, node: u32) -> Vec<u32>
    requires { node < length rows.old.items }
    ensures taken { result.items ≡ row_at rows.old.items node }
    ensures left { listed rows.new.items ≡ slice_set (listed rows.old.items) node [] }
{
    mem::replace(&mut rows[node as usize], Vec::new(alloc))
}

/// A ready component stands, and those that waited for it become ready or wait for another.
pub fn stand(alloc: Heap, queue: &mut Queue, node: u32) -> Result<(), OutOfMemory>
    requires nodes { AreNodes queue.old.standing.items queue.old.ready queue.old.waiting.items queue.old.leaving.items }
    requires node { node < length queue.old.standing.items }
    ensures standing { OnOk result (queue.new.standing.items ≡ slice_set queue.old.standing.items node true) }
    ensures nodes { OnOk result (AreNodes queue.new.standing.items queue.new.ready queue.new.waiting.items queue.new.leaving.items) }
    ensures queue { OnOk result ((firsts : List ℕ) (between : ℕ → List ℕ) → slice_index_or queue.old.ready node false ≡ true → IsQueue firsts between [] queue.old.standing.items queue.old.ready queue.old.waiting.items queue.old.leaving.items → IsQueue firsts between [] queue.new.standing.items queue.new.ready queue.new.waiting.items queue.new.leaving.items) }
{
    queue.standing[node as usize] = true;
    queue.ready.set(node, false);
    let woken = take_row(alloc, &mut queue.waiting, node);
    settle_all(queue, woken.as_slice())?;
    Ok(())
}
