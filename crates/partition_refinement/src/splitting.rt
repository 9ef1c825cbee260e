//! Classes split by what leads to the items that moved last, until none move.

ghost use Rattle.std.specs.Prelude.{◌≡◌, ℕ, ◌<◌, ◌≤◌, ◌-◌, ◌^◌, List, Some, IfOk, OnOk, length, map, slice_get};
ghost use Rattle.partition_refinement.specs.Relations.{class_of, row_of};
ghost use Rattle.partition_refinement.specs.Coarsest.{Below};
ghost use Rattle.partition_refinement.specs.Stages.{IsStage};
ghost use Rattle.partition_refinement.specs.Splitting.{AreCallers, AreKept, AreRegarded, IsIn, IsNext, pair_of};

use crate::buckets::Buckets;
use crate::groups::groups_of;
use crate::interner::Interner;
use crate::keys::class_of;
use crate::naming::named;
use crate::partition::{Move, Partition};
use crate::touched::touched;
use indexmap::IndexMap;
use std::alloc::{AllocError, Global as Heap};

/// Puts a move behind the others, if there is one.
fn note(moves: &mut Vec<Move>, step: Option<Move>) -> Result<(), AllocError> {
    if let Some(step) = step {
        moves.push(step)?;
    }
    Ok(())
}

/// Moves each group out of its class.
fn move_all(
    alloc: Heap,
    partition: &mut Partition,
    groups: &Buckets,
) -> Result<Vec<Move>, AllocError>
    requires { (at x : ℕ) → IsIn groups.now at x → x < length partition.old }
    ensures { OnOk result ((rows : List (List ℕ)) → AreRegarded rows partition.old groups.now → IsNext rows partition.old partition.new) }
{
    let mut moves = Vec::new(alloc);
    for number in 0..groups.len() {
        let step = partition.move_out(alloc, groups.list(number))?;
        note(&mut moves, step)?;
    }
    Ok(moves)
}

/// The classes to be followed after these moves: of the parts of each class that was split all but a largest one.
fn work_after(alloc: Heap, partition: &Partition, moves: &[Move]) -> Result<Vec<u32>, AllocError> {
    let mut largest = IndexMap::new(alloc);
    let mut work = Vec::new(alloc);
    for step in moves {
        let other = match largest.get(&step.from).copied() {
            Some(class) => class,
            None => step.from,
        };
        if partition.size(step.to) > partition.size(other) {
            work.push(other)?;
            largest.insert(step.from, step.to)?;
        } else {
            work.push(step.to)?;
        }
    }
    Ok(work)
}

/// Splits the classes of what leads to the items of these classes, and answers the classes to be followed next.
fn follow(
    alloc: Heap,
    partition: &mut Partition,
    rows: &[Vec<u32>],
    callers: &Buckets,
    work: &[u32],
) -> Result<Vec<u32>, AllocError>
    requires count { length rows.now ≡ length partition.old }
    requires items { (i : ℕ) → i < length partition.old → Below (length partition.old) (row_of (map (λ row. row.items) rows.now) i) }
    requires callers { AreCallers (map (λ row. row.items) rows.now) (length partition.old) callers.now }
    requires called { length callers.now ≡ length partition.old }
    ensures { OnOk result (IsNext (map (λ row. row.items) rows.now) partition.old partition.new) }
{
    let items = touched(alloc, partition, callers, work)?;
    if items.len() >= u32::MAX as usize {
        return Ok(Vec::new(alloc));
    }
    let groups = groups_of(alloc, partition.classes(), rows, items.as_slice())?;
    let moves = move_all(alloc, partition, &groups)?;
    let next = work_after(alloc, partition, moves.as_slice())?;
    Ok(next)
}

/// The classes that have an item of their number.
fn starts(alloc: Heap, classes: &[u32]) -> Result<Vec<u32>, AllocError>
    requires { length classes.now < 2 ^ 32 }
{
    let mut starts = Vec::new(alloc);
    for (item, class) in classes.iter().enumerate() {
        if *class as usize == item {
            starts.push(*class)?;
        }
    }
    Ok(starts)
}

/// Splits classes until none is to be followed.
fn settle(
    alloc: Heap,
    partition: &mut Partition,
    rows: &[Vec<u32>],
    callers: &Buckets,
) -> Result<(), AllocError>
    requires few { length partition.old < 2 ^ 32 }
    requires count { length rows.now ≡ length partition.old }
    requires items { (i : ℕ) → i < length partition.old → Below (length partition.old) (row_of (map (λ row. row.items) rows.now) i) }
    requires callers { AreCallers (map (λ row. row.items) rows.now) (length partition.old) callers.now }
    requires called { length callers.now ≡ length partition.old }
    ensures { OnOk result ((first : List ℕ) → AreKept first (map (λ row. row.items) rows.now) partition.old → AreKept first (map (λ row. row.items) rows.now) partition.new) }
{
    let mut work = starts(alloc, partition.classes())?;
    for round in 0..rows.len() {
        if work.is_empty() {
            return Ok(());
        }
        work = follow(alloc, partition, rows, callers, work.as_slice())?;
    }
    Ok(())
}

/// Two numbers as a row.
fn pair(alloc: Heap, left: u32, right: u32) -> Result<Vec<i128>, AllocError>
    ensures { IfOk result (λ pair. pair.items ≡ pair_of left right) }
{
    let mut pair = Vec::new(alloc);
    pair.push(i128::from(left))?;
    pair.push(i128::from(right))?;
    Ok(pair)
}

/// The two classes of each item as a row.
fn pairs_of(alloc: Heap, classes: &[u32], plain: &[u32]) -> Result<Interner, AllocError>
    requires { length classes.now < 2 ^ 32 }
    ensures count { IfOk result (λ pairs. length pairs ≡ length classes.now) }
    ensures each { IfOk result (λ pairs. (k : ℕ) → k < length classes.now → slice_get pairs k ≡ Some (pair_of (class_of classes.now k) (class_of plain.now k))) }
{
    let mut pairs = Interner::new(alloc);
    for item in 0..classes.len() {
        let number = item as u32;
        pairs.note(pair(alloc, class_of(classes, number), class_of(plain, number))?)?;
    }
    Ok(pairs)
}

/// The classes of items that are of one class in both, named by their first items.
fn joined(alloc: Heap, classes: &[u32], plain: &[u32]) -> Result<Vec<u32>, AllocError>
    requires { length classes.now < 2 ^ 32 }
    ensures { IfOk result (λ names. (rows : List (List ℕ)) → AreKept classes.now rows plain.now → IsStage classes.now rows names.items) }
{
    let pairs = pairs_of(alloc, classes, plain)?;
    let numbers = pairs.into_classes();
    let names = named(alloc, numbers.as_slice())?;
    Ok(names)
}

/// The classes split as far as they can be, by following what moves. Only the smaller parts of a class are followed, so an item
/// is followed no oftener than its class can be halved.
pub(crate) fn split(
    alloc: Heap,
    classes: &[u32],
    rows: &[Vec<u32>],
    callers: &Buckets,
) -> Result<Vec<u32>, AllocError>
    requires few { length classes.now < 2 ^ 32 }
    requires low { (i : ℕ) → i < length classes.now → class_of classes.now i ≤ i }
    requires count { length rows.now ≡ length classes.now }
    requires items { (i : ℕ) → i < length classes.now → Below (length classes.now) (row_of (map (λ row. row.items) rows.now) i) }
    requires callers { AreCallers (map (λ row. row.items) rows.now) (length classes.now) callers.now }
    requires called { length callers.now ≡ length classes.now }
    ensures { IfOk result (λ names. IsStage classes.now (map (λ row. row.items) rows.now) names.items) }
{
    let mut partition = Partition::new(alloc, classes)?;
    settle(alloc, &mut partition, rows, callers)?;
    let names = joined(alloc, classes, partition.classes())?;
    Ok(names)
}
