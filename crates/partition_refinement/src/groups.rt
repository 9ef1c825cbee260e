//! Items in groups of one key.

ghost use Rattle.std.specs.Prelude.{◌≡◌, ℕ, ◌<◌, ◌≤◌, ◌-◌, ◌^◌, IfOk, Contains, length, map, slice_index};
ghost use Rattle.partition_refinement.specs.Relations.{class_of, row_of};
ghost use Rattle.partition_refinement.specs.Stages.{key_of};
ghost use Rattle.partition_refinement.specs.Splitting.{AreRegarded, IsGrouping, IsRegarded};

use crate::buckets::Buckets;
use crate::interner::Interner;
use crate::keys::key;
use std::alloc::{AllocError, Global as Heap};

/// A number for each of these items, the same where their keys are.
fn numbers_of(
    alloc: Heap,
    classes: &[u32],
    rows: &[Vec<u32>],
    items: &[u32],
) -> Result<Vec<u32>, AllocError>
    requires few { length items.now < 2 ^ 32 }
    requires within { (x : ℕ) → Contains items.now x → x < length rows.now }
    ensures count { IfOk result (λ numbers. length numbers.items ≡ length items.now) }
    ensures low { IfOk result (λ numbers. (k : ℕ) → k < length items.now → class_of numbers.items k ≤ k) }
    ensures same { IfOk result (λ numbers. (a b : ℕ) → a < length items.now → b < length items.now → key_of classes.now (slice_index items.now a) (row_of (map (λ row. row.items) rows.now) (slice_index items.now a)) ≡ key_of classes.now (slice_index items.now b) (row_of (map (λ row. row.items) rows.now) (slice_index items.now b)) → class_of numbers.items a ≡ class_of numbers.items b) }
{
    let mut keys = Interner::new(alloc);
    for item in items {
        let row = rows[*item as usize].as_slice();
        keys.note(key(alloc, classes, *item, row)?)?;
    }
    let numbers = keys.into_classes();
    Ok(numbers)
}

/// These items, each in the list of its number.
fn grouped(alloc: Heap, items: &[u32], numbers: &[u32]) -> Result<Buckets, AllocError>
    requires count { length numbers.now ≡ length items.now }
    requires low { (k : ℕ) → k < length items.now → class_of numbers.now k ≤ k }
    ensures { IfOk result (IsGrouping items.now numbers.now (length items.now)) }
{
    let mut groups = Buckets::new(alloc, items.len())?;
    for (place, item) in items.iter().enumerate() {
        groups.push(numbers[place] as usize, *item)?;
    }
    Ok(groups)
}

/// These items in groups of one key: of one class, and with rows of the same classes.
pub(crate) fn groups_of(
    alloc: Heap,
    classes: &[u32],
    rows: &[Vec<u32>],
    items: &[u32],
) -> Result<Buckets, AllocError>
    requires few { length items.now < 2 ^ 32 }
    requires within { (x : ℕ) → Contains items.now x → x < length rows.now }
    ensures { IfOk result (λ groups. IsRegarded (map (λ row. row.items) rows.now) classes.now items.now → AreRegarded (map (λ row. row.items) rows.now) classes.now groups) }
{
    let numbers = numbers_of(alloc, classes, rows, items)?;
    let groups = grouped(alloc, items, numbers.as_slice())?;
    Ok(groups)
}
