//! The coarsest classes of items that refine given ones and agree row by row.

ghost use Rattle.std.specs.Prelude.{◌≡◌, ℕ, ◌<◌, ◌-◌, ◌^◌, IfOk, length, map};
ghost use Rattle.partition_refinement.specs.Relations.{row_of};
ghost use Rattle.partition_refinement.specs.Coarsest.{Below, IsCoarsest};
ghost use Rattle.partition_refinement.specs.Stages.{IsRound};

use crate::callers::callers_of;
use crate::keys::keys;
use crate::naming::named;
use crate::splitting::split;
use std::alloc::{AllocError, Global as Heap};

/// The classes split once by what is in the rows.
fn round(alloc: Heap, classes: &[u32], rows: &[Vec<u32>]) -> Result<Vec<u32>, AllocError>
    requires few { length classes.now < 2 ^ 32 }
    requires count { length rows.now ≡ length classes.now }
    requires items { (i : ℕ) → i < length classes.now → Below (length classes.now) (row_of (map (λ row. row.items) rows.now) i) }
    ensures { IfOk result (λ next. IsRound classes.now (map (λ row. row.items) rows.now) next.items) }
{
    let keys = keys(alloc, classes, rows)?;
    let numbers = keys.into_classes();
    let names = named(alloc, numbers.as_slice())?;
    Ok(names)
}

/// The coarsest classes of items that refine the first ones, and in which the rows of the items of one class agree place by
/// place: they are as long, and at each place are items of one class. The row of an item lists items by their numbers. Each
/// class is named by its first item. Err is want of memory.
pub fn refine(alloc: Heap, first: &[u32], rows: &[Vec<u32>]) -> Result<Vec<u32>, AllocError>
    requires few { length first.now < 2 ^ 32 }
    requires count { length rows.now ≡ length first.now }
    requires items { (i : ℕ) → i < length first.now → Below (length first.now) (row_of (map (λ row. row.items) rows.now) i) }
    ensures { IfOk result (λ classes. IsCoarsest first.now (map (λ row. row.items) rows.now) classes.items) }
{
    let callers = callers_of(alloc, rows)?;
    let mut classes = named(alloc, first)?;
    loop {
        let parts = split(alloc, classes.as_slice(), rows, &callers)?;
        let next = round(alloc, parts.as_slice(), rows)?;
        if next == parts {
            return Ok(parts);
        }
        classes = next;
    }
}
