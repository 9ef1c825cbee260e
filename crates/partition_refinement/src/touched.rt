//! The items whose rows lead to classes that moved.

ghost use Rattle.std.specs.Prelude.{◌≡◌, ℕ, ◌<◌, List, IfOk, OnOk, Contains, length};
ghost use Rattle.partition_refinement.specs.Relations.{row_of};
ghost use Rattle.partition_refinement.specs.Coarsest.{Below};
ghost use Rattle.partition_refinement.specs.Splitting.{AreCallers, Gathers, IsIn, IsRegarded, TouchedBy};

use crate::buckets::Buckets;
use crate::partition::Partition;
use indexmap::IndexSet;
use std::alloc::{AllocError, Global as Heap};

/// Adds these items.
fn add_all(items: &mut IndexSet<u32>, more: &[u32]) -> Result<(), AllocError>
    ensures { OnOk result (Gathers (λ item x. item ≡ x) more.now items.old.keys items.new.keys) }
{
    for item in more {
        items.insert(*item)?;
    }
    Ok(())
}

/// Adds the callers of these items.
fn add_callers(
    items: &mut IndexSet<u32>,
    callers: &Buckets,
    called: &[u32],
) -> Result<(), AllocError>
    requires { (x : ℕ) → Contains called.now x → x < length callers.now }
    ensures { OnOk result (Gathers (IsIn callers.now) called.now items.old.keys items.new.keys) }
{
    for item in called {
        add_all(items, callers.list(*item as usize))?;
    }
    Ok(())
}

/// Adds the callers of the items of these classes.
fn add_touched(
    alloc: Heap,
    items: &mut IndexSet<u32>,
    partition: &Partition,
    callers: &Buckets,
    work: &[u32],
) -> Result<(), AllocError>
    requires { length callers.now ≡ length partition.now }
    ensures { OnOk result (Gathers (TouchedBy partition.now callers.now) work.now items.old.keys items.new.keys) }
{
    for class in work {
        let called = partition.items_of(alloc, *class)?;
        add_callers(items, callers, called.as_slice())?;
    }
    Ok(())
}

/// The callers of the items of these classes, each once.
pub(crate) fn touched(
    alloc: Heap,
    partition: &Partition,
    callers: &Buckets,
    work: &[u32],
) -> Result<IndexSet<u32>, AllocError>
    requires { length callers.now ≡ length partition.now }
    ensures { IfOk result (λ items. (rows : List (List ℕ)) → ((i : ℕ) → i < length partition.now → Below (length partition.now) (row_of rows i)) → AreCallers rows (length partition.now) callers.now → IsRegarded rows partition.now items.keys) }
{
    let mut items = IndexSet::new(alloc);
    add_touched(alloc, &mut items, partition, callers, work)?;
    Ok(items)
}
