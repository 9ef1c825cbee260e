//! For each item those whose rows have it.

ghost use Rattle.std.specs.Prelude.{◌≡◌, ℕ, ◌<◌, ◌-◌, ◌^◌, IfOk, OnOk, length, map};
ghost use Rattle.partition_refinement.specs.Relations.{row_of};
ghost use Rattle.partition_refinement.specs.Coarsest.{Below};
ghost use Rattle.partition_refinement.specs.Splitting.{AddsCaller, AreCallers};

use crate::buckets::Buckets;
use std::alloc::{AllocError, Global as Heap};

/// Puts an item into the list of each entry of its row.
fn add_caller(callers: &mut Buckets, item: u32, row: &[u32]) -> Result<(), AllocError>
    requires { Below (length callers.old) row.now }
    ensures { OnOk result (AddsCaller callers.old item row.now callers.new) }
{
    for other in row {
        callers.push(*other as usize, item)?;
    }
    Ok(())
}

/// For each item those whose rows have it.
pub(crate) fn callers_of(alloc: Heap, rows: &[Vec<u32>]) -> Result<Buckets, AllocError>
    requires few { length rows.now < 2 ^ 32 }
    requires items { (i : ℕ) → i < length rows.now → Below (length rows.now) (row_of (map (λ row. row.items) rows.now) i) }
    ensures callers { IfOk result (AreCallers (map (λ row. row.items) rows.now) (length rows.now)) }
    ensures count { IfOk result (λ callers. length callers ≡ length rows.now) }
{
    let mut callers = Buckets::new(alloc, rows.len())?;
    for (item, row) in rows.iter().enumerate() {
        add_caller(&mut callers, item as u32, row.as_slice())?;
    }
    Ok(callers)
}
