//! The class of an item with those of what is in its row.

ghost use Rattle.std.specs.Prelude.{◌≡◌, ◌<◌, ◌-◌, ◌^◌, IfOk, length};
ghost use Rattle.partition_refinement.specs.Relations.{class_of};
ghost use Rattle.partition_refinement.specs.Stages.{key_of, keys_of};

use crate::interner::Interner;
use std::alloc::{AllocError, Global as Heap};

/// The class of an item, and for a number past the end the number itself.
pub(crate) fn class_of(classes: &[u32], item: u32) -> u32
    ensures { result ≡ class_of classes.now item }
{
    match classes.get(item as usize) {
        Some(class) => *class,
        None => item,
    }
}

/// The class of an item, and those of what is in its row.
pub(crate) fn key(
    alloc: Heap,
    classes: &[u32],
    item: u32,
    row: &[u32],
) -> Result<Vec<i128>, AllocError>
    ensures { IfOk result (λ key. key.items ≡ key_of classes.now item row.now) }
{
    let mut key = Vec::new(alloc);
    key.push(i128::from(class_of(classes, item)))?;
    for other in row {
        key.push(i128::from(class_of(classes, *other)))?;
    }
    Ok(key)
}

/// The keys of all items, in their order.
pub(crate) fn keys(alloc: Heap, classes: &[u32], rows: &[Vec<u32>]) -> Result<Interner, AllocError>
    requires { length rows.now < 2 ^ 32 }
    ensures { IfOk result (λ keys. keys ≡ keys_of (λ row. row.items) classes.now 0 rows.now) }
{
    let mut keys = Interner::new(alloc);
    for (item, row) in rows.iter().enumerate() {
        keys.note(key(alloc, classes, item as u32, row.as_slice())?)?;
    }
    Ok(keys)
}
