//! Classes named by their first items.

ghost use Rattle.std.specs.Prelude.{◌≡◌, ℕ, ◌<◌, ◌-◌, ◌+◌, ◌^◌, List, Some, nat_eq, IfOk, length, slice_get};
ghost use Rattle.indexmap.specs.IndexMap.{get};
ghost use Rattle.partition_refinement.specs.Named.{HasFirsts};
ghost use Rattle.partition_refinement.specs.Stages.{IsFirstSame, AreFirstSame};

use indexmap::IndexMap;
use std::alloc::{AllocError, Global as Heap};

/// The first item of a class: the one that is known already, or else this item, which is known from now on.
fn first_of(firsts: &mut IndexMap<u32, u32>, class: u32, item: u32) -> Result<u32, AllocError>
    ensures { IfOk result (λ first. (classes : List ℕ) → slice_get classes item ≡ Some class → HasFirsts (get nat_eq firsts.old) classes item → HasFirsts (get nat_eq firsts.new) classes (item + 1) × IsFirstSame ℕ classes item first) }
{
    match firsts.get(&class).copied() {
        Some(first) => Ok(first),
        None => {
            firsts.insert(class, item)?;
            Ok(item)
        }
    }
}

/// For each item the first one of its class. Err is want of memory.
pub(crate) fn named(alloc: Heap, classes: &[u32]) -> Result<Vec<u32>, AllocError>
    requires { length classes.now < 2 ^ 32 }
    ensures { IfOk result (λ names. AreFirstSame ℕ classes.now names.items) }
{
    let mut firsts = IndexMap::new(alloc);
    let mut names = Vec::new(alloc);
    for (item, class) in classes.iter().enumerate() {
        names.push(first_of(&mut firsts, *class, item as u32)?)?;
    }
    Ok(names)
}
