//! Finite sets as ascending lists, each in the order `K`.

ghost use Rattle.std.specs.Prelude.{◌≡◌, OnOk, OnErr};
ghost use Rattle.lattice_parts.specs.Sets.{placed, united, has_by, subset_by, IsPlace};

use crate::order::Order;
use fix_engine::OutOfMemory;

/// Where an item has its place among others, or None where it is there. Takes no memory.
pub fn place_of<T, K: Order<T>>(items: &[T], item: &T) -> Option<usize>
    ensures { IsPlace K.before item.now items.now result }
{
    for at in 0..items.len() {
        let here = &items[at];
        if K::comes_before(here, item) {
            continue;
        }
        if K::comes_before(item, here) {
            return Some(at);
        }
        return None;
    }
    Some(items.len())
}

/// Puts an item into its place among others, once. After a refusal the items are unchanged.
pub fn place<T: Drop, K: Order<T>>(items: &mut Vec<T>, item: T) -> Result<(), OutOfMemory>
    ensures ok { OnOk result (items.new.items ≡ placed K.before item items.old.items) }
    ensures err { OnErr result (items.new.items ≡ items.old.items) }
{
    match place_of::<T, K>(items.as_slice(), &item) {
        Some(at) => {
            items.insert(at, item)?;
            Ok(())
        }
        None => Ok(()),
    }
}

/// Whether an item is among others. Takes no memory.
pub fn has<T, K: Order<T>>(items: &[T], item: &T) -> bool
    ensures { result ≡ has_by K.before item.now items.now }
{
    for at in 0..items.len() {
        if !K::comes_before(item, &items[at]) && !K::comes_before(&items[at], item) {
            return true;
        }
    }
    false
}

/// Whether each of the first items is among the second. Takes no memory.
pub fn is_within<T, K: Order<T>>(left: &[T], right: &[T]) -> bool
    ensures { result ≡ subset_by K.before left.now right.now }
{
    for at in 0..left.len() {
        if !has::<T, K>(right, &left[at]) {
            return false;
        }
    }
    true
}

/// Puts items into their places among others. After a refusal some of them may be there.
pub fn unite<T: Copy, K: Order<T>>(all: &mut Vec<T>, more: &[T]) -> Result<(), OutOfMemory>
    ensures { OnOk result (all.new.items ≡ united K.before more.now all.old.items) }
{
    for at in 0..more.len() {
        place::<T, K>(all, more[at])?;
    }
    Ok(())
}
