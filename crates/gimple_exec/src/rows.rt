//! Rows of what belongs to the objects that live, each behind those that came before it.

ghost use Rattle.std.specs.Prelude.{◌≡◌, ◌++◌, ◌∷◌, [], true, Some, find, filter, IsTrue, IfSome, OnOk};
ghost use Rattle.std.specs.Option.{option_copied};
ghost use Rattle.gimple_core.specs.Memory.{is_elsewhere};
ghost use Rattle.gimple_core.specs.Names.{update_first};
ghost use Rattle.gimple_exec.specs.Order.{comes_before, IsOrdered, Follows, IsSplit, IsLatest};
ghost use Rattle.gimple_exec.specs.Places.{IsPlace, IsFirstAt};

use crate::order::{elsewhere, precedes, rank};
use gimple_core::{Object, OutOfMemory};
use std::alloc::Global as Heap;
use std::marker::Model;

/// How far from a guess an item is sought.
const STEPS: usize = 4;

/// What belongs to an object, at an offset in it.
pub trait Placed: Drop {
    ghost use Rattle.std.specs.Prelude.{ℕ, Bool, true};
    ghost use Rattle.gimple_ir.specs.declared.value.Object.{Object};

    ghost object_of: { Self → Object };

    ghost offset_of: { Self → ℕ };

    ghost matches: { Self → Self → Bool };

    fn object(&self) -> Object
        ensures { result ≡ object_of self.now };

    fn offset(&self) -> u64
        ensures { result ≡ offset_of self.now };

    /// Whether this is found where the other one is sought.
    fn matches(&self, sought: &Self) -> bool
        ensures { result ≡ matches sought.now self.now };

    ghost matches_there: { (t x : Self) → matches t x ≡ true → (object_of x ≡ object_of t) × (offset_of x ≡ offset_of t) };
}

/// A list of what belongs to objects. While each item was added behind those that come before it, a search halves the list.
#[derive(Drop)]
pub struct Rows<T: Placed> {
    items: Vec<T>,
    ordered: bool,
}

impl<T: Placed> Model for Rows<T> {
    ghost use Rattle.std.specs.Prelude.{List, IsTrue};
    ghost use Rattle.gimple_exec.specs.Order.{comes_before, IsOrdered};

    ghost Value = { List T };

    ghost view = { λ s. s.items.items };

    ghost invariant = { λ s. IsTrue s.ordered → IsOrdered (comes_before T.object_of T.offset_of) s.items.items };
}

/// Whether an item comes before another one.
fn comes_before<T: Placed>(left: &T, right: &T) -> bool
    ensures { result ≡ comes_before T.object_of T.offset_of left.now right.now }
{
    precedes(left.object(), left.offset(), right.object(), right.offset())
}

/// Whether a list is in order, and is so with one more item.
fn stays_ordered<T: Placed>(ordered: bool, items: &[T], item: &T) -> bool
    ensures ordered { IsTrue result → IsTrue ordered }
    ensures follows { IsTrue result → Follows (comes_before T.object_of T.offset_of) items.now item.now }
{
    if !ordered {
        return false;
    }
    match items.last() {
        Some(last) => comes_before(last, item),
        None => true,
    }
}

/// Near a guess, where an item that is sought may stand.
fn near<T: Placed>(items: &[T], sought: &T, guess: usize) -> usize {
    let mut at = guess;
    for _turn in 0..STEPS {
        let Some(item) = items.get(at) else {
            return at;
        };
        if comes_before(item, sought) {
            at = at.saturating_add(1);
        } else if comes_before(sought, item) {
            at = at.saturating_sub(1);
        } else {
            return at;
        }
    }
    at
}

/// The place of an item that is sought, if it is the one at this place, in a list in order.
fn place_here<T: Placed>(items: &[T], sought: &T, at: usize) -> Option<usize>
    requires { IsOrdered (comes_before T.object_of T.offset_of) items.now }
    ensures { IfSome result (λ k. IsFirstAt (T.matches sought.now) items.now k) }
{
    if at >= items.len() {
        return None;
    }
    if items[at].matches(sought) {
        return Some(at);
    }
    None
}

/// The place of the first item that is sought, in a list in order, which is not the one at a guess.
fn place_around<T: Placed>(items: &[T], sought: &T, guess: usize) -> Option<usize>
    requires { IsOrdered (comes_before T.object_of T.offset_of) items.now }
    ensures { IsPlace (T.matches sought.now) items.now result }
{
    match place_here(items, sought, near(items, sought, guess)) {
        Some(at) => Some(at),
        None => place_by_halves(items, sought),
    }
}

/// The place of the first item that is sought, in a list in order.
fn place_by_guess<T: Placed>(items: &[T], sought: &T, guess: usize) -> Option<usize>
    requires { IsOrdered (comes_before T.object_of T.offset_of) items.now }
    ensures { IsPlace (T.matches sought.now) items.now result }
{
    match place_here(items, sought, guess) {
        Some(at) => Some(at),
        None => place_around(items, sought, guess),
    }
}

/// The item at a place of a list in order.
fn item_in<T: Placed>(items: &[T], at: usize) -> Option<&T>
    requires { IsOrdered (comes_before T.object_of T.offset_of) items.now }
    ensures { IfSome result (λ x. (t : T) → T.matches t x.now ≡ true → find (T.matches t) items.now ≡ Some x.now) }
{
    if at >= items.len() {
        return None;
    }
    Some(&items[at])
}

/// The place of the first item that is sought, in a list in order.
fn place_by_halves<T: Placed>(items: &[T], sought: &T) -> Option<usize>
    requires { IsOrdered (comes_before T.object_of T.offset_of) items.now }
    ensures { IsPlace (T.matches sought.now) items.now result }
{
    let at = items.partition_point(|item| comes_before(item, sought));
    if at >= items.len() {
        return None;
    }
    if items[at].matches(sought) {
        return Some(at);
    }
    None
}

/// The place of the first item that is sought.
fn place_from_front<T: Placed>(items: &[T], sought: &T) -> Option<usize>
    ensures { IsPlace (T.matches sought.now) items.now result }
{
    for at in 0..items.len() {
        if items[at].matches(sought) {
            return Some(at);
        }
    }
    None
}

/// Where the items of a frame begin, in a list in order.
fn first_of<T: Placed>(items: &[T], serial: u64) -> usize
    requires { IsOrdered (comes_before T.object_of T.offset_of) items.now }
    ensures { IsSplit T.object_of serial items.now result }
{
    let here = u128::from(serial) + 1;
    items.partition_point(|item| rank(item.object()) < here)
}

/// Whether no item is of a frame later than this one, in a list in order.
fn is_latest<T: Placed>(items: &[T], serial: u64) -> bool
    ensures { IsTrue result → IsLatest T.object_of serial items.now }
{
    match items.last() {
        Some(last) => rank(last.object()) <= u128::from(serial) + 1,
        None => true,
    }
}

/// Takes out the items of a frame.
fn leave<T: Placed>(items: &mut Vec<T>, serial: u64)
    ensures { items.new.items ≡ filter (λ s. is_elsewhere serial (T.object_of s)) items.old.items }
{
    items.retain(|item| elsewhere(serial, item.object()));
}

impl<T: Placed> Rows<T> {
    pub fn new(alloc: Heap) -> Rows<T>
        ensures { result ≡ [] }
    {
        Rows {
            items: Vec::new(alloc),
            ordered: true,
        }
    }

    /// Adds an item behind the others.
    pub fn push(&mut self, item: T) -> Result<(), OutOfMemory>
        ensures { OnOk result (self.new ≡ self.old ++ item ∷ []) }
    {
        self.ordered = stays_ordered(self.ordered, self.items.as_slice(), &item);
        self.items.push(item)?;
        Ok(())
    }

    /// The place of the first item that is sought, which may be near a guess.
    pub fn place(&self, sought: &T, guess: usize) -> Option<usize>
        ensures { IsPlace (T.matches sought.now) self.now result }
    {
        if self.ordered {
            place_by_guess(self.items.as_slice(), sought, guess)
        } else {
            place_from_front(self.items.as_slice(), sought)
        }
    }

    /// The item at a place, if the list is in order: what it is sought by finds it first.
    pub fn ordered_item(&self, at: usize) -> Option<&T>
        ensures { IfSome result (λ x. (t : T) → T.matches t x.now ≡ true → find (T.matches t) self.now ≡ Some x.now) }
    {
        if self.ordered {
            item_in(self.items.as_slice(), at)
        } else {
            None
        }
    }

    /// How many items there are.
    pub fn len(&self) -> usize {
        self.items.len()
    }

    /// The first item that is sought, which may be near a guess.
    pub fn found(&self, sought: &T, guess: usize) -> Option<&T>
        ensures { option_copied result ≡ find (T.matches sought.now) self.now }
    {
        match self.place(sought, guess) {
            Some(at) => self.items.get(at),
            None => None,
        }
    }

    /// Puts an item in the place of the first one that is found where it is sought, if there is one; it may be near a guess.
    pub fn replace(&mut self, item: T, guess: usize)
        ensures { self.new ≡ update_first (T.matches item) (λ _. item) self.old }
    {
        if let Some(at) = self.place(&item, guess) {
            self.items[at] = item;
        }
    }

    /// Takes out those of a frame that has returned.
    pub fn leave(&mut self, serial: u64)
        ensures { self.new ≡ filter (λ s. is_elsewhere serial (T.object_of s)) self.old }
    {
        if self.ordered && is_latest(self.items.as_slice(), serial) {
            let kept = first_of(self.items.as_slice(), serial);
            self.items.truncate(kept);
        } else {
            self.ordered = false;
            leave(&mut self.items, serial);
        }
    }
}
