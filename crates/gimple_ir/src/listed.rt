//! A `Vec` that contracts see as the list of its elements, and exact copies and comparisons.

ghost use Rattle.std.specs.Prelude.{◌≡◌, ◌<◌, ◌↔◌, [], ◌∷◌, ◌++◌, length, take, IsTrue, IfOk, OnOk, OnErr, OnSome, slice_get, slice_set};
ghost use Rattle.std.specs.Option.{option_copied};

use crate::OutOfMemory;
use std::alloc::Global;
use std::marker::Model;

/// A list of values, which keeps its allocator.
#[derive(Debug, Drop)]
pub struct Listed<T> {
    entries: Vec<T>,
}

impl<T> Model for Listed<T> {
    ghost use Rattle.std.specs.Prelude.{List};
    ghost use Rattle.std.specs.Coded.{coded_list};

    ghost Value = { List T };

    ghost coded = { coded_list T.code };

    ghost view = { λ it. it.entries.items };
}

impl<T> Listed<T> {
    /// The empty list. It takes no memory before the first growth.
    pub fn new(alloc: Global) -> Listed<T>
        ensures { result ≡ [] }
    {
        Listed {
            entries: Vec::new(alloc),
        }
    }

    /// The list of a vector's items. Takes no memory.
    pub fn from_vec(entries: Vec<T>) -> Listed<T>
        ensures { result ≡ entries.items }
    {
        Listed { entries }
    }

    /// The vector of a list's items. Takes no memory.
    pub fn into_vec(self) -> Vec<T>
        ensures { result.items ≡ self }
    {
        let Listed { entries } = self;
        entries
    }

    /// The items in their order.
    pub fn as_slice(&self) -> &[T]
        ensures { result.now ≡ self.now }
    {
        self.entries.as_slice()
    }

    /// How many items there are.
    pub fn len(&self) -> usize
        ensures { result ≡ length self.now }
    {
        self.entries.len()
    }

    /// Whether there are no items.
    pub fn is_empty(&self) -> bool
        ensures { IsTrue result ↔ (self.now ≡ []) }
    {
        self.entries.is_empty()
    }

    /// The item at a place, counted from 0; None exactly past the end.
    pub fn get(&self, at: usize) -> Option<&T>
        ensures value { option_copied result ≡ slice_get self.now at }
        ensures within { OnSome result (at < length self.now) }
    {
        self.entries.get(at)
    }

    /// The allocator that the list grows by.
    pub fn allocator(&self) -> Global {
        *self.entries.allocator()
    }
}

impl<T: Drop> Listed<T> {
    /// Puts an item behind the last one. After a refusal the list is unchanged.
    pub fn push(&mut self, item: T) -> Result<(), OutOfMemory>
        ensures ok { OnOk result (self.new ≡ self.old ++ item ∷ []) }
        ensures err { OnErr result (self.new ≡ self.old) }
    {
        self.entries.push(item)?;
        Ok(())
    }

    /// Puts an item in the place of the one at `at`.
    pub fn set(&mut self, at: usize, item: T)
        requires { at < length self.old }
        ensures { self.new ≡ slice_set self.old at item }
    {
        self.entries[at] = item;
    }

    /// Takes all items out.
    pub fn clear(&mut self)
        ensures { self.new ≡ [] }
    {
        self.entries.clear();
    }
}

/// A byte list, for names and words.
pub type Text = Listed<u8>;

impl Listed<u8> {
    /// A text of these bytes.
    pub fn from_bytes(alloc: Global, bytes: &[u8]) -> Result<Listed<u8>, OutOfMemory>
        ensures { IfOk result (λ t. t ≡ bytes.now) }
    {
        Ok(Listed {
            entries: Vec::from_slice(alloc, bytes)?,
        })
    }

    /// Puts bytes behind the last one. After a refusal the text is unchanged.
    pub fn push_all(&mut self, more: &[u8]) -> Result<(), OutOfMemory>
        ensures ok { OnOk result (self.new ≡ self.old ++ more.now) }
        ensures err { OnErr result (self.new ≡ self.old) }
    {
        self.entries.extend_from_slice(more)
    }
}

/// A value that can be copied exactly, and compared exactly.
pub trait Exact: Drop + Clone {
    /// An equal value; it answers want of memory alone.
    fn copy(&self) -> Result<Self, OutOfMemory>
        ensures { IfOk result (λ c. c ≡ self.now) };

    /// Whether both are the same value. Takes no memory.
    fn same(&self, other: &Self) -> bool
        ensures { IsTrue result ↔ (self.now ≡ other.now) };
}

impl<T: Exact> Clone for Listed<T> {
    ghost is_clone = { λ v copy. copy ≡ v };

    fn clone(&self) -> Result<Listed<T>, OutOfMemory> {
        let mut entries = Vec::new(*self.entries.allocator());
        for entry in self.entries.as_slice() {
            entries.push(entry.copy()?)?;
        }
        Ok(Listed { entries })
    }
}

impl<T: Exact> Exact for Listed<T> {
    fn copy(&self) -> Result<Listed<T>, OutOfMemory> {
        self.clone()
    }

    fn same(&self, other: &Listed<T>) -> bool {
        same_items(self.entries.as_slice(), other.entries.as_slice())
    }
}

fn same_items<T: Exact>(left: &[T], right: &[T]) -> bool
    ensures { IsTrue result ↔ (left.now ≡ right.now) }
{
    if left.len() != right.len() {
        return false;
    }
    for i in 0..left.len() {
        if !left[i].same(&right[i]) {
            return false;
        }
    }
    true
}

impl<T: Exact> Exact for Option<T> {
    fn copy(&self) -> Result<Option<T>, OutOfMemory> {
        match self {
            Some(value) => Ok(Some(value.copy()?)),
            None => Ok(None),
        }
    }

    fn same(&self, other: &Option<T>) -> bool {
        match (self, other) {
            (None, None) => true,
            (Some(left), Some(right)) => left.same(right),
            _ => false,
        }
    }
}

impl Exact for u8 {
    fn copy(&self) -> Result<u8, OutOfMemory> {
        Ok(*self)
    }

    fn same(&self, other: &u8) -> bool {
        *self == *other
    }
}

impl Exact for u32 {
    fn copy(&self) -> Result<u32, OutOfMemory> {
        Ok(*self)
    }

    fn same(&self, other: &u32) -> bool {
        *self == *other
    }
}

impl Exact for u64 {
    fn copy(&self) -> Result<u64, OutOfMemory> {
        Ok(*self)
    }

    fn same(&self, other: &u64) -> bool {
        *self == *other
    }
}

impl Exact for bool {
    fn copy(&self) -> Result<bool, OutOfMemory> {
        Ok(*self)
    }

    fn same(&self, other: &bool) -> bool {
        *self == *other
    }
}
