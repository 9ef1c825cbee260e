//! Lists of items, by numbers.

ghost use Rattle.std.specs.Prelude.{◌≡◌, ◌<◌, ◌++◌, ◌∷◌, [], IfOk, OnOk, OnErr, length, replicate, slice_set};
ghost use Rattle.partition_refinement.specs.Relations.{row_of};

use std::alloc::{AllocError, Global as Heap};
use std::marker::Model;

/// Lists of items, each under its number.
#[derive(Drop)]
pub(crate) struct Buckets {
    lists: Vec<Vec<u32>>,
}

impl Model for Buckets {
    ghost use Rattle.std.specs.Prelude.{List, ℕ, map};

    ghost Value = { List (List ℕ) };

    ghost view = { λ b. map (λ list. list.items) b.lists.items };
}

impl Buckets {
    /// So many empty lists.
    pub(crate) fn new(alloc: Heap, count: usize) -> Result<Buckets, AllocError>
        ensures { IfOk result (λ b. b ≡ replicate count []) }
    {
        let mut lists = Vec::new(alloc);
        for number in 0..count {
            lists.push(Vec::new(alloc))?;
        }
        Ok(Buckets { lists })
    }

    /// How many lists there are.
    pub(crate) fn len(&self) -> usize
        ensures { result ≡ length self.now }
    {
        self.lists.len()
    }

    /// The list of a number.
    pub(crate) fn list(&self, number: usize) -> &[u32]
        requires { number < length self.now }
        ensures { result.now ≡ row_of self.now number }
    {
        self.lists[number].as_slice()
    }

    /// Puts an item behind those of a list.
    pub(crate) fn push(&mut self, number: usize, item: u32) -> Result<(), AllocError>
        requires { number < length self.old }
        ensures { OnOk result (self.new ≡ slice_set self.old number (row_of self.old number ++ item ∷ [])) }
    {
        self.lists[number].push(item)?;
        Ok(())
    }

    /// Puts a list behind the others.
    pub(crate) fn add(&mut self, list: Vec<u32>) -> Result<(), AllocError>
        ensures added { OnOk result (self.new ≡ self.old ++ list.items ∷ []) }
        ensures unchanged { OnErr result (self.new ≡ self.old) }
    {
        self.lists.push(list)?;
        Ok(())
    }
}
