//! Rows of numbers.

ghost use Rattle.std.specs.Prelude.{◌≡◌, [], ◌∷◌, pos, reverse, OnOk};

use gimple_core::OutOfMemory;
use std::alloc::Global as Heap;
use std::marker::Model;

/// A row of numbers, seen from the last one that was put.
#[derive(Drop)]
pub(crate) struct Row {
    numbers: Vec<i128>,
}

impl Model for Row {
    ghost use Rattle.std.specs.Prelude.{List, ℤ, reverse};

    ghost Value = { List ℤ };

    ghost view = { λ r. reverse r.numbers.items };
}

impl Row {
    /// A row of no numbers.
    pub(crate) fn new(alloc: Heap) -> Row
        ensures { result ≡ [] }
    {
        Row {
            numbers: Vec::new(alloc),
        }
    }

    /// Puts a number on those before it.
    #[tactic(auto, using(crate::proofs::Rows::put_last))]
    pub(crate) fn put(&mut self, number: i128) -> Result<(), OutOfMemory>
        ensures { OnOk result (self.new ≡ number ∷ self.old) }
    {
        self.numbers.push(number)?;
        Ok(())
    }

    /// Puts a count, a position or a tag on the numbers before it.
    pub(crate) fn put_count(&mut self, count: u64) -> Result<(), OutOfMemory>
        ensures { OnOk result (self.new ≡ pos count ∷ self.old) }
    {
        self.put(i128::from(count))
    }

    /// The numbers in the order in which they were put.
    pub(crate) fn into_numbers(self) -> Vec<i128>
        ensures { reverse result.items ≡ self }
    {
        self.numbers
    }
}
