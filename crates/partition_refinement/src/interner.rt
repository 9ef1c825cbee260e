//! Rows of numbers, and a number for each kind of row.

ghost use Rattle.std.specs.Prelude.{◌≡◌, ℕ, ◌↔◌, ◌++◌, ◌∷◌, [], ◌<◌, ◌≤◌, ◌-◌, ◌^◌, OnOk, OnErr, IfOk, map, length, slice_get};
ghost use Rattle.partition_refinement.specs.Relations.{class_of};
ghost use Rattle.partition_refinement.specs.Interned.{IsNoted};

use indexmap::IndexSet;
use std::alloc::{AllocError, Global as Heap};
use std::marker::Model;

/// Rows of numbers in the order in which they were noted. Of rows that are equal, one is kept.
#[derive(Drop)]
pub struct Interner {
    distinct: IndexSet<Vec<i128>>,
    numbers: Vec<u32>,
}

impl Model for Interner {
    ghost use Rattle.std.specs.Prelude.{List, ℤ, map};
    ghost use Rattle.partition_refinement.specs.Interned.{rows_at, AreNumbers};

    ghost Value = { List (List ℤ) };

    ghost view = { λ t. rows_at (map (λ row. row.items) t.distinct.keys) t.numbers.items };

    ghost invariant = { λ t. AreNumbers (map (λ row. row.items) t.distinct.keys) t.numbers.items };
}

/// The number of a row among the distinct ones, behind which it is put where it is new.
fn number_of(distinct: &mut IndexSet<Vec<i128>>, row: Vec<i128>) -> Result<usize, AllocError>
    ensures noted { IfOk result (IsNoted (map (λ other. other.items) distinct.old.keys) row.items (map (λ other. other.items) distinct.new.keys)) }
    ensures unchanged { OnErr result (distinct.new.keys ≡ distinct.old.keys) }
{
    let (number, _) = distinct.insert_full(row)?;
    Ok(number)
}

impl Interner {
    /// No rows.
    pub fn new(alloc: Heap) -> Interner
        ensures { result ≡ [] }
    {
        Interner {
            distinct: IndexSet::new(alloc),
            numbers: Vec::new(alloc),
        }
    }

    /// Puts a row behind the others. Err is want of memory.
    pub fn note(&mut self, row: Vec<i128>) -> Result<(), AllocError>
        requires { length self.old < 2 ^ 32 }
        ensures { OnOk result (self.new ≡ self.old ++ row.items ∷ []) }
    {
        self.numbers.reserve(1)?;
        let number = number_of(&mut self.distinct, row)?;
        self.numbers.push(number as u32)?;
        Ok(())
    }

    /// A number for each row, in their order: the same one exactly where the rows are equal.
    pub fn into_classes(self) -> Vec<u32>
        ensures count { length result.items ≡ length self }
        ensures low { (i : ℕ) → i < length self → class_of result.items i ≤ i }
        ensures same { (i j : ℕ) → i < length self → j < length self → (class_of result.items i ≡ class_of result.items j) ↔ (slice_get self i ≡ slice_get self j) }
    {
        self.numbers
    }
}
