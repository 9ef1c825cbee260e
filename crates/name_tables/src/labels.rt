//! Labels in a row.

ghost use Rattle.std.specs.Prelude.{◌≡◌, ◌++◌, ◌∷◌, ◌==◌, [], OnOk, position};

use gimple_core::OutOfMemory;
use indexmap::IndexSet;
use std::alloc::Global as Heap;
use std::marker::Model;

/// How many labels are searched one by one.
const FEW: usize = 8;

/// Labels in a row. While no label stands in it twice, a long row is searched by hashing.
#[derive(Drop)]
pub struct Labels {
    labels: Vec<u64>,
    set: IndexSet<u64>,
    distinct: bool,
}

impl Model for Labels {
    ghost use Rattle.std.specs.Prelude.{◌≡◌, List, ℕ, IsTrue};

    ghost Value = { List ℕ };

    ghost view = { λ t. t.labels.items };

    ghost invariant = { λ t. IsTrue t.distinct → t.set.keys ≡ t.labels.items };
}

fn place_from_front(labels: &[u64], label: u64) -> Option<usize>
    ensures { result ≡ position (λ l. l == label) labels.now }
{
    labels.iter().position(|l| *l == label)
}

impl Labels {
    /// A row of no labels. It takes no memory before the first one.
    pub fn new(alloc: Heap) -> Labels
        ensures { result ≡ [] }
    {
        Labels {
            labels: Vec::new(alloc),
            set: IndexSet::new(alloc),
            distinct: true,
        }
    }

    /// Puts a label behind the last one.
    pub fn push(&mut self, label: u64) -> Result<(), OutOfMemory>
        ensures { OnOk result (self.new ≡ self.old ++ label ∷ []) }
    {
        let distinct = self.distinct;
        self.distinct = false;
        self.labels.push(label)?;
        let added = self.set.insert(label)?;
        if distinct && added {
            self.distinct = true;
        }
        Ok(())
    }

    /// The place of the first label that is this one; None exactly where no label is.
    pub fn place(&self, label: u64) -> Option<usize>
        ensures { result ≡ position (λ l. l == label) self.now }
    {
        if self.distinct && self.labels.len() > FEW {
            return self.set.get_index_of(&label);
        }
        place_from_front(self.labels.as_slice(), label)
    }
}
