//! Names in a row.

ghost use Rattle.std.specs.Prelude.{◌≡◌, ◌++◌, ◌∷◌, [], OnOk, position, map};
ghost use Rattle.std.specs.Str.{bytes_eq};

use gimple_core::OutOfMemory;
use indexmap::IndexSet;
use std::alloc::Global as Heap;
use std::marker::Model;

/// How many names are searched one by one.
const FEW: usize = 8;

/// Names in a row. While no name stands in it twice, a long row is searched by hashing.
#[derive(Drop)]
pub struct Names<'a> {
    names: Vec<&'a [u8]>,
    set: IndexSet<&'a [u8]>,
    distinct: bool,
}

impl<'a> Model for Names<'a> {
    ghost use Rattle.std.specs.Prelude.{◌≡◌, List, ℕ, map, IsTrue};

    ghost Value = { List (List ℕ) };

    ghost view = { λ t. map (λ k. k.now) t.names.items };

    ghost invariant = { λ t. IsTrue t.distinct → map (λ k. k.now) t.set.keys ≡ map (λ k. k.now) t.names.items };
}

fn is_same(left: &[u8], right: &[u8]) -> bool
    ensures { result ≡ bytes_eq left.now right.now }
{
    left == right
}

fn place_from_front(names: &[&[u8]], name: &[u8]) -> Option<usize>
    ensures { result ≡ position (λ n. bytes_eq n.now name.now) names.now }
{
    names.iter().position(|n| is_same(n, name))
}

impl<'a> Names<'a> {
    /// A row of no names. It takes no memory before the first one.
    pub fn new(alloc: Heap) -> Names<'a>
        ensures { result ≡ [] }
    {
        Names {
            names: Vec::new(alloc),
            set: IndexSet::new(alloc),
            distinct: true,
        }
    }

    /// Puts a name behind the last one.
    pub fn push(&mut self, name: &'a [u8]) -> Result<(), OutOfMemory>
        ensures { OnOk result (self.new ≡ self.old ++ name.now ∷ []) }
    {
        let distinct = self.distinct;
        self.distinct = false;
        self.names.push(name)?;
        let added = self.set.insert(name)?;
        if distinct && added {
            self.distinct = true;
        }
        Ok(())
    }

    /// The place of the first name that is this one; None exactly where no name is.
    pub fn place(&self, name: &[u8]) -> Option<usize>
        ensures { result ≡ position (λ n. bytes_eq n name.now) self.now }
    {
        if self.distinct && self.names.len() > FEW {
            return self.set.get_index_of(name);
        }
        place_from_front(self.names.as_slice(), name)
    }
}
