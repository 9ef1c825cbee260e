//! The extents of the objects that live.

ghost use Rattle.std.specs.Prelude.{◌≡◌, ◌++◌, ◌∷◌, [], Some, find, filter, IfSome, OnOk};
ghost use Rattle.std.specs.Option.{option_copied};
ghost use Rattle.gimple_core.specs.Memory.{same_object, is_elsewhere};

use crate::rows::{Placed, Rows};
use crate::values::is_same_object;
use gimple_core::{Extent, Object, OutOfMemory};
use std::alloc::Global as Heap;
use std::marker::Model;

impl Placed for Extent {
    ghost use Rattle.gimple_exec.specs.PlacedLemmas.{extent_there};

    ghost object_of = { λ x. x.object };

    ghost offset_of = { λ x. 0 };

    ghost matches = { λ t x. same_object x.object t.object };

    fn object(&self) -> Object {
        self.object
    }

    fn offset(&self) -> u64 {
        0
    }

    fn matches(&self, sought: &Extent) -> bool {
        is_same_object(self.object, sought.object)
    }

    ghost matches_there = { extent_there };
}

/// The extents of the objects that live.
#[derive(Drop)]
pub struct Extents {
    rows: Rows<Extent>,
}

impl Model for Extents {
    ghost use Rattle.std.specs.Prelude.{List};
    ghost use Rattle.gimple_core.specs.declared.machine.Extent.{Extent};

    ghost Value = { List Extent };

    ghost view = { λ s. s.rows };
}

impl Extents {
    pub fn new(alloc: Heap) -> Extents
        ensures { result ≡ [] }
    {
        Extents {
            rows: Rows::new(alloc),
        }
    }

    /// Adds an extent behind the others.
    pub fn push(&mut self, extent: Extent) -> Result<(), OutOfMemory>
        ensures { OnOk result (self.new ≡ self.old ++ extent ∷ []) }
    {
        self.rows.push(extent)
    }

    /// How many objects live.
    pub fn len(&self) -> usize {
        self.rows.len()
    }

    /// The first extent of an object, which may be near a guess.
    pub fn found(&self, object: Object, guess: usize) -> Option<&Extent>
        ensures { option_copied result ≡ find (λ x. same_object x.object object) self.now }
    {
        match self.here(object, guess) {
            Some(extent) => Some(extent),
            None => self.elsewhere(object, guess),
        }
    }

    /// The extent of an object, if it is the one at this place.
    fn here(&self, object: Object, at: usize) -> Option<&Extent>
        ensures { IfSome result (λ x. find (λ y. same_object y.object object) self.now ≡ Some x.now) }
    {
        let Some(extent) = self.rows.ordered_item(at) else {
            return None;
        };
        if is_same_object(extent.object, object) {
            return Some(extent);
        }
        None
    }

    /// The first extent of an object, which is not the one at a guess.
    fn elsewhere(&self, object: Object, guess: usize) -> Option<&Extent>
        ensures { option_copied result ≡ find (λ x. same_object x.object object) self.now }
    {
        let sought = Extent {
            object,
            size: 0,
            constant: false,
        };
        self.rows.found(&sought, guess)
    }

    /// Takes out those of a frame that has returned.
    pub fn leave(&mut self, serial: u64)
        ensures { self.new ≡ filter (λ s. is_elsewhere serial s.object) self.old }
    {
        self.rows.leave(serial);
    }
}
