//! Values that have several owners.

ghost use Rattle.std.specs.Prelude.{◌≡◌, IfOk};
ghost use Rattle.fix_engine.specs.Lattice.{AreAlike, LatticeLaws};

use fix_engine::{Lattice, OutOfMemory};
use std::alloc::Global;
use std::marker::Model;
use std::sync::Arc;

/// A value that its copies share: a copy takes a pointer's room and counts one more owner. Contracts see the value.
#[derive(Drop)]
pub struct Shared<V> {
    value: Arc<V>,
    alloc: Global,
}

impl<V> Model for Shared<V> {
    ghost Value = { V };

    ghost coded = { V.code };

    ghost view = { λ s. s.value.value };
}

impl<V> Shared<V> {
    /// The value.
    pub fn get(&self) -> &V
        ensures { result.now ≡ self.now }
    {
        &self.value
    }
}

impl<V: Drop> Shared<V> {
    /// A value with one owner. Err is want of memory.
    pub fn new(alloc: Global, value: V) -> Result<Shared<V>, OutOfMemory>
        ensures { IfOk result (λ s. s ≡ value) }
    {
        Ok(Shared {
            value: Arc::new(alloc, value)?,
            alloc,
        })
    }
}

/// The kinds, the order and the bounds are those of the values. A join that changes nothing takes no memory.
impl<V: Lattice> Lattice for Shared<V> {
    ghost fits = { V.fits };

    ghost height = { V.height };

    ghost rank = { V.rank };

    ghost below = { V.below };

    ghost joined = { V.joined };

    ghost laws = { V.laws };

    fn join(&mut self, other: &Shared<V>) -> Result<(), OutOfMemory> {
        if other.get().leq(self.get()) {
            return Ok(());
        }
        let mut next = self.get().copy()?;
        next.join(other.get())?;
        *self = Shared::new(self.alloc, next)?;
        Ok(())
    }

    fn leq(&self, other: &Shared<V>) -> bool {
        self.get().leq(other.get())
    }

    fn copy(&self) -> Result<Shared<V>, OutOfMemory> {
        Ok(Shared {
            value: Arc::try_clone(&self.value)?,
            alloc: self.alloc,
        })
    }
}
