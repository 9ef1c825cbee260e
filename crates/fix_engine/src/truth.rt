ghost use Rattle.std.specs.Prelude.{◌≡◌, Bool, ◌||◌, IfOk, OnOk, OnErr};
ghost use Rattle.fix_engine.specs.Truth.{FitsAny, one, truth_rank, implies, truth_laws};

use crate::lattice::{Lattice, OutOfMemory};

/// Truth values, of which true is above false. They fit every kind, and the height is 1.
impl Lattice for bool {
    ghost fits = { FitsAny };

    ghost height = { one };

    ghost rank = { truth_rank };

    ghost below = { implies };

    ghost joined = { ◌||◌ };

    ghost laws = { truth_laws };

    fn join(&mut self, other: &bool) -> Result<(), OutOfMemory> {
        *self |= *other;
        Ok(())
    }

    fn leq(&self, other: &bool) -> bool {
        !*self | *other
    }

    fn copy(&self) -> Result<bool, OutOfMemory> {
        Ok(*self)
    }
}
