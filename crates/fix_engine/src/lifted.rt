ghost use Rattle.std.specs.Prelude.{◌≡◌, ℕ, List, Bool, IfOk, OnOk, OnErr};
ghost use Rattle.fix_engine.specs.Lattice.{AreAlike, LatticeLaws};
ghost use Rattle.fix_engine.specs.Lifted.{FitsLifted, lifted_height, lifted_rank, lifted_below, lifted_joined, lifted_laws};

use crate::lattice::{Lattice, OutOfMemory};

/// A value, or the added value below all others, for what was not reached.
#[derive(Drop)]
pub enum Lifted<V> {
    NotReached,
    Reached(V),
}

/// The kinds are those of the values, and each height is one more.
impl<V: Lattice> Lattice for Lifted<V> {
    ghost fits = { FitsLifted V.fits };

    ghost height = { lifted_height V.height };

    ghost rank = { lifted_rank V.height V.rank };

    ghost below = { lifted_below V.below };

    ghost joined = { lifted_joined V.joined };

    ghost laws = { lifted_laws V.laws };

    fn join(&mut self, other: &Lifted<V>) -> Result<(), OutOfMemory> {
        let Lifted::Reached(theirs) = other else {
            return Ok(());
        };
        match self {
            Lifted::Reached(ours) => ours.join(theirs),
            Lifted::NotReached => {
                *self = Lifted::Reached(theirs.copy()?);
                Ok(())
            }
        }
    }

    fn leq(&self, other: &Lifted<V>) -> bool {
        match (self, other) {
            (Lifted::NotReached, _) => true,
            (Lifted::Reached(_), Lifted::NotReached) => false,
            (Lifted::Reached(ours), Lifted::Reached(theirs)) => ours.leq(theirs),
        }
    }

    fn copy(&self) -> Result<Lifted<V>, OutOfMemory> {
        match self {
            Lifted::NotReached => Ok(Lifted::NotReached),
            Lifted::Reached(ours) => Ok(Lifted::Reached(ours.copy()?)),
        }
    }
}
