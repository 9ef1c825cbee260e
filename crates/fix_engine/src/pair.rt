ghost use Rattle.std.specs.Prelude.{◌≡◌, ℕ, List, Bool, IfOk, OnOk, OnErr};
ghost use Rattle.fix_engine.specs.Lattice.{AreAlike, LatticeLaws};
ghost use Rattle.fix_engine.specs.Pair.{FitsPair, pair_height, pair_rank, pair_below, pair_joined, pair_laws};

use crate::lattice::{Lattice, OutOfMemory};

/// Two values, compared and joined each by itself.
#[derive(Drop)]
pub struct Pair<A, B> {
    pub first: A,
    pub second: B,
}

/// A kind is the length of the first's kind, and then both kinds. The height is the sum of both heights.
impl<A: Lattice, B: Lattice> Lattice for Pair<A, B> {
    ghost fits = { FitsPair A.fits B.fits };

    ghost height = { pair_height A.height B.height };

    ghost rank = { pair_rank A.rank B.rank };

    ghost below = { pair_below A.below B.below };

    ghost joined = { pair_joined A.joined B.joined };

    ghost laws = { pair_laws A.laws B.laws };

    fn join(&mut self, other: &Pair<A, B>) -> Result<(), OutOfMemory> {
        let mut first = self.first.copy()?;
        first.join(&other.first)?;
        self.second.join(&other.second)?;
        self.first = first;
        Ok(())
    }

    fn leq(&self, other: &Pair<A, B>) -> bool {
        self.first.leq(&other.first) && self.second.leq(&other.second)
    }

    fn copy(&self) -> Result<Pair<A, B>, OutOfMemory> {
        Ok(Pair {
            first: self.first.copy()?,
            second: self.second.copy()?,
        })
    }
}
