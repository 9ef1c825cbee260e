ghost use Rattle.std.specs.Prelude.{◌≡◌, ◌≤◌, ℕ, Bool, List, OnOk, OnErr, IfOk, length};
ghost use Rattle.fix_engine.specs.Lattice.{AreAlike, IsRising, LatticeLaws};

use std::alloc::AllocError;

pub type OutOfMemory = AllocError;

/// Values in an order in which two that fit one kind have a least upper bound, and no chain rises for ever.
pub trait Lattice: Drop {
    /// Which values fit a kind.
    ghost fits: { List ℕ → Self → Type 0 };

    /// No chain of values of a kind rises more often.
    ghost height: { List ℕ → ℕ };

    /// How often at most a chain of values of a kind can still rise from a value.
    ghost rank: { List ℕ → Self → ℕ };

    ghost below: { Self → Self → Bool };

    ghost joined: { Self → Self → Self };

    /// Leaves the least upper bound of the two. After an `Err` the value is unchanged.
    fn join(&mut self, other: &Self) -> Result<(), OutOfMemory>
        requires { AreAlike fits self.old other.now }
        ensures ok { OnOk result (self.new ≡ joined self.old other.now) }
        ensures err { OnErr result (self.new ≡ self.old) };

    fn leq(&self, other: &Self) -> bool
        requires { AreAlike fits self.now other.now }
        ensures { result ≡ below self.now other.now };

    fn copy(&self) -> Result<Self, OutOfMemory>
        ensures { IfOk result (λ v. v ≡ self.now) };

    ghost laws: { LatticeLaws fits height rank below joined };
}

/// No chain of values of one kind rises more often than the kind's height.
pub fn height_bounds_chains<V: Lattice>()
    ensures { (k : List ℕ) (first : V) (rest : List V) → IsRising (V.fits k) V.below first rest → length rest ≤ V.height k }
{}
