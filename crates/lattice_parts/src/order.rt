//! Strict orders.

ghost use Rattle.std.specs.Prelude.{◌≡◌, Bool};
ghost use Rattle.lattice_parts.specs.Sets.{IsOrder};

/// A strict total order of the values of a type.
pub trait Order<T> {
    ghost before: { T → T → Bool };

    /// Whether the first stands before the second. Takes no memory.
    fn comes_before(left: &T, right: &T) -> bool
        ensures { result ≡ before left.now right.now };

    ghost order: { IsOrder before };
}
