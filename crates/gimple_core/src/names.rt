//! Names.

ghost use Rattle.std.specs.Prelude.{◌≡◌};
ghost use Rattle.std.specs.Str.{bytes_eq};

use gimple_ir::{Exact, Text};

/// Whether two names are the same.
pub fn same_name(left: &Text, right: &Text) -> bool
    ensures { result ≡ bytes_eq left.now right.now }
{
    left.same(right)
}
