//! Scalars, operators and comparisons, and what fits them.

ghost use Rattle.std.specs.Prelude.{◌≡◌};
ghost use Rattle.gimple_core.specs.Memory as memory;
ghost use Rattle.gimple_core.specs.Statements as spec;

use gimple_core::{Cmp, Op, Operand, Scalar, fits};

pub(crate) fn same_scalar(left: Scalar, right: Scalar) -> bool
    ensures { result ≡ memory.same_scalar left right }
{
    left == right
}

pub(crate) fn is_pointer(scalar: Scalar) -> bool
    ensures { result ≡ spec.is_pointer scalar }
{
    matches!(scalar, Scalar::Ptr)
}

pub(crate) fn is_printable(z: i128) -> bool
    ensures { result ≡ spec.is_printable z }
{
    fits(Scalar::I64, z) || fits(Scalar::U64, z)
}

pub(crate) fn is_shift(op: Op) -> bool
    ensures { result ≡ spec.is_shift op }
{
    matches!(op, Op::Shl | Op::Shr)
}

pub(crate) fn is_add(op: Op) -> bool
    ensures { result ≡ spec.is_add op }
{
    matches!(op, Op::Add)
}

pub(crate) fn is_order(cmp: Cmp) -> bool
    ensures { result ≡ spec.is_order cmp }
{
    !matches!(cmp, Cmp::Eq | Cmp::Ne)
}

pub(crate) fn is_number(x: &Operand) -> bool
    ensures { result ≡ spec.is_number x.now }
{
    matches!(x, Operand::Number(_))
}
