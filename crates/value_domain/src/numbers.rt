//! Exact arithmetic on numbers of scalars.

ghost use Rattle.std.specs.Prelude.{◌≡◌, ◌^◌, ◌+ℤ◌, ◌-ℤ◌, ◌*ℤ◌, ℤ, pos, unsigned_abs};
ghost use Rattle.std.specs.Int.{int_min};
ghost use Rattle.std.specs.Int.RustNames.{int_div};
ghost use Rattle.gimple_core.specs.Operators.{IsWord, IsSignedWord, is_signed, half_of, modulus_of, least_of, greatest_of};
ghost use Rattle.value_domain.specs.RangeOperators.{type_range, IsWords, IsUnsignedWord};

use crate::range::Range;
use gimple_core::Scalar;

pub(crate) fn plus(left: i128, right: i128) -> i128
    requires left { IsWord left }
    requires right { IsWord right }
    ensures { result ≡ left +ℤ right }
{
    left + right
}

pub(crate) fn minus(left: i128, right: i128) -> i128
    requires left { IsWord left }
    requires right { IsWord right }
    ensures { result ≡ left -ℤ right }
{
    left - right
}

pub(crate) fn times(left: i128, right: i128) -> i128
    requires left { IsSignedWord left }
    requires right { IsSignedWord right }
    ensures { result ≡ left *ℤ right }
{
    left * right
}

/// The product of two numbers from 0, or 2 ^ 64 where it is more.
pub(crate) fn times_up(left: i128, right: i128) -> i128
    requires left { IsUnsignedWord left }
    requires right { IsUnsignedWord right }
    ensures { result ≡ int_min (left *ℤ right) (pos (2 ^ 64)) }
{
    match (left as u64).checked_mul(right as u64) {
        Some(product) => i128::from(product),
        None => 0x1_0000_0000_0000_0000,
    }
}

/// A quotient towards 0, which is 0 for the divisor 0.
pub(crate) fn over(left: i128, right: i128) -> i128
    requires { IsWord left }
    ensures { result ≡ int_div left right }
{
    if right == 0 {
        return 0;
    }
    left / right
}

/// A number without its sign.
pub(crate) fn size(value: i128) -> i128
    requires { IsWord value }
    ensures { result ≡ pos (unsigned_abs value) }
{
    if value < 0 { minus(0, value) } else { value }
}

/// The numbers of a scalar.
pub(crate) fn numbers_of(scalar: Scalar) -> Range
    ensures value { result ≡ type_range scalar }
    ensures words { IsWords result }
{
    match scalar {
        Scalar::I8 => Range {
            low: -0x80,
            high: 0x7f,
        },
        Scalar::I16 => Range {
            low: -0x8000,
            high: 0x7fff,
        },
        Scalar::I32 => Range {
            low: -0x8000_0000,
            high: 0x7fff_ffff,
        },
        Scalar::I64 => Range {
            low: -0x8000_0000_0000_0000,
            high: 0x7fff_ffff_ffff_ffff,
        },
        Scalar::U8 => Range { low: 0, high: 0xff },
        Scalar::U16 => Range {
            low: 0,
            high: 0xffff,
        },
        Scalar::U32 => Range {
            low: 0,
            high: 0xffff_ffff,
        },
        Scalar::U64 | Scalar::Ptr => Range {
            low: 0,
            high: 0xffff_ffff_ffff_ffff,
        },
    }
}
