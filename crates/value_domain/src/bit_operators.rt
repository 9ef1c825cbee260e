//! What is known of the bits of results.

ghost use Rattle.std.specs.Prelude.{◌≡◌, ◌≤◌, ◌<◌, ◌-◌, ◌+◌, ◌*◌, ◌%◌, ◌^◌, ℕ, ℤ, pos, IfSome, IsTrue, Option, ◌⊎◌};
ghost use Rattle.std.specs.Int.{int_shr};
ghost use Rattle.gimple_core.specs.Operators.{modulus_of, in_scalar, bits_of, low_bits};
ghost use Rattle.value_domain.specs.BitOperators.{number_of, exact_bits, unknown_bits, low_known, low_sum, low_difference, low_product, divided_bits, mask_above, value_above, shifted_left, shifted_right, if_count, IsKnownCount, op_bits, exact_truth, some_truth, cmp_bits, compared_bits, converted_bits, truth};
ghost use Rattle.value_domain.specs.Bitmasks.{conflict};

use crate::bits::Bits;
use gimple_core::{Cmp, Mode, Op, Scalar, bits, eval_cmp, eval_op, low, modulus, signed, wrap};

/// No bit is known.
pub(crate) fn unknown() -> Bits
    ensures { result ≡ unknown_bits }
{
    Bits { mask: 0, value: 0 }
}

/// All bits of a scalar.
fn full(scalar: Scalar) -> u64
    ensures { result ≡ modulus_of scalar - 1 }
{
    (modulus(scalar) - 1) as u64
}

/// The number whose bits are all known.
pub(crate) fn number(scalar: Scalar, known: Bits) -> Option<i128>
    ensures value { result ≡ number_of scalar known }
    ensures fits { IfSome result (λ z. IsTrue (in_scalar scalar z)) }
{
    if known.mask == full(scalar) {
        Some(wrap(scalar, i128::from(known.value)))
    } else {
        None
    }
}

/// All bits of a number of a scalar.
pub(crate) fn exact(scalar: Scalar, value: i128) -> Bits
    ensures { result ≡ exact_bits scalar value }
{
    Bits {
        mask: full(scalar),
        value: low(scalar, value),
    }
}

/// The number with the lowest bits set.
pub(crate) fn ones(count: u32) -> u64
    requires { count ≤ 64 }
    ensures { result ≡ 2 ^ count - 1 }
{
    if count == 0 {
        0
    } else {
        u64::MAX >> (64 - count)
    }
}

/// How many low bits are known on both sides without a gap.
fn known_low(left: Bits, right: Bits) -> u32
    ensures value { result ≡ low_known left right }
    ensures bound { result ≤ 64 }
{
    (left.mask & right.mask).trailing_ones()
}

fn sum(left: Bits, right: Bits) -> Bits
    ensures { result ≡ low_sum left right }
{
    let mask = ones(known_low(left, right));
    Bits {
        mask,
        value: left.value.wrapping_add(right.value) & mask,
    }
}

fn difference(left: Bits, right: Bits) -> Bits
    ensures { result ≡ low_difference left right }
{
    let mask = ones(known_low(left, right));
    Bits {
        mask,
        value: left.value.wrapping_sub(right.value) & mask,
    }
}

fn product(left: Bits, right: Bits) -> Bits
    ensures { result ≡ low_product left right }
{
    let mask = ones(known_low(left, right));
    Bits {
        mask,
        value: left.value.wrapping_mul(right.value) & mask,
    }
}

/// All bits of a quotient or remainder of numbers that are known.
fn divided(mode: Mode, op: Op, scalar: Scalar, left: Bits, right: Bits) -> Bits
    requires { (op ≡ Op.Div) ⊎ (op ≡ Op.Rem) }
    ensures { result ≡ divided_bits mode op scalar left right }
{
    match (number(scalar, left), number(scalar, right)) {
        (Some(x), Some(y)) => match eval_op(mode, op, scalar, x, y) {
            Ok(value) => exact(scalar, value),
            Err(_) => unknown(),
        },
        (_, _) => unknown(),
    }
}

/// The known bits of a number, those above its scalar too.
fn mask_with_above(scalar: Scalar, known: Bits) -> i128
    ensures { result ≡ mask_above scalar known }
{
    if signed(scalar) {
        wrap(scalar, i128::from(known.mask))
    } else {
        i128::from(known.mask) - modulus(scalar)
    }
}

fn left_by(scalar: Scalar, known: Bits, count: u32) -> Bits
    requires { count < 64 }
    ensures { result ≡ shifted_left scalar known count }
{
    Bits {
        mask: low(
            scalar,
            i128::from((known.mask << count).wrapping_add(ones(count))),
        ),
        value: low(scalar, i128::from(known.value << count)),
    }
}

/// A number without its lowest bits.
fn shift(value: i128, count: u32) -> i128
    requires { count < 64 }
    ensures { result ≡ int_shr value count }
{
    value >> count
}

fn right_by(scalar: Scalar, known: Bits, count: u32) -> Bits
    requires { count < 64 }
    ensures { result ≡ shifted_right scalar known count }
{
    Bits {
        mask: low(scalar, shift(mask_with_above(scalar, known), count)),
        value: low(scalar, shift(wrap(scalar, i128::from(known.value)), count)),
    }
}

/// A shift's count, where it is known and lawful.
fn count_of(scalar: Scalar, other: Scalar, right: Bits) -> Option<u32>
    ensures { IsKnownCount scalar (number_of other right) result }
{
    match number(other, right) {
        Some(value) => {
            if 0 <= value && value < i128::from(bits(scalar)) {
                Some(value as u32)
            } else {
                None
            }
        }
        None => None,
    }
}

/// What is known of the bits of an operator's result.
pub(crate) fn bits_of_op(
    mode: Mode,
    op: Op,
    scalar: Scalar,
    other: Scalar,
    left: Bits,
    right: Bits,
) -> Bits
    ensures { result ≡ op_bits mode op scalar other left right }
{
    match op {
        Op::Add => sum(left, right),
        Op::Sub => difference(left, right),
        Op::Mul => product(left, right),
        Op::Div | Op::Rem => divided(mode, op, scalar, left, right),
        Op::And => left.and(right),
        Op::Or => left.or(right),
        Op::Xor => left.xor(right),
        Op::Shl => match count_of(scalar, other, right) {
            Some(count) => left_by(scalar, left, count),
            None => unknown(),
        },
        Op::Shr => match count_of(scalar, other, right) {
            Some(count) => right_by(scalar, left, count),
            None => unknown(),
        },
    }
}

fn truth_of(holds: bool) -> i128
    ensures { result ≡ truth holds }
{
    if holds { 1 } else { 0 }
}

/// 0 or 1.
pub(crate) fn either_truth(target: Scalar) -> Bits
    ensures { result ≡ some_truth target }
{
    Bits {
        mask: full(target) - 1,
        value: 0,
    }
}

fn compared(target: Scalar, cmp: Cmp, scalar: Scalar, left: Bits, right: Bits) -> Bits
    ensures { result ≡ compared_bits target cmp (number_of scalar left) (number_of scalar right) }
{
    match (number(scalar, left), number(scalar, right)) {
        (Some(x), Some(y)) => exact(target, truth_of(eval_cmp(cmp, x, y))),
        (_, _) => either_truth(target),
    }
}

/// What is known of the bits of a comparison's result.
pub(crate) fn bits_of_cmp(target: Scalar, cmp: Cmp, scalar: Scalar, left: Bits, right: Bits) -> Bits
    ensures { result ≡ cmp_bits target cmp scalar left right }
{
    let apart = (left.value ^ right.value) & (left.mask & right.mask) != 0;
    match cmp {
        Cmp::Eq if apart => exact(target, 0),
        Cmp::Ne if apart => exact(target, 1),
        _ => compared(target, cmp, scalar, left, right),
    }
}

/// What is known of the bits of a number wrapped into a scalar.
pub(crate) fn bits_converted(target: Scalar, source: Scalar, known: Bits) -> Bits
    ensures { result ≡ converted_bits target source known }
{
    Bits {
        mask: low(target, mask_with_above(source, known)),
        value: low(target, wrap(source, i128::from(known.value))),
    }
}
