//! The intervals of results, before they are rounded.

ghost use Rattle.std.specs.Prelude.{◌≡◌, ◌≤◌, ◌<◌, ◌≤ℤ◌, ◌<ℤ◌, ◌*ℤ◌, ℕ, ℤ, pos, Bool, true, false, Option, Some, None};
ghost use Rattle.std.specs.Int.RustNames.{int_div};
ghost use Rattle.gimple_ir.specs.declared.scalar.Mode.{Mode};
ghost use Rattle.gimple_core.specs.Operators.{is_signed, IsWord};
ghost use Rattle.value_domain.specs.Ranges.{corners, corners_each, hull_each, below_zero, above_zero, sum_range, difference_range, product_range, quotient_range, whole_unless, hull_four};
ghost use Rattle.value_domain.specs.RangeOperators.{IsWords, IsSignedWords, IsInside, type_range, meet_each, traps_outside, fitted, reach_of, low_remainder, high_remainder, remainder_range, and_range, ones_reaching, or_range, shr_range, op_range, surely, opposite, cmp_range, convert_range, highest};

use crate::bit_operators::ones;
use crate::numbers::{minus, numbers_of, over, plus, size, times, times_up};
use crate::range::Range;
use gimple_core::{Cmp, Mode, Op, Scalar, signed};

fn or_whole(exact: Range, whole: Range) -> Range
    ensures { result ≡ whole_unless whole exact }
{
    if whole.low <= exact.low && exact.high <= whole.high {
        exact
    } else {
        whole
    }
}

/// Whether a sum, difference or product outside a scalar traps; else it wraps.
pub(crate) fn traps_where_outside(mode: Mode, scalar: Scalar) -> bool
    ensures value { result ≡ traps_outside mode scalar }
    ensures signed { result ≡ true → is_signed scalar ≡ true }
{
    match mode {
        Mode::Trap => signed(scalar),
        Mode::Wrap => false,
    }
}

/// An exact interval of a sum, difference or product brought into a scalar.
fn fit(mode: Mode, scalar: Scalar, exact: Range) -> Option<Range>
    ensures { result ≡ fitted mode scalar (Some exact) }
{
    let whole = numbers_of(scalar);
    if traps_where_outside(mode, scalar) {
        whole.meet(exact)
    } else {
        Some(or_whole(exact, whole))
    }
}

pub(crate) fn sum(left: Range, right: Range) -> Range
    requires left { IsWords left }
    requires right { IsWords right }
    ensures { sum_range left right ≡ Some result }
{
    Range {
        low: plus(left.low, right.low),
        high: plus(left.high, right.high),
    }
}

pub(crate) fn difference(left: Range, right: Range) -> Range
    requires left { IsWords left }
    requires right { IsWords right }
    ensures { difference_range left right ≡ Some result }
{
    Range {
        low: minus(left.low, right.high),
        high: minus(left.high, right.low),
    }
}

fn only(value: i128) -> Range
    ensures { result ≡ record { low = value; high = value } }
{
    Range {
        low: value,
        high: value,
    }
}

fn hull_of_four(first: i128, second: i128, third: i128, fourth: i128) -> Range
    ensures { result ≡ hull_four first second third fourth }
{
    let left = only(first).join(only(second));
    let right = only(third).join(only(fourth));
    left.join(right)
}

/// The hull of the four products.
pub(crate) fn product(left: Range, right: Range) -> Range
    requires left { IsSignedWords left }
    requires right { IsSignedWords right }
    ensures { product_range left right ≡ Some result }
{
    let first = times(left.low, right.low);
    let second = times(left.low, right.high);
    let third = times(left.high, right.low);
    let fourth = times(left.high, right.high);
    hull_of_four(first, second, third, fourth)
}

fn quotients(left: Range, right: Range) -> Range
    requires { IsWords left }
    ensures { result ≡ corners int_div left right }
{
    let first = over(left.low, right.low);
    let second = over(left.low, right.high);
    let third = over(left.high, right.low);
    let fourth = over(left.high, right.high);
    hull_of_four(first, second, third, fourth)
}

/// The quotients by the divisors below 0.
fn quotients_below(left: Range, right: Range) -> Option<Range>
    requires { IsWords left }
    ensures { result ≡ corners_each int_div left (below_zero right) }
{
    if right.low < 0 {
        Some(quotients(
            left,
            Range {
                low: right.low,
                high: right.high.min(-1),
            },
        ))
    } else {
        None
    }
}

/// The quotients by the divisors above 0.
fn quotients_above(left: Range, right: Range) -> Option<Range>
    requires { IsWords left }
    ensures { result ≡ corners_each int_div left (above_zero right) }
{
    if 0 < right.high {
        Some(quotients(
            left,
            Range {
                low: right.low.max(1),
                high: right.high,
            },
        ))
    } else {
        None
    }
}

fn quotient(scalar: Scalar, left: Range, right: Range) -> Option<Range>
    requires { IsWords left }
    ensures { result ≡ meet_each (type_range scalar) (quotient_range left right) }
{
    let whole = numbers_of(scalar);
    match (quotients_below(left, right), quotients_above(left, right)) {
        (Some(below), Some(above)) => whole.meet(below.join(above)),
        (Some(below), None) => whole.meet(below),
        (None, Some(above)) => whole.meet(above),
        (None, None) => None,
    }
}

/// The greatest size of a number of an interval.
fn reach(range: Range) -> i128
    requires { IsWords range }
    ensures { result ≡ reach_of range }
{
    size(range.low).max(size(range.high))
}

fn remainder_low(reach: i128, low: i128) -> i128
    requires { IsWord reach }
    ensures { result ≡ low_remainder reach low }
{
    if 0 <= low {
        0
    } else {
        low.max(minus(1, reach))
    }
}

fn remainder_high(reach: i128, high: i128) -> i128
    requires { IsWord reach }
    ensures { result ≡ high_remainder reach high }
{
    if high <= 0 {
        0
    } else {
        high.min(minus(reach, 1))
    }
}

fn remainder(left: Range, right: Range) -> Option<Range>
    requires { IsWords right }
    ensures { result ≡ remainder_range left right }
{
    let most = reach(right);
    if most <= 0 {
        None
    } else {
        Some(Range {
            low: remainder_low(most, left.low),
            high: remainder_high(most, left.high),
        })
    }
}

fn both(scalar: Scalar, left: Range, right: Range) -> Range
    ensures { result ≡ and_range (type_range scalar) left right }
{
    if 0 <= left.low {
        if 0 <= right.low {
            Range {
                low: 0,
                high: left.high.min(right.high),
            }
        } else {
            Range {
                low: 0,
                high: left.high,
            }
        }
    } else if 0 <= right.low {
        Range {
            low: 0,
            high: right.high,
        }
    } else {
        numbers_of(scalar)
    }
}

/// The least number with the lowest bits set that reaches another one, up to 64 bits.
fn ones_up_to(value: i128) -> i128
    ensures { result ≡ ones_reaching value }
{
    for bit in 0u32..64 {
        let lowest = i128::from(ones(bit));
        if value <= lowest {
            return lowest;
        }
    }
    0xffff_ffff_ffff_ffff
}

fn either(scalar: Scalar, left: Range, right: Range) -> Range
    ensures { result ≡ or_range (type_range scalar) left right }
{
    if 0 <= left.low {
        if 0 <= right.low {
            Range {
                low: 0,
                high: ones_up_to(left.high.max(right.high)),
            }
        } else {
            numbers_of(scalar)
        }
    } else {
        numbers_of(scalar)
    }
}

fn shifted(range: Range) -> Range
    ensures { result ≡ shr_range range }
{
    Range {
        low: range.low.min(0),
        high: range.high.max(-1),
    }
}

/// The products of numbers from 0.
fn unsigned_product(scalar: Scalar, left: Range, right: Range) -> Range
    requires unsigned { is_signed scalar ≡ false }
    requires left { IsInside scalar left }
    requires right { IsInside scalar right }
    ensures { (mode : Mode) → Some result ≡ fitted mode scalar (product_range left right) }
{
    let exact = Range {
        low: times_up(left.low, right.low),
        high: times_up(left.high, right.high),
    };
    or_whole(exact, numbers_of(scalar))
}

/// The interval of an operator's result.
pub(crate) fn range_of_op(
    mode: Mode,
    op: Op,
    scalar: Scalar,
    left: Range,
    right: Range,
) -> Option<Range>
    requires left { IsInside scalar left }
    requires right { IsWords right }
    requires same { (op ≡ Op.Mul) → IsInside scalar right }
    ensures { result ≡ op_range mode op scalar left right }
{
    match op {
        Op::Add => fit(mode, scalar, sum(left, right)),
        Op::Sub => fit(mode, scalar, difference(left, right)),
        Op::Mul => {
            if signed(scalar) {
                fit(mode, scalar, product(left, right))
            } else {
                Some(unsigned_product(scalar, left, right))
            }
        }
        Op::Div => quotient(scalar, left, right),
        Op::Rem => remainder(left, right),
        Op::And => Some(both(scalar, left, right)),
        Op::Or | Op::Xor => Some(either(scalar, left, right)),
        Op::Shl => Some(numbers_of(scalar)),
        Op::Shr => Some(shifted(left)),
    }
}

/// Whether a comparison holds of all pairs of numbers.
fn holds_of_all(cmp: Cmp, left: Range, right: Range) -> bool
    ensures { result ≡ surely cmp left right }
{
    match cmp {
        Cmp::Eq => left.high <= right.low && right.high <= left.low,
        Cmp::Ne => left.high < right.low || right.high < left.low,
        Cmp::Lt => left.high < right.low,
        Cmp::Le => left.high <= right.low,
        Cmp::Gt => right.high < left.low,
        Cmp::Ge => right.high <= left.low,
    }
}

fn opposite_of(cmp: Cmp) -> Cmp
    ensures { result ≡ opposite cmp }
{
    match cmp {
        Cmp::Eq => Cmp::Ne,
        Cmp::Ne => Cmp::Eq,
        Cmp::Lt => Cmp::Ge,
        Cmp::Le => Cmp::Gt,
        Cmp::Gt => Cmp::Le,
        Cmp::Ge => Cmp::Lt,
    }
}

/// The interval of a comparison's result.
pub(crate) fn range_of_cmp(cmp: Cmp, left: Range, right: Range) -> Range
    ensures { result ≡ cmp_range cmp left right }
{
    if holds_of_all(cmp, left, right) {
        Range { low: 1, high: 1 }
    } else if holds_of_all(opposite_of(cmp), left, right) {
        Range { low: 0, high: 0 }
    } else {
        Range { low: 0, high: 1 }
    }
}

/// The interval of a number wrapped into a scalar.
pub(crate) fn range_converted(target: Scalar, range: Range) -> Range
    ensures { result ≡ convert_range target range }
{
    or_whole(range, numbers_of(target))
}
