//! The operators on abstract values.

ghost use Rattle.std.specs.Prelude.{◌≡◌, ◌⊎◌, ℕ, ℤ, List, Bool, true, false, Option, Some, None, IfOk, IsTrue};
ghost use Rattle.gimple_core.specs.Statements.{is_pointer};
ghost use Rattle.fix_engine.specs.Lattice.{AreAlike};
ghost use Rattle.value_domain.specs.Values.{FitsAbsVal, FitsWith, abs_val_below, abs_val_joined, none_val, is_none_val};
ghost use Rattle.gimple_core.specs.Operators.{is_signed};
ghost use Rattle.value_domain.specs.Ranges.{meet_range};
ghost use Rattle.value_domain.specs.RangeOperators.{IsInside, IsWords, IsSignedWords, allowed, rounded_each, type_range};
ghost use Rattle.value_domain.specs.AbsOperators.{assembled, top_of, span_of, zero_range, bits_alone, range_alone, exactly_of, bits_under, range_under, abs_op_of, bits_compared, range_compared, abs_cmp_of, abs_convert_of, abs_met, refined_of, refined_proper, ordered_left, known_of, range_constant, may_trap_of, range_traps, division_traps, count_traps, lies_outside, has_number, bits_in, range_in, brought_into};
ghost use Rattle.value_domain.specs.Holding.{IsOf, IsAllowed, MayCompare, is_equality};

use crate::abs_val::AbsVal;
use crate::bit_operators::{
    bits_converted, bits_of_cmp, bits_of_op, either_truth, exact, number, unknown,
};
use crate::bits::Bits;
use crate::constant_operators::{
    Rule, Test, each_converted, met, of_scalar, pairs, pointer, sets_trap, single, tested, without,
};
use crate::numbers::{minus, numbers_of, plus};
use crate::range::Range;
use crate::range_operators::{
    difference, product, range_converted, range_of_cmp, range_of_op, sum, traps_where_outside,
};
use crate::thresholds::Thresholds;
use crate::vals::{Vals, capped};
use fix_engine::Lattice;
use gimple_core::{Cmp, Constant, Mode, Op, OutOfMemory, Scalar, bits, low, signed};
use std::alloc::Global;

/// The value that holds nothing.
fn none() -> AbsVal
    ensures { result ≡ none_val }
{
    AbsVal {
        vals: Vals::Nothing,
        bits: Bits { mask: 0, value: 0 },
        range: Range { low: 1, high: 0 },
    }
}

/// A value of its parts; where one is empty, it holds nothing.
fn assemble(vals: Vals, bits: Option<Bits>, range: Option<Range>) -> AbsVal
    ensures { result ≡ assembled vals bits range }
{
    if let Vals::Nothing = vals {
        return none();
    }
    match (bits, range) {
        (Some(bits), Some(range)) => AbsVal { vals, bits, range },
        (_, _) => none(),
    }
}

/// The interval that a pointer has.
fn zero() -> Range
    ensures { result ≡ zero_range }
{
    Range { low: 0, high: 0 }
}

/// What holds every value of a scalar. Takes no memory.
pub fn top(scalar: Scalar) -> AbsVal
    ensures { result ≡ top_of scalar }
{
    let range = if pointer(scalar) {
        zero()
    } else {
        numbers_of(scalar)
    };
    AbsVal {
        vals: Vals::Any,
        bits: unknown(),
        range,
    }
}

fn alone_bits(scalar: Scalar, constant: Constant) -> Bits
    ensures { result ≡ bits_alone scalar constant }
{
    match constant {
        Constant::Int(value) => exact(scalar, value),
        _ => unknown(),
    }
}

fn alone_range(constant: Constant, limits: &Thresholds) -> Range
    ensures { result ≡ range_alone limits.now.ends constant }
{
    match constant {
        Constant::Int(value) => limits.round(Range {
            low: value,
            high: value,
        }),
        _ => zero(),
    }
}

/// What holds a constant of a scalar. Where the constant is none of the scalar, it holds nothing.
#[tactic(auto, unfolding(crate::specs::AbsOperators::exactly_of))]
pub fn exactly(
    alloc: Global,
    scalar: Scalar,
    constant: Constant,
    limits: &Thresholds,
) -> Result<AbsVal, OutOfMemory>
    ensures { IfOk result (λ v. v ≡ exactly_of scalar limits.now.size limits.now.ends constant) }
{
    if !of_scalar(scalar, constant) {
        return Ok(none());
    }
    let mut constants = Vec::new(alloc);
    constants.push(constant)?;
    Ok(AbsVal {
        vals: capped(limits.limit(), constants),
        bits: alone_bits(scalar, constant),
        range: alone_range(constant, limits),
    })
}

/// The least value above both.
pub fn join(left: &AbsVal, right: &AbsVal) -> Result<AbsVal, OutOfMemory>
    requires { AreAlike FitsAbsVal left.now right.now }
    ensures { IfOk result (λ v. v ≡ abs_val_joined left.now right.now) }
{
    let mut joined = left.copy()?;
    joined.join(right)?;
    Ok(joined)
}

/// What is known where both values hold.
pub fn meet(left: &AbsVal, right: &AbsVal) -> Result<AbsVal, OutOfMemory>
    requires { AreAlike FitsAbsVal left.now right.now }
    ensures { IfOk result (λ v. v ≡ abs_met left.now right.now) }
{
    meet_any(left, right)
}

#[tactic(auto, unfolding(crate::specs::AbsOperators::abs_met))]
fn meet_any(left: &AbsVal, right: &AbsVal) -> Result<AbsVal, OutOfMemory>
    ensures { IfOk result (λ v. v ≡ abs_met left.now right.now) }
{
    if left.range.is_empty() {
        return Ok(none());
    }
    if right.range.is_empty() {
        return Ok(none());
    }
    let vals = met(&left.vals, &right.vals)?;
    Ok(assemble(
        vals,
        left.bits.meet(right.bits),
        left.range.meet(right.range),
    ))
}

/// Whether the first value is below the second. Takes no memory.
pub fn leq(left: &AbsVal, right: &AbsVal) -> bool
    requires { AreAlike FitsAbsVal left.now right.now }
    ensures { result ≡ abs_val_below left.now right.now }
{
    Lattice::leq(left, right)
}

fn op_bits_of(mode: Mode, op: Op, scalar: Scalar, other: Scalar, left: Bits, right: Bits) -> Bits
    ensures { result ≡ bits_under mode op scalar other left right }
{
    if pointer(scalar) {
        unknown()
    } else {
        bits_of_op(mode, op, scalar, other, left, right)
    }
}

fn op_range_of(
    mode: Mode,
    op: Op,
    scalar: Scalar,
    left: Range,
    right: Range,
    limits: &Thresholds,
) -> Option<Range>
    requires left { is_pointer scalar ≡ false → IsInside scalar left }
    requires right { is_pointer scalar ≡ false → IsWords right }
    requires same { is_pointer scalar ≡ false → op ≡ Op.Mul → IsInside scalar right }
    ensures { result ≡ range_under mode op scalar limits.now.ends left right }
{
    if pointer(scalar) {
        return Some(zero());
    }
    match range_of_op(mode, op, scalar, left, right) {
        Some(range) => Some(limits.round(range)),
        None => None,
    }
}

/// What an operator makes of the values of its sides, in a mode of arithmetic. `other` is the scalar of the right side.
#[tactic(auto, unfolding(crate::specs::AbsOperators::abs_op_of))]
pub fn abs_op(
    alloc: Global,
    mode: Mode,
    op: Op,
    scalar: Scalar,
    other: Scalar,
    left: &AbsVal,
    right: &AbsVal,
    limits: &Thresholds,
) -> Result<AbsVal, OutOfMemory>
    requires allowed { IsAllowed op scalar other }
    requires left_fits { FitsWith limits.now.size limits.now.ends left.now }
    requires left_of { IsOf scalar left.now }
    requires right_fits { FitsWith limits.now.size limits.now.ends right.now }
    requires right_of { IsOf other right.now }
    ensures { IfOk result (λ v. v ≡ abs_op_of mode op scalar other limits.now.size limits.now.ends left.now right.now) }
{
    if left.range.is_empty() {
        return Ok(none());
    }
    if right.range.is_empty() {
        return Ok(none());
    }
    let vals = pairs(
        alloc,
        limits.limit(),
        Rule::Arithmetic(mode, op, scalar),
        &left.vals,
        &right.vals,
    )?;
    let bits = op_bits_of(mode, op, scalar, other, left.bits, right.bits);
    let range = op_range_of(mode, op, scalar, left.range, right.range, limits);
    Ok(assemble(vals, Some(bits), range))
}

fn cmp_bits_of(target: Scalar, cmp: Cmp, scalar: Scalar, left: Bits, right: Bits) -> Bits
    ensures { result ≡ bits_compared target cmp scalar left right }
{
    if pointer(scalar) {
        either_truth(target)
    } else {
        bits_of_cmp(target, cmp, scalar, left, right)
    }
}

fn cmp_range_of(cmp: Cmp, scalar: Scalar, left: Range, right: Range) -> Range
    ensures { result ≡ range_compared cmp scalar left right }
{
    if pointer(scalar) {
        Range { low: 0, high: 1 }
    } else {
        range_of_cmp(cmp, left, right)
    }
}

/// What a comparison of values of `scalar` makes of them, as a value of `target`.
#[tactic(auto, unfolding(crate::specs::AbsOperators::abs_cmp_of))]
pub fn abs_cmp(
    alloc: Global,
    target: Scalar,
    cmp: Cmp,
    scalar: Scalar,
    left: &AbsVal,
    right: &AbsVal,
    limits: &Thresholds,
) -> Result<AbsVal, OutOfMemory>
    requires target { is_pointer target ≡ false }
    requires allowed { MayCompare cmp scalar }
    requires left_fits { FitsWith limits.now.size limits.now.ends left.now }
    requires left_of { IsOf scalar left.now }
    requires right_fits { FitsWith limits.now.size limits.now.ends right.now }
    requires right_of { IsOf scalar right.now }
    ensures { IfOk result (λ v. v ≡ abs_cmp_of target cmp scalar limits.now.size left.now right.now) }
{
    if left.range.is_empty() {
        return Ok(none());
    }
    if right.range.is_empty() {
        return Ok(none());
    }
    let vals = pairs(
        alloc,
        limits.limit(),
        Rule::Comparison(cmp),
        &left.vals,
        &right.vals,
    )?;
    let bits = cmp_bits_of(target, cmp, scalar, left.bits, right.bits);
    let range = cmp_range_of(cmp, scalar, left.range, right.range);
    Ok(assemble(vals, Some(bits), Some(range)))
}

/// What a conversion from `source` to `target` makes of a value.
#[tactic(auto, unfolding(crate::specs::AbsOperators::abs_convert_of))]
pub fn abs_convert(
    alloc: Global,
    target: Scalar,
    source: Scalar,
    value: &AbsVal,
    limits: &Thresholds,
) -> Result<AbsVal, OutOfMemory>
    requires target { is_pointer target ≡ false }
    requires source { is_pointer source ≡ false }
    requires fits { FitsWith limits.now.size limits.now.ends value.now }
    requires of { IsOf source value.now }
    ensures { IfOk result (λ v. v ≡ abs_convert_of target source limits.now.size limits.now.ends value.now) }
{
    if value.range.is_empty() {
        return Ok(none());
    }
    let vals = each_converted(alloc, limits.limit(), target, &value.vals)?;
    let bits = bits_converted(target, source, value.bits);
    let range = limits.round(range_converted(target, value.range));
    Ok(assemble(vals, Some(bits), Some(range)))
}

/// The numbers for which a comparison by order can hold of some number of an interval.
fn allowed_by(cmp: Cmp, range: Range) -> Range
    requires words { IsWords range }
    requires order { is_equality cmp ≡ false }
    ensures { result ≡ allowed cmp range }
{
    let lowest = -0x8000_0000_0000_0000;
    let highest = 0xffff_ffff_ffff_ffff;
    match cmp {
        Cmp::Eq => unreachable!(),
        Cmp::Ne => unreachable!(),
        Cmp::Lt => Range {
            low: lowest,
            high: minus(range.high, 1),
        },
        Cmp::Le => Range {
            low: lowest,
            high: range.high,
        },
        Cmp::Gt => Range {
            low: plus(range.low, 1),
            high: highest,
        },
        Cmp::Ge => Range {
            low: range.low,
            high: highest,
        },
    }
}

fn meet_rounded(wanted: Range, range: Range, limits: &Thresholds) -> Option<Range>
    ensures { result ≡ rounded_each limits.now.ends (meet_range wanted range) }
{
    match wanted.meet(range) {
        Some(range) => Some(limits.round(range)),
        None => None,
    }
}

fn left_by_order(
    cmp: Cmp,
    side: &AbsVal,
    against: &AbsVal,
    limits: &Thresholds,
) -> Result<AbsVal, OutOfMemory>
    requires words { IsWords against.now.range }
    requires order { is_equality cmp ≡ false }
    ensures { IfOk result (λ v. v ≡ ordered_left cmp limits.now.ends side.now against.now) }
{
    let wanted = allowed_by(cmp, against.range);
    let vals = tested(Test::Within(wanted), &side.vals)?;
    let range = meet_rounded(wanted, side.range, limits);
    Ok(assemble(vals, Some(side.bits), range))
}

/// What is left of `side` where `side cmp against` is taken.
#[tactic(auto, unfolding(crate::specs::AbsOperators::refined_of))]
pub fn refine(
    cmp: Cmp,
    scalar: Scalar,
    side: &AbsVal,
    against: &AbsVal,
    limits: &Thresholds,
) -> Result<AbsVal, OutOfMemory>
    requires allowed { MayCompare cmp scalar }
    requires side_fits { FitsWith limits.now.size limits.now.ends side.now }
    requires side_of { IsOf scalar side.now }
    requires against_fits { FitsWith limits.now.size limits.now.ends against.now }
    requires against_of { IsOf scalar against.now }
    ensures { IfOk result (λ v. v ≡ refined_of cmp limits.now.ends side.now against.now) }
{
    if side.range.is_empty() {
        return Ok(none());
    }
    if against.range.is_empty() {
        return Ok(none());
    }
    match cmp {
        Cmp::Eq => meet_any(side, against),
        Cmp::Ne => {
            let vals = without(&side.vals, &against.vals)?;
            Ok(assemble(vals, Some(side.bits), Some(side.range)))
        }
        Cmp::Lt => left_by_order(Cmp::Lt, side, against, limits),
        Cmp::Le => left_by_order(Cmp::Le, side, against, limits),
        Cmp::Gt => left_by_order(Cmp::Gt, side, against, limits),
        Cmp::Ge => left_by_order(Cmp::Ge, side, against, limits),
    }
}

fn only_number(range: Range) -> Option<Constant>
    ensures { result ≡ range_constant range }
{
    if range.low <= range.high && range.high <= range.low {
        Some(Constant::Int(range.low))
    } else {
        None
    }
}

/// The one constant of the set, else the number whose bits are all known, else the one number of the interval; None
/// exactly where there is none of these. Takes no memory.
#[tactic(auto, unfolding(crate::specs::AbsOperators::known_of))]
pub fn known(scalar: Scalar, value: &AbsVal) -> Option<Constant>
    requires of { IsOf scalar value.now }
    ensures { result ≡ known_of scalar value.now }
{
    if let Some(constant) = single(&value.vals) {
        return Some(constant);
    }
    if pointer(scalar) {
        return None;
    }
    match number(scalar, value.bits) {
        Some(found) => Some(Constant::Int(found)),
        None => only_number(value.range),
    }
}

fn division_leaves(scalar: Scalar, left: Range, right: Range) -> bool
    ensures { result ≡ division_traps scalar left right }
{
    if is_within(0, right) {
        return true;
    }
    if !signed(scalar) {
        return false;
    }
    let whole = numbers_of(scalar);
    if left.low <= whole.low {
        is_within(-1, right)
    } else {
        false
    }
}

fn count_leaves(scalar: Scalar, right: Range) -> bool
    ensures { result ≡ count_traps scalar right }
{
    if 0 <= right.low {
        let width = i128::from(bits(scalar));
        if right.high < width { false } else { true }
    } else {
        true
    }
}

/// Whether the intervals leave a trap open.
pub(crate) fn range_leaves(mode: Mode, op: Op, scalar: Scalar, left: Range, right: Range) -> bool
    requires left { IsWords left }
    requires right { IsWords right }
    requires signed { is_signed scalar ≡ true → op ≡ Op.Mul → (IsSignedWords left) × (IsSignedWords right) }
    ensures { result ≡ range_traps mode op scalar left right }
{
    match op {
        Op::Add => {
            if traps_where_outside(mode, scalar) {
                is_outside(numbers_of(scalar), sum(left, right))
            } else {
                false
            }
        }
        Op::Sub => {
            if traps_where_outside(mode, scalar) {
                is_outside(numbers_of(scalar), difference(left, right))
            } else {
                false
            }
        }
        Op::Mul => {
            if traps_where_outside(mode, scalar) {
                is_outside(numbers_of(scalar), product(left, right))
            } else {
                false
            }
        }
        Op::Div | Op::Rem => division_leaves(scalar, left, right),
        Op::And | Op::Or | Op::Xor => false,
        Op::Shl | Op::Shr => count_leaves(scalar, right),
    }
}

fn is_outside(whole: Range, exact: Range) -> bool
    ensures { result ≡ lies_outside whole (Some exact) }
{
    !(whole.low <= exact.low && exact.high <= whole.high)
}

fn is_within(value: i128, range: Range) -> bool
    ensures { result ≡ has_number value range }
{
    range.low <= value && value <= range.high
}

/// Whether an operator may trap on values that the sides hold. Takes no memory.
#[tactic(auto, unfolding(crate::specs::AbsOperators::may_trap_of))]
pub fn may_trap(mode: Mode, op: Op, scalar: Scalar, left: &AbsVal, right: &AbsVal) -> bool
    requires allowed { (other : Scalar) × IsAllowed op scalar other × IsOf other right.now }
    requires left_of { IsOf scalar left.now }
    requires alike { AreAlike FitsAbsVal left.now right.now }
    ensures { result ≡ may_trap_of mode op scalar left.now right.now }
{
    if pointer(scalar) {
        return false;
    }
    if !sets_trap(mode, op, scalar, &left.vals, &right.vals) {
        return false;
    }
    range_leaves(mode, op, scalar, left.range, right.range)
}

fn cut_bits(scalar: Scalar, known: Bits) -> Bits
    ensures { result ≡ bits_in scalar known }
{
    if pointer(scalar) {
        unknown()
    } else {
        Bits {
            mask: low(scalar, i128::from(known.mask)),
            value: low(scalar, i128::from(known.value)),
        }
    }
}

fn cut_range(scalar: Scalar, range: Range) -> Option<Range>
    ensures { result ≡ range_in scalar range }
{
    if pointer(scalar) {
        Some(zero())
    } else {
        numbers_of(scalar).meet(range)
    }
}

/// A value brought into a scalar: what is none of the scalar goes, and a value of the scalar stays as it is.
#[tactic(auto, unfolding(crate::specs::AbsOperators::brought_into))]
pub fn into_scalar(scalar: Scalar, value: &AbsVal) -> Result<AbsVal, OutOfMemory>
    ensures { IfOk result (λ v. v ≡ brought_into scalar value.now) }
{
    if value.range.is_empty() {
        return Ok(none());
    }
    let vals = tested(Test::OfScalar(scalar), &value.vals)?;
    Ok(assemble(
        vals,
        Some(cut_bits(scalar, value.bits)),
        cut_range(scalar, value.range),
    ))
}
