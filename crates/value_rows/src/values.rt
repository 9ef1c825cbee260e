//! Values that the operators take, and what the operators make of them.

ghost use Rattle.std.specs.Prelude.{◌≡◌, false, IfOk};
ghost use Rattle.value_domain.specs.AbsOperators.{abs_cmp_of, abs_convert_of, abs_met, abs_op_of, exactly_of, known_of, may_trap_of, refined_of, top_of};
ghost use Rattle.gimple_core.specs.Statements.{is_pointer};
ghost use Rattle.value_domain.specs.Values.{abs_val_below, abs_val_joined};
ghost use Rattle.value_rows.specs.Expected.{between_of};
ghost use Rattle.value_rows.specs.Kept.{IsKept};
ghost use Rattle.value_rows.specs.Numbers.{number_in};

use gimple_core::{Cmp, Constant, Mode, Op, OutOfMemory, Scalar};
use std::alloc::Global;
use value_domain::{
    AbsVal, Range, Thresholds, abs_cmp, abs_convert, abs_op, exactly, join, known, leq, may_trap,
    meet, refine, top,
};

/// What holds a number of a scalar.
pub fn alone(
    alloc: Global,
    scalar: Scalar,
    value: i128,
    limits: &Thresholds,
) -> Result<AbsVal, OutOfMemory>
    ensures kept { IfOk result (IsKept scalar limits.now) }
    ensures value { IfOk result (λ v. v ≡ exactly_of scalar limits.now.size limits.now.ends (Constant.Int value)) }
{
    limits.known();
    exactly(alloc, scalar, Constant::Int(value), limits)
}

/// What holds every number of a scalar.
pub fn whole(scalar: Scalar, limits: &Thresholds) -> AbsVal
    ensures kept { IsKept scalar limits.now result }
    ensures value { result ≡ top_of scalar }
{
    limits.known();
    top(scalar)
}

/// What is left of a side where a comparison is taken.
pub fn left(
    cmp: Cmp,
    scalar: Scalar,
    side: &AbsVal,
    against: &AbsVal,
    limits: &Thresholds,
) -> Result<AbsVal, OutOfMemory>
    requires number { is_pointer scalar ≡ false }
    requires side { IsKept scalar limits.now side.now }
    requires against { IsKept scalar limits.now against.now }
    ensures kept { IfOk result (IsKept scalar limits.now) }
    ensures value { IfOk result (λ v. v ≡ refined_of cmp limits.now.ends side.now against.now) }
{
    limits.known();
    refine(cmp, scalar, side, against, limits)
}

/// The numbers of a scalar within an interval, with no list of constants.
pub fn between(
    alloc: Global,
    scalar: Scalar,
    range: Range,
    limits: &Thresholds,
) -> Result<AbsVal, OutOfMemory>
    requires { is_pointer scalar ≡ false }
    ensures kept { IfOk result (IsKept scalar limits.now) }
    ensures value { IfOk result (λ v. v ≡ between_of scalar limits.now range.low range.high) }
{
    let all = whole(scalar, limits);
    let least = alone(alloc, scalar, range.low, limits)?;
    let greatest = alone(alloc, scalar, range.high, limits)?;
    let from = left(Cmp::Ge, scalar, &all, &least, limits)?;
    left(Cmp::Le, scalar, &from, &greatest, limits)
}

/// The result of an operator on two values of a scalar.
pub fn made(
    alloc: Global,
    mode: Mode,
    op: Op,
    scalar: Scalar,
    first: &AbsVal,
    second: &AbsVal,
    limits: &Thresholds,
) -> Result<AbsVal, OutOfMemory>
    requires number { is_pointer scalar ≡ false }
    requires first { IsKept scalar limits.now first.now }
    requires second { IsKept scalar limits.now second.now }
    ensures kept { IfOk result (IsKept scalar limits.now) }
    ensures value { IfOk result (λ v. v ≡ abs_op_of mode op scalar scalar limits.now.size limits.now.ends first.now second.now) }
{
    limits.known();
    abs_op(alloc, mode, op, scalar, scalar, first, second, limits)
}

/// Whether an operator may trap on two values of a scalar.
pub fn traps(
    mode: Mode,
    op: Op,
    scalar: Scalar,
    first: &AbsVal,
    second: &AbsVal,
    limits: &Thresholds,
) -> bool
    requires number { is_pointer scalar ≡ false }
    requires first { IsKept scalar limits.now first.now }
    requires second { IsKept scalar limits.now second.now }
    ensures { result ≡ may_trap_of mode op scalar first.now second.now }
{
    limits.known();
    may_trap(mode, op, scalar, first, second)
}

/// What a comparison of two values makes of them, as a value of `target`.
pub fn compared(
    alloc: Global,
    target: Scalar,
    cmp: Cmp,
    scalar: Scalar,
    first: &AbsVal,
    second: &AbsVal,
    limits: &Thresholds,
) -> Result<AbsVal, OutOfMemory>
    requires target { is_pointer target ≡ false }
    requires number { is_pointer scalar ≡ false }
    requires first { IsKept scalar limits.now first.now }
    requires second { IsKept scalar limits.now second.now }
    ensures kept { IfOk result (IsKept target limits.now) }
    ensures value { IfOk result (λ v. v ≡ abs_cmp_of target cmp scalar limits.now.size first.now second.now) }
{
    limits.known();
    abs_cmp(alloc, target, cmp, scalar, first, second, limits)
}

/// What a conversion makes of a value.
pub fn converted(
    alloc: Global,
    target: Scalar,
    source: Scalar,
    value: &AbsVal,
    limits: &Thresholds,
) -> Result<AbsVal, OutOfMemory>
    requires target { is_pointer target ≡ false }
    requires source { is_pointer source ≡ false }
    requires value { IsKept source limits.now value.now }
    ensures kept { IfOk result (IsKept target limits.now) }
    ensures value { IfOk result (λ v. v ≡ abs_convert_of target source limits.now.size limits.now.ends value.now) }
{
    limits.known();
    abs_convert(alloc, target, source, value, limits)
}

/// The least value above two values of a scalar.
pub fn joined(
    scalar: Scalar,
    first: &AbsVal,
    second: &AbsVal,
    limits: &Thresholds,
) -> Result<AbsVal, OutOfMemory>
    requires first { IsKept scalar limits.now first.now }
    requires second { IsKept scalar limits.now second.now }
    ensures { IfOk result (λ v. v ≡ abs_val_joined first.now second.now) }
{
    limits.known();
    join(first, second)
}

/// What is known where two values of a scalar hold.
pub fn both(
    scalar: Scalar,
    first: &AbsVal,
    second: &AbsVal,
    limits: &Thresholds,
) -> Result<AbsVal, OutOfMemory>
    requires first { IsKept scalar limits.now first.now }
    requires second { IsKept scalar limits.now second.now }
    ensures { IfOk result (λ v. v ≡ abs_met first.now second.now) }
{
    limits.known();
    meet(first, second)
}

/// Whether the first of two values of a scalar is below the second.
pub fn is_below(scalar: Scalar, first: &AbsVal, second: &AbsVal, limits: &Thresholds) -> bool
    requires first { IsKept scalar limits.now first.now }
    requires second { IsKept scalar limits.now second.now }
    ensures { result ≡ abs_val_below first.now second.now }
{
    limits.known();
    leq(first, second)
}

/// The number that a value of a scalar is known to be.
pub fn known_number(scalar: Scalar, value: &AbsVal, limits: &Thresholds) -> Option<i128>
    requires { IsKept scalar limits.now value.now }
    ensures { result ≡ number_in (known_of scalar value.now) }
{
    match known(scalar, value) {
        Some(Constant::Int(number)) => Some(number),
        _ => None,
    }
}
