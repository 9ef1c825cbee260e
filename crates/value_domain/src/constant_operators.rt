//! The results of operators on constants, and sets of results.

ghost use Rattle.std.specs.Prelude.{◌≡◌, [], OnOk, OnErr, IfOk, Bool, true, Option, IsTrue, ◌+ℤ◌};
ghost use Rattle.gimple_core.specs.Operators.{in_scalar, wrapped};
ghost use Rattle.gimple_core.specs.Statements.{is_pointer};
ghost use Rattle.lattice_parts.specs.Sets.{placed_some, mapped, gathered, kept_members, has_by, same_by};
ghost use Rattle.value_domain.specs.AbsOperators.{pair_traps, row_traps_of, some_traps, vals_trap, vals_met, vals_without, single_of};
ghost use Rattle.value_domain.specs.Constants.{before};
ghost use Rattle.value_domain.specs.ConstantOperators.{constant_in, in_word, may_stand_right, op_numbers, moved_constant, op_constant, same_constant, compared_constants, cmp_constant, convert_constant, vals_of};
ghost use Rattle.value_domain.specs.Rules.{rule_constant, passes, rule_vals, converted_vals, tested_vals};

use crate::constant::ConstantOrder;
use crate::numbers::plus;
use crate::range::Range;
use crate::vals::{Vals, capped};
use gimple_core::{Cmp, Constant, Mode, Op, OutOfMemory, Scalar, eval_cmp, eval_op, fits, wrap};
use lattice_parts::{Order, has, place};
use std::alloc::Global;

/// What is done with constants.
#[derive(Clone, Copy, Debug)]
pub(crate) enum Rule {
    Arithmetic(Mode, Op, Scalar),
    Comparison(Cmp),
    Conversion(Scalar),
}

/// Which constants stay.
#[derive(Clone, Copy, Debug)]
pub(crate) enum Test {
    OfScalar(Scalar),
    Within(Range),
    Unlike(Constant),
}

pub(crate) fn pointer(scalar: Scalar) -> bool
    ensures { result ≡ is_pointer scalar }
{
    match scalar {
        Scalar::Ptr => true,
        _ => false,
    }
}

/// Whether a constant is a value of a scalar.
pub(crate) fn of_scalar(scalar: Scalar, constant: Constant) -> bool
    ensures { result ≡ constant_in scalar constant }
{
    match constant {
        Constant::Int(value) => !pointer(scalar) && fits(scalar, value),
        Constant::Null => pointer(scalar),
        Constant::Global {
            number: _,
            offset: _,
        } => pointer(scalar),
    }
}

/// Whether a number is one of some integer scalar.
pub(crate) fn is_word(value: i128) -> bool
    ensures { result ≡ in_word value }
{
    -0x8000_0000_0000_0000 <= value && value <= 0xffff_ffff_ffff_ffff
}

fn may_stand(op: Op, scalar: Scalar, value: i128) -> bool
    ensures { result ≡ may_stand_right op scalar value }
{
    match op {
        Op::Shl | Op::Shr => is_word(value),
        _ => fits(scalar, value),
    }
}

fn on_numbers(mode: Mode, op: Op, scalar: Scalar, left: i128, right: i128) -> Option<Constant>
    ensures { result ≡ op_numbers mode op scalar left right }
{
    if !fits(scalar, left) {
        return None;
    }
    if !may_stand(op, scalar, right) {
        return None;
    }
    match eval_op(mode, op, scalar, left, right) {
        Ok(value) => Some(Constant::Int(value)),
        Err(_) => None,
    }
}

/// Whether an operator traps on two constants.
pub(crate) fn traps(mode: Mode, op: Op, scalar: Scalar, left: Constant, right: Constant) -> bool
    ensures { result ≡ pair_traps mode op scalar left right }
{
    match (left, right) {
        (Constant::Int(x), Constant::Int(y)) => {
            if pointer(scalar) {
                return false;
            }
            if !fits(scalar, x) {
                return false;
            }
            if !may_stand(op, scalar, y) {
                return false;
            }
            eval_op(mode, op, scalar, x, y).is_err()
        }
        (_, _) => false,
    }
}

fn moved_offset(offset: i64, by: i128) -> i64
    requires { IsTrue (in_scalar Scalar.I64 by) }
    ensures { result ≡ wrapped Scalar.I64 (offset +ℤ by) }
{
    wrap(Scalar::I64, plus(i128::from(offset), by)) as i64
}

/// A pointer moved by a number of bytes.
fn moved(left: Constant, right: Constant) -> Option<Constant>
    ensures { result ≡ moved_constant left right }
{
    match (left, right) {
        (Constant::Null, _) => Some(Constant::Null),
        (Constant::Global { number, offset }, Constant::Int(by)) => {
            if fits(Scalar::I64, by) {
                Some(Constant::Global {
                    number,
                    offset: moved_offset(offset, by),
                })
            } else {
                None
            }
        }
        (_, _) => None,
    }
}

/// What an operator makes of two constants, in a mode of arithmetic; None exactly where it traps or a side is none of its
/// scalar. Takes no memory.
pub fn constant_op(
    mode: Mode,
    op: Op,
    scalar: Scalar,
    left: Constant,
    right: Constant,
) -> Option<Constant>
    ensures { result ≡ op_constant mode op scalar left right }
{
    if pointer(scalar) {
        return moved(left, right);
    }
    match (left, right) {
        (Constant::Int(x), Constant::Int(y)) => on_numbers(mode, op, scalar, x, y),
        (_, _) => None,
    }
}

fn same_address(left: Constant, right: Constant) -> bool
    ensures { result ≡ same_constant left right }
{
    match (left, right) {
        (Constant::Null, Constant::Null) => true,
        (
            Constant::Global { number, offset },
            Constant::Global {
                number: other_number,
                offset: other_offset,
            },
        ) => number == other_number && (offset <= other_offset && other_offset <= offset),
        (_, _) => false,
    }
}

/// Whether a comparison of two constants holds. Takes no memory.
pub fn constant_cmp(cmp: Cmp, left: Constant, right: Constant) -> bool
    ensures { result ≡ compared_constants cmp left right }
{
    match (left, right) {
        (Constant::Int(x), Constant::Int(y)) => eval_cmp(cmp, x, y),
        (_, _) => match cmp {
            Cmp::Eq => same_address(left, right),
            Cmp::Ne => !same_address(left, right),
            _ => false,
        },
    }
}

/// What a conversion makes of a constant; None exactly where it is no number. Takes no memory.
pub fn constant_convert(target: Scalar, constant: Constant) -> Option<Constant>
    ensures { result ≡ convert_constant target constant }
{
    match constant {
        Constant::Int(value) => Some(Constant::Int(wrap(target, value))),
        _ => None,
    }
}

/// What a rule makes of two constants; a conversion looks at the right one alone.
fn result_of(rule: Rule, left: Constant, right: Constant) -> Option<Constant>
    ensures { result ≡ rule_constant rule left right }
{
    match rule {
        Rule::Arithmetic(mode, op, scalar) => constant_op(mode, op, scalar, left, right),
        Rule::Comparison(cmp) => {
            let holds = constant_cmp(cmp, left, right);
            Some(Constant::Int(if holds { 1 } else { 0 }))
        }
        Rule::Conversion(target) => constant_convert(target, right),
    }
}

fn place_some(all: &mut Vec<Constant>, found: Option<Constant>) -> Result<(), OutOfMemory>
    ensures { OnOk result (all.new.items ≡ placed_some before found all.old.items) }
{
    match found {
        Some(constant) => place::<Constant, ConstantOrder>(all, constant),
        None => Ok(()),
    }
}

/// Puts the results of one constant with each of others into their places.
fn gather_row(
    rule: Rule,
    left: Constant,
    right: &[Constant],
    all: &mut Vec<Constant>,
) -> Result<(), OutOfMemory>
    ensures { OnOk result (all.new.items ≡ mapped before (rule_constant rule left) right.now all.old.items) }
{
    for at in 0..right.len() {
        place_some(all, result_of(rule, left, right[at]))?;
    }
    Ok(())
}

/// The set of these constants, where none and too many have their own forms.
fn set_of(limit: u64, constants: Vec<Constant>) -> Vals
    ensures { result ≡ vals_of limit constants.items }
{
    if constants.is_empty() {
        Vals::Nothing
    } else {
        capped(limit, constants)
    }
}

/// The set of the results of all pairs. Once there are too many after all pairs of a left side, no more pairs are formed.
fn gather(
    alloc: Global,
    limit: u64,
    rule: Rule,
    left: &[Constant],
    right: &[Constant],
) -> Result<Vals, OutOfMemory>
    ensures { IfOk result (λ v. v ≡ vals_of limit (gathered before (rule_constant rule) left.now right.now [])) }
{
    let mut all = Vec::new(alloc);
    for at in 0..left.len() {
        if all.len() as u64 > limit {
            return Ok(Vals::Any);
        }
        gather_row(rule, left[at], right, &mut all)?;
    }
    Ok(set_of(limit, all))
}

/// The results of all pairs.
pub(crate) fn pairs(
    alloc: Global,
    limit: u64,
    rule: Rule,
    left: &Vals,
    right: &Vals,
) -> Result<Vals, OutOfMemory>
    ensures { IfOk result (λ v. v ≡ rule_vals limit rule left.now right.now) }
{
    match (left, right) {
        (
            Vals::Among {
                limit: _,
                constants,
            },
            Vals::Among {
                limit: _,
                constants: others,
            },
        ) => gather(alloc, limit, rule, constants.as_slice(), others.as_slice()),
        (_, _) => Ok(Vals::Any),
    }
}

/// The results of the members of one set.
pub(crate) fn each_converted(
    alloc: Global,
    limit: u64,
    target: Scalar,
    vals: &Vals,
) -> Result<Vals, OutOfMemory>
    ensures { IfOk result (λ v. v ≡ converted_vals limit target vals.now) }
{
    match vals {
        Vals::Among {
            limit: _,
            constants,
        } => {
            let mut all = Vec::new(alloc);
            gather_row(
                Rule::Conversion(target),
                Constant::Null,
                constants.as_slice(),
                &mut all,
            )?;
            Ok(set_of(limit, all))
        }
        _ => Ok(Vals::Any),
    }
}

fn is_alike(left: Constant, right: Constant) -> bool
    ensures { result ≡ same_by before left right }
{
    !ConstantOrder::comes_before(&left, &right) && !ConstantOrder::comes_before(&right, &left)
}

fn stays(test: Test, constant: Constant) -> bool
    ensures { result ≡ passes test constant }
{
    match test {
        Test::OfScalar(scalar) => of_scalar(scalar, constant),
        Test::Within(range) => match constant {
            Constant::Int(value) => range.low <= value && value <= range.high,
            _ => false,
        },
        Test::Unlike(other) => !is_alike(constant, other),
    }
}

fn kept(alloc: Global, test: Test, constants: &[Constant]) -> Result<Vec<Constant>, OutOfMemory>
    ensures { IfOk result (λ v. v.items ≡ kept_members (passes test) constants.now) }
{
    let mut all = Vec::new(alloc);
    for at in 0..constants.len() {
        if stays(test, constants[at]) {
            all.push(constants[at])?;
        }
    }
    Ok(all)
}

/// The constants that pass a test.
pub(crate) fn tested(test: Test, vals: &Vals) -> Result<Vals, OutOfMemory>
    ensures { IfOk result (λ v. v ≡ tested_vals test vals.now) }
{
    match vals {
        Vals::Among { limit, constants } => {
            let all = kept(constants.allocator(), test, constants.as_slice())?;
            Ok(set_of(*limit, all))
        }
        Vals::Any => Ok(Vals::Any),
        Vals::Nothing => Ok(Vals::Nothing),
    }
}

fn common(
    left: &[Constant],
    right: &[Constant],
    alloc: Global,
) -> Result<Vec<Constant>, OutOfMemory>
    ensures { IfOk result (λ v. v.items ≡ kept_members (λ c. has_by before c right.now) left.now) }
{
    let mut all = Vec::new(alloc);
    for at in 0..left.len() {
        if has::<Constant, ConstantOrder>(right, &left[at]) {
            all.push(left[at])?;
        }
    }
    Ok(all)
}

/// The constants of both sets.
pub(crate) fn met(left: &Vals, right: &Vals) -> Result<Vals, OutOfMemory>
    ensures { IfOk result (λ v. v ≡ vals_met left.now right.now) }
{
    match (left, right) {
        (_, Vals::Any) => left.copy(),
        (Vals::Any, _) => right.copy(),
        (
            Vals::Among { limit, constants },
            Vals::Among {
                limit: _,
                constants: others,
            },
        ) => {
            let all = common(
                constants.as_slice(),
                others.as_slice(),
                constants.allocator(),
            )?;
            Ok(set_of(*limit, all))
        }
        (_, _) => Ok(Vals::Nothing),
    }
}

/// A set without the one constant of another set.
pub(crate) fn without(vals: &Vals, other: &Vals) -> Result<Vals, OutOfMemory>
    ensures { IfOk result (λ v. v ≡ vals_without vals.now other.now) }
{
    match single(other) {
        Some(constant) => tested(Test::Unlike(constant), vals),
        None => vals.copy(),
    }
}

/// The one constant of a set.
pub(crate) fn single(vals: &Vals) -> Option<Constant>
    ensures { result ≡ single_of vals.now }
{
    match vals {
        Vals::Among {
            limit: _,
            constants,
        } => match constants.as_slice() {
            [constant] => Some(*constant),
            _ => None,
        },
        _ => None,
    }
}

fn row_traps(mode: Mode, op: Op, scalar: Scalar, left: Constant, right: &[Constant]) -> bool
    ensures { result ≡ row_traps_of mode op scalar left right.now }
{
    for at in 0..right.len() {
        if traps(mode, op, scalar, left, right[at]) {
            return true;
        }
    }
    false
}

fn some_pair_traps(
    mode: Mode,
    op: Op,
    scalar: Scalar,
    left: &[Constant],
    right: &[Constant],
) -> bool
    ensures { result ≡ some_traps mode op scalar left.now right.now }
{
    for at in 0..left.len() {
        if row_traps(mode, op, scalar, left[at], right) {
            return true;
        }
    }
    false
}

/// Whether some pair of constants traps, which any leaves open.
pub(crate) fn sets_trap(mode: Mode, op: Op, scalar: Scalar, left: &Vals, right: &Vals) -> bool
    ensures { result ≡ vals_trap mode op scalar left.now right.now }
{
    match (left, right) {
        (Vals::Any, _) => true,
        (_, Vals::Any) => true,
        (
            Vals::Among {
                limit: _,
                constants,
            },
            Vals::Among {
                limit: _,
                constants: others,
            },
        ) => some_pair_traps(mode, op, scalar, constants.as_slice(), others.as_slice()),
        (_, _) => false,
    }
}
