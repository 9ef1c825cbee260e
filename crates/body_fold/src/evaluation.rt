//! What operators make of constants.

ghost use Rattle.std.specs.Prelude.{◌≡◌, ◌+ℤ◌, IsTrue};
ghost use Rattle.gimple_core.specs.Memory.{moved_by};
ghost use Rattle.gimple_core.specs.Operators.{in_scalar, wrapped, IsWord, IsRightSide};
ghost use Rattle.gimple_core.specs.Run.{any_number, right_number, arith_of, compares, converted, one_if, same_pointer};
ghost use Rattle.gimple_core.specs.State.{number_in};
ghost use Rattle.body_fold.specs.Fold.{value_of_constant, result_constant};
ghost use Rattle.value_domain.specs.Holding.{constant_of};

use gimple_core::{Cmp, Constant, Mode, Op, Scalar, eval_cmp, eval_op, fits, wrap};

/// A constant as a number of a scalar; what is none of it counts as 0.
#[tactic(auto, unfolding(gimple_core::specs::State::number_in))]
fn number_of(scalar: Scalar, constant: Constant) -> i128
    ensures value { result ≡ number_in scalar (value_of_constant constant) }
    ensures fits { IsTrue (in_scalar scalar result) }
{
    match constant {
        Constant::Int(value) if fits(scalar, value) => value,
        _ => 0,
    }
}

/// A constant as a number of any integer scalar.
pub(crate) fn any_of(constant: Constant) -> i128
    ensures value { result ≡ any_number (value_of_constant constant) }
    ensures word { IsWord result }
{
    match constant {
        Constant::Int(value) if 0 <= value => number_of(Scalar::U64, constant),
        Constant::Int(_) => number_of(Scalar::I64, constant),
        _ => 0,
    }
}

/// The right side of an operator.
fn right_side(op: Op, scalar: Scalar, constant: Constant) -> i128
    ensures value { result ≡ right_number op scalar (value_of_constant constant) }
    ensures fits { IsRightSide op scalar result }
{
    match op {
        Op::Shl | Op::Shr => any_of(constant),
        _ => number_of(scalar, constant),
    }
}

fn moved_offset(offset: i64, by: i128) -> i64
    requires { IsWord by }
    ensures { result ≡ wrapped Scalar.I64 (offset +ℤ by) }
{
    wrap(Scalar::I64, i128::from(offset) + by) as i64
}

/// An address moved by some bytes; nothing else moves.
#[tactic(auto, unfolding(gimple_core::specs::Memory::moved_by))]
fn moved(constant: Constant, by: i128) -> Constant
    requires { IsWord by }
    ensures { value_of_constant result ≡ moved_by (value_of_constant constant) by }
{
    match constant {
        Constant::Global { number, offset } => Constant::Global {
            number,
            offset: moved_offset(offset, by),
        },
        _ => constant,
    }
}

/// The result of an operator in a mode, for a target of a scalar; None exactly where it traps.
#[tactic(auto, unfolding(gimple_core::specs::Run::arith_of))]
pub(crate) fn arithmetic(
    mode: Mode,
    scalar: Scalar,
    left: Constant,
    op: Op,
    right: Constant,
) -> Option<Constant>
    ensures { result ≡ result_constant (arith_of mode scalar (value_of_constant left) op (value_of_constant right)) }
{
    if let Scalar::Ptr = scalar {
        return Some(moved(left, any_of(right)));
    }
    let found = eval_op(
        mode,
        op,
        scalar,
        number_of(scalar, left),
        right_side(op, scalar, right),
    );
    match found {
        Ok(value) => Some(Constant::Int(value)),
        Err(_) => None,
    }
}

fn is_same_address(left: Constant, right: Constant) -> bool
    ensures { result ≡ same_pointer (value_of_constant left) (value_of_constant right) }
{
    match (left, right) {
        (Constant::Null, Constant::Null) => true,
        (
            Constant::Global {
                number: k,
                offset: i,
            },
            Constant::Global {
                number: j,
                offset: o,
            },
        ) => { k == j && i == o }
        _ => false,
    }
}

/// Whether a comparison holds.
#[tactic(auto, unfolding(gimple_core::specs::Run::compares))]
fn holds(left: Constant, cmp: Cmp, right: Constant) -> bool
    ensures { result ≡ compares (value_of_constant left) cmp (value_of_constant right) }
{
    if let (Constant::Int(a), Constant::Int(b)) = (left, right) {
        return eval_cmp(cmp, a, b);
    }
    match cmp {
        Cmp::Eq => is_same_address(left, right),
        Cmp::Ne => !is_same_address(left, right),
        _ => false,
    }
}

/// What a comparison gives, 1 or 0.
pub(crate) fn comparison(left: Constant, cmp: Cmp, right: Constant) -> Option<Constant>
    ensures { result ≡ constant_of (one_if (compares (value_of_constant left) cmp (value_of_constant right))) }
{
    let value = if holds(left, cmp, right) { 1 } else { 0 };
    Some(Constant::Int(value))
}

/// A number converted to a scalar.
pub(crate) fn conversion(target: Scalar, constant: Constant) -> Option<Constant>
    ensures { result ≡ constant_of (converted target (value_of_constant constant)) }
{
    Some(Constant::Int(wrap(target, any_of(constant))))
}
