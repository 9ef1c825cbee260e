//! What operators and comparisons make of symbols.

ghost use Rattle.std.specs.Prelude.{◌≡◌, ◌+ℤ◌, IsTrue};
ghost use Rattle.gimple_core.specs.Memory.{moved_by};
ghost use Rattle.gimple_core.specs.Operators.{in_scalar, wrapped, IsWord, IsRightSide};
ghost use Rattle.gimple_core.specs.Run.{any_number, right_number, arith_of, compares, one_if, same_pointer};
ghost use Rattle.gimple_core.specs.State.{number_in};
ghost use Rattle.body_symbols.specs.Bodies.{value_of_constant, symbol_of_value, evaluated, moved_offset, moved_symbol, operated_symbol, other_symbol, arith_symbol, compare_symbol};

use crate::symbol::Symbol;
use fix_engine::Lifted;
use gimple_core::{Cmp, Constant, Mode, Op, Scalar, eval_cmp, eval_op, fits, wrap};

/// A constant as a number of a scalar; what is none of it counts as 0.
#[tactic(auto, unfolding(gimple_core::specs::State::number_in))]
fn number_of(scalar: Scalar, constant: Constant) -> i128
    ensures value { result ≡ number_in scalar (value_of_constant constant) }
    ensures fits { IsTrue (in_scalar scalar result) }
{
    match constant {
        Constant::Int(value) if fits(scalar, value) => value,
        _ => 0,
    }
}

/// A constant as a number of any integer scalar.
fn any_of(constant: Constant) -> i128
    ensures value { result ≡ any_number (value_of_constant constant) }
    ensures word { IsWord result }
{
    match constant {
        Constant::Int(value) if 0 <= value => number_of(Scalar::U64, constant),
        Constant::Int(_) => number_of(Scalar::I64, constant),
        _ => 0,
    }
}

/// The right side of an operator.
fn right_side(op: Op, scalar: Scalar, constant: Constant) -> i128
    ensures value { result ≡ right_number op scalar (value_of_constant constant) }
    ensures fits { IsRightSide op scalar result }
{
    match op {
        Op::Shl | Op::Shr => any_of(constant),
        _ => number_of(scalar, constant),
    }
}

fn offset_by(offset: i64, by: i128) -> i64
    requires { IsWord by }
    ensures { result ≡ wrapped Scalar.I64 (offset +ℤ by) }
{
    wrap(Scalar::I64, i128::from(offset) + by) as i64
}

/// An address moved by some bytes; nothing else moves.
#[tactic(auto, unfolding(gimple_core::specs::Memory::moved_by))]
fn moved_constant(constant: Constant, by: i128) -> Symbol
    requires { IsWord by }
    ensures { result ≡ symbol_of_value (moved_by (value_of_constant constant) by) }
{
    match constant {
        Constant::Global { number, offset } => Symbol::Const(Constant::Global {
            number,
            offset: offset_by(offset, by),
        }),
        Constant::Int(value) => Symbol::Const(Constant::Int(value)),
        Constant::Null => Symbol::Const(Constant::Null),
    }
}

/// The result of an operator on constants; not reached where it traps.
#[tactic(auto, unfolding(gimple_core::specs::Run::arith_of))]
fn evaluate(mode: Mode, scalar: Scalar, left: Constant, op: Op, right: Constant) -> Lifted<Symbol>
    ensures { result ≡ evaluated (arith_of mode scalar (value_of_constant left) op (value_of_constant right)) }
{
    if let Scalar::Ptr = scalar {
        return Lifted::Reached(moved_constant(left, any_of(right)));
    }
    let found = eval_op(
        mode,
        op,
        scalar,
        number_of(scalar, left),
        right_side(op, scalar, right),
    );
    match found {
        Ok(value) => Lifted::Reached(Symbol::Const(Constant::Int(value))),
        Err(_) => Lifted::NotReached,
    }
}

fn moved_at(offset: Option<i64>, by: Symbol) -> Option<i64>
    ensures { result ≡ moved_offset offset by }
{
    match (offset, by) {
        (Some(offset), Symbol::Const(constant)) => Some(offset_by(offset, any_of(constant))),
        _ => None,
    }
}

/// A pointer moved by some bytes.
fn moved(pointer: Symbol, by: Symbol) -> Symbol
    ensures { result ≡ moved_symbol pointer by }
{
    match pointer {
        Symbol::Const(Constant::Null) => Symbol::Const(Constant::Null),
        Symbol::FormalAt { param, offset } => Symbol::FormalAt {
            param,
            offset: moved_at(offset, by),
        },
        Symbol::VariableAt { variable, offset } => Symbol::VariableAt {
            variable,
            offset: moved_at(offset, by),
        },
        _ => Symbol::Unknown,
    }
}

/// An argument under an operator.
fn operated(left: Symbol, op: Op, right: Symbol) -> Symbol
    ensures { result ≡ operated_symbol left op right }
{
    match (left, right) {
        (Symbol::Formal(param), Symbol::Const(Constant::Int(by))) => {
            Symbol::FormalOp { param, op, by }
        }
        _ => Symbol::Unknown,
    }
}

/// The result of an operator whose sides are not both constants.
fn other(scalar: Scalar, left: Symbol, op: Op, right: Symbol) -> Symbol
    ensures { result ≡ other_symbol scalar left op right }
{
    match scalar {
        Scalar::Ptr => moved(left, right),
        _ => operated(left, op, right),
    }
}

/// The result of an operator for a target of a scalar; not reached where it traps on two constants.
#[tactic(auto, unfolding(crate::specs::Bodies::arith_symbol))]
pub(crate) fn arithmetic(
    mode: Mode,
    scalar: Scalar,
    left: Symbol,
    op: Op,
    right: Symbol,
) -> Lifted<Symbol>
    ensures { result ≡ arith_symbol mode scalar left op right }
{
    match (left, right) {
        (Symbol::Const(c), Symbol::Const(d)) => evaluate(mode, scalar, c, op, d),
        _ => Lifted::Reached(other(scalar, left, op, right)),
    }
}

fn is_same_address(left: Constant, right: Constant) -> bool
    ensures { result ≡ same_pointer (value_of_constant left) (value_of_constant right) }
{
    match (left, right) {
        (Constant::Null, Constant::Null) => true,
        (
            Constant::Global {
                number: k,
                offset: i,
            },
            Constant::Global {
                number: j,
                offset: o,
            },
        ) => { k == j && i == o }
        _ => false,
    }
}

/// Whether a comparison of constants holds.
#[tactic(auto, unfolding(gimple_core::specs::Run::compares))]
fn holds(left: Constant, cmp: Cmp, right: Constant) -> bool
    ensures { result ≡ compares (value_of_constant left) cmp (value_of_constant right) }
{
    if let (Constant::Int(a), Constant::Int(b)) = (left, right) {
        return eval_cmp(cmp, a, b);
    }
    match cmp {
        Cmp::Eq => is_same_address(left, right),
        Cmp::Ne => !is_same_address(left, right),
        _ => false,
    }
}

fn compared(left: Constant, cmp: Cmp, right: Constant) -> Symbol
    ensures { result ≡ symbol_of_value (one_if (compares (value_of_constant left) cmp (value_of_constant right))) }
{
    let value = if holds(left, cmp, right) { 1 } else { 0 };
    Symbol::Const(Constant::Int(value))
}

/// What a comparison gives: 1 or 0 where both sides are constants.
#[tactic(auto, unfolding(crate::specs::Bodies::compare_symbol))]
pub(crate) fn comparison(left: Symbol, cmp: Cmp, right: Symbol) -> Symbol
    ensures { result ≡ compare_symbol left cmp right }
{
    match (left, right) {
        (Symbol::Const(c), Symbol::Const(d)) => compared(c, cmp, d),
        _ => Symbol::Unknown,
    }
}
