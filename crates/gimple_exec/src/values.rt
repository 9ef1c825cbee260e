//! Values, and what operands, places and operators make of them.

ghost use Rattle.std.specs.Prelude.{◌≡◌, ◌<◌, ◌^◌, ℕ, length, IsTrue, IfSome};
ghost use Rattle.std.specs.Str.{bytes_eq};
ghost use Rattle.gimple_core.specs.Operators.{in_scalar, wrapped, op_of, IsWord, IsRightSide};
ghost use Rattle.gimple_core.specs.Memory.{same_object, same_scalar, number_of, moved_by};
ghost use Rattle.gimple_core.specs.State.{zero_of, number_in, value_at};
ghost use Rattle.gimple_core.specs.Run.{item_value, any_number, right_number, arith_of, compares, converted, same_pointer, one_if};
ghost use Rattle.gimple_lowered.specs.Meaning.{source_value, pointer_value};

use crate::registers;
use gimple_core::{
    Cmp, Mode, Object, Op, Operand, Scalar, TrapKind, Value, eval_cmp, eval_op, fits, wrap,
};
use gimple_lowered::{Pointer, Source, global_address, lies_in, move_by, number_of_value, offset};
use name_tables::NamedGlobals;

/// The mode of arithmetic, and the serial of the running frame.
#[derive(Clone, Copy, Debug)]
pub struct Frame {
    pub mode: Mode,
    pub serial: u64,
}

/// Whether two objects are the same.
pub fn is_same_object(left: Object, right: Object) -> bool
    ensures { result ≡ same_object left right }
{
    match (left, right) {
        (Object::Global(k), Object::Global(j)) => k == j,
        (
            Object::Local {
                serial: s,
                number: k,
            },
            Object::Local {
                serial: t,
                number: j,
            },
        ) => { s == t && k == j }
        _ => false,
    }
}

fn number(scalar: Scalar) -> u8
    ensures { result ≡ number_of scalar }
{
    match scalar {
        Scalar::I8 => 0,
        Scalar::I16 => 1,
        Scalar::I32 => 2,
        Scalar::I64 => 3,
        Scalar::U8 => 4,
        Scalar::U16 => 5,
        Scalar::U32 => 6,
        Scalar::U64 => 7,
        Scalar::Ptr => 8,
    }
}

/// Whether two scalars are the same.
pub fn is_same_scalar(left: Scalar, right: Scalar) -> bool
    ensures { result ≡ same_scalar left right }
{
    number(left) == number(right)
}

/// A value as a number of any integer scalar.
pub fn any(value: &Value<'_>) -> i128
    ensures value { result ≡ any_number value.now }
    ensures word { IsWord result }
{
    match value {
        Value::Int(z) if 0 <= *z => number_of_value(Scalar::U64, value),
        Value::Int(_) => number_of_value(Scalar::I64, value),
        _ => 0,
    }
}

/// A sum. One that lies in its scalar needs no look at the mode.
#[tactic(auto, unfolding(gimple_core::specs::Operators::op_of))]
fn sum(mode: Mode, scalar: Scalar, left: i128, right: i128) -> Result<i128, TrapKind>
    requires left { IsTrue (in_scalar scalar left) }
    requires right { IsTrue (in_scalar scalar right) }
    ensures { result ≡ op_of mode Op.Add scalar left right }
{
    let value = left + right;
    if lies_in(scalar, value) {
        return Ok(value);
    }
    eval_op(mode, Op::Add, scalar, left, right)
}

/// A difference. One that lies in its scalar needs no look at the mode.
#[tactic(auto, unfolding(gimple_core::specs::Operators::op_of))]
fn difference(mode: Mode, scalar: Scalar, left: i128, right: i128) -> Result<i128, TrapKind>
    requires left { IsTrue (in_scalar scalar left) }
    requires right { IsTrue (in_scalar scalar right) }
    ensures { result ≡ op_of mode Op.Sub scalar left right }
{
    let value = left - right;
    if lies_in(scalar, value) {
        return Ok(value);
    }
    eval_op(mode, Op::Sub, scalar, left, right)
}

/// An operator on two numbers of a scalar.
fn operate(mode: Mode, op: Op, scalar: Scalar, left: i128, right: i128) -> Result<i128, TrapKind>
    requires left { IsTrue (in_scalar scalar left) }
    requires right { IsRightSide op scalar right }
    ensures { result ≡ op_of mode op scalar left right }
{
    match op {
        Op::Add => sum(mode, scalar, left, right),
        Op::Sub => difference(mode, scalar, left, right),
        _ => eval_op(mode, op, scalar, left, right),
    }
}

/// A number wrapped into a scalar, which one that lies in it is already.
fn wrapped(scalar: Scalar, value: i128) -> i128
    ensures { result ≡ wrapped scalar value }
{
    if lies_in(scalar, value) {
        return value;
    }
    wrap(scalar, value)
}

/// Whether two names are the same.
fn is_same_function(left: &[u8], right: &[u8]) -> bool
    ensures { result ≡ bytes_eq left.now right.now }
{
    left == right
}

fn is_same_pointer(left: &Value<'_>, right: &Value<'_>) -> bool
    ensures { result ≡ same_pointer left.now right.now }
{
    match (left, right) {
        (Value::Null, Value::Null) => true,
        (
            Value::At {
                object: a,
                offset: i,
            },
            Value::At {
                object: b,
                offset: j,
            },
        ) => { is_same_object(*a, *b) && *i == *j }
        (Value::Code(f), Value::Code(g)) => is_same_function(f.as_slice(), g.as_slice()),
        _ => false,
    }
}

/// A value converted to a scalar.
pub fn convert<'t>(scalar: Scalar, value: &Value<'_>) -> Value<'t>
    ensures { result ≡ converted scalar value.now }
{
    Value::Int(wrapped(scalar, any(value)))
}

/// The value of an item of a global; a register is none.
pub fn item<'t>(globals: &NamedGlobals<'_>, from: &'t Operand) -> Value<'t>
    requires { length globals.now < 2 ^ 32 }
    ensures { result ≡ item_value globals.now from.now }
{
    match from {
        Operand::Reg(_) => Value::Null,
        Operand::Number(z) => Value::Int(*z),
        Operand::Null => Value::Null,
        Operand::Address {
            variable,
            offset: by,
        } => { move_by(&global_address(globals, variable), offset(*by)) }
    }
}

/// Zero or null.
pub fn zero<'t>(scalar: Scalar) -> Value<'t>
    ensures { result ≡ zero_of scalar }
{
    match scalar {
        Scalar::Ptr => Value::Null,
        _ => Value::Int(0),
    }
}

/// What is read, in a frame of this serial.
pub fn source<'t>(serial: u64, registers: &[Value<'t>], from: &Source<'t>) -> Value<'t>
    ensures { result ≡ source_value serial registers.now from.now }
{
    match from {
        Source::Register(at) => registers::value_at(registers, *at),
        Source::Constant(value) => value.again(),
        Source::Own { number, offset } => Value::At {
            object: Object::Local {
                serial,
                number: *number,
            },
            offset: *offset,
        },
    }
}

/// Where an access goes, in a frame of this serial.
pub fn pointer<'t>(serial: u64, registers: &[Value<'t>], pointer: &Pointer<'t>) -> Value<'t>
    ensures { result ≡ pointer_value serial registers.now pointer.now }
{
    match pointer {
        Pointer::Moved { register, by } => {
            move_by(&registers::value_at(registers, *register), i128::from(*by))
        }
        Pointer::Fixed(at) => source(serial, registers, at),
    }
}

/// The value that is read, where it is one that stands somewhere.
fn held<'r, 't>(registers: &'r [Value<'t>], from: &'r Source<'t>) -> Option<&'r Value<'t>>
    ensures { IfSome result (λ v. (serial : ℕ) → source_value serial registers.now from.now ≡ v.now) }
{
    match from {
        Source::Register(Some(at)) => match registers.get(*at) {
            Some(value) => Some(value),
            None => None,
        },
        Source::Constant(value) => Some(value),
        _ => None,
    }
}

fn number_of_source<'t>(
    serial: u64,
    registers: &[Value<'t>],
    from: &Source<'t>,
    scalar: Scalar,
) -> i128
    ensures value { result ≡ number_in scalar (source_value serial registers.now from.now) }
    ensures fits { IsTrue (in_scalar scalar result) }
{
    number_of_value(scalar, &source(serial, registers, from))
}

/// What is read as a number of a scalar, in a frame of this serial.
fn number_read<'t>(serial: u64, registers: &[Value<'t>], from: &Source<'t>, scalar: Scalar) -> i128
    ensures value { result ≡ number_in scalar (source_value serial registers.now from.now) }
    ensures fits { IsTrue (in_scalar scalar result) }
{
    match held(registers, from) {
        Some(value) => number_of_value(scalar, value),
        None => number_of_source(serial, registers, from, scalar),
    }
}

fn right_side<'t>(
    serial: u64,
    registers: &[Value<'t>],
    op: Op,
    scalar: Scalar,
    from: &Source<'t>,
) -> i128
    ensures value { result ≡ right_number op scalar (source_value serial registers.now from.now) }
    ensures fits { IsRightSide op scalar result }
{
    match op {
        Op::Shl | Op::Shr => any(&source(serial, registers, from)),
        _ => number_read(serial, registers, from, scalar),
    }
}

fn move_by_value<'t>(left: &Value<'t>, right: &Value<'_>) -> Value<'t>
    ensures { result ≡ moved_by left.now (any_number right.now) }
{
    move_by(left, any(right))
}

fn moved_values<'t>(
    serial: u64,
    registers: &[Value<'t>],
    left: &Source<'t>,
    right: &Source<'t>,
) -> Value<'t>
    ensures { result ≡ moved_by (source_value serial registers.now left.now) (any_number (source_value serial registers.now right.now)) }
{
    let left = source(serial, registers, left);
    let right = source(serial, registers, right);
    move_by_value(&left, &right)
}

/// A pointer moved by what is read.
fn moved<'t>(
    serial: u64,
    registers: &[Value<'t>],
    left: &Source<'t>,
    right: &Source<'t>,
) -> Value<'t>
    ensures { result ≡ moved_by (source_value serial registers.now left.now) (any_number (source_value serial registers.now right.now)) }
{
    let Some(a) = held(registers, left) else {
        return moved_values(serial, registers, left, right);
    };
    let Some(b) = held(registers, right) else {
        return moved_values(serial, registers, left, right);
    };
    move_by_value(a, b)
}

/// An operator with a result of a scalar.
#[tactic(auto, unfolding(gimple_core::specs::Run::arith_of))]
pub fn arith<'t>(
    frame: Frame,
    registers: &[Value<'t>],
    scalar: Scalar,
    left: &Source<'t>,
    op: Op,
    right: &Source<'t>,
) -> Result<Value<'t>, TrapKind>
    ensures { result ≡ arith_of frame.mode scalar (source_value frame.serial registers.now left.now) op (source_value frame.serial registers.now right.now) }
{
    if let Scalar::Ptr = scalar {
        return Ok(moved(frame.serial, registers, left, right));
    }
    let left = number_read(frame.serial, registers, left, scalar);
    let right = right_side(frame.serial, registers, op, scalar, right);
    match operate(frame.mode, op, scalar, left, right) {
        Ok(z) => Ok(Value::Int(z)),
        Err(kind) => Err(kind),
    }
}

/// A comparison of two values.
#[tactic(auto, unfolding(gimple_core::specs::Run::compares))]
fn compare(left: &Value<'_>, cmp: Cmp, right: &Value<'_>) -> bool
    ensures { result ≡ compares left.now cmp right.now }
{
    if let (Value::Int(a), Value::Int(b)) = (left, right) {
        return eval_cmp(cmp, *a, *b);
    }
    match cmp {
        Cmp::Eq => is_same_pointer(left, right),
        Cmp::Ne => !is_same_pointer(left, right),
        _ => false,
    }
}

fn compare_values<'t>(
    serial: u64,
    registers: &[Value<'t>],
    left: &Source<'t>,
    cmp: Cmp,
    right: &Source<'t>,
) -> bool
    ensures { result ≡ compares (source_value serial registers.now left.now) cmp (source_value serial registers.now right.now) }
{
    let left = source(serial, registers, left);
    let right = source(serial, registers, right);
    compare(&left, cmp, &right)
}

/// A comparison of what is read, in a frame of this serial.
pub fn holds<'t>(
    serial: u64,
    registers: &[Value<'t>],
    left: &Source<'t>,
    cmp: Cmp,
    right: &Source<'t>,
) -> bool
    ensures { result ≡ compares (source_value serial registers.now left.now) cmp (source_value serial registers.now right.now) }
{
    let Some(a) = held(registers, left) else {
        return compare_values(serial, registers, left, cmp, right);
    };
    let Some(b) = held(registers, right) else {
        return compare_values(serial, registers, left, cmp, right);
    };
    compare(a, cmp, b)
}

/// 1 or 0.
pub fn truth<'t>(holds: bool) -> Value<'t>
    ensures { result ≡ one_if holds }
{
    if holds { Value::Int(1) } else { Value::Int(0) }
}
