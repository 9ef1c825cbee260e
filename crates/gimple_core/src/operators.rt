//! The operators on numbers of a scalar.

ghost use Rattle.std.specs.Prelude.{◌≡◌, ◌≤◌, ◌<◌, ◌*◌, ◌%◌, ◌^◌, ◌*ℤ◌, ℕ, ℤ, pos, IsTrue, ◌↔◌};
ghost use Rattle.gimple_ir.specs.declared.scalar.Mode.{Mode};
ghost use Rattle.gimple_core.specs.Operators.{bits_of, is_signed, modulus_of, half_of, least_of, greatest_of, in_scalar, low_bits, of_bits, wrapped, is_count, within, kept, op_of, cmp_of, IsWord, IsSignedWord, IsRightSide};

use gimple_ir::{Cmp, Mode, Op, Scalar, TrapKind};

/// How many bits a scalar has.
pub fn bits(scalar: Scalar) -> u32
    ensures { result ≡ bits_of scalar }
{
    match scalar {
        Scalar::I8 | Scalar::U8 => 8,
        Scalar::I16 | Scalar::U16 => 16,
        Scalar::I32 | Scalar::U32 => 32,
        Scalar::I64 | Scalar::U64 | Scalar::Ptr => 64,
    }
}

pub fn signed(scalar: Scalar) -> bool
    ensures { result ≡ is_signed scalar }
{
    match scalar {
        Scalar::I8 | Scalar::I16 | Scalar::I32 | Scalar::I64 => true,
        Scalar::U8 | Scalar::U16 | Scalar::U32 | Scalar::U64 | Scalar::Ptr => false,
    }
}

/// Two to the number of the scalar's bits.
pub fn modulus(scalar: Scalar) -> i128
    ensures { result ≡ pos (modulus_of scalar) }
{
    match scalar {
        Scalar::I8 | Scalar::U8 => 0x100,
        Scalar::I16 | Scalar::U16 => 0x1_0000,
        Scalar::I32 | Scalar::U32 => 0x1_0000_0000,
        Scalar::I64 | Scalar::U64 | Scalar::Ptr => 0x1_0000_0000_0000_0000,
    }
}

/// Half of that.
pub fn half(scalar: Scalar) -> i128
    ensures { result ≡ pos (half_of scalar) }
{
    match scalar {
        Scalar::I8 | Scalar::U8 => 0x80,
        Scalar::I16 | Scalar::U16 => 0x8000,
        Scalar::I32 | Scalar::U32 => 0x8000_0000,
        Scalar::I64 | Scalar::U64 | Scalar::Ptr => 0x8000_0000_0000_0000,
    }
}

/// Whether a number lies in a scalar.
pub fn fits(scalar: Scalar, value: i128) -> bool
    ensures { result ≡ in_scalar scalar value }
{
    match scalar {
        Scalar::I8 => -0x80 <= value && value <= 0x7f,
        Scalar::I16 => -0x8000 <= value && value <= 0x7fff,
        Scalar::I32 => -0x8000_0000 <= value && value <= 0x7fff_ffff,
        Scalar::I64 => -0x8000_0000_0000_0000 <= value && value <= 0x7fff_ffff_ffff_ffff,
        Scalar::U8 => 0 <= value && value <= 0xff,
        Scalar::U16 => 0 <= value && value <= 0xffff,
        Scalar::U32 => 0 <= value && value <= 0xffff_ffff,
        Scalar::U64 | Scalar::Ptr => 0 <= value && value <= 0xffff_ffff_ffff_ffff,
    }
}

/// The lowest bits of a number in two's complement.
pub fn low(scalar: Scalar, value: i128) -> u64
    ensures value { result ≡ low_bits scalar value }
    ensures bound { result < modulus_of scalar }
{
    value.rem_euclid(modulus(scalar)) as u64
}

/// The number of the scalar with these bits.
pub fn from_low(scalar: Scalar, bits: u64) -> i128
    requires { bits < modulus_of scalar }
    ensures value { result ≡ of_bits scalar bits }
    ensures fits { IsTrue (in_scalar scalar result) }
{
    let value = i128::from(bits);
    if signed(scalar) && value >= half(scalar) {
        value - modulus(scalar)
    } else {
        value
    }
}

/// A number wrapped into a scalar.
#[tactic(auto, unfolding(crate::specs::Operators::wrapped))]
pub fn wrap(scalar: Scalar, value: i128) -> i128
    ensures value { result ≡ wrapped scalar value }
    ensures fits { IsTrue (in_scalar scalar result) }
{
    from_low(scalar, low(scalar, value))
}

/// The value, or a trap where it lies outside the scalar.
fn keep_within(scalar: Scalar, value: i128) -> Result<i128, TrapKind>
    ensures { result ≡ within scalar value }
{
    if fits(scalar, value) {
        Ok(value)
    } else {
        Err(TrapKind::Overflow)
    }
}

/// A result of a sum, difference or product.
fn keep(mode: Mode, scalar: Scalar, value: i128) -> Result<i128, TrapKind>
    ensures { result ≡ kept mode scalar value }
{
    match mode {
        Mode::Wrap => Ok(wrap(scalar, value)),
        Mode::Trap => {
            if signed(scalar) {
                keep_within(scalar, value)
            } else {
                Ok(wrap(scalar, value))
            }
        }
    }
}

#[tactic(auto, unfolding(crate::specs::Operators::op_of))]
fn add(mode: Mode, scalar: Scalar, left: i128, right: i128) -> Result<i128, TrapKind>
    requires left { IsWord left }
    requires right { IsWord right }
    ensures { result ≡ op_of mode Op.Add scalar left right }
{
    keep(mode, scalar, left + right)
}

#[tactic(auto, unfolding(crate::specs::Operators::op_of))]
fn subtract(mode: Mode, scalar: Scalar, left: i128, right: i128) -> Result<i128, TrapKind>
    requires left { IsWord left }
    requires right { IsWord right }
    ensures { result ≡ op_of mode Op.Sub scalar left right }
{
    keep(mode, scalar, left - right)
}

#[tactic(auto, unfolding(crate::specs::Operators::op_of))]
fn divide(scalar: Scalar, left: i128, right: i128) -> Result<i128, TrapKind>
    requires left { IsWord left }
    requires right { IsWord right }
    ensures { (mode : Mode) → result ≡ op_of mode Op.Div scalar left right }
{
    if right == 0 {
        return Err(TrapKind::Divide);
    }
    keep_within(scalar, left / right)
}

#[tactic(auto, unfolding(crate::specs::Operators::op_of))]
fn remainder(scalar: Scalar, left: i128, right: i128) -> Result<i128, TrapKind>
    requires left { IsWord left }
    requires right { IsWord right }
    ensures { (mode : Mode) → result ≡ op_of mode Op.Rem scalar left right }
{
    if right == 0 {
        return Err(TrapKind::Divide);
    }
    if fits(scalar, left / right) {
        Ok(left % right)
    } else {
        Err(TrapKind::Overflow)
    }
}

#[tactic(auto, unfolding(crate::specs::Operators::op_of))]
fn both(scalar: Scalar, left: i128, right: i128) -> Result<i128, TrapKind>
    ensures { (mode : Mode) → result ≡ op_of mode Op.And scalar left right }
{
    Ok(from_low(scalar, low(scalar, left) & low(scalar, right)))
}

#[tactic(auto, unfolding(crate::specs::Operators::op_of))]
fn either(scalar: Scalar, left: i128, right: i128) -> Result<i128, TrapKind>
    ensures { (mode : Mode) → result ≡ op_of mode Op.Or scalar left right }
{
    Ok(from_low(scalar, low(scalar, left) | low(scalar, right)))
}

#[tactic(auto, unfolding(crate::specs::Operators::op_of))]
fn differs(scalar: Scalar, left: i128, right: i128) -> Result<i128, TrapKind>
    ensures { (mode : Mode) → result ≡ op_of mode Op.Xor scalar left right }
{
    Ok(from_low(scalar, low(scalar, left) ^ low(scalar, right)))
}

fn multiply_unsigned(scalar: Scalar, left: u64, right: u64) -> i128
    ensures { result ≡ wrapped scalar (pos (left * right)) }
{
    wrap(scalar, i128::from(left.wrapping_mul(right)))
}

fn multiply_signed(left: i128, right: i128) -> i128
    requires left { IsSignedWord left }
    requires right { IsSignedWord right }
    ensures { result ≡ left *ℤ right }
{
    left * right
}

fn multiply(mode: Mode, scalar: Scalar, left: i128, right: i128) -> Result<i128, TrapKind>
    requires left { IsTrue (in_scalar scalar left) }
    requires right { IsTrue (in_scalar scalar right) }
    ensures { result ≡ op_of mode Op.Mul scalar left right }
{
    if signed(scalar) {
        keep(mode, scalar, multiply_signed(left, right))
    } else {
        Ok(multiply_unsigned(scalar, left as u64, right as u64))
    }
}

fn shift_low(scalar: Scalar, low: u64, count: u32) -> i128
    requires { count < 64 }
    ensures { result ≡ of_bits scalar (low * 2 ^ count % modulus_of scalar) }
{
    wrap(scalar, i128::from(low << count))
}

#[tactic(auto, unfolding(crate::specs::Operators::op_of))]
fn shift_left(scalar: Scalar, left: i128, right: i128) -> Result<i128, TrapKind>
    ensures { (mode : Mode) → result ≡ op_of mode Op.Shl scalar left right }
{
    if 0 <= right && right < i128::from(bits(scalar)) {
        Ok(shift_low(scalar, low(scalar, left), right as u32))
    } else {
        Err(TrapKind::Shift)
    }
}

#[tactic(auto, unfolding(crate::specs::Operators::op_of))]
fn shift_right(scalar: Scalar, left: i128, right: i128) -> Result<i128, TrapKind>
    ensures { (mode : Mode) → result ≡ op_of mode Op.Shr scalar left right }
{
    if 0 <= right && right < i128::from(bits(scalar)) {
        Ok(left >> (right as u32))
    } else {
        Err(TrapKind::Shift)
    }
}

/// An operator on two numbers of a scalar; a shift's count may be of any integer scalar. The mode says whether signed
/// sums, differences and products trap outside the scalar or wrap; all else is the same in both.
pub fn eval_op(
    mode: Mode,
    op: Op,
    scalar: Scalar,
    left: i128,
    right: i128,
) -> Result<i128, TrapKind>
    requires left { IsTrue (in_scalar scalar left) }
    requires right { IsRightSide op scalar right }
    ensures { result ≡ op_of mode op scalar left right }
{
    match op {
        Op::Add => add(mode, scalar, left, right),
        Op::Sub => subtract(mode, scalar, left, right),
        Op::Mul => multiply(mode, scalar, left, right),
        Op::Div => divide(scalar, left, right),
        Op::Rem => remainder(scalar, left, right),
        Op::And => both(scalar, left, right),
        Op::Or => either(scalar, left, right),
        Op::Xor => differs(scalar, left, right),
        Op::Shl => shift_left(scalar, left, right),
        Op::Shr => shift_right(scalar, left, right),
    }
}

/// A comparison of two numbers.
pub fn eval_cmp(cmp: Cmp, left: i128, right: i128) -> bool
    ensures { result ≡ cmp_of cmp left right }
{
    match cmp {
        Cmp::Eq => left == right,
        Cmp::Ne => left != right,
        Cmp::Lt => left < right,
        Cmp::Le => left <= right,
        Cmp::Gt => left > right,
        Cmp::Ge => left >= right,
    }
}
