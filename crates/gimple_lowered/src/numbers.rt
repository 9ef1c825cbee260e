//! Values as numbers, and pointers that move.

ghost use Rattle.std.specs.Prelude.{◌≡◌, ◌+ℤ◌, pos, IsTrue};
ghost use Rattle.gimple_core.specs.Operators.{in_scalar, least_of, greatest_of, wrapped, IsWord};
ghost use Rattle.gimple_core.specs.Memory.{moved_by};
ghost use Rattle.gimple_core.specs.State.{number_in, offset_in};
ghost use Rattle.gimple_ir.specs.declared.scalar.Scalar.TheVariants.{I64};

use gimple_core::{Scalar, Value, wrap};

/// An offset moved by some bytes, modulo 2^64.
pub fn moved(offset: i64, by: i128) -> i64
    requires { IsWord by }
    ensures { result ≡ wrapped I64 (offset +ℤ by) }
{
    wrap(Scalar::I64, i128::from(offset) + by) as i64
}

/// A pointer moved by some bytes.
#[tactic(auto, unfolding(gimple_core::specs::Memory::moved_by))]
pub fn move_by<'t>(value: &Value<'t>, by: i128) -> Value<'t>
    requires { IsWord by }
    ensures { result ≡ moved_by value.now by }
{
    match value {
        Value::At { object, offset } => Value::At {
            object: *object,
            offset: moved(*offset, by),
        },
        _ => value.again(),
    }
}

/// The least number of a scalar.
fn least(scalar: Scalar) -> i64
    ensures { result ≡ least_of scalar }
{
    match scalar {
        Scalar::I8 => -0x80,
        Scalar::I16 => -0x8000,
        Scalar::I32 => -0x8000_0000,
        Scalar::I64 => -0x8000_0000_0000_0000,
        Scalar::U8 | Scalar::U16 | Scalar::U32 | Scalar::U64 | Scalar::Ptr => 0,
    }
}

/// The greatest number of a scalar.
fn greatest(scalar: Scalar) -> u64
    ensures { pos result ≡ greatest_of scalar }
{
    match scalar {
        Scalar::I8 => 0x7f,
        Scalar::I16 => 0x7fff,
        Scalar::I32 => 0x7fff_ffff,
        Scalar::I64 => 0x7fff_ffff_ffff_ffff,
        Scalar::U8 => 0xff,
        Scalar::U16 => 0xffff,
        Scalar::U32 => 0xffff_ffff,
        Scalar::U64 | Scalar::Ptr => 0xffff_ffff_ffff_ffff,
    }
}

/// Whether a number lies in a scalar, by its ends, without a branch for each scalar.
pub fn lies_in(scalar: Scalar, number: i128) -> bool
    ensures { result ≡ in_scalar scalar number }
{
    i128::from(least(scalar)) <= number && number <= i128::from(greatest(scalar))
}

/// A value as a number of a scalar.
#[tactic(auto, unfolding(gimple_core::specs::State::number_in))]
pub fn number_of_value(scalar: Scalar, value: &Value<'_>) -> i128
    ensures value { result ≡ number_in scalar value.now }
    ensures fits { IsTrue (in_scalar scalar result) }
{
    match value {
        Value::Int(z) if lies_in(scalar, *z) => *z,
        _ => 0,
    }
}

/// An offset as it is read.
pub fn offset(value: i128) -> i128
    ensures value { result ≡ offset_in value }
    ensures word { IsWord result }
    ensures fits { IsTrue (in_scalar I64 result) }
{
    number_of_value(Scalar::I64, &Value::Int(value))
}
