//! The registers of a frame, which are values by position.

ghost use Rattle.std.specs.Prelude.{◌≡◌};
ghost use Rattle.gimple_core.specs.State.{value_at, put_at};

use gimple_core::Value;

/// What a register holds.
pub fn value_at<'t>(registers: &[Value<'t>], place: Option<usize>) -> Value<'t>
    ensures { result ≡ value_at registers.now place }
{
    let Some(at) = place else {
        return Value::Null;
    };
    match registers.get(at) {
        Some(value) => value.again(),
        None => Value::Null,
    }
}

/// Puts a value at a position.
pub fn put<'t>(registers: &mut Vec<Value<'t>>, place: Option<usize>, value: Value<'t>)
    ensures { registers.new.items ≡ put_at registers.old.items place value.entry }
{
    if let Some(at) = place {
        if at < registers.len() {
            registers[at] = value;
        }
    }
}
