//! Whether a value is what is expected.

ghost use Rattle.std.specs.Prelude.{◌↔◌, IsTrue};
ghost use Rattle.value_rows.specs.Expected.{IsAnyWithin, IsListedAlone, IsNothing, IsWithin};

use crate::sample::limits;
use crate::values::{alone, is_below, joined, known_number, whole};
use gimple_core::{Constant, Scalar};
use std::test::Fail;
use value_domain::{AbsVal, Bits, Range, Vals};

/// Whether a value has any constant and this interval.
pub fn is_any_within(value: &AbsVal, range: Range) -> bool
    ensures { IsTrue result ↔ IsAnyWithin range value.now }
{
    matches!(&value.vals, Vals::Any) && value.range == range
}

/// Whether a value holds nothing.
pub fn is_nothing(value: &AbsVal) -> bool
    ensures { IsTrue result ↔ IsNothing value.now }
{
    matches!(&value.vals, Vals::Nothing) && value.range == Range { low: 1, high: 0 }
}

/// Whether a value has these known bits and this interval.
pub fn is_within(value: &AbsVal, bits: Bits, range: Range) -> bool
    ensures { IsTrue result ↔ IsWithin bits range value.now }
{
    value.bits == bits && value.range == range
}

/// Whether the set of a value is this number alone.
pub fn is_listed_alone(value: &AbsVal, want: i128) -> bool
    ensures { IsTrue result ↔ IsListedAlone want value.now.vals }
{
    match &value.vals {
        Vals::Among {
            limit: _,
            constants,
        } => match constants.as_slice() {
            [Constant::Int(number)] => *number == want,
            _ => false,
        },
        _ => false,
    }
}

/// Each question has the answer no where it is to.
#[test]
fn wrong_expectations(rt: HostRuntime) -> Result<(), Fail> {
    let alloc = rt.alloc();
    let limits = limits(alloc)?;
    let five = alone(alloc, Scalar::I32, 5, &limits)?;
    let here = Range { low: 5, high: 5 };
    let elsewhere = Range { low: 5, high: 6 };
    let unknown = Bits { mask: 0, value: 0 };
    assert!(rt; !is_any_within(&five, here));
    assert!(rt; !is_any_within(&whole(Scalar::I32, &limits), here));
    assert!(rt; !is_nothing(&five));
    assert!(rt; !is_within(&five, five.bits, elsewhere));
    assert!(rt; !is_within(&five, unknown, here));
    assert!(rt; !is_listed_alone(&five, 6));
    Ok(())
}

/// Each question about what an operator says has the answer no where it is to.
#[test]
fn wrong_order(rt: HostRuntime) -> Result<(), Fail> {
    let alloc = rt.alloc();
    let limits = limits(alloc)?;
    let five = alone(alloc, Scalar::I32, 5, &limits)?;
    let six = alone(alloc, Scalar::I32, 6, &limits)?;
    let either = joined(Scalar::I32, &five, &six, &limits)?;
    assert!(rt; !is_below(Scalar::I32, &five, &six, &limits));
    assert!(rt; !is_listed_alone(&either, 5));
    assert!(rt; known_number(Scalar::I32, &five, &limits) != Some(6));
    Ok(())
}
