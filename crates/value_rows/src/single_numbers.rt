//! What the calls make of single numbers.

use crate::expectations::{is_any_within, is_listed_alone, is_nothing, is_within};
use crate::sample::limits;
use crate::values::{
    alone, both, compared, converted, is_below, joined, known_number, left, made, whole,
};
use gimple_core::{Cmp, Mode, Op, OutOfMemory, Scalar};
use std::alloc::Global;
use std::test::Fail;
use value_domain::{Bits, Range, into_scalar};

/// Whether what holds a number of `i32` has it alone in its set, and is known to be it.
fn holds_alone(alloc: Global, number: i128) -> Result<bool, OutOfMemory> {
    let limits = limits(alloc)?;
    let value = alone(alloc, Scalar::I32, number, &limits)?;
    Ok(
        is_listed_alone(&value, number)
            && known_number(Scalar::I32, &value, &limits) == Some(number),
    )
}

#[test]
fn one_number(rt: HostRuntime) -> Result<(), Fail> {
    let alloc = rt.alloc();
    let limits = limits(alloc)?;
    assert!(rt; limits.limit() == 8);
    assert!(rt; holds_alone(alloc, -7)?);
    let large = alone(alloc, Scalar::I32, 300, &limits)?;
    let bits = Bits {
        mask: 0xffff_ffff,
        value: 300,
    };
    let range = Range {
        low: 300,
        high: 300,
    };
    assert!(rt; is_within(&large, bits, range));
    let brought = into_scalar(Scalar::I8, &large)?;
    assert!(rt; is_nothing(&brought));
    Ok(())
}

#[test]
fn masked_number(rt: HostRuntime) -> Result<(), Fail> {
    let alloc = rt.alloc();
    let limits = limits(alloc)?;
    let all = whole(Scalar::I32, &limits);
    let three = alone(alloc, Scalar::I32, 3, &limits)?;
    let masked = made(
        alloc,
        Mode::Trap,
        Op::And,
        Scalar::I32,
        &all,
        &three,
        &limits,
    )?;
    let bits = Bits {
        mask: 0xffff_fffc,
        value: 0,
    };
    let range = Range { low: 0, high: 3 };
    assert!(rt; is_any_within(&masked, range));
    assert!(rt; is_within(&masked, bits, range));
    assert!(rt; known_number(Scalar::I32, &masked, &limits).is_none());
    Ok(())
}

#[test]
fn two_numbers(rt: HostRuntime) -> Result<(), Fail> {
    let alloc = rt.alloc();
    let limits = limits(alloc)?;
    let three = alone(alloc, Scalar::I32, 3, &limits)?;
    let five = alone(alloc, Scalar::I32, 5, &limits)?;
    let either = joined(Scalar::I32, &three, &five, &limits)?;
    let bits = Bits {
        mask: 0xffff_fff9,
        value: 1,
    };
    let range = Range { low: 3, high: 5 };
    assert!(rt; is_within(&either, bits, range));
    let none = both(Scalar::I32, &three, &five, &limits)?;
    assert!(rt; is_nothing(&none));
    Ok(())
}

#[test]
fn order_of_values(rt: HostRuntime) -> Result<(), Fail> {
    let alloc = rt.alloc();
    let limits = limits(alloc)?;
    let three = alone(alloc, Scalar::I32, 3, &limits)?;
    let all = whole(Scalar::I32, &limits);
    assert!(rt; is_below(Scalar::I32, &three, &all, &limits));
    assert!(rt; !is_below(Scalar::I32, &all, &three, &limits));
    Ok(())
}

#[test]
fn compared_numbers(rt: HostRuntime) -> Result<(), Fail> {
    let alloc = rt.alloc();
    let limits = limits(alloc)?;
    let three = alone(alloc, Scalar::I32, 3, &limits)?;
    let truth = compared(
        alloc,
        Scalar::U8,
        Cmp::Eq,
        Scalar::I32,
        &three,
        &three,
        &limits,
    )?;
    assert!(rt; known_number(Scalar::U8, &truth, &limits) == Some(1));
    Ok(())
}

#[test]
fn converted_number(rt: HostRuntime) -> Result<(), Fail> {
    let alloc = rt.alloc();
    let limits = limits(alloc)?;
    let large = alone(alloc, Scalar::I32, 300, &limits)?;
    let byte = converted(alloc, Scalar::I8, Scalar::I32, &large, &limits)?;
    assert!(rt; known_number(Scalar::I8, &byte, &limits) == Some(44));
    Ok(())
}

#[test]
fn taken_comparison(rt: HostRuntime) -> Result<(), Fail> {
    let alloc = rt.alloc();
    let limits = limits(alloc)?;
    let all = whole(Scalar::I32, &limits);
    let bound = alone(alloc, Scalar::I32, 300, &limits)?;
    let less = left(Cmp::Lt, Scalar::I32, &all, &bound, &limits)?;
    let range = Range {
        low: -0x8000_0000,
        high: 300,
    };
    assert!(rt; is_any_within(&less, range));
    Ok(())
}
