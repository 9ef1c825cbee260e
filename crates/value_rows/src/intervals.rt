//! The results of operators on intervals.

ghost use Rattle.std.specs.Prelude.{◌≡◌, false};
ghost use Rattle.gimple_core.specs.Statements.{is_pointer};

use crate::expectations::is_any_within;
use crate::sample::limits;
use crate::values::{between, made, traps};
use gimple_core::{Mode, Op, OutOfMemory, Scalar};
use std::alloc::Global;
use std::test::Fail;
use value_domain::Range;

/// An operator on two intervals, the interval that it must make and whether it may trap.
#[derive(Clone, Copy)]
struct Row {
    mode: Mode,
    op: Op,
    first: Range,
    second: Range,
    made: Range,
    traps: bool,
}

fn range(low: i128, high: i128) -> Range {
    Range { low, high }
}

/// Whether the operator makes of numbers of the scalar what the row says.
fn holds(alloc: Global, scalar: Scalar, row: Row) -> Result<bool, OutOfMemory>
    requires { is_pointer scalar ≡ false }
{
    let limits = limits(alloc)?;
    let first = between(alloc, scalar, row.first, &limits)?;
    let second = between(alloc, scalar, row.second, &limits)?;
    let open = traps(row.mode, row.op, scalar, &first, &second, &limits);
    let found = made(alloc, row.mode, row.op, scalar, &first, &second, &limits)?;
    Ok(open == row.traps && is_any_within(&found, row.made))
}

#[test]
fn unsigned_sum(rt: HostRuntime) -> Result<(), Fail> {
    let row = Row {
        mode: Mode::Trap,
        op: Op::Add,
        first: range(129, 255),
        second: range(1, 1),
        made: range(0, 255),
        traps: false,
    };
    assert!(rt; holds(rt.alloc(), Scalar::U8, row)?);
    Ok(())
}

#[test]
fn signed_sum_that_may_trap(rt: HostRuntime) -> Result<(), Fail> {
    let row = Row {
        mode: Mode::Trap,
        op: Op::Add,
        first: range(65, 127),
        second: range(1, 1),
        made: range(65, 127),
        traps: true,
    };
    assert!(rt; holds(rt.alloc(), Scalar::I8, row)?);
    Ok(())
}

#[test]
fn signed_sum_that_wraps(rt: HostRuntime) -> Result<(), Fail> {
    let row = Row {
        mode: Mode::Wrap,
        op: Op::Add,
        first: range(65, 127),
        second: range(1, 1),
        made: range(-128, 127),
        traps: false,
    };
    assert!(rt; holds(rt.alloc(), Scalar::I8, row)?);
    Ok(())
}

#[test]
fn signed_quotient_that_may_trap_where_sums_wrap(rt: HostRuntime) -> Result<(), Fail> {
    let row = Row {
        mode: Mode::Wrap,
        op: Op::Div,
        first: range(-128, 127),
        second: range(-1, -1),
        made: range(-127, 127),
        traps: true,
    };
    assert!(rt; holds(rt.alloc(), Scalar::I8, row)?);
    Ok(())
}

#[test]
fn quotient_by_what_may_be_zero(rt: HostRuntime) -> Result<(), Fail> {
    let row = Row {
        mode: Mode::Trap,
        op: Op::Div,
        first: range(7, 7),
        second: range(0, 3),
        made: range(2, 7),
        traps: true,
    };
    assert!(rt; holds(rt.alloc(), Scalar::I32, row)?);
    Ok(())
}

#[test]
fn sum_within_its_scalar(rt: HostRuntime) -> Result<(), Fail> {
    let row = Row {
        mode: Mode::Trap,
        op: Op::Add,
        first: range(0, 127),
        second: range(1, 1),
        made: range(1, 128),
        traps: false,
    };
    assert!(rt; holds(rt.alloc(), Scalar::I32, row)?);
    Ok(())
}

/// 300 is a threshold since the program has it, and 301 is none.
#[test]
fn sum_beside_a_number_of_the_program(rt: HostRuntime) -> Result<(), Fail> {
    let row = Row {
        mode: Mode::Trap,
        op: Op::Add,
        first: range(300, 300),
        second: range(1, 1),
        made: range(300, 511),
        traps: false,
    };
    assert!(rt; holds(rt.alloc(), Scalar::I32, row)?);
    Ok(())
}

#[test]
fn difference_beside_a_number_of_the_program(rt: HostRuntime) -> Result<(), Fail> {
    let row = Row {
        mode: Mode::Trap,
        op: Op::Sub,
        first: range(300, 300),
        second: range(1, 1),
        made: range(257, 300),
        traps: false,
    };
    assert!(rt; holds(rt.alloc(), Scalar::I32, row)?);
    Ok(())
}

#[test]
fn remainder(rt: HostRuntime) -> Result<(), Fail> {
    let row = Row {
        mode: Mode::Trap,
        op: Op::Rem,
        first: range(-5, 9),
        second: range(8, 8),
        made: range(-5, 7),
        traps: false,
    };
    assert!(rt; holds(rt.alloc(), Scalar::I32, row)?);
    Ok(())
}

#[test]
fn shift_by_a_count(rt: HostRuntime) -> Result<(), Fail> {
    let row = Row {
        mode: Mode::Trap,
        op: Op::Shr,
        first: range(-16, 5),
        second: range(0, 31),
        made: range(-16, 5),
        traps: false,
    };
    assert!(rt; holds(rt.alloc(), Scalar::I32, row)?);
    Ok(())
}

#[test]
fn shift_that_may_trap(rt: HostRuntime) -> Result<(), Fail> {
    let row = Row {
        mode: Mode::Trap,
        op: Op::Shr,
        first: range(-16, 5),
        second: range(0, 32),
        made: range(-16, 5),
        traps: true,
    };
    assert!(rt; holds(rt.alloc(), Scalar::I32, row)?);
    Ok(())
}
