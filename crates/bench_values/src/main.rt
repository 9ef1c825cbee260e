//! Times the operators on abstract values: `bench_values constants|intervals|any ROUNDS` prints a sum over the results.
#![tactic(auto)]

ghost use Rattle.gimple_ir.specs.declared.scalar.Scalar.TheVariants.{I32};
ghost use Rattle.value_rows.specs.Kept.{IsKept};

use gimple_core::{Mode, Op, OutOfMemory, Scalar, low};
use std::alloc::Global;
use std::env;
use std::process::ExitCode;
use value_domain::{AbsVal, Range, Thresholds, Vals};
use value_rows::{alone, between, limits, made, whole};

/// The operators that take turns.
#[derive(Clone, Copy)]
struct Turns {
    even: Op,
    odd: Op,
}

impl Turns {
    fn of(self, round: u32) -> Op {
        if round % 2 == 0 { self.even } else { self.odd }
    }
}

/// A number that depends on each part of a value.
fn mark(value: &AbsVal) -> u64 {
    let constants = match &value.vals {
        Vals::Any => 1,
        Vals::Nothing => 2,
        Vals::Among {
            limit: _,
            constants,
        } => (constants.as_slice().len() as u64).wrapping_add(3),
    };
    constants
        .wrapping_mul(31)
        .wrapping_add(value.bits.mask)
        .wrapping_mul(31)
        .wrapping_add(value.bits.value)
        .wrapping_mul(31)
        .wrapping_add(low(Scalar::I64, value.range.low))
        .wrapping_mul(31)
        .wrapping_add(low(Scalar::I64, value.range.high))
}

/// Applies an operator to two values of `i32` once a round, and sums over the results.
fn repeated(
    alloc: Global,
    turns: Turns,
    first: &AbsVal,
    second: &AbsVal,
    limits: &Thresholds,
    rounds: u32,
) -> Result<u64, OutOfMemory>
    requires first { IsKept I32 limits.now first.now }
    requires second { IsKept I32 limits.now second.now }
{
    let mut sum = 0u64;
    for round in 0..rounds {
        let result = made(
            alloc,
            Mode::Trap,
            turns.of(round),
            Scalar::I32,
            first,
            second,
            limits,
        )?;
        sum = sum.wrapping_add(mark(&result));
    }
    Ok(sum)
}

/// The sum of two numbers.
fn constants(alloc: Global, limits: &Thresholds, rounds: u32) -> Result<u64, OutOfMemory> {
    let first = alone(alloc, Scalar::I32, 300, limits)?;
    let second = alone(alloc, Scalar::I32, 5, limits)?;
    let turns = Turns {
        even: Op::Add,
        odd: Op::Add,
    };
    repeated(alloc, turns, &first, &second, limits, rounds)
}

/// The sum and the quotient of two intervals in turn.
fn intervals(alloc: Global, limits: &Thresholds, rounds: u32) -> Result<u64, OutOfMemory> {
    let dividends = Range {
        low: -1000,
        high: 100_000,
    };
    let divisors = Range { low: 3, high: 70 };
    let first = between(alloc, Scalar::I32, dividends, limits)?;
    let second = between(alloc, Scalar::I32, divisors, limits)?;
    let turns = Turns {
        even: Op::Add,
        odd: Op::Div,
    };
    repeated(alloc, turns, &first, &second, limits, rounds)
}

/// What two numbers of which nothing is known have in common.
fn any(alloc: Global, limits: &Thresholds, rounds: u32) -> Result<u64, OutOfMemory> {
    let first = whole(Scalar::I32, limits);
    let second = whole(Scalar::I32, limits);
    let turns = Turns {
        even: Op::And,
        odd: Op::And,
    };
    repeated(alloc, turns, &first, &second, limits, rounds)
}

/// The sum over the results on values of a kind, or None where no kind has the name.
fn summed(alloc: Global, kind: &str, rounds: u32) -> Result<Option<u64>, OutOfMemory> {
    let limits = limits(alloc)?;
    match kind {
        "constants" => Ok(Some(constants(alloc, &limits, rounds)?)),
        "intervals" => Ok(Some(intervals(alloc, &limits, rounds)?)),
        "any" => Ok(Some(any(alloc, &limits, rounds)?)),
        _ => Ok(None),
    }
}

/// Runs the rounds that the words name, and prints one line.
fn measure(rt: &HostRuntime, kind: &str, rounds: u32) -> Result<ExitCode, OutOfMemory> {
    let Some(sum) = summed(rt.alloc(), kind, rounds)? else {
        return Ok(ExitCode::from(2));
    };
    let _ = println!(rt; "{kind} {rounds}: sum {sum}");
    Ok(ExitCode::from(0))
}

fn main(rt: HostRuntime) -> ExitCode {
    let Ok(arguments) = env::args(&rt) else {
        return ExitCode::from(2);
    };
    let mut words = arguments.into_iter().skip(1);
    let (Some(kind), Some(rounds)) = (words.next(), words.next()) else {
        return ExitCode::from(2);
    };
    let Ok(rounds) = rounds.as_str().parse::<u32>() else {
        return ExitCode::from(2);
    };
    match measure(&rt, kind.as_str(), rounds) {
        Ok(code) => code,
        Err(_) => ExitCode::from(5),
    }
}
