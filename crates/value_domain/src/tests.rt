//! Rows of results from outside, and each operator against the numbers that abstract values stand for, at 8 bits.

ghost use Rattle.std.specs.Prelude.{◌≡◌, false, true, IfOk, IfSome};
ghost use Rattle.gimple_core.specs.Operators.{is_signed};
ghost use Rattle.value_domain.specs.RangeOperators.{IsInside, IsSignedWords, IsWords};

use crate::bit_operators::bits_of_op;
use crate::bits::Bits;
use crate::constant_operators::{Rule, pairs};
use crate::numbers::numbers_of;
use crate::operators::range_leaves;
use crate::range::Range;
use crate::range_operators::{range_converted, range_of_cmp, range_of_op};
use crate::vals::Vals;
use gimple_core::{Cmp, Constant, Listed, Mode, Op, OutOfMemory, Scalar, low, signed};
use std::alloc::Global;
use std::test::Fail;

/// Each operator in the mode `Trap`, and those that the mode `Wrap` changes.
const OPS: [(Mode, Op); 13] = [
    (Mode::Trap, Op::Add),
    (Mode::Trap, Op::Sub),
    (Mode::Trap, Op::Mul),
    (Mode::Trap, Op::Div),
    (Mode::Trap, Op::Rem),
    (Mode::Trap, Op::And),
    (Mode::Trap, Op::Or),
    (Mode::Trap, Op::Xor),
    (Mode::Trap, Op::Shl),
    (Mode::Trap, Op::Shr),
    (Mode::Wrap, Op::Add),
    (Mode::Wrap, Op::Sub),
    (Mode::Wrap, Op::Mul),
];

const CMPS: [Cmp; 6] = [Cmp::Eq, Cmp::Ne, Cmp::Lt, Cmp::Le, Cmp::Gt, Cmp::Ge];

/// The runs of numbers of `i8` and `u8` whose intervals are tried, and some wide intervals.
const RUNS: [(Scalar, [(i32, i32); 3], [(i32, i32); 2]); 2] = [
    (
        Scalar::I8,
        [(-128, -126), (-2, 3), (125, 127)],
        [(-128, 127), (-3, 64)],
    ),
    (
        Scalar::U8,
        [(0, 4), (126, 129), (253, 255)],
        [(0, 255), (3, 70)],
    ),
];

/// The intervals within each run, and the wide ones.
fn intervals(
    alloc: Global,
    runs: [(i32, i32); 3],
    wide: [(i32, i32); 2],
) -> Result<Vec<(i32, i32)>, OutOfMemory> {
    let mut all = Vec::new(alloc);
    for (first, last) in runs {
        for low in first..last.saturating_add(1) {
            for high in low..last.saturating_add(1) {
                all.push((low, high))?;
            }
        }
    }
    for ends in wide {
        all.push(ends)?;
    }
    Ok(all)
}

/// The result of an operator on two numbers of `i8`, or None where it traps.
fn on_i8(mode: Mode, op: Op, left: i8, right: i8) -> Option<i8> {
    match op {
        Op::Add if mode == Mode::Wrap => Some(left.wrapping_add(right)),
        Op::Sub if mode == Mode::Wrap => Some(left.wrapping_sub(right)),
        Op::Mul if mode == Mode::Wrap => Some(left.wrapping_mul(right)),
        Op::Add => left.checked_add(right),
        Op::Sub => left.checked_sub(right),
        Op::Mul => left.checked_mul(right),
        Op::Div => left.checked_div(right),
        Op::Rem => left.checked_rem(right),
        Op::And => Some(left & right),
        Op::Or => Some(left | right),
        Op::Xor => Some(left ^ right),
        Op::Shl => left.checked_shl(u32::try_from(right).ok()?),
        Op::Shr => left.checked_shr(u32::try_from(right).ok()?),
    }
}

/// The result of an operator on two numbers of `u8`, or None where it traps.
fn on_u8(op: Op, left: u8, right: u8) -> Option<u8> {
    match op {
        Op::Add => Some(left.wrapping_add(right)),
        Op::Sub => Some(left.wrapping_sub(right)),
        Op::Mul => Some(left.wrapping_mul(right)),
        Op::Div => left.checked_div(right),
        Op::Rem => left.checked_rem(right),
        Op::And => Some(left & right),
        Op::Or => Some(left | right),
        Op::Xor => Some(left ^ right),
        Op::Shl => left.checked_shl(u32::from(right)),
        Op::Shr => left.checked_shr(u32::from(right)),
    }
}

/// The result on two numbers of `i8` or `u8`, or None where it traps.
fn result(mode: Mode, op: Op, scalar: Scalar, left: i32, right: i32) -> Option<i32> {
    if signed(scalar) {
        let found = on_i8(
            mode,
            op,
            i8::try_from(left).ok()?,
            i8::try_from(right).ok()?,
        )?;
        Some(i32::from(found))
    } else {
        let found = on_u8(op, u8::try_from(left).ok()?, u8::try_from(right).ok()?)?;
        Some(i32::from(found))
    }
}

/// An interval of a scalar, or None where the ends are none.
fn interval(scalar: Scalar, ends: (i32, i32)) -> Option<Range>
    ensures inside { IfSome result (IsInside scalar) }
    ensures words { IfSome result IsWords }
    ensures signed { IfSome result (λ r. is_signed scalar ≡ true → IsSignedWords r) }
{
    let whole = numbers_of(scalar);
    let low = i128::from(ends.0);
    let high = i128::from(ends.1);
    if whole.low <= low && low <= high && high <= whole.high {
        Some(Range { low, high })
    } else {
        None
    }
}

/// What the results on all pairs of two intervals come to.
#[derive(Clone, Copy, Debug)]
struct Results {
    /// The least and the greatest result.
    ends: Option<(i32, i32)>,
    traps: bool,
}

fn results_of(mode: Mode, op: Op, scalar: Scalar, left: (i32, i32), right: (i32, i32)) -> Results {
    let mut ends: Option<(i32, i32)> = None;
    let mut traps = false;
    for x in left.0..left.1.saturating_add(1) {
        for y in right.0..right.1.saturating_add(1) {
            match result(mode, op, scalar, x, y) {
                Some(z) => {
                    let (least, greatest) = ends.unwrap_or((z, z));
                    ends = Some((least.min(z), greatest.max(z)));
                }
                None => traps = true,
            }
        }
    }
    Results { ends, traps }
}

fn whole(scalar: Scalar) -> (i32, i32) {
    if signed(scalar) {
        (-128, 127)
    } else {
        (0, 255)
    }
}

/// The exact interval brought into the scalar.
fn fit(mode: Mode, scalar: Scalar, (low, high): (i32, i32)) -> Option<(i32, i32)> {
    let (least, greatest) = whole(scalar);
    if signed(scalar) && mode == Mode::Trap {
        let (low, high) = (low.max(least), high.min(greatest));
        if low <= high { Some((low, high)) } else { None }
    } else if least <= low && high <= greatest {
        Some((low, high))
    } else {
        Some((least, greatest))
    }
}

/// The hull of the four products.
fn products((a, b): (i32, i32), (c, d): (i32, i32)) -> (i32, i32) {
    let corners = [
        a.saturating_mul(c),
        a.saturating_mul(d),
        b.saturating_mul(c),
        b.saturating_mul(d),
    ];
    let mut low = corners[0];
    let mut high = corners[0];
    for corner in corners {
        low = low.min(corner);
        high = high.max(corner);
    }
    (low, high)
}

/// The hull of all quotients in whole numbers, cut to the scalar.
fn quotients(scalar: Scalar, left: (i32, i32), right: (i32, i32)) -> Option<(i32, i32)> {
    let mut ends: Option<(i32, i32)> = None;
    for x in left.0..left.1.saturating_add(1) {
        for y in right.0..right.1.saturating_add(1) {
            if let Some(z) = x.checked_div(y) {
                let (least, greatest) = ends.unwrap_or((z, z));
                ends = Some((least.min(z), greatest.max(z)));
            }
        }
    }
    let (least, greatest) = whole(scalar);
    let (low, high) = ends?;
    let (low, high) = (low.max(least), high.min(greatest));
    if low <= high { Some((low, high)) } else { None }
}

fn remainders((a, b): (i32, i32), (c, d): (i32, i32)) -> Option<(i32, i32)> {
    let most = c.saturating_abs().max(d.saturating_abs());
    if most == 0 {
        return None;
    }
    let low = if a >= 0 {
        0
    } else {
        a.max(1i32.saturating_sub(most))
    };
    let high = if b <= 0 {
        0
    } else {
        b.min(most.saturating_sub(1))
    };
    Some((low, high))
}

/// The least number with the lowest bits set that reaches another one.
fn ones_reaching(value: i32) -> i32 {
    for ones in [0, 1, 3, 7, 15, 31, 63, 127] {
        if value <= ones {
            return ones;
        }
    }
    255
}

/// The table of intervals.
fn table(
    mode: Mode,
    op: Op,
    scalar: Scalar,
    left: (i32, i32),
    right: (i32, i32),
) -> Option<(i32, i32)> {
    let (a, b) = left;
    let (c, d) = right;
    match op {
        Op::Add => fit(mode, scalar, (a.saturating_add(c), b.saturating_add(d))),
        Op::Sub => fit(mode, scalar, (a.saturating_sub(d), b.saturating_sub(c))),
        Op::Mul => fit(mode, scalar, products(left, right)),
        Op::Div => quotients(scalar, left, right),
        Op::Rem => remainders(left, right),
        Op::And if a >= 0 && c >= 0 => Some((0, b.min(d))),
        Op::And if a >= 0 => Some((0, b)),
        Op::And if c >= 0 => Some((0, d)),
        Op::Or | Op::Xor if a >= 0 && c >= 0 => Some((0, ones_reaching(b.max(d)))),
        Op::And | Op::Or | Op::Xor | Op::Shl => Some(whole(scalar)),
        Op::Shr => Some((a.min(0), b.max(-1))),
    }
}

fn as_range(ends: Option<(i32, i32)>) -> Option<Range> {
    let (low, high) = ends?;
    Some(Range {
        low: i128::from(low),
        high: i128::from(high),
    })
}

/// Whether the interval of an operator holds all results on two intervals and is that of the table, and whether a trap is
/// left open exactly where a pair traps.
fn interval_is_right(
    mode: Mode,
    op: Op,
    scalar: Scalar,
    left: (i32, i32),
    right: (i32, i32),
) -> bool {
    let (Some(first), Some(second)) = (interval(scalar, left), interval(scalar, right)) else {
        return false;
    };
    let seen = results_of(mode, op, scalar, left, right);
    let found = range_of_op(mode, op, scalar, first, second);
    let holds = match (as_range(seen.ends), found) {
        (Some(results), Some(found)) => results.leq(found),
        (Some(_), None) => false,
        (None, _) => true,
    };
    holds
        && found == as_range(table(mode, op, scalar, left, right))
        && range_leaves(mode, op, scalar, first, second) == seen.traps
}

#[test]
fn intervals_at_eight_bits(rt: HostRuntime) -> Result<(), Fail> {
    for (scalar, runs, wide) in RUNS {
        let all = intervals(rt.alloc(), runs, wide)?;
        for (mode, op) in OPS {
            for left in &all {
                for right in &all {
                    assert!(rt;
                        interval_is_right(mode, op, scalar, *left, *right),
                        "{mode:?} {op:?} {scalar:?} {left:?} {right:?}"
                    );
                }
            }
        }
    }
    Ok(())
}

fn compares(cmp: Cmp, left: i32, right: i32) -> bool {
    match cmp {
        Cmp::Eq => left == right,
        Cmp::Ne => left != right,
        Cmp::Lt => left < right,
        Cmp::Le => left <= right,
        Cmp::Gt => left > right,
        Cmp::Ge => left >= right,
    }
}

/// Whether 1, 0 or both stand for the outcomes of a comparison on two intervals.
fn comparison_is_right(cmp: Cmp, left: (i32, i32), right: (i32, i32)) -> bool {
    let (Some(first), Some(second)) = (as_range(Some(left)), as_range(Some(right))) else {
        return false;
    };
    let mut low = 1;
    let mut high = 0;
    for x in left.0..left.1.saturating_add(1) {
        for y in right.0..right.1.saturating_add(1) {
            let outcome = if compares(cmp, x, y) { 1 } else { 0 };
            low = outcome.min(low);
            high = outcome.max(high);
        }
    }
    range_of_cmp(cmp, first, second) == Range { low, high }
}

/// Whether the interval of a conversion holds each number that it makes.
fn conversion_is_right(target: Scalar, from: (i32, i32)) -> bool {
    let (least, greatest) = whole(target);
    let Some(range) = as_range(Some(from)) else {
        return false;
    };
    let found = range_converted(target, range);
    for x in from.0..from.1.saturating_add(1) {
        let made = x
            .saturating_sub(least)
            .rem_euclid(256)
            .saturating_add(least);
        if i128::from(made) < found.low || found.high < i128::from(made) {
            return false;
        }
    }
    let inside = least <= from.0 && from.1 <= greatest;
    as_range(Some(if inside { from } else { (least, greatest) })) == Some(found)
}

#[test]
fn comparisons_and_conversions_at_eight_bits(rt: HostRuntime) -> Result<(), Fail> {
    for (_, runs, wide) in RUNS {
        let all = intervals(rt.alloc(), runs, wide)?;
        for left in &all {
            for target in [Scalar::I8, Scalar::U8] {
                assert!(rt; conversion_is_right(target, *left), "{target:?} {left:?}");
            }
            for right in &all {
                for cmp in CMPS {
                    assert!(rt;
                        comparison_is_right(cmp, *left, *right),
                        "{cmp:?} {left:?} {right:?}"
                    );
                }
            }
        }
    }
    Ok(())
}

/// The numbers of four bits of a byte, of which the others are 0.
const BYTES: [u64; 16] = [
    0, 1, 2, 3, 4, 5, 6, 7, 128, 129, 130, 131, 132, 133, 134, 135,
];

/// What may be known of a bit of a byte.
const KINDS: [(bool, bool); 3] = [(false, false), (true, false), (true, true)];

/// One bit of what is known, where its kind says whether it is known and set.
fn bit(weight: u64, kind: (bool, bool)) -> Bits {
    let (known, set) = kind;
    Bits {
        mask: if known { weight } else { 0 },
        value: if set { weight } else { 0 },
    }
}

/// Each kind of each of the four bits, where the others are known to be 0.
fn patterns(alloc: Global) -> Result<Vec<Bits>, OutOfMemory> {
    let mut all = Vec::new(alloc);
    for first in KINDS {
        for second in KINDS {
            for third in KINDS {
                for last in KINDS {
                    let low = bit(1, first);
                    let next = bit(2, second);
                    let high = bit(4, third);
                    let sign = bit(128, last);
                    all.push(Bits {
                        mask: 0x78 | low.mask | next.mask | high.mask | sign.mask,
                        value: low.value | next.value | high.value | sign.value,
                    })?;
                }
            }
        }
    }
    Ok(all)
}

/// The number of a scalar with these bits.
fn number_of(scalar: Scalar, byte: u64) -> i32 {
    let Ok(value) = i32::try_from(byte) else {
        return 0;
    };
    if signed(scalar) && value > 127 {
        value.saturating_sub(256)
    } else {
        value
    }
}

/// What the results on all numbers of two patterns have in common.
#[derive(Clone, Copy, Debug)]
struct Agreement {
    /// The bits of the first result, or None where all trap.
    first: Option<u64>,
    /// The bits that all results have alike.
    alike: u64,
}

fn agreement_of(mode: Mode, op: Op, scalar: Scalar, left: Bits, right: Bits) -> Agreement {
    let mut found = Agreement {
        first: None,
        alike: 0xff,
    };
    for x in BYTES {
        if x & left.mask != left.value {
            continue;
        }
        for y in BYTES {
            if y & right.mask != right.value {
                continue;
            }
            if let Some(z) = result(mode, op, scalar, number_of(scalar, x), number_of(scalar, y)) {
                let bits = low(scalar, i128::from(z));
                let first = found.first.unwrap_or(bits);
                found = Agreement {
                    first: Some(first),
                    alike: found.alike & (bits ^ first ^ 0xff),
                };
            }
        }
    }
    found
}

/// Which bits the table says are known of a result, given those that all results have alike.
fn known_bits(op: Op, left: Bits, right: Bits, alike: u64) -> u64 {
    match op {
        Op::And | Op::Or | Op::Xor => alike,
        Op::Add | Op::Sub | Op::Mul => {
            let both = left.mask & right.mask;
            let mut low = 0;
            for ones in [1, 3, 7, 15, 31, 63, 127, 255] {
                if both & ones == ones {
                    low = ones;
                }
            }
            low
        }
        Op::Div | Op::Rem if left.mask == 0xff && right.mask == 0xff => 0xff,
        Op::Shl | Op::Shr if right.mask == 0xff => alike,
        Op::Div | Op::Rem | Op::Shl | Op::Shr => 0,
    }
}

/// Whether the known bits of an operator are those of all results, and those of the table.
fn bits_are_right(mode: Mode, op: Op, scalar: Scalar, left: Bits, right: Bits) -> bool {
    let found = bits_of_op(mode, op, scalar, scalar, left, right);
    let common = agreement_of(mode, op, scalar, left, right);
    let Some(first) = common.first else {
        return found.mask <= 0xff && found.value & found.mask == found.value;
    };
    let mask = known_bits(op, left, right, common.alike);
    mask & common.alike == mask
        && found
            == Bits {
                mask,
                value: first & mask,
            }
}

#[test]
fn known_bits_at_eight_bits(rt: HostRuntime) -> Result<(), Fail> {
    let patterns = patterns(rt.alloc())?;
    for scalar in [Scalar::I8, Scalar::U8] {
        for (mode, op) in OPS {
            for left in &patterns {
                for right in &patterns {
                    assert!(rt;
                        bits_are_right(mode, op, scalar, *left, *right),
                        "{mode:?} {op:?} {scalar:?} {left:?} {right:?}"
                    );
                }
            }
        }
    }
    Ok(())
}

/// The members of five numbers that a selection of 1 to 31 names.
fn chosen(alloc: Global, numbers: [i32; 5], selection: u32) -> Result<Vals, OutOfMemory> {
    let mut constants = Vec::new(alloc);
    let mut rest = selection;
    for number in numbers {
        if rest % 2 == 1 {
            constants.push(Constant::Int(i128::from(number)))?;
        }
        rest /= 2;
    }
    Ok(Vals::Among {
        limit: 64,
        constants: Listed::from_vec(constants),
    })
}

fn constants(vals: &Vals) -> &[Constant] {
    match vals {
        Vals::Among {
            limit: _,
            constants,
        } => constants.as_slice(),
        _ => &[],
    }
}

/// Whether the numbers of a set ascend.
fn ascends(members: &[Constant]) -> bool {
    let mut before: Option<i128> = None;
    for member in members {
        let Constant::Int(value) = member else {
            return false;
        };
        if let Some(last) = before {
            if *value <= last {
                return false;
            }
        }
        before = Some(*value);
    }
    true
}

/// Whether each result on members of two sets is among some constants, and each of these is such a result.
fn are_results(
    mode: Mode,
    op: Op,
    scalar: Scalar,
    left: &Vals,
    right: &Vals,
    found: &[Constant],
) -> bool {
    let mut reached = 0u64;
    for x in constants(left) {
        for y in constants(right) {
            let (Constant::Int(x), Constant::Int(y)) = (x, y) else {
                return false;
            };
            let (Ok(x), Ok(y)) = (i32::try_from(*x), i32::try_from(*y)) else {
                return false;
            };
            let Some(z) = result(mode, op, scalar, x, y) else {
                continue;
            };
            let mut missing = true;
            let mut place = 1u64;
            for constant in found {
                if *constant == Constant::Int(i128::from(z)) {
                    reached |= place;
                    missing = false;
                }
                place = place.wrapping_mul(2);
            }
            if missing {
                return false;
            }
        }
    }
    reached.count_ones() as usize == found.len()
}

/// Whether the set of results is that of all pairs, and any where the limit is less.
fn set_is_right(
    alloc: Global,
    mode: Mode,
    op: Op,
    scalar: Scalar,
    left: &Vals,
    right: &Vals,
) -> Result<bool, OutOfMemory> {
    let rule = Rule::Arithmetic(mode, op, scalar);
    let all = pairs(alloc, 64, rule, left, right)?;
    let found = constants(&all);
    let cut = pairs(alloc, 3, rule, left, right)?;
    let cut_is_right = if found.len() > 3 {
        matches!(&cut, Vals::Any)
    } else {
        constants(&cut) == found
    };
    let empty_is_right = !found.is_empty() || matches!(&all, Vals::Nothing);
    Ok(
        ascends(found)
            && are_results(mode, op, scalar, left, right, found)
            && cut_is_right
            && empty_is_right,
    )
}

#[test]
fn sets_at_eight_bits(rt: HostRuntime) -> Result<(), Fail> {
    for (scalar, numbers) in [
        (Scalar::I8, [-128, -1, 0, 3, 127]),
        (Scalar::U8, [0, 1, 2, 128, 255]),
    ] {
        for first in 1u32..32 {
            let left = chosen(rt.alloc(), numbers, first)?;
            for second in 1u32..32 {
                let right = chosen(rt.alloc(), numbers, second)?;
                for (mode, op) in OPS {
                    assert!(rt;
                        set_is_right(rt.alloc(), mode, op, scalar, &left, &right)?,
                        "{mode:?} {op:?} {scalar:?} {first} {second}"
                    );
                }
            }
        }
    }
    Ok(())
}
