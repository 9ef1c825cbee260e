//! The thresholds that the ends of intervals are rounded to.

ghost use Rattle.std.specs.Prelude.{◌≡◌, ◌≤ℤ◌, ◌<ℤ◌, ◌≤◌, ◌<◌, ◌+◌, ◌^◌, ℕ, ℤ, pos, Bool, length, slice_index_or, OnOk, OnErr, IfOk};
ghost use Rattle.value_domain.specs.RangeOperators.{floor_of, ceiling_of, rounded, rounded_each, lowest, highest};
ghost use Rattle.value_domain.specs.Thresholds.{Limits, IsLawful};

use crate::range::Range;
use gimple_core::OutOfMemory;
use std::marker::Model;

const LOWEST: i128 = -0x8000_0000_0000_0000;

const HIGHEST: i128 = 0xffff_ffff_ffff_ffff;

/// The thresholds of intervals, and how many constants a list has at most.
#[derive(Debug, Drop)]
pub struct Thresholds {
    limit: u64,
    ends: Vec<i128>,
}

impl Model for Thresholds {
    ghost use Rattle.value_domain.specs.Thresholds.{Limits, IsLawful};

    ghost Value = { Limits };

    ghost view = { λ t. record { size = t.limit; ends = t.ends.items } };

    ghost invariant = { λ t. IsLawful t.ends.items };
}

/// How many thresholds are not above a number.
fn count_up_to(thresholds: &[i128], value: i128) -> usize
    requires { IsLawful thresholds.now }
    ensures bound { result ≤ length thresholds.now }
    ensures below { (k : ℕ) → k < result → slice_index_or thresholds.now k (pos 0) ≤ℤ value }
    ensures above { (k : ℕ) → result ≤ k → k < length thresholds.now → value <ℤ slice_index_or thresholds.now k (pos 0) }
{
    let mut low = 0;
    let mut high = thresholds.len();
    while low < high {
        let middle = low + (high - low) / 2;
        let item = thresholds[middle];
        if item <= value {
            low = middle + 1;
        } else {
            high = middle;
        }
    }
    low
}

/// The greatest threshold up to a number.
fn floor(thresholds: &[i128], value: i128) -> i128
    requires { IsLawful thresholds.now }
    ensures { result ≡ floor_of lowest thresholds.now value }
{
    let count = count_up_to(thresholds, value);
    if count == 0 {
        LOWEST
    } else {
        thresholds[count - 1]
    }
}

/// A threshold by its place, or the greatest number of a scalar past the last one.
fn at_or_highest(thresholds: &[i128], at: usize) -> i128
    ensures { result ≡ slice_index_or thresholds.now at highest }
{
    if at < thresholds.len() {
        thresholds[at]
    } else {
        HIGHEST
    }
}

/// The least threshold from a number on.
fn ceiling(thresholds: &[i128], value: i128) -> i128
    requires { IsLawful thresholds.now }
    ensures { result ≡ ceiling_of highest thresholds.now value }
{
    let count = count_up_to(thresholds, value);
    if count == 0 {
        return at_or_highest(thresholds, 0);
    }
    let item = thresholds[count - 1];
    if item == value {
        return at_or_highest(thresholds, count - 1);
    }
    at_or_highest(thresholds, count)
}

impl Thresholds {
    pub(crate) fn new(limit: u64, ends: Vec<i128>) -> Thresholds
        requires { IsLawful ends.items }
        ensures size { result.size ≡ limit }
        ensures ends { result.ends ≡ ends.items }
    {
        Thresholds { limit, ends }
    }

    /// How many constants a list has at most.
    pub fn limit(&self) -> u64
        ensures { result ≡ self.now.size }
    {
        self.limit
    }

    /// A copy. Err is want of memory.
    pub fn copy(&self) -> Result<Thresholds, OutOfMemory>
        ensures { IfOk result (λ t. t ≡ self.now) }
    {
        let ends = self.ends.clone()?;
        Ok(Thresholds {
            limit: self.limit,
            ends,
        })
    }

    /// The thresholds are those that the operators ask for.
    pub fn known(&self)
        ensures { IsLawful self.now.ends }
    {
        let _ends = &self.ends;
    }

    /// The least interval with ends in the thresholds that holds the given one.
    pub(crate) fn round(&self, range: Range) -> Range
        ensures { result ≡ rounded self.now.ends range }
    {
        let ends = self.ends.as_slice();
        Range {
            low: floor(ends, range.low),
            high: ceiling(ends, range.high),
        }
    }
}
