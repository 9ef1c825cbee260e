//! Intervals.

ghost use Rattle.std.specs.Prelude.{◌≡◌, Option};
ghost use Rattle.value_domain.specs.Ranges.{hull, meet_range, range_below, is_bare};

/// The numbers from `low` to `high`.
#[derive(Clone, Copy, Debug, PartialEq, Eq)]
pub struct Range {
    pub low: i128,
    pub high: i128,
}

impl Range {
    /// The least interval that holds both. Takes no memory.
    pub fn join(self, other: Range) -> Range
        ensures { result ≡ hull self other }
    {
        Range {
            low: self.low.min(other.low),
            high: self.high.max(other.high),
        }
    }

    /// The numbers of both; None exactly where there are none. Takes no memory.
    pub fn meet(self, other: Range) -> Option<Range>
        ensures { result ≡ meet_range self other }
    {
        let low = self.low.max(other.low);
        let high = self.high.min(other.high);
        if low <= high {
            Some(Range { low, high })
        } else {
            None
        }
    }

    pub(crate) fn leq(self, other: Range) -> bool
        ensures { result ≡ range_below self other }
    {
        other.low <= self.low && self.high <= other.high
    }

    pub(crate) fn is_empty(self) -> bool
        ensures { result ≡ is_bare self }
    {
        self.high < self.low
    }
}
