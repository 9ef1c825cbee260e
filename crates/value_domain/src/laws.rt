//! What holds of the operators, as laws.

ghost use Rattle.value_domain.specs.Laws.{OpHolds, OpFits, OpRises, CmpHolds, CmpFits, CmpRises, ConvertHolds, ConvertFits, ConvertRises, AboveHolds, JoinHolds, MeetHolds, MeetFits, MeetRises, RefineHolds, RefineFits, RefineRises, KnownHolds, NoTrap, TopHolds, TopFits, AloneHolds, AloneFits, KindLimit, KindThresholds, BroughtHolds, BroughtFits, BroughtRises, BroughtSame};

use crate::abs_val::AbsVal;
use crate::bits::Bits;
use crate::range::Range;
use crate::thresholds::Thresholds;
use crate::vals::Vals;

/// The result of an operator that does not trap is in the abstract result.
pub fn operators_hold()
    ensures arithmetic { OpHolds }
    ensures comparison { CmpHolds }
    ensures conversion { ConvertHolds }
{}

/// The abstract result rises with each side.
pub fn operators_rise()
    ensures arithmetic { OpRises }
    ensures comparison { CmpRises }
    ensures conversion { ConvertRises }
{}

/// The abstract result fits the kind of the sides, and is of the scalar.
pub fn operators_fit()
    ensures arithmetic { OpFits }
    ensures comparison { CmpFits }
    ensures conversion { ConvertFits }
{}

/// What holds a value, all above it holds too, so a join holds what either side holds.
pub fn higher_values_hold()
    ensures above { AboveHolds }
    ensures join { JoinHolds }
{}

/// A meet holds each value that both hold, and a taken comparison leaves the side's value.
pub fn taken_comparisons_hold()
    ensures meet { MeetHolds }
    ensures comparison { RefineHolds }
{}

/// Meets and what a taken comparison leaves fit the kind, and are of the scalar.
pub fn taken_comparisons_fit()
    ensures meet { MeetFits }
    ensures comparison { RefineFits }
{}

/// Meets and what a taken comparison leaves rise with their sides.
pub fn taken_comparisons_rise()
    ensures meet { MeetRises }
    ensures comparison { RefineRises }
{}

/// A known constant is the value.
pub fn known_constants_hold()
    ensures { KnownHolds }
{}

/// Where no trap is left open, an operator does not trap.
pub fn closed_traps()
    ensures { NoTrap }
{}

/// What is brought into a scalar holds each value of the scalar that was held, is of the scalar and rises with the value, and a
/// value of the scalar stays as it is.
pub fn brought_values()
    ensures holds { BroughtHolds }
    ensures fits { BroughtFits }
    ensures rises { BroughtRises }
    ensures same { BroughtSame }
{}

/// The top of a scalar holds each value of it, fits and is of it.
pub fn top_holds_all()
    ensures holds { TopHolds }
    ensures fits { TopFits }
{}

/// What holds a constant of a scalar holds its value, fits and is of the scalar.
pub fn alone_values()
    ensures holds { AloneHolds }
    ensures fits { AloneFits }
{}

/// A kind gives back the limit and the thresholds that it was made of.
pub fn kinds_give_back()
    ensures limit { KindLimit }
    ensures thresholds { KindThresholds }
{}

fn crosses<T: Send + Sync>(_value: &T) {}

/// Abstract values, their parts and thresholds may be given to another thread, and read by several at once.
pub fn values_cross(value: &AbsVal, vals: &Vals, bits: &Bits, range: &Range, limits: &Thresholds) {
    crosses(value);
    crosses(vals);
    crosses(bits);
    crosses(range);
    crosses(limits);
}
