//! Values where known bits or intervals are off.

ghost use Rattle.std.specs.Prelude.{◌≡◌, IfOk};
ghost use Rattle.cp_lattices.specs.Trimmed.{without_bits, without_range, bits_by, trimmed};

use gimple_core::{Passes, Scalar};
use value_domain::{AbsVal, Bits, top};

fn without_bits(value: AbsVal) -> AbsVal
    ensures { result ≡ without_bits value }
{
    if value.range.high < value.range.low {
        return value;
    }
    let AbsVal {
        vals,
        bits: _,
        range,
    } = value;
    AbsVal {
        vals,
        bits: Bits { mask: 0, value: 0 },
        range,
    }
}

fn without_range(scalar: Scalar, value: AbsVal) -> AbsVal
    ensures { result ≡ without_range scalar value }
{
    if value.range.high < value.range.low {
        return value;
    }
    let AbsVal {
        vals,
        bits,
        range: _,
    } = value;
    AbsVal {
        vals,
        bits,
        range: top(scalar).range,
    }
}

fn bits_by(passes: &Passes, value: AbsVal) -> AbsVal
    ensures { result ≡ bits_by passes.now value }
{
    if passes.bit_cp {
        value
    } else {
        without_bits(value)
    }
}

/// A value without its known bits or its interval where these are off. Takes no memory.
#[tactic(auto, unfolding(crate::specs::Trimmed::trimmed))]
pub fn trimmed(passes: &Passes, scalar: Scalar, value: AbsVal) -> AbsVal
    ensures { result ≡ trimmed passes.now scalar value }
{
    let value = bits_by(passes, value);
    if passes.vrp {
        value
    } else {
        without_range(scalar, value)
    }
}
