//! Abstract values.

ghost use Rattle.std.specs.Prelude.{◌≡◌, OnOk, OnErr, IfOk};
ghost use Rattle.value_domain.specs.Values.{FitsAbsVal, abs_val_height, abs_val_rank, abs_val_below, abs_val_joined};

use crate::bits::Bits;
use crate::range::Range;
use crate::vals::Vals;
use fix_engine::{Lattice, OutOfMemory};

/// What is known of a value of a scalar: it is in each of the three parts. None, which holds no value, has the interval
/// from 1 to 0, no constants and no known bits. Of a pointer only the constants say something.
#[derive(Debug, Drop)]
pub struct AbsVal {
    pub vals: Vals,
    pub bits: Bits,
    pub range: Range,
}

impl Lattice for AbsVal {
    ghost use Rattle.value_domain.specs.ValueLemmas.{abs_val_laws};

    ghost fits = { FitsAbsVal };

    ghost height = { abs_val_height };

    ghost rank = { abs_val_rank };

    ghost below = { abs_val_below };

    ghost joined = { abs_val_joined };

    ghost laws = { abs_val_laws };

    fn join(&mut self, other: &AbsVal) -> Result<(), OutOfMemory> {
        if self.range.is_empty() {
            *self = other.copy()?;
            return Ok(());
        }
        if other.range.is_empty() {
            return Ok(());
        }
        let vals = self.vals.joined(&other.vals)?;
        let bits = self.bits.join(other.bits);
        let range = self.range.join(other.range);
        *self = AbsVal { vals, bits, range };
        Ok(())
    }

    fn leq(&self, other: &AbsVal) -> bool {
        if self.range.is_empty() {
            return true;
        }
        if other.range.is_empty() {
            return false;
        }
        self.vals.leq(&other.vals) && (self.bits.leq(other.bits) && self.range.leq(other.range))
    }

    fn copy(&self) -> Result<AbsVal, OutOfMemory> {
        let vals = self.vals.copy()?;
        Ok(AbsVal {
            vals,
            bits: self.bits,
            range: self.range,
        })
    }
}
