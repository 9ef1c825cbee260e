//! The values of all registers of a function.

ghost use Rattle.std.specs.Prelude.{◌≡◌, ◌<◌, length, slice_get, slice_set, OnOk, OnErr, IfOk};
ghost use Rattle.std.specs.Option.{option_copied};

use crate::shared::Shared;
use fix_engine::{Lattice, OutOfMemory, Rows};
use std::marker::Model;
use value_domain::AbsVal;

/// An abstract value that the points where it stays the same share.
pub(crate) type SharedVal = Shared<AbsVal>;

/// One abstract value a register, the formals first. A copy takes a pointer a register.
#[derive(Drop)]
pub struct ValueRow {
    values: Rows<SharedVal>,
}

impl Model for ValueRow {
    ghost use Rattle.std.specs.Prelude.{List};
    ghost use Rattle.value_domain.specs.declared.abs_val.AbsVal.{AbsVal};

    ghost Value = { List AbsVal };

    ghost view = { λ r. r.values };
}

impl ValueRow {
    /// The values in their order.
    pub(crate) fn new(values: Vec<SharedVal>) -> ValueRow
        ensures { result ≡ values.items }
    {
        ValueRow {
            values: Rows::new(values),
        }
    }

    /// How many registers there are.
    pub fn len(&self) -> usize
        ensures { result ≡ length self.now }
    {
        self.values.as_slice().len()
    }

    /// The value of the register of a number, with those who share it.
    pub(crate) fn shared(&self, place: usize) -> Option<&SharedVal>
        ensures { option_copied result ≡ slice_get self.now place }
    {
        self.values.as_slice().get(place)
    }

    /// The value of the register of a number.
    pub fn get(&self, place: usize) -> Option<&AbsVal>
        ensures { option_copied result ≡ slice_get self.now place }
    {
        match self.shared(place) {
            Some(value) => Some(value.get()),
            None => None,
        }
    }

    /// Gives the register of a number a value that others share.
    pub(crate) fn set(&mut self, place: usize, value: SharedVal)
        requires { place < length self.old }
        ensures { self.new ≡ slice_set self.old place value }
    {
        self.values.set(place, value);
    }
}

/// The kinds, the order and the bounds are those of rows.
impl Lattice for ValueRow {
    ghost use Rattle.fix_engine.specs.Rows.{FitsRows, rows_height, rows_rank, rows_below, rows_joined, rows_laws};
    ghost use Rattle.value_domain.specs.Values.{FitsAbsVal, abs_val_height, abs_val_rank, abs_val_below, abs_val_joined};
    ghost use Rattle.value_domain.specs.ValueLemmas.{abs_val_laws};

    ghost fits = { FitsRows FitsAbsVal };

    ghost height = { rows_height abs_val_height };

    ghost rank = { rows_rank abs_val_rank };

    ghost below = { rows_below abs_val_below };

    ghost joined = { rows_joined abs_val_joined };

    ghost laws = { rows_laws abs_val_laws };

    fn join(&mut self, other: &ValueRow) -> Result<(), OutOfMemory> {
        self.values.join(&other.values)
    }

    fn leq(&self, other: &ValueRow) -> bool {
        self.values.leq(&other.values)
    }

    fn copy(&self) -> Result<ValueRow, OutOfMemory> {
        Ok(ValueRow {
            values: self.values.copy()?,
        })
    }
}
