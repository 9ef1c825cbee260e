//! The registers of a function, and their values at its entry.

ghost use Rattle.std.specs.Prelude.{◌≡◌, ◌++◌, map, IfOk, OnOk};
ghost use Rattle.std.specs.List.{list_any};
ghost use Rattle.value_domain.specs.Values.{is_none_val};
ghost use Rattle.body_values.specs.Flow.{zero_constant, zero_value, entry_row};

use crate::block_values::PointRow;
use crate::scene::pointer;
use crate::shared::Shared;
use crate::value_row::{SharedVal, ValueRow};
use fix_engine::{Lattice, Lifted};
use gimple_core::{Constant, Exact, Function, OutOfMemory, Register};
use name_tables::RegisterTable;
use std::alloc::Global;
use value_domain::{AbsVal, Thresholds, exactly};

fn is_none(value: &AbsVal) -> bool
    ensures { result ≡ is_none_val value.now }
{
    value.range.high < value.range.low
}

fn any_none(values: &[AbsVal]) -> bool
    ensures { result ≡ list_any is_none_val values.now }
{
    values.iter().any(|value| is_none(value))
}

/// The value of zero or null.
fn zero(alloc: Global, register: &Register, limits: &Thresholds) -> Result<AbsVal, OutOfMemory>
    ensures { IfOk result (λ v. v ≡ zero_value limits.now.size limits.now.ends register.now) }
{
    if pointer(register.scalar) {
        return exactly(alloc, register.scalar, Constant::Null, limits);
    }
    exactly(alloc, register.scalar, Constant::Int(0), limits)
}

fn copies(alloc: Global, values: &[AbsVal]) -> Result<Vec<SharedVal>, OutOfMemory>
    ensures { IfOk result (λ v. v.items ≡ values.now) }
{
    let mut row = Vec::new(alloc);
    for at in 0..values.len() {
        let value = values[at].copy()?;
        row.push(Shared::new(alloc, value)?)?;
    }
    Ok(row)
}

fn put_zeros(
    alloc: Global,
    registers: &[Register],
    limits: &Thresholds,
    row: &mut Vec<SharedVal>,
) -> Result<(), OutOfMemory>
    ensures { OnOk result (row.new.items ≡ row.old.items ++ map (zero_value limits.now.size limits.now.ends) registers.now) }
{
    for at in 0..registers.len() {
        let value = zero(alloc, &registers[at], limits)?;
        row.push(Shared::new(alloc, value)?)?;
    }
    Ok(())
}

/// The values of registers at the entry of a function: the facts of formals, and zero or null of registers. Where a fact
/// is none, the entry is not reached.
pub fn entry_row(
    alloc: Global,
    function: &Function,
    formals: &[AbsVal],
    limits: &Thresholds,
) -> Result<PointRow, OutOfMemory>
    ensures { IfOk result (λ x. x ≡ entry_row function.now formals.now limits.now.size limits.now.ends) }
{
    if any_none(formals) {
        return Ok(Lifted::NotReached);
    }
    let mut row = copies(alloc, formals)?;
    put_zeros(alloc, function.registers.as_slice(), limits, &mut row)?;
    Ok(Lifted::Reached(ValueRow::new(row)))
}

fn put_copies(registers: &[Register], table: &mut RegisterTable) -> Result<(), OutOfMemory>
    ensures { OnOk result (table.new ≡ table.old ++ registers.now) }
{
    for at in 0..registers.len() {
        table.push(registers[at].copy()?)?;
    }
    Ok(())
}

/// The registers of a function, the formals first.
pub fn registers_of(alloc: Global, function: &Function) -> Result<RegisterTable, OutOfMemory>
    ensures { IfOk result (λ rs. rs ≡ function.now.params ++ function.now.registers) }
{
    let mut table = RegisterTable::new(alloc);
    put_copies(function.params.as_slice(), &mut table)?;
    put_copies(function.registers.as_slice(), &mut table)?;
    Ok(table)
}
