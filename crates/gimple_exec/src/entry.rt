//! The registers of a call that begins.

ghost use Rattle.std.specs.Prelude.{◌≡◌, ◌++◌, [], IfOk, OnOk, slice_get, unwrap_or};
ghost use Rattle.gimple_core.specs.State.{zero_of};
ghost use Rattle.gimple_core.specs.Run.{values_made, registers_made};
ghost use Rattle.gimple_lowered.specs.Meaning.{source_values};

use crate::values;
use gimple_core::{Function, OutOfMemory, Register, Scalar, Value};
use gimple_lowered::Sources;

/// The value of an argument, in a frame of this serial, or zero or null where there is none.
fn argument<'t>(
    serial: u64,
    registers: &[Value<'t>],
    sources: &Sources<'t>,
    k: usize,
    scalar: Scalar,
) -> Value<'t>
    ensures { result ≡ unwrap_or (slice_get (source_values serial registers.now sources.now) k) (zero_of scalar) }
{
    match sources.get(k) {
        Some(source) => values::source(serial, registers, source),
        None => values::zero(scalar),
    }
}

/// Adds what formals hold at first: the arguments of a call.
fn add_formals<'t>(
    held: &mut Vec<Value<'t>>,
    formals: &[Register],
    serial: u64,
    registers: &[Value<'t>],
    sources: &Sources<'t>,
) -> Result<(), OutOfMemory>
    ensures { OnOk result (held.new.items ≡ held.old.items ++ values_made formals.now (source_values serial registers.now sources.now) 0) }
{
    for k in 0..formals.len() {
        let formal = &formals[k];
        let value = argument(serial, registers, sources, k, formal.scalar);
        held.push(value)?;
    }
    Ok(())
}

/// Adds what other registers hold at first.
fn add_others<'t>(held: &mut Vec<Value<'t>>, registers: &[Register]) -> Result<(), OutOfMemory>
    ensures { OnOk result (held.new.items ≡ held.old.items ++ values_made registers.now [] 0) }
{
    for k in 0..registers.len() {
        let register = &registers[k];
        held.push(values::zero(register.scalar))?;
    }
    Ok(())
}

/// What a function's registers hold at first, put into a row in place of what it held: the formals hold the arguments, in the
/// frame of this serial that calls.
pub fn registers<'t>(
    row: Vec<Value<'t>>,
    function: &Function,
    serial: u64,
    registers: &[Value<'t>],
    sources: &Sources<'t>,
) -> Result<Vec<Value<'t>>, OutOfMemory>
    ensures { IfOk result (λ held. held.items ≡ registers_made function.now (source_values serial registers.now sources.now)) }
{
    let mut held = row;
    held.clear();
    add_formals(
        &mut held,
        function.params.as_slice(),
        serial,
        registers,
        sources,
    )?;
    add_others(&mut held, function.registers.as_slice())?;
    Ok(held)
}
