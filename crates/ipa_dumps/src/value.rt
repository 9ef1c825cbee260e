//! The texts of abstract values.

ghost use Rattle.std.specs.Prelude.{◌≡◌, ◌++◌, ◌%◌, false, IfOk, OnOk, slice_get};
ghost use Rattle.std.specs.Fmt.{digits, signed_decimal};
ghost use Rattle.std.specs.List.{flat_map};
ghost use Rattle.gimple_core.specs.Operators.{modulus_of};
ghost use Rattle.gimple_core.specs.Statements.{is_pointer};
ghost use Rattle.ipa_dumps.specs.ValueTexts.{global_name, offset_text, constant_text, next_constant, constants_text, vals_text, width_text, bits_text, range_text, number_text, parts_text, value_text};

use gimple_core::{Constant, OutOfMemory, Program, Scalar, Text, low};
use std::alloc::Global as Heap;
use value_domain::{AbsVal, Bits, Range, Vals};

fn push_integer(text: &mut Text, number: i128) -> Result<(), OutOfMemory>
    ensures { OnOk result (text.new ≡ text.old ++ signed_decimal number) }
{
    let digits = number.to_string(text.allocator())?;
    text.push_all(digits.as_bytes())
}

fn push_offset(text: &mut Text, offset: i64) -> Result<(), OutOfMemory>
    ensures { OnOk result (text.new ≡ text.old ++ offset_text offset) }
{
    if offset == 0 {
        return Ok(());
    }
    text.push_all("@".as_bytes())?;
    push_integer(text, i128::from(offset))
}

fn push_global(text: &mut Text, program: &Program, number: u32) -> Result<(), OutOfMemory>
    ensures { OnOk result (text.new ≡ text.old ++ global_name (slice_get program.now.globals number)) }
{
    match program.globals.get(number as usize) {
        Some(global) => text.push_all(global.decl.name.as_slice()),
        None => Ok(()),
    }
}

fn push_constant(text: &mut Text, program: &Program, constant: &Constant) -> Result<(), OutOfMemory>
    ensures { OnOk result (text.new ≡ text.old ++ constant_text program.now constant.now) }
{
    match constant {
        Constant::Int(number) => push_integer(text, *number),
        Constant::Null => text.push_all("null".as_bytes()),
        Constant::Global { number, offset } => {
            text.push_all("&".as_bytes())?;
            push_global(text, program, *number)?;
            push_offset(text, *offset)
        }
    }
}

fn push_more_constants(
    text: &mut Text,
    program: &Program,
    constants: &[Constant],
) -> Result<(), OutOfMemory>
    ensures { OnOk result (text.new ≡ text.old ++ flat_map (next_constant program.now) constants.now) }
{
    for constant in constants {
        text.push_all(", ".as_bytes())?;
        push_constant(text, program, constant)?;
    }
    Ok(())
}

fn push_constants(
    text: &mut Text,
    program: &Program,
    constants: &[Constant],
) -> Result<(), OutOfMemory>
    ensures { OnOk result (text.new ≡ text.old ++ constants_text program.now constants.now) }
{
    match constants {
        [first, rest @ ..] => {
            push_constant(text, program, first)?;
            push_more_constants(text, program, rest)
        }
        [] => Ok(()),
    }
}

fn push_vals(text: &mut Text, program: &Program, vals: &Vals) -> Result<(), OutOfMemory>
    ensures { OnOk result (text.new ≡ text.old ++ vals_text program.now vals.now) }
{
    match vals {
        Vals::Any => text.push_all("any".as_bytes()),
        Vals::Nothing => text.push_all("none".as_bytes()),
        Vals::Among {
            limit: _,
            constants,
        } => {
            text.push_all("{".as_bytes())?;
            push_constants(text, program, constants.as_slice())?;
            text.push_all("}".as_bytes())
        }
    }
}

/// Puts the bits of a number that a scalar has behind a text, in base 16.
fn push_width(text: &mut Text, scalar: Scalar, bits: u64) -> Result<(), OutOfMemory>
    ensures { OnOk result (text.new ≡ text.old ++ width_text scalar bits) }
{
    let bits = low(scalar, i128::from(bits));
    let digits = format!(in text.allocator(); "{bits:x}")?;
    text.push_all("0x".as_bytes())?;
    text.push_all(digits.as_bytes())
}

fn push_bits(text: &mut Text, scalar: Scalar, bits: Bits) -> Result<(), OutOfMemory>
    ensures { OnOk result (text.new ≡ text.old ++ bits_text scalar bits) }
{
    text.push_all("; bits ".as_bytes())?;
    push_width(text, scalar, bits.mask)?;
    text.push_all("=".as_bytes())?;
    push_width(text, scalar, bits.value)
}

fn push_range(text: &mut Text, range: Range) -> Result<(), OutOfMemory>
    ensures { OnOk result (text.new ≡ text.old ++ range_text range) }
{
    text.push_all("; range [".as_bytes())?;
    push_integer(text, range.low)?;
    text.push_all(", ".as_bytes())?;
    push_integer(text, range.high)?;
    text.push_all("]".as_bytes())
}

fn push_numbers(text: &mut Text, scalar: Scalar, value: &AbsVal) -> Result<(), OutOfMemory>
    ensures { OnOk result (text.new ≡ text.old ++ number_text scalar value.now) }
{
    if value.range.high < value.range.low {
        return text.push_all("; bits none; range none".as_bytes());
    }
    push_bits(text, scalar, value.bits)?;
    push_range(text, value.range)
}

fn push_parts(text: &mut Text, scalar: Scalar, value: &AbsVal) -> Result<(), OutOfMemory>
    ensures { OnOk result (text.new ≡ text.old ++ parts_text scalar value.now) }
{
    match scalar {
        Scalar::Ptr => Ok(()),
        _ => push_numbers(text, scalar, value),
    }
}

/// Puts the text of a value behind a text.
#[tactic(auto, unfolding(crate::specs::ValueTexts::value_text))]
pub fn push_value(
    text: &mut Text,
    program: &Program,
    scalar: Scalar,
    value: &AbsVal,
) -> Result<(), OutOfMemory>
    ensures { OnOk result (text.new ≡ text.old ++ value_text program.now scalar value.now) }
{
    text.push_all("values ".as_bytes())?;
    push_vals(text, program, &value.vals)?;
    push_parts(text, scalar, value)
}

/// What is known of a value of a scalar, as dumps have it: `any`, `none` or its constants in order, and of a number the known
/// bits, in base 16, and the interval. Globals have their names in the program. The answer is want of memory alone.
pub fn value_text(
    alloc: Heap,
    program: &Program,
    scalar: Scalar,
    value: &AbsVal,
) -> Result<Text, OutOfMemory>
    ensures { IfOk result (λ text. text ≡ value_text program.now scalar value.now) }
{
    let mut text = Text::new(alloc);
    push_value(&mut text, program, scalar, value)?;
    Ok(text)
}
