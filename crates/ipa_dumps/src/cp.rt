//! The dump of the values of formals.

ghost use Rattle.std.specs.Prelude.{◌≡◌, ◌+◌, ◌<◌, ◌^◌, ◌++◌, [], List, length, slice_index_or, IfOk, OnOk};
ghost use Rattle.std.specs.List.{All};
ghost use Rattle.value_domain.specs.declared.abs_val.AbsVal.{AbsVal};
ghost use Rattle.value_domain.specs.Values.{none_val};
ghost use Rattle.ipa_dumps.specs.CpTexts.{AreRows, formal_text, formals_from, rows_from, cp_text};

use crate::place::header;
use crate::value::push_value;
use gimple_core::{Checked, Function, OutOfMemory, Program, Register, Text};
use std::alloc::Global as Heap;
use value_domain::AbsVal;

/// What is known of formals, as their dump shows it.
pub trait CpView {
    /// What the view tells: for each function a row with a value for each formal.
    ghost rows: { Self → List (List AbsVal) };

    /// The value of a formal of a function, both by their numbers.
    fn formal(&self, function: u32, formal: u32) -> &AbsVal
        requires function { function < length (rows self.now) }
        requires formal { formal < length (slice_index_or (rows self.now) function []) }
        ensures { result.now ≡ slice_index_or (slice_index_or (rows self.now) function []) formal none_val };
}

#[tactic(auto, unfolding(crate::specs::CpTexts::formal_text))]
fn push_formal(
    text: &mut Text,
    program: &Program,
    function: &Function,
    formal: &Register,
    value: &AbsVal,
) -> Result<(), OutOfMemory>
    ensures { OnOk result (text.new ≡ text.old ++ formal_text program.now function.now formal.now value.now) }
{
    text.push_all("formal ".as_bytes())?;
    text.push_all(function.name.as_slice())?;
    text.push_all(" ".as_bytes())?;
    text.push_all(formal.name.as_slice())?;
    text.push_all(": ".as_bytes())?;
    push_value(text, program, formal.scalar, value)?;
    text.push_all("\n".as_bytes())
}

/// Puts the lines of a function's formals behind a text.
#[tactic(auto, unfolding(crate::specs::CpTexts::formals_from))]
fn push_formals<V: CpView>(
    text: &mut Text,
    program: &Program,
    view: &V,
    number: u32,
    function: &Function,
) -> Result<(), OutOfMemory>
    requires few { length function.now.params < 2 ^ 32 }
    requires number { number < length (V.rows view.now) }
    requires row { length (slice_index_or (V.rows view.now) number []) ≡ length function.now.params }
    ensures { OnOk result (text.new ≡ text.old ++ formals_from program.now function.now (slice_index_or (V.rows view.now) number []) 0 function.now.params) }
{
    for (place, formal) in function.params.as_slice().iter().enumerate() {
        push_formal(
            text,
            program,
            function,
            formal,
            view.formal(number, place as u32),
        )?;
    }
    Ok(())
}

/// Puts the lines of functions behind a text.
#[tactic(auto, unfolding(crate::specs::CpTexts::rows_from))]
fn push_rows<V: CpView>(
    text: &mut Text,
    program: &Program,
    view: &V,
    functions: &[Function],
) -> Result<(), OutOfMemory>
    requires few { length functions.now < 2 ^ 32 }
    requires formals { All (λ f. length f.params < 2 ^ 32) functions.now }
    requires rows { AreRows functions.now (V.rows view.now) }
    ensures { OnOk result (text.new ≡ text.old ++ rows_from program.now (V.rows view.now) 0 functions.now) }
{
    for (number, function) in functions.iter().enumerate() {
        push_formals(text, program, view, number as u32, function)?;
    }
    Ok(())
}

/// The dump of the values of formals: a header, and for each function and each of its formals a line with what is known of it
/// in every call, in file order. The answer is want of memory alone.
#[tactic(auto, unfolding(crate::specs::CpTexts::cp_text))]
pub fn dump_cp<V: CpView>(alloc: Heap, program: &Checked, view: &V) -> Result<Text, OutOfMemory>
    requires few { length program.now.program.functions < 2 ^ 32 }
    requires formals { All (λ f. length f.params < 2 ^ 32) program.now.program.functions }
    requires rows { AreRows program.now.program.functions (V.rows view.now) }
    ensures { IfOk result (λ text. text ≡ cp_text program.now.program (V.rows view.now)) }
{
    let mut text = header(alloc, "cp")?;
    let program = program.program();
    push_rows(&mut text, program, view, program.functions.as_slice())?;
    Ok(text)
}
