//! What a run of a program stores.

ghost use Rattle.std.specs.Prelude.{◌≡◌, ◌++◌, codes, IfOk};
ghost use Rattle.gimple_ir.specs.Counts.{IsCountable};
ghost use Rattle.ipa_driver.specs.RunAnswers.{kind_text, outcome_text, IsRunOutput};

use crate::outputs::Output;
use gimple_core::{Checked, OutOfMemory, Outcome, Text, TrapKind};
use gimple_exec::run;
use std::alloc::Global;
use words::{Name, RunOptions, input_numbers};

/// The one output of a run: what the program prints on the input numbers of the words, and what it comes to.
pub fn run_outputs(
    alloc: Global,
    words: &[Text],
    options: &RunOptions,
    program: &Checked,
) -> Result<Vec<Output>, OutOfMemory>
    requires countable { IsCountable program.now.program }
    requires mode { program.now.mode ≡ options.now.mode }
    ensures { IfOk result (λ outputs. IsRunOutput words.now options.now program.now.program outputs.items) }
{
    let numbers = input_numbers(alloc, words, options.first)?;
    let outcome = run(alloc, program, numbers.as_slice(), options.turns)?;
    let text = outcome_text(alloc, &outcome)?;
    let mut outputs = Vec::new(alloc);
    outputs.push(Output {
        name: Name::Standard,
        text,
    })?;
    Ok(outputs)
}

/// What a program printed, and the last line.
fn outcome_text(alloc: Global, outcome: &Outcome) -> Result<Text, OutOfMemory>
    ensures { IfOk result (λ text. text ≡ outcome_text outcome.now) }
{
    match outcome {
        Outcome::Going(output) => with_line(alloc, output, "going", b""),
        Outcome::Ended(output, status) => {
            let digits = i64::from(*status).to_string(alloc)?;
            with_line(alloc, output, "ended ", digits.as_bytes())
        }
        Outcome::Trapped(output, kind) => {
            with_line(alloc, output, "trapped ", kind_text(*kind).as_bytes())
        }
    }
}

/// A text with a last line.
fn with_line(alloc: Global, output: &Text, line: &str, rest: &[u8]) -> Result<Text, OutOfMemory>
    ensures { IfOk result (λ text. text ≡ output.now ++ line.now ++ rest.now ++ codes "\n") }
{
    let mut text = Text::from_bytes(alloc, output.as_slice())?;
    text.push_all(line.as_bytes())?;
    text.push_all(rest)?;
    text.push_all("\n".as_bytes())?;
    Ok(text)
}

/// A trap's name.
fn kind_text(kind: TrapKind) -> &'static str
    ensures { result.now ≡ kind_text kind }
{
    match kind {
        TrapKind::Overflow => "Overflow",
        TrapKind::Divide => "Divide",
        TrapKind::Shift => "Shift",
        TrapKind::NullAccess => "NullAccess",
        TrapKind::Dangling => "Dangling",
        TrapKind::Bounds => "Bounds",
        TrapKind::BadSlot => "BadSlot",
        TrapKind::ReadOnly => "ReadOnly",
        TrapKind::Abort => "Abort",
        TrapKind::BadCall => "BadCall",
    }
}
