//! What one pass gives to the next one, and to whoever asked.

ghost use Rattle.std.specs.Prelude.{IfOk, ◌≡◌};
ghost use Rattle.ipa_dumps.specs.Dumps.{header_text};
ghost use Rattle.ipa_driver.specs.Legs.{IsIdle, asked_text};

use crate::summary::{Counts, no_counts};
use gimple_core::{Checked, OutOfMemory, Text};
use ipa_dumps::header;
use std::alloc::Global;

/// The program that a pass makes, its dump, and how often it did what it does.
#[derive(Debug, Drop)]
pub struct Leg {
    pub program: Checked,
    pub text: Text,
    pub counts: Counts,
}

/// The leg of a pass that does nothing: the same program, the header alone where the dump is asked for, and no counts.
pub fn idle(alloc: Global, name: &str, program: Checked, asked: bool) -> Result<Leg, OutOfMemory>
    ensures { IfOk result (IsIdle name.now program asked) }
{
    let text = asked_header(alloc, name, asked)?;
    Ok(Leg {
        program,
        text,
        counts: no_counts(),
    })
}

/// The header of a pass's dump where it is asked for, else no text.
fn asked_header(alloc: Global, name: &str, asked: bool) -> Result<Text, OutOfMemory>
    ensures { IfOk result (λ text. text ≡ asked_text asked (header_text name.now)) }
{
    if asked {
        header(alloc, name)
    } else {
        Ok(Text::new(alloc))
    }
}
