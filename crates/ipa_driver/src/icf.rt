//! Identical code folding in the pipeline.

ghost use Rattle.std.specs.Prelude.{◌≡◌, ◌<◌, ◌^◌, length, slice_index_or, codes, IfOk};
ghost use Rattle.gimple_ir.specs.Counts.{IsCountable};
ghost use Rattle.gimple_core.specs.Accepted.{IsAccepted};
ghost use Rattle.icf_classes.specs.Congruence.{AreClasses};
ghost use Rattle.ipa_dumps.specs.Classes.{icf_text};
ghost use Rattle.ipa_driver.specs.Icf.{FoldsIdentical};
ghost use Rattle.ipa_driver.specs.Legs.{IsLeg, asked_text};
ghost use Rattle.ipa_driver.specs.Summary.{no_counts};

use crate::legs::{Leg, idle};
use crate::summary::{Counts, no_counts};
use gimple_core::{Checked, Numbers, OutOfMemory, Text};
use icf_classes::{classes, merge};
use ipa_dumps::{ClassView, dump_icf};
use std::alloc::Global;

/// The classes of a program's functions.
#[derive(Debug, Drop)]
struct Classes<'a> {
    numbers: &'a Numbers,
}

impl<'a> ClassView for Classes<'a> {
    ghost classes = { λ c. c.numbers.now };

    fn class_of(&self, function: u32) -> u32
        requires { function < length self.now.numbers.now }
        ensures { result ≡ slice_index_or self.now.numbers.now function function }
    {
        self.numbers.as_slice()[function as usize]
    }
}

/// The dump of a program's classes where it is asked for, else no text.
fn classes_text(
    alloc: Global,
    program: &Checked,
    numbers: &Numbers,
    asked: bool,
) -> Result<Text, OutOfMemory>
    requires few { length program.now.program.functions < 2 ^ 32 }
    requires accepted { IsAccepted program.now.program }
    requires classes { AreClasses program.now.program numbers.now }
    ensures { IfOk result (λ text. text ≡ asked_text asked (icf_text program.now.program numbers.now)) }
{
    if asked {
        dump_icf(alloc, program, &Classes { numbers })
    } else {
        Ok(Text::new(alloc))
    }
}

/// The counts where so many functions are left out.
fn merged_counts(merged: u64) -> Counts
    ensures { result ≡ record no_counts { merged = merged } }
{
    let mut counts = no_counts();
    counts.merged = merged;
    counts
}

/// The leg of a program whose identical functions are folded.
fn folded(alloc: Global, program: Checked, asked: bool) -> Result<Leg, OutOfMemory>
    requires { IsCountable program.program }
    ensures { IfOk result (FoldsIdentical program asked) }
{
    let numbers = classes(alloc, &program)?;
    let merged = merge(alloc, &program, &numbers)?;
    let text = classes_text(alloc, &program, &numbers, asked)?;
    let before = program.program().functions.len();
    let after = merged.program().functions.len();
    Ok(Leg {
        program: merged,
        text,
        counts: merged_counts(before.saturating_sub(after) as u64),
    })
}

/// The leg of identical code folding.
pub fn icf_leg(alloc: Global, on: bool, program: Checked, asked: bool) -> Result<Leg, OutOfMemory>
    requires { IsCountable program.program }
    ensures { IfOk result (IsLeg on (codes "icf") FoldsIdentical program asked) }
{
    if on {
        folded(alloc, program, asked)
    } else {
        idle(alloc, "icf", program, asked)
    }
}
