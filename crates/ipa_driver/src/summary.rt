//! The summary of a run.

ghost use Rattle.std.specs.Prelude.{◌≡◌, ◌<◌, ◌^◌, ◌++◌, IfOk, OnOk};
ghost use Rattle.gimple_ir.specs.Size.{size_of_program};
ghost use Rattle.ipa_driver.specs.Legs.{asked_text};
ghost use Rattle.ipa_driver.specs.Summary.{measure_of, all_counts, no_counts, measure_line, count_text, first_counts, middle_counts, last_counts, counts_line, summary_text};

use crate::fault_texts::push_number;
use gimple_core::{OutOfMemory, Program, Text, size_of_program};
use std::alloc::Global;

/// How large a program is: its functions, and its statements with block ends.
#[derive(Clone, Copy, Debug, PartialEq, Eq)]
pub struct Measure {
    pub functions: u64,
    pub size: u64,
}

/// How often the passes did what they do.
#[derive(Clone, Copy, Debug, PartialEq, Eq)]
pub struct Counts {
    pub clones: u64,
    pub merged: u64,
    pub formals: u64,
    pub results: u64,
    pub splits: u64,
    pub reused: u64,
    pub removed: u64,
}

/// The counts where no pass did anything.
pub fn no_counts() -> Counts
    ensures { result ≡ no_counts }
{
    Counts {
        clones: 0,
        merged: 0,
        formals: 0,
        results: 0,
        splits: 0,
        reused: 0,
        removed: 0,
    }
}

/// What all passes did; each counts its own.
pub fn all_counts(icf: &Counts, cp: &Counts, sra: &Counts, modref: &Counts) -> Counts
    ensures { result ≡ all_counts icf.now cp.now sra.now modref.now }
{
    Counts {
        clones: cp.clones,
        merged: icf.merged,
        formals: sra.formals,
        results: sra.results,
        splits: sra.splits,
        reused: modref.reused,
        removed: modref.removed,
    }
}

/// How large a program is.
pub fn measure_of(program: &Program) -> Measure
    requires { size_of_program program.now < 2 ^ 32 }
    ensures { result ≡ measure_of program.now }
{
    Measure {
        functions: program.functions.len() as u64,
        size: size_of_program(program),
    }
}

#[tactic(auto, unfolding(crate::specs::Summary::measure_line))]
fn push_measure(text: &mut Text, what: &str, measure: &Measure) -> Result<(), OutOfMemory>
    ensures { OnOk result (text.new ≡ text.old ++ measure_line what.now measure.now) }
{
    push_count(text, what, measure.functions)?;
    push_count(text, " size ", measure.size)?;
    text.push_all("\n".as_bytes())
}

#[tactic(auto, unfolding(crate::specs::Summary::count_text))]
fn push_count(text: &mut Text, what: &str, count: u64) -> Result<(), OutOfMemory>
    ensures { OnOk result (text.new ≡ text.old ++ count_text what.now count) }
{
    text.push_all(what.as_bytes())?;
    push_number(text, count)
}

#[tactic(auto, unfolding(crate::specs::Summary::first_counts))]
fn push_first_counts(text: &mut Text, counts: &Counts) -> Result<(), OutOfMemory>
    ensures { OnOk result (text.new ≡ text.old ++ first_counts counts.now) }
{
    push_count(text, "clones ", counts.clones)?;
    push_count(text, " merged ", counts.merged)
}

#[tactic(auto, unfolding(crate::specs::Summary::middle_counts))]
fn push_middle_counts(text: &mut Text, counts: &Counts) -> Result<(), OutOfMemory>
    ensures { OnOk result (text.new ≡ text.old ++ middle_counts counts.now) }
{
    push_count(text, " formals ", counts.formals)?;
    push_count(text, " results ", counts.results)?;
    push_count(text, " splits ", counts.splits)
}

#[tactic(auto, unfolding(crate::specs::Summary::last_counts))]
fn push_last_counts(text: &mut Text, counts: &Counts) -> Result<(), OutOfMemory>
    ensures { OnOk result (text.new ≡ text.old ++ last_counts counts.now) }
{
    push_count(text, " reused ", counts.reused)?;
    push_count(text, " removed ", counts.removed)?;
    text.push_all("\n".as_bytes())
}

#[tactic(auto, unfolding(crate::specs::Summary::counts_line))]
fn push_counts(text: &mut Text, counts: &Counts) -> Result<(), OutOfMemory>
    ensures { OnOk result (text.new ≡ text.old ++ counts_line counts.now) }
{
    push_first_counts(text, counts)?;
    push_middle_counts(text, counts)?;
    push_last_counts(text, counts)
}

/// The summary: a line for the source, one for the output, and one of counts.
pub fn summary_of(
    alloc: Global,
    source: &Measure,
    output: &Measure,
    counts: &Counts,
) -> Result<Text, OutOfMemory>
    ensures { IfOk result (λ text. text ≡ summary_text source.now output.now counts.now) }
{
    let mut text = Text::new(alloc);
    push_measure(&mut text, "source: functions ", source)?;
    push_measure(&mut text, "output: functions ", output)?;
    push_counts(&mut text, counts)?;
    Ok(text)
}

/// The summary where it is asked for, else no text.
pub fn asked_summary(
    alloc: Global,
    asked: bool,
    source: &Measure,
    output: &Measure,
    counts: &Counts,
) -> Result<Text, OutOfMemory>
    ensures { IfOk result (λ text. text ≡ asked_text asked (summary_text source.now output.now counts.now)) }
{
    if asked {
        summary_of(alloc, source, output, counts)
    } else {
        Ok(Text::new(alloc))
    }
}
