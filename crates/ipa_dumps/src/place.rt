//! Parts of lines.

ghost use Rattle.std.specs.Prelude.{◌≡◌, ◌++◌, IfOk, OnOk, slice_get};
ghost use Rattle.std.specs.Fmt.{decimal};
ghost use Rattle.ipa_dumps.specs.Dumps.{header_text, name_at, label_in, label_text, place_text};

use gimple_core::{Blocks, OutOfMemory, Point, Program, Text};
use std::alloc::Global as Heap;

/// The line that a pass's dump begins with, which is the whole dump of a pass that is off.
#[tactic(auto, unfolding(crate::specs::Dumps::header_text))]
pub fn header(alloc: Heap, pass: &str) -> Result<Text, OutOfMemory>
    ensures { IfOk result (λ text. text ≡ header_text pass.now) }
{
    let mut text = Text::from_bytes(alloc, ";; pass ".as_bytes())?;
    text.push_all(pass.as_bytes())?;
    text.push_all("\n".as_bytes())?;
    Ok(text)
}

/// Puts a number behind a text.
pub fn push_number(text: &mut Text, number: u64) -> Result<(), OutOfMemory>
    ensures { OnOk result (text.new ≡ text.old ++ decimal number) }
{
    let digits = number.to_string(text.allocator())?;
    text.push_all(digits.as_bytes())
}

/// Puts a function's name behind a text.
pub fn push_name(text: &mut Text, program: &Program, function: u32) -> Result<(), OutOfMemory>
    ensures { OnOk result (text.new ≡ text.old ++ name_at program.now function) }
{
    match program.functions.get(function as usize) {
        Some(function) => text.push_all(function.name.as_slice()),
        None => Ok(()),
    }
}

fn push_block_label(text: &mut Text, blocks: &Blocks, block: u32) -> Result<(), OutOfMemory>
    ensures { OnOk result (text.new ≡ text.old ++ label_text (slice_get blocks.now block)) }
{
    match blocks.get(block as usize) {
        Some(block) => push_number(text, block.label),
        None => Ok(()),
    }
}

/// Puts a block's label behind a text.
fn push_label(text: &mut Text, program: &Program, point: &Point) -> Result<(), OutOfMemory>
    ensures { OnOk result (text.new ≡ text.old ++ label_in (slice_get program.now.functions point.now.function) point.now.block) }
{
    match program.functions.get(point.function as usize) {
        Some(function) => push_block_label(text, &function.blocks, point.block),
        None => Ok(()),
    }
}

/// Puts a place behind a text.
#[tactic(auto, unfolding(crate::specs::Dumps::place_text))]
pub fn push_place(text: &mut Text, program: &Program, point: &Point) -> Result<(), OutOfMemory>
    ensures { OnOk result (text.new ≡ text.old ++ place_text program.now point.now) }
{
    push_name(text, program, point.function)?;
    text.push_all(":".as_bytes())?;
    push_label(text, program, point)?;
    text.push_all(".".as_bytes())?;
    push_number(text, point.index as u64 + 1)
}

/// A place as dumps have it: the function's name, the block's label, and the number of the statement in its block,
/// from 1. The answer is want of memory alone.
pub fn place_text(alloc: Heap, program: &Program, point: Point) -> Result<Text, OutOfMemory>
    ensures { IfOk result (λ text. text ≡ place_text program.now point) }
{
    let mut text = Text::new(alloc);
    push_place(&mut text, program, &point)?;
    Ok(text)
}
