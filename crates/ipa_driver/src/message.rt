//! The one message of a run that fails.

ghost use Rattle.std.specs.Prelude.{◌≡◌, ◌++◌, IfOk, codes};
ghost use Rattle.std.specs.Fmt.{decimal};
ghost use Rattle.words.specs.Words.{usage_text};
ghost use Rattle.ipa_driver.specs.Messages.{message_of, tool_name, text_message, spot_text, site_text, type_text};

use crate::fault_texts::{push_number, push_site, push_spot, type_text};
use crate::finish::Fault;
use crate::tool::Tool;
use gimple_core::{OutOfMemory, Text, TypeFault};
use gimple_text::{Spot, TextFault};
use std::alloc::Global;
use words::{UsageFault, name_bytes, usage_text};

/// A name, and then a text.
fn about(alloc: Global, name: &[u8], rest: &str) -> Result<Text, OutOfMemory>
    ensures { IfOk result (λ text. text ≡ name.now ++ rest.now) }
{
    let mut text = Text::from_bytes(alloc, name)?;
    text.push_all(rest.as_bytes())?;
    Ok(text)
}

fn usage_message(alloc: Global, tool: Tool, fault: &UsageFault) -> Result<Text, OutOfMemory>
    ensures { IfOk result (λ text. text ≡ tool_name tool ++ codes ": word " ++ decimal fault.now.word ++ codes ": error: " ++ usage_text fault.now.code ++ codes "\n") }
{
    let mut text = Text::from_bytes(alloc, tool.name().as_bytes())?;
    text.push_all(": word ".as_bytes())?;
    push_number(&mut text, fault.word as u64)?;
    text.push_all(": error: ".as_bytes())?;
    text.push_all(usage_text(fault.code).as_bytes())?;
    text.push_all("\n".as_bytes())?;
    Ok(text)
}

fn spot_message(alloc: Global, input: &[u8], spot: &Spot, rest: &str) -> Result<Text, OutOfMemory>
    ensures { IfOk result (λ text. text ≡ input.now ++ spot_text spot.now ++ rest.now) }
{
    let mut text = Text::from_bytes(alloc, input)?;
    push_spot(&mut text, spot)?;
    text.push_all(rest.as_bytes())?;
    Ok(text)
}

fn type_message(alloc: Global, input: &[u8], fault: &TypeFault) -> Result<Text, OutOfMemory>
    ensures { IfOk result (λ text. text ≡ input.now ++ codes ": " ++ site_text fault.now.site ++ codes ": error: " ++ type_text fault.now.code ++ codes "\n") }
{
    let mut text = Text::from_bytes(alloc, input)?;
    text.push_all(": ".as_bytes())?;
    push_site(&mut text, &fault.site)?;
    text.push_all(": error: ".as_bytes())?;
    text.push_all(type_text(fault.code).as_bytes())?;
    text.push_all("\n".as_bytes())?;
    Ok(text)
}

fn text_message(
    alloc: Global,
    tool: Tool,
    input: &[u8],
    fault: &TextFault,
) -> Result<Text, OutOfMemory>
    ensures { IfOk result (λ text. text ≡ text_message tool input.now fault.now) }
{
    match fault {
        TextFault::BadByte(spot) => spot_message(alloc, input, spot, ": error: bad byte\n"),
        TextFault::BadToken(spot) => spot_message(alloc, input, spot, ": error: bad token\n"),
        TextFault::EarlyEnd(spot) => spot_message(alloc, input, spot, ": error: early end\n"),
        TextFault::Memory(_) => about(alloc, b"", tool.memory_line()),
    }
}

/// The message of a fault, by the tool and the input's name.
pub fn message(
    alloc: Global,
    tool: Tool,
    input: &[u8],
    words: &[Text],
    fault: &Fault,
) -> Result<Text, OutOfMemory>
    ensures { IfOk result (λ text. text ≡ message_of tool input.now words.now fault.now) }
{
    match fault {
        Fault::Usage(fault) => usage_message(alloc, tool, fault),
        Fault::Read => about(alloc, input, ": error: cannot read\n"),
        Fault::Long => about(alloc, input, ": error: too long\n"),
        Fault::Text(fault) => text_message(alloc, tool, input, fault),
        Fault::Types(fault) => type_message(alloc, input, fault),
        Fault::Write(name) => about(alloc, name_bytes(words, name), ": error: cannot write\n"),
        Fault::Memory => about(alloc, b"", tool.memory_line()),
    }
}
