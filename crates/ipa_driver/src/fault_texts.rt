//! The parts of the messages of faulty programs. Structs, globals and functions count from 1 here.

ghost use Rattle.std.specs.Prelude.{◌≡◌, ◌++◌, OnOk};
ghost use Rattle.std.specs.Fmt.{decimal};
ghost use Rattle.ipa_driver.specs.Messages.{site_text, spot_text, type_text, later_type_text, last_type_text};

use gimple_core::{OutOfMemory, Site, Text};
use gimple_text::Spot;

/// Puts a number behind a text.
pub fn push_number(text: &mut Text, number: u64) -> Result<(), OutOfMemory>
    ensures { OnOk result (text.new ≡ text.old ++ decimal number) }
{
    let alloc = text.allocator();
    let digits = format!(in alloc; "{number}")?;
    text.push_all(digits.as_bytes())
}

/// Puts a spot behind a name.
pub fn push_spot(text: &mut Text, spot: &Spot) -> Result<(), OutOfMemory>
    ensures { OnOk result (text.new ≡ text.old ++ spot_text spot.now) }
{
    text.push_all(":".as_bytes())?;
    push_number(text, spot.line)?;
    text.push_all(":".as_bytes())?;
    push_number(text, spot.column)
}

/// Puts a type fault's site behind a text.
pub fn push_site(text: &mut Text, site: &Site) -> Result<(), OutOfMemory>
    ensures { OnOk result (text.new ≡ text.old ++ site_text site.now) }
{
    match site {
        Site::Whole => text.push_all("program".as_bytes()),
        Site::Struct(number) => {
            text.push_all("struct ".as_bytes())?;
            push_number(text, *number as u64 + 1)
        }
        Site::Global(number) => {
            text.push_all("global ".as_bytes())?;
            push_number(text, *number as u64 + 1)
        }
        Site::Statement { function, number } => {
            text.push_all("function ".as_bytes())?;
            push_number(text, *function as u64 + 1)?;
            text.push_all(" statement ".as_bytes())?;
            push_number(text, *number as u64)
        }
    }
}

/// A type fault's code and text.
#[tactic(auto, unfolding(crate::specs::Messages::type_text))]
pub fn type_text(code: u8) -> &'static str
    ensures { result.now ≡ type_text code }
{
    match code {
        1 => "T01 unknown name",
        2 => "T02 name twice",
        3 => "T03 no main or wrong main",
        4 => "T04 operand type",
        5 => "T05 argument count",
        6 => "T06 argument type",
        _ => later_type_text(code),
    }
}

#[tactic(auto, unfolding(crate::specs::Messages::later_type_text))]
fn later_type_text(code: u8) -> &'static str
    ensures { result.now ≡ later_type_text code }
{
    match code {
        7 => "T07 result use",
        8 => "T08 block label unknown",
        9 => "T09 label twice",
        10 => "T10 no blocks",
        11 => "T11 no slot",
        12 => "T12 size",
        _ => last_type_text(code),
    }
}

#[tactic(auto, unfolding(crate::specs::Messages::last_type_text))]
fn last_type_text(code: u8) -> &'static str
    ensures { result.now ≡ last_type_text code }
{
    match code {
        13 => "T13 literal range",
        14 => "T14 store to read-only",
        15 => "T15 struct order",
        16 => "T16 return type",
        _ => "T17 switch case twice",
    }
}
