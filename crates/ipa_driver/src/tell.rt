//! The telling of a message.

ghost use Rattle.std.specs.Prelude.{◌≡◌, Some};
ghost use Rattle.ipa_driver.specs.Answers.{fault_status};
ghost use Rattle.ipa_driver.specs.Work.{MessageTold};

use crate::finish::{Fault, Finish};
use crate::message::message;
use crate::tool::Tool;
use gimple_core::Text;
use shelf::Shelf;
use std::alloc::Global;

/// Tells the message of a fault, or the line of status 5 where there is no memory for it.
pub fn tell<S: Shelf>(
    alloc: Global,
    tool: Tool,
    input: &[u8],
    words: &[Text],
    fault: Fault,
    shelf: &mut S,
) -> Finish
    ensures finish { result ≡ record { status = fault_status fault; fault = Some fault } }
    ensures told { MessageTold tool input.now words.now fault (S.meaning shelf.old) (S.meaning shelf.new) }
{
    match message(alloc, tool, input, words, &fault) {
        Ok(text) => shelf.tell(text.as_slice()),
        Err(_) => shelf.tell(tool.memory_line().as_bytes()),
    }
    Finish {
        status: fault.status(),
        fault: Some(fault),
    }
}
