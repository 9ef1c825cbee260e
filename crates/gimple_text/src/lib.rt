//! The text of programs, read and printed.
#![tactic(auto)]

mod fault;
mod parser;
mod printer;

pub use fault::TextFault;
pub use gimple_tokens::{Cursor, Next, Spot, is_name, next_token, number_of};
pub use parser::{fault_excludes, one_fault, one_program, parse};
pub use printer::{canon_spells, dropping_keeps_texts, print, printed_is_read, spellable_has_text};

#[cfg(test)]
mod productions;
#[cfg(test)]
mod tests;
