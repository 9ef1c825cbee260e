//! The words of `gimple-ipa` and `gimple-run`, and what they ask for.
#![tactic(auto)]

mod about;
mod gathered;
mod item;
mod keys;
mod numbers;
mod options;
mod prefix;
mod read;
mod read_item;
mod run_options;
mod run_words;

pub use about::{Information, asked_information};
pub use gimple_ir::{Mode, OutOfMemory, Params, Passes, Text};
pub use options::{Name, Options, SourceName, UsageFault};
pub use read::{name_bytes, read_words, usage_text};
pub use run_options::RunOptions;
pub use run_words::{input_numbers, read_run_words};
