//! The tool as one call: from the words and a shelf to the status.
#![tactic(auto)]

mod fault_texts;
mod finish;
mod graph;
mod icf;
mod legs;
mod load;
mod message;
mod outputs;
mod passes;
mod propagation;
mod run_text;
mod run_top;
mod summary;
mod tables;
mod tell;
mod tool;
mod top;
mod verdict;

pub use finish::{Fault, Finish};
pub use gimple_core::Mode;
pub use gimple_text::{Spot, TextFault};
pub use legs::Leg;
pub use passes::{Asked, Product, pipeline};
pub use run_top::run_program;
pub use shelf::{Fail, Fetched, MemoryShelf, Shelf, Stored};
pub use summary::Counts;
pub use tables::Tables;
pub use top::optimise_alone;
pub use verdict::one_verdict;
pub use words::{
    Information, Name, Options, RunOptions, SourceName, UsageFault, asked_information,
    input_numbers, read_run_words, read_words,
};
