//! The outside of the tool: where sources come from, and where stores and messages go.
#![tactic(auto)]

mod log;
mod memory;
mod outside;

pub use gimple_ir::{OutOfMemory, Text};
pub use memory::{Fail, MemoryShelf};
pub use outside::{Fetched, Shelf, Stored};

#[cfg(test)]
mod tests;
