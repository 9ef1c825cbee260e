//! Identical code folding: what the classes of functions are that do the same by their form, and programs in which each class
//! is one.
#![tactic(auto)]

mod callees;
mod coding;
mod forms;
mod largest;
mod merger;
mod merging;
mod placer;
mod row;

pub use gimple_core::Numbers;
pub use largest::classes;
pub use merging::{merge, merging_keeps_runs};
