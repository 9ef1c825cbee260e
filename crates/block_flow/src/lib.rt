//! Analyses of one body: the equations over its blocks, their solution, and what it says of runs.
#![tactic(auto)]

mod analysis;
mod branch;
mod branching;
mod carrying;
mod flow;
mod halves;
mod solving;
mod unwritten;

pub use analysis::BodyAnalysis;
pub use branch::Branch;
pub use branching::{LabelledBlocks, branches_of, labels_of};
pub use carrying::{carry, leave, pass};
pub use flow::BlockFlow;
pub use halves::HalvesFlow;
pub use solving::{begins, value_at};
pub use unwritten::{Unwritten, unwritten_hold};
