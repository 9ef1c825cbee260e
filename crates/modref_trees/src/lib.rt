//! Which places of memory a function reads and writes, with all that it calls.
#![tactic(auto)]

mod laws;
mod trees;

pub use laws::{covers_hold, everything_holds, modref_trees_cross};
pub use trees::{Access, Accesses, Summaries, Summary, Tree, TreeBase, covers, everything};
