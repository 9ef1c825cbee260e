//! The coarsest classes of items that refine given ones and agree row by row, and numbers for rows that are equal.
#![tactic(auto)]

mod buckets;
mod callers;
mod groups;
mod interner;
mod keys;
mod naming;
mod partition;
mod refining;
mod splitting;
mod touched;

pub use interner::Interner;
pub use refining::refine;
