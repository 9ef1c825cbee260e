//! What constant propagation makes of a program: each function folded by what is known of its formals.
#![tactic(auto)]

mod making;
mod plan;

pub use making::materialise;
pub use plan::{Context, Contexts, Plan};
