//! Which programs have no type fault.
#![tactic(auto)]

mod counts;
mod declare;
mod env;
mod globals;
mod names;
mod program;
mod refusal;
mod scalars;
mod statements;
mod structs;

pub use counts::is_countable;
pub use gimple_core::{Site, TypeFault};
pub use program::accept;
pub use refusal::Refusal;
