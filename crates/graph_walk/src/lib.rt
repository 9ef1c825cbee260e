//! Walks along the edges of a graph, and its strong components.
#![tactic(auto)]

mod components;
mod search;
mod walk;

pub use components::firsts_of;
pub use walk::{all_false, reached_in};
