//! The call graph of a program: its edges, which functions are addressed and reached, programs without the rest, and the strong components.
#![tactic(auto)]

mod addresses;
mod calls;
mod firsts;
mod mentions;
mod names;
mod order;
mod queue;
mod reach;
mod rows;
#[cfg(test)]
mod tests;

pub use addresses::addressed;
pub use calls::edges;
pub use gimple_core::{Edge, Edges, Marks, Numbers};
pub use order::{Order, components, order_is_one};
pub use reach::{drop_unreached, reached};
