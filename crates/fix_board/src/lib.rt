//! Least solutions found by several threads over one board.
#![tactic(auto)]

mod board;
mod edges;
mod gate;
mod gated;
mod interleaving;
mod joining;
#[cfg(test)]
mod meeting;
mod name;
mod workers;

pub use board::Board;
pub use gate::{Gate, OpenGate};
pub use gated::{Found, Work, map_gated};
pub use interleaving::every_interleaving;
pub use name::System;
pub use workers::BoardSolver;
