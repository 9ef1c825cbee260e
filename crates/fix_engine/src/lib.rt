//! Least solutions of systems of equations over lattices of finite height.
#![tactic(auto)]

mod assignment;
mod flow;
mod lattice;
mod lifted;
mod mark_tree;
mod order;
mod outgoing;
mod pair;
#[cfg(test)]
mod ring;
mod rows;
mod solver;
mod steps;
mod truth;
mod waiting;

pub use assignment::Assignment;
pub use flow::Flow;
pub use lattice::{Lattice, OutOfMemory, height_bounds_chains};
pub use lifted::Lifted;
pub use mark_tree::MarkTree;
pub use order::{OrderSolver, outgoing_of, solve_in_order};
pub use outgoing::Outgoing;
pub use pair::Pair;
pub use rows::Rows;
pub use solver::{RoundSolver, Solver, starts};
pub use steps::Steps;
