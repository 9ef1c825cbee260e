//! Structs of a program, and how variables of their shapes lie in memory: sizes, the slot at a place or of a number, found without listing slots, and the layout of one variable.
#![tactic(auto)]

mod slots;
mod structs;

pub use structs::{Extent, Structs};
