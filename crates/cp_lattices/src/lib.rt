//! What is known of the formals of functions in every call: what one call gives to a formal, and the least values above all of it.
#![tactic(auto)]

mod caller;
mod carry;
mod formal_flow;
mod formals;
mod gathering;
mod gift;
mod giving;
mod laws;
mod numbering;
mod solving;
mod trim;

pub use carry::Maker;
pub use formals::{Lattices, LatticesOf, lattices, lattices_from};
pub use gift::Gift;
pub use laws::{given_values, lattices_hold};
