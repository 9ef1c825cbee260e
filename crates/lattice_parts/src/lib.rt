//! Parts of lattices: ordered finite sets as ascending lists, and the laws that parts hand on to the whole.
#![tactic(auto)]

mod order;
mod sets;

pub use order::Order;
pub use sets::{has, is_within, place, place_of, unite};
