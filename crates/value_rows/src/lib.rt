//! Results of the operators on abstract values that were worked out by hand, and the calls that make them.
#![tactic(auto)]

#[cfg(test)]
mod expectations;
#[cfg(test)]
mod intervals;
mod sample;
#[cfg(test)]
mod single_numbers;
mod values;

pub use sample::limits;
pub use values::{
    alone, between, both, compared, converted, is_below, joined, known_number, left, made, traps,
    whole,
};
