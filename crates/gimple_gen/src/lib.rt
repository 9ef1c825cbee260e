//! Large lawful programs, made by rule, to measure passes on.
#![tactic(auto)]

mod bodies;
mod generator;
mod parts;

pub use generator::generate;

#[cfg(test)]
mod tests;
