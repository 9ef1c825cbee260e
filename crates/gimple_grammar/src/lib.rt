//! The grammar of programs: reading programs from tokens.
#![tactic(auto)]

mod bodies;
mod declarations;
mod endings;
mod signatures;
mod symbols;
mod values;
mod whole;

pub use whole::read;
