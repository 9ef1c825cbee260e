//! The known constants of a function put into its body.
#![tactic(auto)]

mod blocks;
mod checks;
mod constants;
mod ends;
mod evaluation;
mod folder;
mod folding;
mod laws;
mod links;
mod operands;
mod places;
mod statements;

pub use folding::{fold, fold_in};
pub use laws::{folding_keeps_acceptance, folding_keeps_runs};
