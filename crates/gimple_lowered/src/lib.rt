//! Functions with positions in place of names, made once for a run.
#![tactic(auto)]

mod instructions;
mod numbers;
mod pieces;
mod scope;
mod sources;
mod types;
mod written;

pub use numbers::{lies_in, move_by, number_of_value, offset};
pub use pieces::code_of;
pub use sources::global_address;
pub use types::{Choice, Code, Ending, Instruction, Piece, Pointer, Source, Sources};
pub use written::Written;
