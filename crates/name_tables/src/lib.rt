//! Rows of names, labels, registers, globals, functions and locals, in which a long one is searched by hashing.
#![tactic(auto)]

mod labels;
mod named_functions;
mod named_globals;
mod named_locals;
mod names;
mod register_table;

pub use labels::Labels;
pub use named_functions::NamedFunctions;
pub use named_globals::NamedGlobals;
pub use named_locals::NamedLocals;
pub use names::Names;
pub use register_table::RegisterTable;
