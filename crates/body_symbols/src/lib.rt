//! The symbols of a function: what each of its values is by its arguments, constants and addresses.
#![tactic(auto)]

mod change;
mod evaluation;
mod finding;
mod jumps;
mod laws;
mod scene;
mod symbol;
mod symbols;
mod tables;
mod transfer;
mod variables;
mod walking;

pub use finding::{symbols_in, symbols_of};
pub use jumps::{JumpFn, Jumps, jumps_in_row, jumps_of};
pub use laws::{body_symbols_cross, jumps_hold, symbols_found, symbols_hold};
pub use symbol::{Symbol, Variable};
pub use symbols::{PointRow, Symbols};
pub use tables::{SymbolTables, tables_of};
pub use variables::Variables;
