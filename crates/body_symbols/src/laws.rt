//! What holds of symbols in the runs of a program, as laws.

ghost use Rattle.body_symbols.specs.Claims.{SymbolsHold};
ghost use Rattle.body_symbols.specs.FoundClaims.{FoundHold};
ghost use Rattle.body_symbols.specs.FoundWhere.{SymbolsFound};
ghost use Rattle.body_symbols.specs.JumpClaims.{JumpsHold};

use crate::jumps::Jumps;
use crate::symbol::Symbol;
use crate::symbols::Symbols;
use crate::tables::SymbolTables;
use crate::variables::Variables;
use std::marker::{Send, Sync};

/// In each run of a program without a type fault, on an input of i64 numbers, and for each solution of the equations of a
/// function: each point at which an activation of it is, is reached, and each operand has there a value of which its symbol
/// is true, by the arguments with which the activation began. The symbols that are found of a function are such a solution, so
/// at each such point what is found of an operand is true of its value.
pub fn symbols_hold()
    ensures solutions { SymbolsHold }
    ensures found { FoundHold }
{}

/// A symbol is found at the points of the function that are reached, for each operand that is no register and for the names
/// of its registers, and nowhere else.
pub fn symbols_found()
    ensures { SymbolsFound }
{}

/// In each run of a program without a type fault, on an input of i64 numbers, and for the symbols that are found of a function:
/// at each entry from a call of it, by name or through a register, each argument is what its jump function says by the
/// arguments with which the activation that calls began.
pub fn jumps_hold()
    ensures { JumpsHold }
{}

fn crosses<T: Send + Sync>(_value: &T) {}

/// Symbols, the tables of all functions, jump functions and the variables that a function sees may be given to another
/// thread, and read by several at once.
pub fn body_symbols_cross(
    symbol: &Symbol,
    symbols: &Symbols,
    tables: &SymbolTables,
    jumps: &Jumps,
    variables: &Variables,
) {
    crosses(symbol);
    crosses(symbols);
    crosses(tables);
    crosses(jumps);
    crosses(variables);
}
