//! What statements change in the symbols of registers.

use crate::symbol::Symbol;

/// What a statement changes in the symbols of a function's registers.
#[derive(Clone, Copy, Debug, PartialEq, Eq)]
pub enum Change {
    /// No symbol.
    Nothing,
    /// The symbol of the register of this number.
    Sets { place: usize, symbol: Symbol },
    /// The point behind the statement is not reached.
    Ends,
}
