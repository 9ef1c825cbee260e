//! Faults of texts.

use gimple_ir::OutOfMemory;
use gimple_tokens::Spot;

/// Why a text is no program, or was not read. At most one of the first three fits a text, and only a text that is no program.
#[derive(Clone, Copy, Debug, PartialEq, Eq)]
pub enum TextFault {
    /// The tokens before this place begin a program, and the byte there begins no token.
    BadByte(Spot),
    /// The tokens before this place begin a program, and with the token there they begin none.
    BadToken(Spot),
    /// The tokens of the text begin a program, and are none. The place is the one after the last byte.
    EarlyEnd(Spot),
    /// Want of memory.
    Memory(OutOfMemory),
}
