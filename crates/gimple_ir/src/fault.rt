//! The type faults of a program.

use thiserror::Error;

/// Where a type fault stands. Structs, globals and functions count from 0 here and from 1 in messages; statement 0
/// is the function's head, and the statements of the whole function, block ends included, count from 1.
#[derive(Clone, Copy, Debug, PartialEq, Eq)]
pub enum Site {
    Whole,
    Struct(u32),
    Global(u32),
    Statement { function: u32, number: u32 },
}

/// A type fault: its code, 1 to 17, and where it stands.
#[derive(Clone, Copy, Debug, PartialEq, Eq, Error)]
#[error("type fault T{code:02}")]
pub struct TypeFault {
    pub code: u8,
    pub site: Site,
}
