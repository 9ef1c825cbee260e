//! What is wrong with a row file.

use std::alloc::{AllocError, AllocFailed};
use thiserror::Error;

/// Why a line of a row file is not understood.
#[derive(Debug, Drop, Error)]
pub enum Misread {
    #[error("cannot read")]
    Unreadable,
    #[error("no line begins with this word")]
    Word,
    #[error("bad number")]
    Number,
    #[error("no mode has this name")]
    Mode,
    #[error("a line of text where no text is open")]
    OutsideText,
    #[error("a line of a row before the first row")]
    OutsideRow,
    #[error("out of memory")]
    Memory,
}

impl From<AllocError> for Misread {
    fn from(_: AllocError) -> Misread {
        Misread::Memory
    }
}

impl<T: Drop> From<AllocFailed<T>> for Misread {
    fn from(_: AllocFailed<T>) -> Misread {
        Misread::Memory
    }
}
