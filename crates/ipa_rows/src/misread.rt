//! What is wrong with a row file.

use std::alloc::{AllocError, AllocFailed};
use thiserror::Error;

/// Why a line of a row file is not understood.
#[derive(Debug, Drop, Error)]
pub enum Misread {
    #[error("cannot read")]
    Unreadable,
    #[error("no line begins with this word")]
    Word,
    #[error("bad number")]
    Number,
    #[error("bad escape")]
    Escape,
    #[error("a second hole")]
    SecondHole,
    #[error("a name is missing")]
    Name,
    #[error("no text has this name")]
    UnknownText,
    #[error("two texts have this name")]
    TextTwice,
    #[error("a line of a row before the first row")]
    OutsideRow,
    #[error("a line of a text where no text is open")]
    OutsideText,
    #[error("a hole where there is no case")]
    Hole,
    #[error("out of memory")]
    Memory,
}

impl From<AllocError> for Misread {
    fn from(_: AllocError) -> Misread {
        Misread::Memory
    }
}

impl<T: Drop> From<AllocFailed<T>> for Misread {
    fn from(_: AllocFailed<T>) -> Misread {
        Misread::Memory
    }
}
