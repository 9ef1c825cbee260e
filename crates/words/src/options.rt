//! What a list of words asks for.

use gimple_ir::{Mode, Params, Passes};
use thiserror::Error;

/// A name of a source or an output. Words count from 1, places in a word from 0.
#[derive(Clone, Copy, Debug, PartialEq, Eq)]
pub enum Name {
    /// The name `-` of an output that no word gives.
    Standard,
    /// The bytes of this word from this place on.
    Word { word: usize, from: usize },
}

/// Where the program comes from.
#[derive(Clone, Copy, Debug, PartialEq, Eq)]
pub enum SourceName {
    File(Name),
    /// A program of so many functions and `main`, which is made by rule.
    Generate(u32),
}

/// What is read, what is stored where, which passes run, and what arithmetic does.
#[derive(Clone, Copy, Debug, PartialEq, Eq)]
pub struct Options {
    pub source: SourceName,
    pub output: Name,
    pub cgraph: Option<Name>,
    pub icf: Option<Name>,
    pub cp: Option<Name>,
    pub sra: Option<Name>,
    pub modref: Option<Name>,
    pub summary: Option<Name>,
    pub passes: Passes,
    pub params: Params,
    pub workers: u32,
    pub mode: Mode,
}

/// The first fault of a list of words: the number of the faulty word, from 1, and the fault's code.
#[derive(Clone, Copy, Debug, PartialEq, Eq, Error)]
#[error("usage fault U{code:02} at word {word}")]
pub struct UsageFault {
    pub word: usize,
    pub code: u8,
}
