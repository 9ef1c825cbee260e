//! What a row says.

use crate::sketch::Sketch;
use ipa_driver::Fail;
use shelf::Text;
use std::fmt;

/// Which of the two top calls runs.
#[derive(Clone, Copy)]
pub enum Tool {
    Optimiser,
    Interpreter,
}

/// A text under the name of a file.
#[derive(Drop)]
pub struct Entry {
    pub file: Vec<u8>,
    pub text: Sketch,
}

/// The words of a run, and the names under which they may let a text be stored.
#[derive(Drop)]
pub struct Command {
    pub words: Vec<Text>,
    pub names: Vec<Vec<u8>>,
}

/// What fills the holes of a row: its words or the holes of its sources, and that of its message. Without the latter the
/// run is to end with status 0.
#[derive(Drop)]
pub struct Case {
    pub line: u64,
    pub command: Option<Command>,
    pub source: Vec<u8>,
    pub told: Option<Vec<u8>>,
}

/// In which of the three parts of an answer a run is not as its row says.
#[derive(Clone, Copy, PartialEq, Eq)]
pub struct Differences {
    pub status: bool,
    pub stored: bool,
    pub told: bool,
}

impl Differences {
    pub const NONE: Differences = Differences {
        status: false,
        stored: false,
        told: false,
    };
}

impl fmt::Display for Differences {
    fn fmt<W: fmt::Write>(&self, f: &mut fmt::Formatter<W>) -> fmt::Result {
        let status = if self.status { " status" } else { "" };
        let stored = if self.stored { " stored" } else { "" };
        let told = if self.told { " told" } else { "" };
        write!(f, "[{status}{stored}{told} ]")
    }
}

/// A run, or one for each case, and what it must come to. `wrong` says in what it must not come to it. Where the words are
/// open, each case has its own.
#[derive(Drop)]
pub struct Row {
    pub line: u64,
    pub tool: Tool,
    pub command: Command,
    pub is_open: bool,
    pub sources: Vec<Entry>,
    pub fails: Vec<Fail>,
    pub room: u64,
    pub status: u8,
    pub stored: Vec<Entry>,
    pub told: Sketch,
    pub wrong: Differences,
    pub cases: Vec<Case>,
}

/// A row, or one of its cases.
#[derive(Clone, Copy)]
pub struct Run<'a> {
    pub row: &'a Row,
    pub case: Option<&'a Case>,
}

impl<'a> Run<'a> {
    /// The line that names it.
    pub fn line(&self) -> u64 {
        match self.case {
            Some(case) => case.line,
            None => self.row.line,
        }
    }

    pub fn command(&self) -> &'a Command {
        match self.case {
            Some(
                Case {
                    command: Some(command),
                    ..
                },
            ) => command,
            _ => &self.row.command,
        }
    }

    /// What fills the holes of its sources.
    pub fn filling(&self) -> Option<&'a [u8]> {
        match self.case {
            Some(case) => Some(case.source.as_slice()),
            None => None,
        }
    }
}
