//! What a list of words asks of `gimple-run`.

ghost use Rattle.std.specs.Prelude.{◌≡◌};
ghost use Rattle.words.specs.RunWords.{said};

use crate::options::Name;
use gimple_ir::Mode;

/// How long a program runs, what arithmetic does, where it is, and where its input numbers begin.
#[derive(Clone, Copy, Debug, PartialEq, Eq)]
pub struct RunOptions {
    /// How many transfers the run may make.
    pub turns: u64,
    pub mode: Mode,
    pub source: Name,
    /// How many words come before the input numbers.
    pub first: usize,
}

/// What an option of `gimple-run` says.
#[derive(Clone, Copy, Debug, PartialEq, Eq)]
pub enum RunItem {
    Turns(u64),
    Mode(Mode),
}

/// What the options so far ask for.
#[derive(Clone, Copy, Debug, PartialEq, Eq)]
pub struct Settings {
    pub turns: u64,
    pub mode: Mode,
}

impl Settings {
    /// The same with what one option more says.
    pub fn with(self, item: RunItem) -> Self
        ensures { result ≡ said self item }
    {
        let mut new = self;
        match item {
            RunItem::Turns(turns) => new.turns = turns,
            RunItem::Mode(mode) => new.mode = mode,
        }
        new
    }
}
