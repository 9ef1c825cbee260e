//! The tools, by the names that their messages have.

ghost use Rattle.std.specs.Prelude.{◌≡◌};
ghost use Rattle.ipa_driver.specs.Messages.{tool_name, memory_line};

/// A tool that tells messages: `gimple-ipa` or `gimple-run`.
#[derive(Clone, Copy, Debug, PartialEq, Eq)]
pub enum Tool {
    Optimiser,
    Runner,
}

impl Tool {
    pub fn name(self) -> &'static str
        ensures { result.now ≡ tool_name self }
    {
        match self {
            Tool::Optimiser => "gimple-ipa",
            Tool::Runner => "gimple-run",
        }
    }

    /// The line of want of memory, which takes none.
    pub fn memory_line(self) -> &'static str
        ensures { result.now ≡ memory_line self }
    {
        match self {
            Tool::Optimiser => "gimple-ipa: error: out of memory\n",
            Tool::Runner => "gimple-run: error: out of memory\n",
        }
    }
}
