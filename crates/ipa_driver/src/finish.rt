//! How a run ends.

ghost use Rattle.std.specs.Prelude.{◌≡◌};

use gimple_core::TypeFault;
use gimple_text::TextFault;
use words::{Name, UsageFault};

/// Why a run did not end with status 0. `Text` never holds want of memory.
#[derive(Clone, Copy, Debug, PartialEq, Eq)]
pub enum Fault {
    Usage(UsageFault),
    Read,
    Long,
    Text(TextFault),
    Types(TypeFault),
    Write(Name),
    Memory,
}

/// How a run ended.
#[derive(Clone, Copy, Debug, PartialEq, Eq)]
pub struct Finish {
    pub status: u8,
    pub fault: Option<Fault>,
}

impl Fault {
    ghost use Rattle.ipa_driver.specs.Answers.{fault_status};

    /// The status of a run that ends so.
    pub fn status(&self) -> u8
        ensures { result ≡ fault_status self.now }
    {
        match self {
            Fault::Long | Fault::Text(_) | Fault::Types(_) => 1,
            Fault::Usage(_) => 2,
            Fault::Read => 3,
            Fault::Write(_) => 4,
            Fault::Memory => 5,
        }
    }
}
