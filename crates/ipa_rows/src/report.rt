//! What the program prints.

use crate::row::{Differences, Run};
use crate::trial::Trial;
use std::{fmt, io};

/// Bytes as a row file writes them.
#[derive(Clone, Copy)]
struct Escaped<'a>(&'a [u8]);

impl fmt::Display for Escaped<'_> {
    fn fmt<W: fmt::Write>(&self, f: &mut fmt::Formatter<W>) -> fmt::Result {
        for byte in self.0 {
            let byte = *byte;
            match byte {
                b'\\' => write!(f, "\\\\")?,
                b' '..=b'~' => write!(f, "{}", char::from(byte))?,
                _ => write!(f, "\\x{byte:02x}")?,
            }
        }
        Ok(())
    }
}

/// How many runs there were, and how many of them did not come to what they must.
#[derive(Clone, Copy)]
pub struct Tally {
    pub runs: u64,
    pub faults: u64,
}

impl Tally {
    pub const NONE: Tally = Tally { runs: 0, faults: 0 };

    pub fn plus(self, other: Tally) -> Tally {
        Tally {
            runs: self.runs.saturating_add(other.runs),
            faults: self.faults.saturating_add(other.faults),
        }
    }
}

/// Prints in what a run differs, where that is not as its row says, and what it came to.
pub fn print_differences(
    rt: &HostRuntime,
    file: &str,
    run: &Run<'_>,
    trial: &Trial,
    found: Differences,
) -> io::Result<()> {
    let line = run.line();
    let wrong = run.row.wrong;
    let status = trial.status;
    let told = Escaped(trial.shelf.told());
    print!(rt;
        "{file}:{line}: differs in {found}, must differ in {wrong}: status {status}, told '{told}'"
    )?;
    for name in &run.command().names {
        if let Some(bytes) = trial.shelf.stored(name.as_slice()) {
            let name = Escaped(name.as_slice());
            let bytes = Escaped(bytes);
            print!(rt; ", stored {name} '{bytes}'")?;
        }
    }
    println!(rt; "")
}
