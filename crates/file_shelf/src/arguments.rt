//! The words of the command line.

ghost use Rattle.std.specs.Prelude.{◌≡◌, ◌⊎◌};

use shelf::Text;
use std::alloc::{AllocError, AllocFailed};
use std::env;
use std::io::{Error, ErrorKind};

/// Why there are no words.
#[derive(Debug, Drop)]
pub enum NoWords {
    /// The platform gives none, as it may where one is not UTF-8.
    Unreadable,
    Memory,
}

impl From<AllocError> for NoWords {
    fn from(_: AllocError) -> NoWords
        ensures { result ≡ NoWords.Memory }
    {
        NoWords::Memory
    }
}

impl<T: Drop> From<AllocFailed<T>> for NoWords {
    fn from(_: AllocFailed<T>) -> NoWords
        ensures { result ≡ NoWords.Memory }
    {
        NoWords::Memory
    }
}

/// Why the platform gave no words: want of memory has a kind of its own.
fn no_words(error: &Error) -> NoWords {
    match error.kind() {
        ErrorKind::OutOfMemory => NoWords::Memory,
        _ => NoWords::Unreadable,
    }
}

/// The bytes of the program's arguments, without its own name.
pub fn words(rt: &HostRuntime) -> Result<Vec<Text>, NoWords> {
    let arguments = match env::args(rt) {
        Ok(arguments) => arguments,
        Err(error) => return Err(no_words(&error)),
    };
    let mut words = Vec::new(rt.alloc());
    for argument in arguments.into_iter().skip(1) {
        words.push(Text::from_bytes(rt.alloc(), argument.as_bytes())?)?;
    }
    Ok(words)
}

/// Prints a text on standard output. The status is 0, or 4 with a message where it cannot be written.
pub fn show(rt: &HostRuntime, text: &str) -> u8
    ensures { (result ≡ 0) ⊎ (result ≡ 4) }
{
    match rt.print(text) {
        Ok(()) => 0,
        Err(_) => {
            let _ = rt.eprint("-: error: cannot write\n");
            4
        }
    }
}
